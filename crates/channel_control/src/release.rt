// Release: the channel is set to rest. The trackers are unlocked and keep all else, which figures shows.
ghost use Rattle.std.specs.Prelude.{◌≡◌};
ghost use Rattle.channel_model.specs.Values.{unlocked};
ghost use Rattle.channel_model.specs.Opening.{resting_bank};
ghost use Rattle.channel_model.specs.Releasing.{kept_carriers, released};

use bank_model::state::EkfTrackingBank;
use channel_answer::values::unlock;
use channel_model::{Carriers, Channel, Reading, Status};

// The first target goes. The others stay, and are not read before the next assign sets them.
#[tactic(auto, unfolding(channel_model::specs::Releasing::kept_carriers))]
fn kept_carriers(a: Carriers) -> Carriers
    ensures { result ≡ kept_carriers a }
{
    Carriers { target: 0.0, ..a }
}

// No tracker locked or in use, no fade and none ended. Metrics, states and covariances stay.
#[tactic(auto, unfolding(channel_model::specs::Opening::resting_bank))]
fn rest(b: EkfTrackingBank) -> EkfTrackingBank
    ensures { result ≡ resting_bank b.max_fade_steps (unlocked b.t0) (unlocked b.t1) (unlocked b.t2) }
{
    EkfTrackingBank {
        active_idx: EkfTrackingBank::NONE,
        in_fade: false,
        fade_counter: 0,
        terminated_in_fade: false,
        ..b.map(unlock)
    }
}

// Never refused, and an idle channel may be released again. The electron content stays.
#[tactic(auto, unfolding(channel_model::specs::Releasing::released, channel_model::specs::Opening::idle_channel))]
pub fn release(c: Channel) -> Channel
    ensures { result ≡ released c }
{
    Channel {
        setup: c.setup,
        status: Status::Idle,
        carriers: kept_carriers(c.carriers),
        pll: unlock(c.pll),
        bank: rest(c.bank),
        ever_locked: false,
        last_snr: 0.0,
        is_locked: false,
        reading: Reading {
            electrons: c.reading.electrons,
            ..Reading::default()
        },
    }
}
