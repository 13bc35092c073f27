// Module 9 of the scope, open: settings are refused by the first of their four faults, or make an idle channel.
// Functions, and no methods: settings and a channel are types of a crate below, where alone they can have methods.
#![tactic(auto)]

ghost use Rattle.std.specs.Prelude.{◌≡◌};
ghost use Rattle.channel_model.specs.Returns.{returned};
ghost use Rattle.channel_model.specs.Code.Checks.{number_said};
ghost use Rattle.channel_model.specs.Opening.{bad_rate, bad_ratio, open_refusal, fade_steps, new_tracker, resting_bank, new_channel, refused_settings, opened};

use bank_model::state::EkfTrackingBank;
use channel_model::refusal::Refusal;
use channel_model::{Carriers, Channel, Reading, Refused, Settings, Setup, Status};
use ieee754::conversion::u64_to_f64;
use ieee754::integral::to_usize;
use tracker::state::{CarrierPllEkf, Tracked};
use tracker_measurement::modulation::Modulation;

// 1. The products are formed for a factor up to 4,096 only, so they fit whatever the caller brings.
#[tactic(auto, unfolding(channel_model::specs::Opening::bad_rate))]
fn bad_rate(rate: u64, factor: u64) -> bool
    ensures { result ≡ bad_rate rate factor }
{
    if factor < 1 || 4096 < factor {
        return true;
    }
    !((1000 * factor <= rate) & (rate <= 100000 * factor))
}

// 4. Written so that a NaN is refused.
#[tactic(auto, unfolding(channel_model::specs::Opening::bad_ratio))]
fn bad_ratio(ratio: f64) -> bool
    ensures { result ≡ bad_ratio ratio }
{
    !((0.25 <= ratio) & (ratio <= 4.0))
}

// The first of the four faults, where there is one.
#[tactic(auto, unfolding(channel_model::specs::Opening::open_refusal, channel_model::specs::Refusals::first_cause))]
fn check(s: Settings) -> Result<(), Refusal>
    ensures { number_said result ≡ open_refusal s }
{
    if bad_rate(s.rate, s.factor) {
        return Err(Refusal::Rate);
    }
    if 2 < s.modulation {
        return Err(Refusal::Modulation);
    }
    if 86400 < s.fade {
        return Err(Refusal::Fade);
    }
    if bad_ratio(s.ratio) {
        return Err(Refusal::Ratio);
    }
    Ok(())
}

// How many blocks a fade lasts.
#[tactic(auto, unfolding(channel_model::specs::Opening::fade_steps, channel_model::specs::Opening::whole, channel_model::specs::Opening::new_setup))]
fn fade_steps(s: Settings) -> u64
    ensures { result ≡ fade_steps s }
{
    let seconds = u64_to_f64(s.fade);
    let rate = Setup::from(s).decimated_rate();
    to_usize(seconds * rate / 40000.0) as u64
}

// A tracker as opening makes each of the four.
#[tactic(auto, unfolding(channel_model::specs::Opening::new_tracker, channel_model::specs::Opening::new_setup, channel_model::specs::Opening::modulation_of, tracker::specs::State::initial_tracker))]
fn new_tracker(s: Settings) -> Tracked
    ensures { result ≡ new_tracker s }
{
    let rate = Setup::from(s).decimated_rate();
    let mut t = CarrierPllEkf::new(rate, Modulation::from(s.modulation));
    t.ekf.tuning.adaptive_ekf = s.adaptive;
    t.ekf.tuning.dual_lock = s.dual_lock;
    t.ekf.tuning.frequency_ratio = s.ratio;
    t
}

// A bank at rest with three trackers that are equal.
#[tactic(auto, unfolding(channel_model::specs::Opening::resting_bank))]
fn new_bank(s: Settings, h: Tracked) -> EkfTrackingBank
    ensures { result ≡ resting_bank (fade_steps s) h h h }
{
    EkfTrackingBank {
        t0: h,
        t1: h,
        t2: h,
        active_idx: EkfTrackingBank::NONE,
        in_fade: false,
        fade_counter: 0,
        max_fade_steps: fade_steps(s),
        terminated_in_fade: false,
    }
}

#[tactic(auto, unfolding(channel_model::specs::Opening::new_channel, channel_model::specs::Opening::idle_channel, channel_model::specs::Opening::no_carriers))]
fn new_channel(s: Settings) -> Channel
    ensures { result ≡ new_channel s }
{
    let pll = new_tracker(s);
    Channel {
        setup: Setup::from(s),
        status: Status::Idle,
        carriers: Carriers::default(),
        pll,
        bank: new_bank(s, pll),
        ever_locked: false,
        last_snr: 0.0,
        is_locked: false,
        reading: Reading::default(),
    }
}

// What a refused open makes its channel of.
#[tactic(auto, unfolding(channel_model::specs::Opening::refused_settings))]
fn refused_settings() -> Settings
    ensures { result ≡ refused_settings }
{
    Settings {
        rate: 1000,
        factor: 1,
        modulation: 0,
        adaptive: false,
        dual_lock: false,
        bank: false,
        two: false,
        fade: 0,
        ratio: 1.0,
    }
}

// Settings of any kind are answered: by the channel that they ask for, or by the cause and the refused settings' channel.
#[tactic(auto, unfolding(channel_model::specs::Opening::opened))]
pub fn open(s: Settings) -> Result<Channel, Refused>
    ensures { returned result ≡ opened s }
{
    match check(s) {
        Ok(()) => Ok(new_channel(s)),
        Err(refusal) => Err(Refused {
            refusal,
            channel: new_channel(refused_settings()),
        }),
    }
}
