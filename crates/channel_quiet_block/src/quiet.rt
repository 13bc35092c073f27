// Blocks that leave the lists and the window memory as they were: refused ones, those of an idle channel, and the flags other than 1.
ghost use Rattle.std.specs.Prelude.{◌≡◌};
ghost use Rattle.channel_model.specs.Answers.{refused_answer};
ghost use Rattle.channel_model.specs.Blocks.{not_locked, bank_without_signal, without_signal};

use bank_model::state::EkfTrackingBank;
use channel_answer::values::{remember, unlock};
use channel_model::{Answer, Channel, Reading};
use estimate_snr::estimate_snr;
use tracker::state::Tracked;

// A refused block answers its number and nothing of the channel.
#[tactic(auto, unfolding(channel_model::specs::Answers::refused_answer))]
pub fn refused_answer(number: u64) -> Answer
    ensures { result ≡ refused_answer number }
{
    Answer {
        refusal: number,
        ..Answer::default()
    }
}

// Not locked, with the tracker h and an SNR that the next start does not look at. The bank stays as it is.
#[tactic(auto, unfolding(channel_model::specs::Blocks::not_locked, channel_model::specs::Values::moved, channel_model::specs::Values::with_snr))]
pub fn not_locked(c: Channel, h: Tracked, snr: f64) -> Channel
    ensures { result ≡ not_locked c h snr }
{
    Channel {
        pll: h,
        is_locked: false,
        reading: Reading { snr, ..c.reading },
        ..c
    }
}

// A bank without a signal: no tracker locked or in use, and no fade. The count and the mark of having ended stay.
#[tactic(auto, unfolding(channel_model::specs::Blocks::bank_without_signal, channel_model::specs::Values::on_each))]
fn bank_without_signal(b: EkfTrackingBank) -> EkfTrackingBank
    ensures { result ≡ bank_without_signal b }
{
    EkfTrackingBank {
        active_idx: EkfTrackingBank::NONE,
        in_fade: false,
        ..b.map(unlock)
    }
}

// Flag 0: no signal. The SNR is that of the list, which the next start looks at.
#[tactic(auto, unfolding(channel_model::specs::Blocks::without_signal, channel_model::specs::Values::moved))]
pub fn without_signal(c: Channel, samples: &[f32]) -> Channel
    ensures { result ≡ without_signal c samples.now }
{
    let silent = Channel {
        pll: unlock(c.pll),
        bank: bank_without_signal(c.bank),
        is_locked: false,
        ..c
    };
    remember(silent, estimate_snr(samples))
}
