// A block with a signal on an assigned channel.
ghost use Rattle.std.specs.Prelude.{◌≡◌, cond, length};
ghost use Rattle.channel_samples.specs.Normalisation.{normalised};
ghost use Rattle.channel_model.specs.Blocks as model;
ghost use Rattle.channel_model.specs.Code.SignalStep.{tracked_over};

use crate::track::{follow, show};
use channel_acquisition::started;
use channel_answer::answers::answer_of;
use channel_answer::values::remember;
use channel_model::{Blocked, Channel};
use channel_samples::normalisation::normalise;
use estimate_snr::estimate_snr;

// The second list is normalised with two frequencies.
fn normalise_second(two: bool, second: &mut [f32])
    ensures { second.new ≡ cond two (normalised second.old) second.old }
{
    if two {
        normalise(second);
    }
}

// The started trackers over the normalised lists, and what they show then.
#[tactic(auto, unfolding(channel_model::specs::Blocks::outcome, channel_model::specs::Code::SignalStep::tracked_over, channel_model::specs::Code::SignalStep::shown_with))]
fn track_over(snr: f64, c: Channel, first: &[f32], second: &[f32], windows: &mut [f64]) -> Blocked
    requires { length windows.old ≡ 8192 }
    ensures { model.outcome result first.now second.now windows.new ≡ tracked_over snr c first.now second.now windows.old }
{
    let followed = follow(c, first, second, windows);
    let channel = remember(show(followed), snr);
    Blocked {
        answer: answer_of(channel),
        channel,
    }
}

// The SNR and the start look at the first list as it came; then the lists are normalised, and the trackers follow them.
#[tactic(auto, unfolding(channel_model::specs::Blocks::outcome, channel_model::specs::Blocks::with_signal, channel_model::specs::Code::SignalStep::tracked_over, channel_model::specs::Code::SignalStep::shown_with))]
pub fn with_signal(
    c: Channel,
    first: &mut [f32],
    second: &mut [f32],
    windows: &mut [f64],
) -> Blocked
    requires { length windows.old ≡ 8192 }
    ensures { model.outcome result first.new second.new windows.new ≡ model.with_signal c (record { flag = 1; first = first.old; second = second.old }) windows.old }
{
    let snr = estimate_snr(first);
    let channel = started(c, first);
    normalise(first);
    normalise_second(c.setup.two, second);
    track_over(snr, channel, first, second, windows)
}
