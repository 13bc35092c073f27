// A block's answer: the channel's state after the call.
ghost use Rattle.std.specs.Prelude.{◌≡◌};
ghost use Rattle.channel_model.specs.Answers.{bank_metric, metric_of, answer_of};

use bank_model::state::EkfTrackingBank;
use channel_model::{Answer, Channel};

// The metric of a bank's tracker in use; 0 where none is.
#[tactic(auto, unfolding(channel_model::specs::Answers::bank_metric))]
fn bank_metric(b: EkfTrackingBank) -> f64
    ensures { result ≡ bank_metric b }
{
    b.used().map_or(0.0, |h| h.ekf.lock_metric)
}

// 0 where the channel is not locked, else the metric of the tracker in use.
#[tactic(auto, unfolding(channel_model::specs::Answers::metric_of))]
pub fn metric_of(c: Channel) -> f64
    ensures { result ≡ metric_of c }
{
    match (c.is_locked, c.setup.bank) {
        (true, true) => bank_metric(c.bank),
        (true, false) => c.pll.ekf.lock_metric,
        (false, _) => 0.0,
    }
}

// Without a bank no tracker is in use, and in fade, fade count and ended are 0.
// Not an enum of answers: C reads them as the scope numbers them, 0 for no refusal and 3 for no tracker.
#[tactic(auto, unfolding(channel_model::specs::Answers::answer_of))]
pub fn answer_of(c: Channel) -> Answer
    ensures { result ≡ answer_of c }
{
    let single = Answer {
        refusal: 0,
        locked: c.is_locked,
        tracker: EkfTrackingBank::NONE,
        in_fade: false,
        fade_count: 0,
        ended: false,
        phase: c.reading.phase,
        frequency: c.reading.frequency,
        snr: c.reading.snr,
        electrons: c.reading.electrons,
        metric: metric_of(c),
    };
    if !c.setup.bank {
        return single;
    }
    Answer {
        tracker: c.bank.active_idx,
        in_fade: c.bank.in_fade,
        fade_count: c.bank.fade_counter,
        ended: c.bank.terminated_in_fade,
        ..single
    }
}
