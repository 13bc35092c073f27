// Which tracker is used.
ghost use Rattle.std.specs.Prelude.{◌≡◌, cond, ltb, Some, None};
ghost use Rattle.bank_model.specs.Choice.{chosen};
ghost use Rattle.bank_selection.specs.Code.BestSoFar.{better_of};

use bank_model::state::EkfTrackingBank;
use tracker::state::CarrierPllEkf;

// A tracker's number and its metric.
#[derive(Clone, Copy)]
struct Candidate {
    number: u64,
    metric: f64,
}

// The better of the best so far and a tracker that is locked; the first has to be above -1.
#[tactic(auto, unfolding(crate::specs::Code::BestSoFar::better_of, crate::specs::Code::BestSoFar::bar))]
fn better_of(best: Option<Candidate>, number: u64, t: CarrierPllEkf) -> Option<Candidate>
    ensures { result ≡ better_of best number t }
{
    let bar = best.map_or(-1.0, |c| c.metric);
    if t.is_locked && bar < t.lock_metric {
        Some(Candidate {
            number,
            metric: t.lock_metric,
        })
    } else {
        best
    }
}

// The number of the locked tracker with the highest metric above -1, of the lowest of equals.
pub fn choose(b: EkfTrackingBank) -> Option<u64>
    ensures { result ≡ cond (ltb (chosen b) 3) (Some (chosen b)) None }
{
    // Not a fold: the bank has three fields (bank_model says why), and an array of them is longer than the three calls.
    let best = better_of(None, 0, b.t0.ekf);
    let best = better_of(best, 1, b.t1.ekf);
    let best = better_of(best, 2, b.t2.ekf);
    best.map(|c| c.number)
}
