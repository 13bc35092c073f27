// Module 3 of the scope, the power ratio: a ring of 1,024 pairs (absolute I, Q squared) in lent memory, the sums over them, and their ratio.
#![tactic(auto)]

ghost use Rattle.std.specs.Prelude.{◌≡◌, length};
ghost use Rattle.tracker_power_ratio.specs.Ring.{later};
ghost use Rattle.tracker_power_ratio.specs.PowerRatio.{not_negative, pushed, ratio};
ghost use Rattle.tracker_power_ratio.specs.Code.Leaving.{moved_by};

// The pairs pushed since the last reset, up to 2,047 and then from 1,024 on again; and the sums over the latest 1,024 of them.
#[repr(C)]
#[derive(Clone, Copy)]
pub struct PowerSums {
    pub pushed: usize,
    pub sum_abs_i: f64,
    pub sum_q_sq: f64,
}

// The count after one more pair. The slot, its remainder by 1,024, goes round.
#[tactic(auto, unfolding(crate::specs::Ring::later))]
fn next_count(n: usize) -> usize
    ensures { result ≡ later n }
{
    if n < 2047 { n + 1 } else { 1024 }
}

#[tactic(auto, unfolding(crate::specs::PowerRatio::not_negative))]
fn not_negative(x: f64) -> f64
    ensures { result ≡ not_negative x }
{
    if x < 0.0 { 0.0 } else { x }
}

// A sum with the new number in it and without the one that leaves the ring, if one does.
#[tactic(auto, unfolding(crate::specs::PowerRatio::moved_sum))]
fn move_sum(sum: f64, new: f64, leaving: Option<f64>) -> f64
    ensures { result ≡ moved_by sum new leaving }
{
    let more = sum + new;
    match leaving {
        Some(old) => not_negative(more - old),
        None => not_negative(more),
    }
}

impl PowerSums {
    // A pair enters the ring, in the place of the oldest once it is full. w is a slice and no array of 2,048: the scope has a channel lend
    // `&mut w[2048*i..2048*(i+1)]` of its memory.
    #[tactic(auto, unfolding(crate::specs::PowerRatio::moved_sum, crate::specs::PowerRatio::pushed))]
    pub fn push(self, w: &mut [f64], abs_i: f64, q_sq: f64) -> PowerSums
        requires { length w.old ≡ 2048 }
        ensures { (result, w.new) ≡ pushed self w.old abs_i q_sq }
    {
        let n = self.pushed;
        let full = 1024 <= n;
        let k = 2 * (n % 1024);
        let leaving_abs_i = full.then_some(w[k]);
        let leaving_q_sq = full.then_some(w[k + 1]);
        w[k] = abs_i;
        w[k + 1] = q_sq;
        PowerSums {
            pushed: next_count(n),
            sum_abs_i: move_sum(self.sum_abs_i, abs_i, leaving_abs_i),
            sum_q_sq: move_sum(self.sum_q_sq, q_sq, leaving_q_sq),
        }
    }

    // The squared I sum over the Q sum.
    #[tactic(auto, unfolding(crate::specs::PowerRatio::ratio))]
    pub fn ratio(self) -> f64
        ensures { result ≡ ratio self.sum_abs_i self.sum_q_sq }
    {
        if self.sum_q_sq > 1e-12 {
            (self.sum_abs_i * self.sum_abs_i) / self.sum_q_sq
        } else {
            1.7976931348623157e308
        }
    }
}
