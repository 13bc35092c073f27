// The lock metric, the convergence guard and the rules of unlocking.
ghost use Rattle.std.specs.Prelude.{◌≡◌};
ghost use Rattle.tracker.specs.Lock.{unlocks, settled};

use crate::state::CarrierPllEkf;

// Whether a metric and a power ratio unlock, once the guard is down.
#[tactic(auto, unfolding(crate::specs::Lock::unlocks))]
fn unlocks_at(dual_lock: bool, lock_metric: f64, pr: f64) -> bool
    ensures { result ≡ unlocks dual_lock lock_metric pr }
{
    if dual_lock {
        lock_metric < 0.02 || (lock_metric < 0.1 && pr <= 819.2)
    } else {
        lock_metric < 0.1
    }
}

// The metric, the guard and the lock mark after a correction that was not lost.
pub fn settle(t: CarrierPllEkf, norm_re: f64, pr: f64) -> CarrierPllEkf
    ensures { result ≡ settled t norm_re pr }
{
    let lock_metric = 0.999 * t.lock_metric + 0.001 * norm_re;
    let guard = t.convergence_guard;
    if 0 < guard {
        return CarrierPllEkf {
            lock_metric,
            convergence_guard: guard - 1,
            ..t
        };
    }
    CarrierPllEkf {
        lock_metric,
        is_locked: t.is_locked && !unlocks_at(t.tuning.dual_lock, lock_metric, pr),
        ..t
    }
}
