// Which trackers are dropped where they are too far apart.
ghost use Rattle.std.specs.Prelude.{◌≡◌, cond};
ghost use Rattle.bank_model.specs.Pruning.{far_apart, dropped, drops1, drops2, pruned};

use crate::discrepancy::compute_tracker_discrepancy;
use bank_model::state::EkfTrackingBank;
use ieee754::sign::abs;
use tracker::state::{CarrierPllEkf, Tracked};
use tracker_covariance::states::Band;
use tracker_readings::frequency_of;

// More than 150 Hz apart. This is compared as f64, unlike the discrepancy.
#[tactic(auto, unfolding(bank_model::specs::Pruning::far_apart))]
fn far_apart(k: f64, t: CarrierPllEkf, u: CarrierPllEkf) -> bool
    ensures { result ≡ far_apart k t u }
{
    abs(frequency_of(k, t, Band::First) - frequency_of(k, u, Band::First)) > 150.0
}

// The tracker, unlocked and its metric 0 where it is dropped.
fn drop_if(is_dropped: bool, h: Tracked) -> Tracked
    ensures { result ≡ cond is_dropped (dropped h) h }
{
    if !is_dropped {
        return h;
    }
    Tracked {
        ekf: CarrierPllEkf {
            is_locked: false,
            lock_metric: 0.0,
            ..h.ekf
        },
        ..h
    }
}

// Whether trackers 1 and 2 are dropped: against 0 where that is locked, else of the two the one with the lower metric, and 2 at equal metrics.
#[tactic(auto, unfolding(bank_model::specs::Pruning::drops1, bank_model::specs::Pruning::drops2, bank_model::specs::Pruning::disagree))]
fn are_dropped(k: f64, b: EkfTrackingBank) -> (bool, bool)
    ensures first { result.0 ≡ drops1 k b.t0.ekf b.t1.ekf b.t2.ekf }
    ensures second { result.1 ≡ drops2 k b.t0.ekf b.t1.ekf b.t2.ekf }
{
    let t = b.t0.ekf;
    let u = b.t1.ekf;
    let v = b.t2.ekf;
    if t.is_locked {
        return (
            u.is_locked && far_apart(k, u, t),
            v.is_locked && far_apart(k, v, t),
        );
    }
    let disagree = u.is_locked && v.is_locked && far_apart(k, u, v);
    let is_lower = u.lock_metric < v.lock_metric;
    (disagree && is_lower, disagree && !is_lower)
}

// The bank, pruned at the scale k where its discrepancy is beyond 150 Hz.
#[tactic(auto, unfolding(bank_model::specs::Pruning::pruned))]
pub fn prune(b: EkfTrackingBank, k: f64) -> EkfTrackingBank
    ensures { result ≡ pruned k b }
{
    if compute_tracker_discrepancy(b) > 150.0 {
        let (first, second) = are_dropped(k, b);
        EkfTrackingBank {
            t1: drop_if(first, b.t1),
            t2: drop_if(second, b.t2),
            terminated_in_fade: true,
            ..b
        }
    } else {
        b
    }
}
