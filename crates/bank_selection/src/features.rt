// The figures that describe a bank.
ghost use Rattle.std.specs.Prelude.{◌≡◌};
ghost use Rattle.bank_model.specs.Features.{tracker_features, features};

use bank_model::state::EkfTrackingBank;
use ieee754::conversion::f64_to_f32;
use tracker::state::Tracked;

// Metric, lock mark, variance of the phase and of the frequency: entries (0, 0) and (1, 1).
#[tactic(auto, unfolding(bank_model::specs::Features::tracker_features))]
fn tracker_features(h: Tracked) -> [f32; 4]
    ensures { result ≡ tracker_features h }
{
    [
        f64_to_f32(h.ekf.lock_metric),
        if h.ekf.is_locked { 1.0 } else { 0.0 },
        f64_to_f32(h.p[0]),
        f64_to_f32(h.p[7]),
    ]
}

// Those of the three trackers, one after the other.
#[tactic(auto, unfolding(bank_model::specs::Features::features, bank_model::specs::Features::tracker_features))]
pub fn collect_tracker_features(b: EkfTrackingBank) -> [f32; 12]
    ensures { result ≡ features b }
{
    // Not a loop: the bank has three fields; bank_model says why.
    let mut all = [0.0; 12];
    all[..4].copy_from_slice(&tracker_features(b.t0));
    all[4..8].copy_from_slice(&tracker_features(b.t1));
    all[8..].copy_from_slice(&tracker_features(b.t2));
    all
}
