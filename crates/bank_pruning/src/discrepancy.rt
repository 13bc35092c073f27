// How far apart the trackers are.
ghost use Rattle.std.specs.Prelude.{◌≡◌};
ghost use Rattle.bank_model.specs.Discrepancy.{hertz32, frequency_diffs, weight, joint_weight, weighted_mean, discrepancy};

use bank_model::state::{EkfTrackingBank, FrequencyDiffs};
use ieee754::conversion::f64_to_f32;
use ieee754::sign::absf;
use tracker::state::CarrierPllEkf;
use tracker_covariance::states::Band;
use tracker_readings::{frequency_of, scale_of};

// The frequency in hertz as an f32.
#[tactic(auto, unfolding(bank_model::specs::Discrepancy::hertz32))]
fn hertz_f32(k: f64, t: CarrierPllEkf) -> f32
    ensures { result ≡ hertz32 k t }
{
    f64_to_f32(frequency_of(k, t, Band::First))
}

// From each tracker to the next, subtracted as f32. The first tracker's modulation decides the scale.
#[tactic(auto, unfolding(bank_model::specs::Discrepancy::frequency_diffs))]
pub fn compute_tracker_frequency_diffs(b: EkfTrackingBank) -> FrequencyDiffs
    ensures { result ≡ frequency_diffs b }
{
    let k = scale_of(b.t0.ekf.modulation);
    let f0 = hertz_f32(k, b.t0.ekf);
    let f1 = hertz_f32(k, b.t1.ekf);
    let f2 = hertz_f32(k, b.t2.ekf);
    FrequencyDiffs {
        d01: f1 - f0,
        d12: f2 - f1,
        d20: f0 - f2,
    }
}

// A tracker weighs its metric while it is locked.
#[tactic(auto, unfolding(bank_model::specs::Discrepancy::weight))]
fn weight_of(t: CarrierPllEkf) -> f64
    ensures { result ≡ weight t }
{
    if t.is_locked { t.lock_metric } else { 0.0 }
}

// The weight of the difference of two trackers: the product is taken as f64.
#[tactic(auto, unfolding(bank_model::specs::Discrepancy::joint_weight))]
fn joint_weight(t: CarrierPllEkf, u: CarrierPllEkf) -> f32
    ensures { result ≡ joint_weight t u }
{
    f64_to_f32(weight_of(t) * weight_of(u))
}

// The mean of the differences' sizes; 0 where the weights are too small, or it is no number.
#[tactic(auto, unfolding(bank_model::specs::Discrepancy::weighted_mean))]
fn weighted_mean(a: f32, b: f32, c: f32, d: FrequencyDiffs) -> f32
    ensures { result ≡ weighted_mean a b c d }
{
    // Not a sum over arrays: three terms in the scope's order, and a sum from 0 would turn -0 into 0.
    let sum = a + b + c;
    let mean = (a * absf(d.d01) + b * absf(d.d12) + c * absf(d.d20)) / sum;
    if sum < 1e-5 || sum.is_nan() || mean.is_nan() {
        0.0
    } else {
        mean
    }
}

// The mean of how far the trackers are apart, in hertz.
#[tactic(auto, unfolding(bank_model::specs::Discrepancy::discrepancy))]
pub fn compute_tracker_discrepancy(b: EkfTrackingBank) -> f32
    ensures { result ≡ discrepancy b }
{
    let w01 = joint_weight(b.t0.ekf, b.t1.ekf);
    let w12 = joint_weight(b.t1.ekf, b.t2.ekf);
    let w20 = joint_weight(b.t2.ekf, b.t0.ekf);
    weighted_mean(w01, w12, w20, compute_tracker_frequency_diffs(b))
}
