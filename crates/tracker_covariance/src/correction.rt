// Correction of the covariance by a measured phase.
ghost use Rattle.std.specs.Prelude.{◌≡◌};
ghost use Rattle.ieee754.specs.Binary64.{ten_to_minus15};
ghost use Rattle.ieee754.specs.Order.{maximum};
ghost use Rattle.tracker_covariance.specs.States.{phase_of};
ghost use Rattle.tracker_covariance.specs.Correction.{innovation_variance, takes_gain, gain_of, floored};

use crate::states::Band;
use ieee754::sign::abs;

// s, the variance of the innovation: the phase's own and that of the measurement.
#[tactic(auto, unfolding(crate::specs::Correction::innovation_variance))]
pub fn innovation_variance(p: [f64; 36], band: Band, noise: f64) -> f64
    ensures { result ≡ innovation_variance p (phase_of band) noise }
{
    let i = band.phase_index();
    p[6 * i + i] + noise
}

// Whether a correction takes a gain. A NaN takes none.
#[tactic(auto, unfolding(crate::specs::Correction::takes_gain))]
pub fn takes_gain(s: f64) -> bool
    ensures { result ≡ takes_gain s }
{
    abs(s) >= 1e-12
}

// K: the phase's column of P over s.
#[tactic(auto, unfolding(crate::specs::Correction::gain_of))]
pub fn gain(p: [f64; 36], band: Band, s: f64) -> [f64; 6]
    ensures { result ≡ gain_of p (phase_of band) s }
{
    let i = band.phase_index();
    std::array::from_fn(|r| p[6 * r + i] / s)
}

// Rust's `v.max(1e-15)`. The comparison is false for a NaN, which so becomes 1e-15. Not by ieee754's `max`, which asks for the NaN first: with it the six
// variances took 5.2 ns for 3.9.
pub fn floor_variance(v: f64) -> f64
    ensures { result ≡ maximum v ten_to_minus15 }
{
    if v >= 1e-15 { v } else { 1e-15 }
}

// P with each variance at least 1e-15. By place: with `from_fn` over the 36 it took 86 ns for 3.9, as its loop is not laid out; and of a loop over `iter_mut`
// with a `step_by` nothing is known of what it wrote.
pub fn floor_diagonal(p: [f64; 36]) -> [f64; 36]
    ensures { result ≡ floored p }
{
    let mut out = p;
    for i in 0..6 {
        out[7 * i] = floor_variance(p[7 * i]);
    }
    out
}
