// Module 2 of the scope: the common logarithm.
#![tactic(auto)]

ghost use Rattle.std.specs.Prelude.{◌≡◌};
ghost use Rattle.elementary_logarithm.specs.Steps.{log10_of};
ghost use Rattle.elementary_logarithm.specs.Promise.{CommonLogarithm};

mod bits;
mod series;

// The common logarithm of x.
pub fn log10(x: f64) -> f64
    ensures bits { result ≡ log10_of x }
    ensures promised { CommonLogarithm x result }
{
    if x.is_nan() {
        return x;
    }
    if x == 0.0 {
        return f64::NEG_INFINITY;
    }
    if x < 0.0 {
        return f64::NAN;
    }
    if x == f64::INFINITY {
        return x;
    }
    let b: u64 = f64::to_bits(x);
    bits::log_of_bits(b)
}
