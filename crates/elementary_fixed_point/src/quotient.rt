// The quotient of two floats in fixed point.
ghost use Rattle.std.specs.Prelude.{◌≡◌};
ghost use Rattle.elementary_fixed_point.specs.Ratio.{ratio};
ghost use Rattle.elementary_fixed_point.specs.Code.Bounds.{Proper, NearRatio};

// a / b in units of 2^-61, for 0 <= a <= b: at most that, and less by at most 513. The rounded quotient can be above a / b by 256 of them.
// What is asked stays a `requires`: a pair that holds it would be built by each caller for the one division here, and be taken apart in it.
pub fn ratio(a: f64, b: f64) -> u64
    requires { Proper a b }
    ensures bits { result ≡ ratio a b }
    ensures near { NearRatio a b result }
{
    let x = crate::conversion::from_f64(a / b);
    x.saturating_sub(256)
}
