// Module 2 of the scope: the angle of the point (x, y), IEEE 754's atan2.
#![tactic(auto)]

ghost use Rattle.std.specs.Prelude.{◌≡◌};
ghost use Rattle.elementary_arctangent.specs.Steps.{atan2_of};
ghost use Rattle.elementary_arctangent.specs.Promise.{Arctangent};

mod plane;
mod quotient;
mod series;
mod sign;

// A NaN gives a NaN.
pub fn atan2(y: f64, x: f64) -> f64
    ensures bits { result ≡ atan2_of y x }
    ensures promised { Arctangent y x result }
{
    if y.is_nan() {
        return y;
    }
    if x.is_nan() {
        return x;
    }
    plane::angle(y, x)
}
