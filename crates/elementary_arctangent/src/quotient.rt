// The angle whose tangent is a quotient of two floats, in units of 2^-62.
ghost use Rattle.std.specs.Prelude.{◌≡◌, cond, ◌*◌, ◌-◌, ◌^◌, ◌≤◌, T};
ghost use Rattle.std.specs.Float.Ieee.{le};
ghost use Rattle.std.specs.Float.Ieee.Positive.{positive};
ghost use Rattle.elementary_fixed_point.specs.Ratio.{ratio};
ghost use Rattle.elementary_fixed_point.specs.Code.Bounds.{Proper};
ghost use Rattle.elementary_arctangent.specs.Steps.{second, angle_of_half, right_angle, first_octant, first_quadrant};
ghost use Rattle.elementary_arctangent.specs.Code.Tests.{upto_half};

use crate::series;
use elementary_fixed_point::{conversion, quotient};

// The angle of 1/2, and a right angle.
const ANGLE_OF_HALF: u64 = 2138197195906305896;

const RIGHT_ANGLE: u64 = 7244019458077122842;

// (2 q - 1) / (2 + q), in units of 2^-61 as q is, less what its roundings can have added.
fn second_quotient(q: u64) -> u64
    requires { q ≤ 2 ^ 61 }
    ensures { result ≡ second q }
{
    let excess = (2 * q).saturating_sub(0x2000_0000_0000_0000);
    let u = conversion::to_f64(excess, 4.336808689942018e-19);
    let v = conversion::to_f64(0x4000_0000_0000_0000 + q, 4.336808689942018e-19);
    quotient::ratio(u, v).saturating_sub(1024)
}

// What the series is taken of, at most 1/2: the quotient, or above 1/2 the second one.
fn argument(a: f64, b: f64) -> u64
    requires { Proper a b }
    ensures { (result ≡ cond (upto_half a b) (ratio a b) (second (ratio a b))) × (result ≤ 2 ^ 60) }
{
    let q = quotient::ratio(a, b);
    if a * 2.0 <= b {
        return q;
    }
    second_quotient(q)
}

// The angle that the series' value is added to.
fn offset(a: f64, b: f64) -> u64
    ensures { result ≡ cond (upto_half a b) 0 angle_of_half }
{
    if a * 2.0 <= b { 0 } else { ANGLE_OF_HALF }
}

// The angle of a / b, for 0 <= a <= b.
fn first_octant(a: f64, b: f64) -> u64
    requires { Proper a b }
    ensures { (result ≡ first_octant a b) × (result ≤ right_angle) }
{
    let x = argument(a, b);
    offset(a, b) + series::arctangent(x * 8)
}

// The smaller and the larger of two numbers above 0, in the form that is one instruction of the machine. A struct of the two would be built for these and be gone after them.
// Not the library's `min` and `max`, which test for a NaN besides: the two and a division took 10.0 ns for 8.3.
fn smaller(a: f64, b: f64) -> f64
    requires { T (positive a) × T (positive b) }
    ensures { result ≡ cond (le a b) a b }
{
    if b < a { b } else { a }
}

fn larger(a: f64, b: f64) -> f64
    requires { T (positive a) × T (positive b) }
    ensures { result ≡ cond (le a b) b a }
{
    if b < a { a } else { b }
}

// The angle of a / b, both above 0.
pub fn first_quadrant(a: f64, b: f64) -> u64
    requires { T (positive a) × T (positive b) }
    ensures { (result ≡ first_quadrant a b) × (result ≤ right_angle) }
{
    let low = smaller(a, b);
    let high = larger(a, b);
    let d = first_octant(low, high);
    if a <= b { d } else { RIGHT_ANGLE - d }
}
