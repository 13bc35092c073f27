// The angle of the point (x, y), neither of them a NaN: the special cases, then the quadrants.
ghost use Rattle.std.specs.Prelude.{◌≡◌, cond, not, ◌&&◌, ◌-◌, ◌≤◌, T};
ghost use Rattle.std.specs.Float.Ieee.{is_nan};
ghost use Rattle.std.specs.Float.Ieee.Positive.{positive};
ghost use Rattle.ieee754.specs.Sign.{absolute, sign_bit, signed};
ghost use Rattle.ieee754.specs.Binary64.{two_to_minus62};
ghost use Rattle.elementary_arctangent.specs.Steps.{right_angle, straight_angle, regular_angle};
ghost use Rattle.elementary_arctangent.specs.Code.Tests.{upper_angle, is_small};

use crate::{quotient, sign};
use elementary_fixed_point::conversion;
use std::f64::consts;

const STRAIGHT_ANGLE: u64 = 14488038916154245684;

// An `if` by name: three calls of `angle` hand its value on, and in place each would be a branch of its own there.
fn either(t: bool, p: f64, q: f64) -> f64
    ensures { result ≡ cond t p q }
{
    if t { p } else { q }
}

// The angle on the left is what is missing to a straight one.
fn turned(d: u64, left: bool) -> u64
    requires { d ≤ right_angle }
    ensures { result ≡ cond left (straight_angle - d) d }
{
    if left { STRAIGHT_ANGLE - d } else { d }
}

// The unit of an angle, 2^-62, with y's sign.
fn signed_unit(y: f64) -> f64
    requires { T (not (is_nan y)) }
    ensures { result ≡ signed (sign_bit y) two_to_minus62 }
{
    f64::from_bits(0x3c10_0000_0000_0000 + sign::bit(y))
}

// Whether the angle is the quotient itself: |y| is below 2^-16 of x, so x is not negative.
fn is_quotient(y: f64, x: f64) -> bool
    requires { T (positive (absolute y)) × T (positive (absolute x)) }
    ensures { result ≡ (is_small (absolute y) (absolute x) && not (sign_bit x)) }
{
    sign::magnitude(y) < x * 0.0000152587890625
}

// Both finite and not 0. Their signs are as good as random, so they are read off the bits, and nothing jumps by them.
fn regular_angle(y: f64, x: f64) -> f64
    requires { T (positive (absolute y)) × T (positive (absolute x)) }
    ensures { result ≡ signed (sign_bit y) (regular_angle (sign_bit x) (absolute y) (absolute x)) }
{
    if is_quotient(y, x) {
        return y / x;
    }
    let d = quotient::first_quadrant(sign::magnitude(y), sign::magnitude(x));
    let k = turned(d, sign::negative(x));
    conversion::to_f64(k, signed_unit(y))
}

pub fn angle(y: f64, x: f64) -> f64
    requires { T (not (is_nan y)) × T (not (is_nan x)) }
    ensures { result ≡ signed (sign_bit y) (upper_angle (sign_bit x) (absolute y) (absolute x)) }
{
    let a = sign::magnitude(y);
    let b = sign::magnitude(x);
    let below = sign::negative(y);
    let left = sign::negative(x);
    if a == 0.0 {
        return sign::with_sign(below, either(left, consts::PI, 0.0));
    }
    if b == f64::INFINITY {
        if a == f64::INFINITY {
            return sign::with_sign(below, either(left, 2.356194490192345, consts::FRAC_PI_4));
        }
        return sign::with_sign(below, either(left, consts::PI, 0.0));
    }
    if a == f64::INFINITY || b == 0.0 {
        return sign::with_sign(below, consts::FRAC_PI_2);
    }
    regular_angle(y, x)
}
