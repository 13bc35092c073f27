// Module 2 of the scope: sine and cosine of the exact remainder of an angle by 2π to 160 binary places. Within one turn that is the angle.
#![tactic(auto)]

ghost use Rattle.std.specs.Prelude.{◌≡◌, ◌*◌, ◌^◌, ◌≤◌, cond, false};
ghost use Rattle.std.specs.Float.Ieee.{lt};
ghost use Rattle.std.specs.Float.Ieee.Scale.{finite};
ghost use Rattle.elementary_reduction.specs.Reduction as Reduction;
ghost use Rattle.ieee754.specs.Binary64.{two_to_minus16};
ghost use Rattle.ieee754.specs.Sign.{absolute, signed};
ghost use Rattle.elementary_sincos.specs.Steps.{sine_series, sine, cosine};
ghost use Rattle.elementary_sincos.specs.Promise.{SinePromise, CosinePromise};

use elementary_fixed_point::{conversion, product};
use ieee754::sign;
use std::f64::consts;

mod series;

// The size of the remainder by one turn, in units of 2^-61; none of an angle that is not finite. Compiled into each of its callers, so that the short way stays
// in line.
#[inline(always)]
fn remainder(theta: f64) -> Option<u64>
    ensures { result ≡ cond (finite theta) (Some (Reduction.reduced theta)) None }
{
    let a = sign::abs(theta);
    if a < consts::TAU {
        return Some(conversion::from_f64(a));
    }
    if a < f64::INFINITY {
        return Some(elementary_reduction::reduced(a));
    }
    None
}

// What an angle has that has no remainder: a NaN is handed on with its bits, as C's own functions do, and an infinity has the NaN.
fn no_number(theta: f64) -> f64
    ensures { finite theta ≡ false → (result ≡ sine theta) × (result ≡ cosine theta) }
{
    if theta.is_nan() { theta } else { f64::NAN }
}

// Whether the angle is its own sine.
#[inline(always)]
fn is_small(theta: f64) -> bool
    ensures { result ≡ lt (absolute theta) two_to_minus16 }
{
    sign::abs(theta) < 0.0000152587890625
}

// The sine, or its opposite, of x units of 2^-61.
fn sine_at(x: u64, negative: bool) -> f64
    requires { x * 7 ≤ 44 * 2 ^ 61 }
    ensures { result ≡ signed negative (sine_series x) }
{
    let x2 = product::high_product(x, x);
    let x4 = product::high_product(x2, x2);
    series::sine(x, x2, x4, negative)
}

// The sine of theta. Below 2^-16 in size, and so at a zero, it is theta itself, with its sign; this is asked first, so that no remainder is taken there.
pub fn sin(theta: f64) -> f64
    ensures bits { result ≡ sine theta }
    ensures near { SinePromise theta result }
{
    if is_small(theta) {
        return theta;
    }
    let Some(x) = remainder(theta) else {
        return no_number(theta);
    };
    sine_at(x, theta < 0.0)
}

// The cosine of theta.
pub fn cos(theta: f64) -> f64
    ensures bits { result ≡ cosine theta }
    ensures near { CosinePromise theta result }
{
    let Some(x) = remainder(theta) else {
        return no_number(theta);
    };
    let x2 = product::high_product(x, x);
    let x4 = product::high_product(x2, x2);
    series::cosine(x2, x4)
}

#[derive(Clone, Copy)]
pub struct SinCos {
    pub sin: f64,
    pub cos: f64,
}

// Both of one angle, from one remainder and the same powers.
pub fn sin_cos(theta: f64) -> SinCos
    ensures { (result.sin ≡ sine theta) × (result.cos ≡ cosine theta) }
{
    let Some(x) = remainder(theta) else {
        return SinCos {
            sin: f64::NAN,
            cos: f64::NAN,
        };
    };
    let x2 = product::high_product(x, x);
    let x4 = product::high_product(x2, x2);
    let cos = series::cosine(x2, x4);
    if is_small(theta) {
        return SinCos { sin: theta, cos };
    }
    SinCos {
        sin: series::sine(x, x2, x4, theta < 0.0),
        cos,
    }
}
