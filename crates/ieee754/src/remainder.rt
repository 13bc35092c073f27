// Rust's `rem_euclid` of an f64, and its `%`, in whole numbers: `%` itself would be compiled to a call of the C library's `fmod`, which a program that was linked
// against a newer C library does not find on a machine with an older one.
ghost use Rattle.std.specs.Prelude.{◌≡◌, ◌*◌, ◌^◌, ◌%◌, ◌<◌, ◌≤◌, T};
ghost use Rattle.std.specs.Float.{binary64};
ghost use Rattle.std.specs.Float.Ieee.{rem};
ghost use Rattle.std.specs.Float.Ieee.Positive.{num, den};
ghost use Rattle.std.specs.Float.Ieee.Scale.{finite};
ghost use Rattle.ieee754.specs.Remainder.{rem_euclid};
ghost use Rattle.ieee754.specs.Code.Units.{digits, places};

use crate::sign::abs;

fn digits(a: u64) -> u64
    ensures { result ≡ digits a }
{
    if a < 0x10_0000_0000_0000 {
        return a;
    }
    0x10_0000_0000_0000 + a % 0x10_0000_0000_0000
}

fn places(a: u64) -> u64
    ensures { result ≡ places a }
{
    if a < 0x10_0000_0000_0000 {
        return 0;
    }
    a / 0x10_0000_0000_0000 - 1
}

// m * 2 ^ k without the whole multiples of n. Eleven places at a time fit beside the digits; the last ones, up to eleven, are those of the last division.
fn rest_of(m: u64, k: u64, n: u64) -> u64
    requires { (m < 2 ^ 53) × (0 < n) × (n < 2 ^ 53) }
    ensures { result ≡ m * 2 ^ k % n }
{
    let elevens = k.saturating_sub(1) / 11;
    let mut r = m;
    for _ in 0..elevens {
        r = (r << 11) % n;
    }
    (r << (k - 11 * elevens)) % n
}

// The pattern, without its sign, of r * 2 ^ i units: as many of the places as there are become digits.
fn pattern_of(r: u64, i: u64) -> u64
    requires { (r < 2 ^ 53) × (i < 2046) }
    ensures below { result < 0x7ff0_0000_0000_0000 }
    ensures value { digits result * 2 ^ places result ≡ r * 2 ^ i }
{
    if 0x10_0000_0000_0000 <= r {
        return i * 0x10_0000_0000_0000 + r;
    }
    if r == 0 {
        return 0;
    }
    let z = u64::leading_zeros(r) as u64 - 11;
    if i < z {
        return r << i;
    }
    (i - z) * 0x10_0000_0000_0000 + (r << z)
}

// The remainder of finite numbers, the divisor being no larger in size and not 0.
#[tactic(auto, using(crate::proofs::Fields::no_nan_plain))]
fn finite_remainder(x: f64, y: f64) -> f64
    requires { T (finite x) × T (finite y) × (0 < num y) × (num y * den x ≤ num x * den y) }
    ensures { result ≡ rem binary64 x y }
{
    let b: u64 = f64::to_bits(x);
    let d: u64 = f64::to_bits(y);
    let a = b % 0x8000_0000_0000_0000;
    let c = d % 0x8000_0000_0000_0000;
    let i = places(c);
    let r = rest_of(digits(a), places(a) - i, digits(c));
    let p = pattern_of(r, i);
    // The sign is put back here, in both conversions and in `round`, each time for another pair of widths, or by a minus: one function would serve two of the four at most.
    if b < 0x8000_0000_0000_0000 {
        return f64::from_bits(p);
    }
    f64::from_bits(p + 0x8000_0000_0000_0000)
}

// Rust's `%`: x without the whole multiples of y, with x's sign. Exact.
fn remainder(x: f64, y: f64) -> f64
    ensures { result ≡ rem binary64 x y }
{
    let size = abs(x);
    let divisor = abs(y);
    if size < divisor {
        return x;
    }
    if size < f64::INFINITY {
        if 0.0 < divisor {
            return finite_remainder(x, y);
        }
    }
    f64::NAN
}

// The remainder that is not negative, but for rounding: |y| is added where it is negative.
#[tactic(auto, unfolding(crate::specs::Remainder::rem_euclid))]
pub fn rem_euclid(x: f64, y: f64) -> f64
    ensures { result ≡ rem_euclid binary64 x y }
{
    let r = remainder(x, y);
    if r < 0.0 {
        return r + abs(y);
    }
    r
}
