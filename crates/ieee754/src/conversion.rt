// Rust's `as` between f64, f32 and whole numbers.
ghost use Rattle.std.specs.Prelude.{◌≡◌, ◌+◌, ◌^◌, ◌<◌, ◌≤◌, Bool, pos, if◌then◌else◌, from_bits};
ghost use Rattle.std.specs.Float.{binary32, binary64};
ghost use Rattle.std.specs.Float.Ieee.{of_int};
ghost use Rattle.ieee754.specs.Conversion.{convert};
ghost use Rattle.ieee754.specs.Code.Quotients.{nearest_quotient, rounding_carry};

// What rounding to nearest, ties to even, adds to a quotient q with the remainder rest, for a divisor twice half.
#[tactic(auto, unfolding(crate::specs::Code::Quotients::rounding_carry))]
fn rounding_carry(q: u64, rest: u64, half: u64) -> u64
    ensures { result ≡ rounding_carry q rest half }
{
    if rest < half {
        return 0;
    }
    if half < rest {
        return 1;
    }
    q % 2
}

// m / 2 ^ s to the nearest whole number, a tie to the even one.
fn rounded_quotient(m: u64, s: u64) -> u64
    requires { (m < 2 ^ 53) × (0 < s) × (s < 64) }
    ensures { result ≡ nearest_quotient m (2 ^ s) }
{
    let unit = 1u64 << s;
    let q = m / unit;
    let rest = m % unit;
    q + rounding_carry(q, rest, unit / 2)
}

// The pattern, without its sign, of the f32 nearest to the f64 with the pattern a, which has no sign either. Below 2 ^ -151 (an exponent's
// field under 872) every f64 rounds to zero, the subnormal ones too; below 2 ^ -126 (897) the result is subnormal and more digits are dropped.
fn narrow_bits(a: u64) -> u64
    requires { a ≤ 0x7ff0_0000_0000_0000 }
    ensures { ((s : Bool) → from_bits binary32 ((if s then 2 ^ 31 else 0) + result) ≡ convert binary32 (from_bits binary64 ((if s then 2 ^ 63 else 0) + a))) × (result ≤ 0x7f80_0000) }
{
    if a >= 0x47f0_0000_0000_0000 {
        return 0x7f80_0000;
    }
    // The exponent's field and the significand, by two expressions: `places` and `digits` of the remainder have a case for a subnormal besides, which was sorted out above.
    let e = a / 0x10_0000_0000_0000;
    if e < 872 {
        return 0;
    }
    let m = a % 0x10_0000_0000_0000 + 0x10_0000_0000_0000;
    if e < 897 {
        return rounded_quotient(m, 926 - e);
    }
    (e - 897) * 0x80_0000 + rounded_quotient(m, 29)
}

// x as an f32: the nearest one, of two as near the even one, an infinity from halfway past the largest on, and a NaN for a NaN. No subnormal
// significand is normalised here: every subnormal f64 rounds to zero.
// Not the library's `nearest_f64_to_f32_with_nan`, which takes half as long again.
#[tactic(auto, using(crate::proofs::Fields::no_nan_plain))]
pub fn f64_to_f32(x: f64) -> f32
    ensures { result ≡ convert binary32 x }
{
    if x.is_nan() {
        return f32::NAN;
    }
    let b: u64 = f64::to_bits(x);
    let r = narrow_bits(b % 0x8000_0000_0000_0000);
    if b < 0x8000_0000_0000_0000 {
        return f32::from_bits(r as u32);
    }
    f32::from_bits((r + 0x8000_0000) as u32)
}

// The pattern, without its sign, of the f64 that is a times the smallest f32: a subnormal's significand is shifted up past its leading zeros, to
// where an f64 has its leading one.
fn widen_bits(a: u64) -> u64
    requires { a < 2 ^ 23 }
    ensures { ((s : Bool) → from_bits binary64 ((if s then 2 ^ 63 else 0) + result) ≡ from_bits binary32 ((if s then 2 ^ 31 else 0) + a)) × (result < 0x7ff0_0000_0000_0000) }
{
    if a == 0 {
        return 0;
    }
    let z = u64::leading_zeros(a) as u64;
    (936 - z) * 0x10_0000_0000_0000 + (a << (z - 11))
}

// x as an f64, which holds every f32; a NaN passes. What has its leading one already is the hardware's to convert.
// Not the library's conversion, which is the hardware's for all: the scope has a subnormal significand shifted up by its leading zeros.
#[tactic(auto, using(crate::proofs::Fields::no_nan_plain))]
pub fn f32_to_f64(x: f32) -> f64
    ensures { result ≡ x }
{
    if x.is_nan() {
        return f64::NAN;
    }
    let b: u32 = f32::to_bits(x);
    let a = b % 0x8000_0000;
    if a >= 0x80_0000 {
        return f64::from(x);
    }
    let r = widen_bits(a as u64);
    if b < 0x8000_0000 {
        return f64::from_bits(r);
    }
    f64::from_bits(r + 0x8000_0000_0000_0000)
}

// n as an f64: exact up to 2 ^ 53, the nearest one beyond.
pub fn u64_to_f64(n: u64) -> f64
    ensures { result ≡ of_int binary64 (pos n) }
{
    std::num::nearest_u64_to_f64(n)
}
