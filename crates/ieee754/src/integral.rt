// Whole numbers from an f64: Rust's `round` and its `as usize`.
ghost use Rattle.std.specs.Prelude.{◌≡◌, ◌+◌, ◌^◌, ◌<◌, ◌≤◌, Bool, if◌then◌else◌, from_bits};
ghost use Rattle.std.specs.Float.{binary64};
ghost use Rattle.std.specs.Float.Ieee.{to_unsigned};
ghost use Rattle.ieee754.specs.Integral.{rounded_away};
ghost use Rattle.ieee754.specs.Code.WholeAway.{whole_away};

// Rust's `x as usize`: toward zero, to the nearest end of the range, and 0 for a NaN.
pub fn to_usize(x: f64) -> usize
    ensures { result ≡ to_unsigned 64 x }
{
    std::num::saturating_f64_to_usize(x)
}

// The whole number nearest to the float with the pattern a, which has no sign and is below 2 ^ 52; a half goes up.
fn whole_away(a: u64) -> u64
    requires { a < 0x4330_0000_0000_0000 }
    ensures { ((s : Bool) → result ≡ whole_away (from_bits binary64 ((if s then 2 ^ 63 else 0) + a))) × (result ≤ 2 ^ 53) }
{
    let e = a / 0x10_0000_0000_0000;
    if e < 1022 {
        return 0;
    }
    let m = a % 0x10_0000_0000_0000 + 0x10_0000_0000_0000;
    (m + (1u64 << (1074 - e))) >> (1075 - e)
}

// x to the nearest whole number, a half away from zero. From 2 ^ 52 on every f64 is whole.
// Not the library's `round`, which takes a sixth longer.
pub fn round(x: f64) -> f64
    ensures { result ≡ rounded_away binary64 x }
{
    if x.is_nan() {
        return x;
    }
    let b: u64 = f64::to_bits(x);
    let a = b % 0x8000_0000_0000_0000;
    if a >= 0x4330_0000_0000_0000 {
        return x;
    }
    let w = whole_away(a);
    if b < 0x8000_0000_0000_0000 {
        return w as f64;
    }
    -(w as f64)
}
