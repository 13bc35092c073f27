// A float's sign and its size, by its bits. Each asks that it be no NaN, as `plane::angle` does, and no type holds that: each goes by the bits alone, and a type would be
// built from the two tests of `atan2` and taken apart at once in each of them.
ghost use Rattle.std.specs.Prelude.{◌≡◌, not, cond, ◌^◌, T};
ghost use Rattle.std.specs.Float.Ieee.{is_nan};
ghost use Rattle.ieee754.specs.Sign.{absolute, sign_bit, signed};

// Whether the sign is set, also that of a zero.
pub fn negative(x: f64) -> bool
    requires { T (not (is_nan x)) }
    ensures { result ≡ sign_bit x }
{
    x.is_sign_negative()
}

// The absolute value: the sign's bit is cleared. Not `ieee754::sign::abs`, which tests for a NaN besides: with it atan2 takes a tenth longer.
pub fn magnitude(x: f64) -> f64
    requires { T (not (is_nan x)) }
    ensures { result ≡ absolute x }
{
    let b: u64 = f64::to_bits(x);
    f64::from_bits(b % 0x8000_0000_0000_0000)
}

// The sign's bit, in its place.
pub fn bit(x: f64) -> u64
    requires { T (not (is_nan x)) }
    ensures { result ≡ cond (sign_bit x) (2 ^ 63) 0 }
{
    let b: u64 = f64::to_bits(x);
    b - b % 0x8000_0000_0000_0000
}

// v, or its opposite.
pub fn with_sign(s: bool, v: f64) -> f64
    ensures { result ≡ signed s v }
{
    if s { -v } else { v }
}
