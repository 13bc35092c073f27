// Bit patterns. Every NaN pattern is read as the one NaN, which is written as the pattern with the sign clear and only the highest digit
// set: 7ff8000000000000, or 7fc00000. A function for each width: each is one call of the library, and a trait over the two widths would be longer than the four.
ghost use Rattle.std.specs.Prelude.{◌≡◌, from_bits, to_bits};
ghost use Rattle.std.specs.Float.{binary32, binary64};

// The f64 with the pattern b.
pub fn f64_from_bits(b: u64) -> f64
    ensures { result ≡ from_bits binary64 b }
{
    std::num::f64_from_bits_with_nan(b)
}

// The pattern of x.
pub fn f64_to_bits(x: f64) -> u64
    ensures { result ≡ to_bits binary64 x }
{
    std::num::f64_to_bits_with_nan(x)
}

// The f32 with the pattern b.
pub fn f32_from_bits(b: u32) -> f32
    ensures { result ≡ from_bits binary32 b }
{
    std::num::f32_from_bits_with_nan(b)
}

// The pattern of x.
pub fn f32_to_bits(x: f32) -> u32
    ensures { result ≡ to_bits binary32 x }
{
    std::num::f32_to_bits_with_nan(x)
}
