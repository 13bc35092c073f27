// The square root of an f64 as an f32. Of its 53 digits 29 are rounded off, so the 24 that stay are guessed by floats and the guess is
// checked exactly; only where the check fails is the whole root worked out. So nothing has to be known of how well the guess converges.
ghost use Rattle.std.specs.Prelude.{◌≡◌, ℕ, ◌*◌, ◌^◌, ◌<◌, ◌≤◌, true};
ghost use Rattle.std.specs.Float.{binary32, binary64};
ghost use Rattle.ieee754.specs.Conversion.{convert};
ghost use Rattle.ieee754.specs.SquareRoot.{sqrt};
ghost use Rattle.ieee754.specs.Code.Quotients.{nearest_quotient};
ghost use Rattle.ieee754.specs.Code.WholeRoot.{NearestRoot};

use crate::goldschmidt::Estimate;

// A guess at the 24 digits of the root of x, which has the pattern bits: three steps, the last without
// the inverse, and the leading digits rounded. They are counted by the root's exponent, which is known from x, and not by the guess's:
// so a root just below a power of two rounds up to it, 2 ^ 24, and a guess that falls short of a power of two has the digits 2 ^ 23.
// Half a unit less and then one more is the rounding, and never nought. Nothing is claimed of the guess but its range.
fn guessed_digits(x: f64, bits: u64) -> u64
    requires { bits ≤ 0x7ff0_0000_0000_0000 }
    ensures { (0 < result) × (result ≤ 2 ^ 24) }
{
    let e = Estimate::start(x, bits).refined().refined();
    let t = e.root * (1.5 - e.root * e.half);
    if t >= 0.0 {
        let b: u64 = f64::to_bits(t);
        let from = (bits / 0x10_0000_0000_0000 + 1021) / 2 * 0x10_0000_0000_0000 + 0x1000_0000;
        return std::num::wrapping_sub_u64(b, from) / 0x2000_0000 % 0x100_0000 + 1;
    }
    1
}

// Whether the root of m * 2 ^ 52, to the nearest whole number, rounds to d for sure when its last 29 digits are dropped: m lies between
// the squares of what is halfway to d's neighbours, and off both by more than that whole number can be off the root.
fn rounds_to(m: u64, d: u64) -> bool
    requires { (m < 2 ^ 54) × (0 < d) × (d ≤ 2 ^ 24) }
    ensures { result ≡ true → (w : ℕ) → NearestRoot (m * 2 ^ 52) w → nearest_quotient w (2 ^ 29) ≡ d }
{
    let below = 2 * d - 1;
    let above = 2 * d + 1;
    (16 * (below * below) + 5 <= m) & (m + 5 <= 16 * (above * above))
}

// The square root as an f32. The guess is for roots that are normal values of an f32: of an x from 2 ^ -252 to below 2 ^ 254.
pub fn sqrt_to_f32(x: f64) -> f32
    ensures { result ≡ convert binary32 (sqrt binary64 x) }
{
    if x >= 0.0 {
        let b: u64 = f64::to_bits(x);
        if (0x3030_0000_0000_0000 <= b) & (b < 0x4fd0_0000_0000_0000) {
            let p = b / 0x10_0000_0000_0000 + 1021;
            let m = b % 0x10_0000_0000_0000 + 0x10_0000_0000_0000;
            let d = guessed_digits(x, b);
            if rounds_to(m * (p % 2 + 1), d) {
                return f32::from_bits(((p / 2 - 896) * 0x80_0000 + d) as u32);
            }
        }
    }
    ieee754::conversion::f64_to_f32(crate::square_root::sqrt(x))
}
