// The square root of an f64, by whole numbers. A root by floats is a guess, which is checked exactly; only where the check fails does the
// digit-by-digit root run. So nothing has to be known of how well the guess converges.
ghost use Rattle.std.specs.Prelude.{◌≡◌, ◌+◌, ◌*◌, ◌^◌, ◌<◌, ◌≤◌, true, from_bits, IfSome};
ghost use Rattle.std.specs.Float.{binary64};
ghost use Rattle.ieee754.specs.SquareRoot.{round_root, sqrt};
ghost use Rattle.ieee754.specs.Code.WholeRoot.{NearestRoot};

use crate::goldschmidt::Estimate;

// The digits of a root so far, and what is left of the number: q * q + rest is the number's part so far.
#[derive(Clone, Copy)]
struct Part {
    q: u64,
    rest: u64,
}

impl Part {
    // One more digit of the root, for two more digits d of the number.
    fn with_digits(self, d: u64) -> Part
        requires { (self.q < 2 ^ 54) × (self.rest ≤ 2 * self.q) × (d < 4) }
        ensures { (result.q * result.q + result.rest ≡ 4 * (self.q * self.q + self.rest) + d) × (result.rest ≤ 2 * result.q) }
    {
        let rest = self.rest * 4 + d;
        let trial = self.q * 4 + 1;
        if trial <= rest {
            Part {
                q: self.q * 2 + 1,
                rest: rest - trial,
            }
        } else {
            Part {
                q: self.q * 2,
                rest,
            }
        }
    }
}

// The whole number nearest to the root of m * 2 ^ 52: the whole root of m * 2 ^ 54, digit by digit, halved. The digits of m stand at the top of
// a word, with zeros behind them, and move up by two at a time.
fn digit_by_digit(m: u64) -> u64
    requires { (2 ^ 52 ≤ m) × (m < 2 ^ 54) }
    ensures { NearestRoot (m * 2 ^ 52) result }
{
    let mut p = Part { q: 0, rest: 0 };
    let mut left = m << 10;
    for _ in 0..54u64 {
        p = p.with_digits(left >> 62);
        left <<= 2;
    }
    (p.q + 1) / 2
}

// The whole number nearest to the root of m * 2 ^ 52, by a guess q just below it: q, q + 1 or q + 2, by how far q * q falls short. That is worked
// out with q in two halves, from the highest digits down. Where it is none of the three, none. The last two comparisons are counted and not
// branched on, since they go either way; the others are tests, since what `checked_sub` is compiled to makes each wait for the one before.
fn near_guess(m: u64, q: u64) -> Option<u64>
    requires { (2 ^ 52 ≤ m) × (m < 2 ^ 54) × (q < 2 ^ 53) }
    ensures { IfSome result (λ r. NearestRoot (m * 2 ^ 52) r) }
{
    let a = q / 0x400_0000;
    let b = q % 0x400_0000;
    let square = a * a;
    if m < square {
        return None;
    }
    let high = m - square;
    if high >= 0x10_0000_0000 {
        return None;
    }
    let whole = high * 0x400_0000;
    let cross = 2 * a * b;
    if whole < cross {
        return None;
    }
    let middle = whole - cross;
    if middle >= 0x10_0000_0000 {
        return None;
    }
    let last = middle * 0x400_0000;
    let off = b * b;
    if last < off {
        return None;
    }
    let x = last - off;
    if x > 5 * q + 6 {
        return None;
    }
    Some(q + (x > q) as u64 + (x > 3 * q + 2) as u64)
}

// The whole number nearest to the root of m * 2 ^ 52, by a guess q just below it, or digit by digit.
fn nearest_root(m: u64, q: u64) -> u64
    requires { (2 ^ 52 ≤ m) × (m < 2 ^ 54) }
    ensures { NearestRoot (m * 2 ^ 52) result }
{
    if q < 0x20_0000_0000_0000 {
        if let Some(r) = near_guess(m, q) {
            return r;
        }
    }
    digit_by_digit(m)
}

// A guess at the root, in units of 2 ^ -52 and less one of them, of the float from 1 to 4 with the pattern bits. Three steps and
// a last correction make of the four digits of the start all but the last. Nothing is claimed of it.
#[tactic(auto, using(ieee754::proofs::Fields::no_nan_plain))]
fn guess(bits: u64) -> u64
    requires { bits ≤ 0x7ff0_0000_0000_0000 }
{
    let x: f64 = f64::from_bits(bits);
    let e = Estimate::start(x, bits).refined().refined().refined();
    let t = e.root + e.half * (x - e.root * e.root);
    if t >= 0.5 {
        let b: u64 = f64::to_bits(t);
        return std::num::wrapping_sub_u64(b, 0x3fe0_0000_0000_0001);
    }
    0
}

// The pattern of the root of m * 2 ^ (p + 52), in units of the smallest value.
fn root_bits(m: u64, p: u64) -> u64
    requires { (2 ^ 52 ≤ m) × (m < 2 ^ 53) × (p < 3072) }
    ensures { (from_bits binary64 result ≡ round_root binary64 (m * 2 ^ (p + 52))) × (result < 0x7ff0_0000_0000_0000) }
{
    let q = guess(m + (p % 2 + 1022) * 0x10_0000_0000_0000);
    (p / 2) * 0x10_0000_0000_0000 + nearest_root(m * (p % 2 + 1), q)
}

// The square root. A subnormal significand is first shifted up past its leading zeros.
#[tactic(auto, using(ieee754::proofs::Fields::no_nan_plain))]
pub fn sqrt(x: f64) -> f64
    ensures { result ≡ sqrt binary64 x }
{
    if x.is_nan() {
        return x;
    }
    let b: u64 = f64::to_bits(x);
    if b == 0 {
        return x;
    }
    if b == 0x8000_0000_0000_0000 {
        return x;
    }
    if b > 0x8000_0000_0000_0000 {
        return f64::NAN;
    }
    if b >= 0x7ff0_0000_0000_0000 {
        return x;
    }
    if b < 0x10_0000_0000_0000 {
        let z = (u64::leading_zeros(b) - 11) as u64;
        return f64::from_bits(root_bits(b << z, 1022 - z));
    }
    f64::from_bits(root_bits(
        b % 0x10_0000_0000_0000 + 0x10_0000_0000_0000,
        b / 0x10_0000_0000_0000 + 1021,
    ))
}
