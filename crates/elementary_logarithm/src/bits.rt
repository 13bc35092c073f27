// The common logarithm of a number above 0, by its bit pattern.
ghost use Rattle.std.specs.Prelude.{◌≡◌, ◌+◌, ◌-◌, ◌*◌, ◌^◌, ◌<◌, ◌≤◌};
ghost use Rattle.ieee754.specs.Binary64.{two_to_minus54, two_to_minus81};
ghost use Rattle.elementary_fixed_point.specs.Conversion.{scaled};
ghost use Rattle.elementary_logarithm.specs.Steps.{common, at_least_one, past_one, before_one, log_at, near_one, far_from_one, log_of_bits, one_bits};
ghost use Rattle.elementary_logarithm.specs.Code.Parts.{is_near_one};

use crate::series;
use elementary_fixed_point::{conversion, product};

// The natural logarithm of 2 in units of 2^-54, the same by the table, and the reciprocal of that of 10 in units of 2^-64.
const LOG_TWO: u64 = 12486629536330718;

const TABLE_TWO: u64 = 12486629536148167;

const RECIPROCAL_TEN: u64 = 8011319160293570762;

const ONE: u64 = 0x3ff0_0000_0000_0000;

// From the natural to the common logarithm, in the same unit.
fn to_common(d: u64) -> u64
    ensures { result ≡ common d }
{
    product::high_product(d, RECIPROCAL_TEN)
}

fn at_least_one(g: u64) -> u64
    ensures { result ≡ at_least_one g }
{
    g.max(1)
}

// The common logarithm of the natural one d, in units of 2^-54.
fn far_common(d: u64) -> f64
    ensures { result ≡ scaled (at_least_one (common d)) two_to_minus54 }
{
    let g = at_least_one(to_common(d));
    conversion::to_f64(g, 5.551115123125783e-17)
}

// The same in units of 2^-81.
fn near_common(d: u64) -> f64
    ensures { result ≡ scaled (common d) two_to_minus81 }
{
    conversion::to_f64(to_common(d), 4.1359030627651384e-25)
}

// The logarithm of s / 2^52 * 2^(p - 1074).
fn log_at(s: u64, p: u64) -> f64
    requires { (2 ^ 52 ≤ s) × (s < 2 ^ 53) × (p ≤ 2097) }
    ensures { result ≡ log_at s p }
{
    let h = series::natural(s);
    if p < 1074 {
        return -far_common((1073 - p) * LOG_TWO + (TABLE_TWO - h));
    }
    far_common((p - 1074) * LOG_TWO + h)
}

// ln(1 + u / 2^52) in units of 2^-81, by two terms.
#[tactic(auto, unfolding(crate::specs::Steps::past_one))]
fn past_one(u: u64) -> u64
    requires { u < 2 ^ 34 }
    ensures { result ≡ past_one u }
{
    let n = u * 0x2000_0000;
    let h = product::high_product(n, n);
    n - (h >> 18)
}

// -ln(1 - u / 2^53) in units of 2^-81, by two terms. Not one function with the one before: the unit of u and the sign of the second term differ,
// so that it would take both as arguments.
#[tactic(auto, unfolding(crate::specs::Steps::before_one))]
fn before_one(u: u64) -> u64
    requires { u < 2 ^ 34 }
    ensures { result ≡ before_one u }
{
    let n = u * 0x1000_0000;
    let h = product::high_product(n, n);
    n + (h >> 18)
}

// The logarithm of a number fewer than 2^34 patterns from 1.
#[tactic(auto, unfolding(crate::specs::Steps::near_one))]
fn near_one(b: u64) -> f64
    requires { (one_bits - 2 ^ 34 < b) × (b < one_bits + 2 ^ 34) }
    ensures { result ≡ near_one b }
{
    if b < ONE {
        return -near_common(before_one(ONE - b));
    }
    near_common(past_one(b - ONE))
}

// Any other; a subnormal's significand is shifted up past its leading zeros.
fn far_from_one(b: u64) -> f64
    requires { (0 < b) × (b < 0x7ff0_0000_0000_0000) }
    ensures { result ≡ far_from_one b }
{
    if b < 0x10_0000_0000_0000 {
        let z = (u64::leading_zeros(b) - 11) as u64;
        return log_at(b << z, 52 - z);
    }
    log_at(
        b % 0x10_0000_0000_0000 + 0x10_0000_0000_0000,
        b / 0x10_0000_0000_0000 + 51,
    )
}

// Whether b is fewer than 2^34 patterns from that of 1.
fn is_near_one(b: u64) -> bool
    ensures { result ≡ is_near_one b }
{
    0x3fef_fffc_0000_0000 < b && b < 0x3ff0_0004_0000_0000
}

// The logarithm of the finite number above 0 with the pattern b.
#[tactic(auto, unfolding(crate::specs::Steps::log_of_bits))]
pub fn log_of_bits(b: u64) -> f64
    requires { (0 < b) × (b < 0x7ff0_0000_0000_0000) }
    ensures { result ≡ log_of_bits b }
{
    if is_near_one(b) {
        return near_one(b);
    }
    far_from_one(b)
}
