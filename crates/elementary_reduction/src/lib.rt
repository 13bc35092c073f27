// The remainder of a large angle by 2π to 160 binary places.
#![tactic(auto)]

ghost use Rattle.std.specs.Prelude.{◌≡◌, ◌+◌, ◌*◌, ◌/◌, ◌%◌, ◌^◌, ◌<◌, ◌≤◌};
ghost use Rattle.std.specs.Float.Ieee.Positive.{num, den};
ghost use Rattle.elementary_reduction.specs.Reduction as Reduction;

use rest::Limbs;

mod limbs;
mod powers;
mod rest;

// The remainder of m * 2^(110 + n) units of 2^-160, in units of 2^-61. The first step takes all of n bits but a multiple of twenty, so that an angle below 2^22
// needs no other.
fn shifted(m: u64, n: u64) -> u64
    requires { (m < 2 ^ 53) × (n < 1280) }
    ensures { result ≡ m * 2 ^ (110 + n) % Reduction.turn / 2 ^ 99 }
{
    let s = n % 20;
    let r = limbs::remainder(Limbs {
        w0: 0,
        w1: 0,
        w2: (m % 8192) << (28 + s),
        w3: (m / 8192) << s,
    });
    if n < 20 {
        return r.upper();
    }
    r.shifted(n / 20).upper()
}

// Of an angle from 4 on, by its significand and its exponent.
pub fn reduced(theta: f64) -> u64
    requires { 4 * den theta ≤ num theta }
    ensures { result ≡ Reduction.reduced theta }
{
    let b: u64 = f64::to_bits(theta);
    let a = b % 0x8000_0000_0000_0000;
    let e = a / 0x10_0000_0000_0000;
    let m = a % 0x10_0000_0000_0000 + 0x10_0000_0000_0000;
    shifted(m, e - 1025)
}
