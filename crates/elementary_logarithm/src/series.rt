// The natural logarithm of a significand from 1 to below 2, by its series in w = (m - 1) / (m + 1).
ghost use Rattle.std.specs.Prelude.{◌≡◌, ◌+◌, ◌^◌, ◌<◌, ◌≤◌};
ghost use Rattle.elementary_logarithm.specs.Steps as Steps;

use elementary_fixed_point::{product, quotient};

// The coefficients of 1 + w / 3 + w^2 / 5 + .. in units of 2^-62: each is 2^62 / (1 + 2i), rounded down.
const TABLE: [u64; 10] = [
    4611686018427387904,
    1537228672809129301,
    922337203685477580,
    658812288346769700,
    512409557603043100,
    419244183493398900,
    354745078340568300,
    307445734561825860,
    271275648142787523,
    242720316759336205,
];

// w in units of 2^-64, from below, at most a third.
pub fn argument(s: u64) -> u64
    requires { (2 ^ 52 ≤ s) × (s < 2 ^ 53) }
    ensures { (result ≡ Steps.argument s) × (result ≤ 6148914691236517205) }
{
    let u = s - 0x10_0000_0000_0000;
    let v = (s + 0x10_0000_0000_0000 + 1) / 2;
    quotient::ratio(u as f64, v as f64) * 4
}

// The natural logarithm of s / 2^52 in units of 2^-54.
pub fn natural(s: u64) -> u64
    requires { (2 ^ 52 ≤ s) × (s < 2 ^ 53) }
    ensures { (result ≡ Steps.natural s) × (result ≤ Steps.table_two) }
{
    let x = argument(s);
    let w = product::high_product(x, x);
    let c = product::chain(w, &TABLE);
    product::high_product(x, c) >> 7
}
