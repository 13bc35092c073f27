// The arctangent's Taylor sum at an argument up to 1/2, in fixed point.
ghost use Rattle.std.specs.Prelude.{◌≡◌, ◌^◌, ◌<◌, ◌≤◌};
ghost use Rattle.elementary_fixed_point.specs.Product.{horner};
ghost use Rattle.elementary_arctangent.specs.Steps.{series};
ghost use Rattle.elementary_arctangent.specs.Code.Tables.{added, subtracted};

use elementary_fixed_point::product;

// 2^62 units make 1.
const ONE: u64 = 0x4000_0000_0000_0000;

// The coefficients of 1 + w/5 + w^2/9 + .. + w^8/33, and of 1/3 + w/7 + w^2/11 + .. + w^8/35.
const ADDED: [u64; 9] = [
    ONE,
    ONE / 5,
    ONE / 9,
    ONE / 13,
    ONE / 17,
    ONE / 21,
    ONE / 25,
    ONE / 29,
    ONE / 33,
];

const SUBTRACTED: [u64; 9] = [
    ONE / 3,
    ONE / 7,
    ONE / 11,
    ONE / 15,
    ONE / 19,
    ONE / 23,
    ONE / 27,
    ONE / 31,
    ONE / 35,
];

// The arctangent, in units of 2^-62, of x in units of 2^-64.
pub fn arctangent(x: u64) -> u64
    requires { x ≤ 2 ^ 63 }
    ensures { result ≡ series x }
{
    let x2 = product::high_product(x, x);
    let x3 = product::high_product(x, x2);
    let x4 = product::high_product(x2, x2);
    let a = product::chain(x4, &ADDED);
    let b = product::chain(x4, &SUBTRACTED);
    let p = product::high_product(x, a);
    let n = product::high_product(x3, b);
    p - n
}
