// Sine and cosine of x units of 2^-61, up to 44 / 7, by their Taylor sums: the added and the subtracted terms are two polynomials in x^4.
ghost use Rattle.std.specs.Prelude.{◌≡◌, ltb, ◌^◌, ◌<◌};
ghost use Rattle.ieee754.specs.Binary64.{two_to_minus53};
ghost use Rattle.ieee754.specs.Sign.{signed};
ghost use Rattle.elementary_sincos.specs.Steps.{difference};
ghost use Rattle.elementary_sincos.specs.Code.Parts.{sine_from, cosine_from};

use elementary_fixed_point::{conversion, product};

// 4096^i / (1 + 4i)! in units of 2^-56, rounded down.
const SINE_PLUS: [u64; 9] = [
    72057594037927936,
    2459565876494606882,
    3331475472923911967,
    795205334329623742,
    57023127615793747,
    1626056326331740,
    21937835021919,
    157637875334,
    657466537,
];

// 4096^i / (3 + 4i)! in units of 2^-62.
const SINE_MINUS: [u64; 9] = [
    768614336404564650,
    3747909907039400963,
    1938313002428457871,
    242348292367123426,
    10670994641552046,
    205667203330496,
    2000030543308,
    10848197872,
    35359544,
];

// 4096^i / (4i)! in units of 2^-53.
const COSINE_PLUS: [u64; 9] = [
    9007199254740992,
    1537228672809129301,
    3747909907039400963,
    1292208668285638581,
    121174146183561713,
    4268397856620818,
    68555734443498,
    571437298088,
    2712049468,
];

// 4096^i / (2 + 4i)! in units of 2^-59.
const COSINE_MINUS: [u64; 9] = [
    288230376151711744,
    3279421168659475842,
    2665180378339129573,
    454403048188356424,
    25343612273686109,
    591293209575178,
    6750103083667,
    42036766755,
    154698008,
];

// The unit 2^-53 with the sign of p - n, changed where negative says so. A choice between two constants is no jump.
fn signed_unit(p: u64, n: u64, negative: bool) -> f64
    ensures { result ≡ signed negative (signed (ltb p n) two_to_minus53) }
{
    let less = p < n;
    if less == negative {
        1.1102230246251565e-16
    } else {
        -1.1102230246251565e-16
    }
}

// p - n in units of 2^-53, or n - p.
fn signed_difference(p: u64, n: u64, negative: bool) -> f64
    ensures { result ≡ signed negative (difference p n) }
{
    let d = p.abs_diff(n);
    let u = signed_unit(p, n, negative);
    conversion::to_f64(d, u)
}

// The sine, or its opposite, from x, x^2 and x^4.
pub fn sine(x: u64, x2: u64, x4: u64, negative: bool) -> f64
    requires { x4 < 2 ^ 63 }
    ensures { result ≡ signed negative (sine_from x x2 x4) }
{
    let x3 = product::high_product(x, x2);
    let a = product::chain(x4, &SINE_PLUS);
    let b = product::chain(x4, &SINE_MINUS);
    let p = product::high_product(x, a);
    let n = product::high_product(x3, b);
    signed_difference(p, n, negative)
}

// The cosine, from x^2 and x^4.
pub fn cosine(x2: u64, x4: u64) -> f64
    requires { x4 < 2 ^ 63 }
    ensures { result ≡ cosine_from x2 x4 }
{
    let p = product::chain(x4, &COSINE_PLUS);
    let b = product::chain(x4, &COSINE_MINUS);
    let n = product::high_product(x2, b);
    signed_difference(p, n, false)
}
