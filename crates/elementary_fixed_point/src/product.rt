// Products of which the upper 64 bits are kept, and polynomials by such products.
ghost use Rattle.std.specs.Prelude.{◌≡◌, ◌+◌, ◌*◌, ◌^◌, ◌<◌, T};
ghost use Rattle.elementary_fixed_point.specs.Product.{hi, horner};
ghost use Rattle.elementary_fixed_point.specs.Code.Bounds.{below};

// The upper 64 bits of u * v, from the four products of their halves.
pub fn high_product(u: u64, v: u64) -> u64
    ensures { result ≡ hi u v }
{
    let u0 = u & 0xffff_ffff;
    let u1 = u >> 32;
    let v0 = v & 0xffff_ffff;
    let v1 = v >> 32;
    let w0 = u0 * v0;
    let t = u1 * v0 + (w0 >> 32);
    let w1 = (t & 0xffff_ffff) + u0 * v1;
    u1 * v1 + (t >> 32) + (w1 >> 32)
}

// One step of Horner's rule: c + p * w, w in units of 2^-64.
pub fn horner_step(c: u64, p: u64, w: u64) -> u64
    requires { (c < 2 ^ 63) × (w < 2 ^ 63) }
    ensures { result ≡ c + hi p w }
{
    c + high_product(p, w)
}

// c[0] + w * (c[1] + w * (c[2] + ..)), w in units of 2^-64, each product rounded down.
pub fn chain(w: u64, c: &[u64]) -> u64
    requires w_bound { w < 2 ^ 63 }
    requires t { T (below (2 ^ 63) c.now) }
    ensures { result ≡ horner w c.now }
{
    let mut p = 0;
    for coefficient in c.iter().rev() {
        p = horner_step(*coefficient, p, w);
    }
    p
}
