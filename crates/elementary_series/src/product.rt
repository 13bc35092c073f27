// Products of which the upper 64 bits are kept.
ghost use Rattle.std.specs.Prelude.{◌≡◌};
ghost use Rattle.elementary_series.specs.Product.{hi};

// The upper 64 bits of u * v.
pub fn high_product(u: u64, v: u64) -> u64
    ensures { result ≡ hi u v }
{
    elementary_fixed_point::product::high_product(u, v)
}
