// Rust's `max` and `clamp` of an f64.
ghost use Rattle.std.specs.Prelude.{◌≡◌};
ghost use Rattle.ieee754.specs.Order.{maximum, clamped};

// The larger of two; a NaN loses.
// Not the library's `max`, which may answer either of two zeros.
pub fn max(x: f64, y: f64) -> f64
    ensures { result ≡ maximum x y }
{
    if x.is_nan() {
        return y;
    }
    if x < y {
        return y;
    }
    x
}

// x moved into lo .. hi; a NaN stays.
// Not the library's `clamp`, which asks that lo be at most hi.
pub fn clamp(x: f64, lo: f64, hi: f64) -> f64
    ensures { result ≡ clamped x lo hi }
{
    if x < lo {
        return lo;
    }
    if hi < x {
        return hi;
    }
    x
}
