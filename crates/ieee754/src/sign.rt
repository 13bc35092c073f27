// Rust's `abs` of an f64 and of an f32. A function for each width: each is one call of the library, and a trait over the two would be longer.
ghost use Rattle.std.specs.Prelude.{◌≡◌};
ghost use Rattle.ieee754.specs.Sign.{absolute};

// The absolute value.
#[tactic(auto, using(crate::proofs::Fields::cleared))]
pub fn abs(x: f64) -> f64
    ensures { result ≡ absolute x }
{
    x.abs()
}

// The absolute value of an f32.
#[tactic(auto, using(crate::proofs::Fields::cleared))]
pub fn absf(x: f32) -> f32
    ensures { result ≡ absolute x }
{
    x.abs()
}
