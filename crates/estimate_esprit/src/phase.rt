// The frequency by the phase that a vector gains from each of its numbers to the next.
ghost use Rattle.std.specs.Prelude.{◌≡◌};
ghost use Rattle.sums.specs.Code.Numbers.{parts};
ghost use Rattle.estimate_esprit.specs.Esprit.{lag_one_product, energy, frequency};
ghost use Rattle.estimate_esprit.specs.Code.Vectors.{vector};

use std::f64::consts::TAU;
use sums::complex::Complex;

fn numerator(u: &[Complex; 10]) -> Complex
    ensures { parts result ≡ lag_one_product (vector u.now) }
{
    let mut sum = Complex::ZERO;
    for (&z, &next) in u.iter().zip(&u[1..]) {
        sum = sum + z.conjugate() * next;
    }
    sum
}

// Not one function with the power iteration's `norm_of`: its sum starts at its first term and this one at 0, as the definitions have it, and one function would take the start as an argument.
fn denominator(u: &[Complex; 10]) -> f64
    ensures { result ≡ energy (vector u.now) }
{
    let mut sum = 0.0;
    for z in &u[..9] {
        sum += z.norm_sqr();
    }
    sum
}

#[tactic(auto, unfolding(crate::specs::Esprit::frequency))]
pub fn frequency_of(u: &[Complex; 10], rate: f64) -> f64
    ensures { result ≡ frequency (vector u.now) rate }
{
    let d = denominator(u);
    if !(d > 1e-12) {
        return 0.0;
    }
    let psi = numerator(u) / d;
    let angle = elementary_arctangent::atan2(psi.im, psi.re);
    ieee754::order::clamp(-(angle * rate) / TAU, -rate / 2.0, rate / 2.0)
}
