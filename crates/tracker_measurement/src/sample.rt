// The sample that the filter uses, and what it becomes when it is turned back by the predicted phase.
ghost use Rattle.std.specs.Prelude.{◌≡◌};
ghost use Rattle.tracker_measurement.specs.Sample.{point, used, derotated, amplitude, folded, diagonals};

use crate::modulation::Modulation;
use ieee754::sign::abs;
use ieee754_roots::hypotenuse::hypot;

// A complex number. Not the `Complex` of sums, of which two fields and one product would be used here: its contracts speak of the pair of its parts, and the
// public definitions of a sample of this record.
#[derive(Clone, Copy)]
pub struct Point {
    pub re: f64,
    pub im: f64,
}

// By the library's conversion, which is the hardware's and exact: ieee754's, which looks for a subnormal first, is too long to be compiled into an update.
fn widened(re: f32, im: f32) -> Point
    ensures { result ≡ point re im }
{
    Point {
        re: f64::from(re),
        im: f64::from(im),
    }
}

// The sample, squared for BPSK while it is still f32.
pub fn used_sample(m: Modulation, re: f32, im: f32) -> Point
    ensures { result ≡ used m re im }
{
    match m {
        Modulation::Carrier | Modulation::Qpsk => widened(re, im),
        Modulation::Bpsk => widened(re * re - im * im, re * im + im * re),
    }
}

// The sample turned by -theta.
#[tactic(auto, unfolding(crate::specs::Sample::derotated))]
pub fn derotate(theta: f64, s: Point) -> Point
    ensures { result ≡ derotated theta s }
{
    let u = elementary_sincos::sin_cos(-theta);
    Point {
        re: s.re * u.cos - s.im * u.sin,
        im: s.re * u.sin + s.im * u.cos,
    }
}

#[tactic(auto, unfolding(crate::specs::Sample::amplitude))]
pub fn amplitude_of(s: Point) -> f64
    ensures { result ≡ amplitude s }
{
    hypot(s.re, s.im)
}

// The two diagonals of a square grid, along which QPSK has its points.
#[tactic(auto, unfolding(crate::specs::Sample::diagonals))]
fn along_diagonals(d: Point) -> Point
    ensures { result ≡ diagonals d }
{
    let i = abs(d.re);
    let q = abs(d.im);
    Point {
        re: (i + q) / 1.4142135623730951,
        im: (q - i) / 1.4142135623730951,
    }
}

// In-phase and quadrature components, folded onto one point of the constellation.
pub fn fold(m: Modulation, d: Point) -> Point
    ensures { result ≡ folded m d }
{
    match m {
        Modulation::Carrier | Modulation::Bpsk => d,
        Modulation::Qpsk => along_diagonals(d),
    }
}
