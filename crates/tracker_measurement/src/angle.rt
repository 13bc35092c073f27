// The angle by which a derotated sample is off, and its in-phase value.
ghost use Rattle.std.specs.Prelude.{◌≡◌};
ghost use Rattle.tracker_measurement.specs.Angle.{fourth_power, phase_error, in_phase};

use crate::modulation::Modulation;
use crate::sample::Point;

// The fourth power, whose angle does not depend on the QPSK symbol.
#[tactic(auto, unfolding(crate::specs::Angle::fourth_power))]
fn fourth_power(d: Point) -> Point
    ensures { result ≡ fourth_power d }
{
    let i2 = d.re * d.re - d.im * d.im;
    let q2 = 2.0 * d.re * d.im;
    Point {
        re: i2 * i2 - q2 * q2,
        im: 2.0 * i2 * q2,
    }
}

fn fourth_angle(d: Point) -> f64
    ensures { result ≡ phase_error Modulation.Qpsk d }
{
    let y = fourth_power(d);
    0.25 * elementary_arctangent::atan2(y.im, y.re)
}

// z, before its wrap.
pub fn phase_error(m: Modulation, d: Point) -> f64
    ensures { result ≡ phase_error m d }
{
    match m {
        Modulation::Carrier | Modulation::Bpsk => elementary_arctangent::atan2(d.im, d.re),
        Modulation::Qpsk => fourth_angle(d),
    }
}

// The in-phase value at z before its wrap: what the lock metric averages.
pub fn in_phase(m: Modulation, z: f64) -> f64
    ensures { result ≡ in_phase m z }
{
    match m {
        Modulation::Carrier | Modulation::Bpsk => elementary_sincos::cos(z),
        Modulation::Qpsk => elementary_sincos::cos(4.0 * z),
    }
}
