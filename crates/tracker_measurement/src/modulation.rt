// How the signal is modulated, and the range of phases that this leaves.
ghost use Rattle.std.specs.Prelude.{◌≡◌};
ghost use Rattle.tracker_measurement.specs.Numbers.{modulation_number, numbered_modulation};
ghost use Rattle.tracker_measurement.specs.Phase.{limit, half_limit, wrapped};

use ieee754::remainder::rem_euclid;

#[derive(Clone, Copy, PartialEq, Eq)]
pub enum Modulation {
    Carrier = 0,
    Bpsk = 1,
    Qpsk = 2,
}

// The modulation that a number stands for: 0 carrier, 1 BPSK, 2 and above QPSK.
impl From<u64> for Modulation {
    ghost from_gives = { λ n m. m ≡ numbered_modulation n };

    fn from(n: u64) -> Modulation {
        match n {
            0 => Modulation::Carrier,
            1 => Modulation::Bpsk,
            _ => Modulation::Qpsk,
        }
    }
}

impl Modulation {
    // The scope's number.
    pub fn number(self) -> u64
        ensures { result ≡ modulation_number self }
    {
        self as u64
    }

    // The length of the range.
    fn limit(self) -> f64
        ensures { result ≡ limit self }
    {
        match self {
            Modulation::Carrier | Modulation::Bpsk => 6.283185307179586,
            Modulation::Qpsk => 1.5707963267948966,
        }
    }

    // Half of it.
    fn half_limit(self) -> f64
        ensures { result ≡ half_limit self }
    {
        match self {
            Modulation::Carrier | Modulation::Bpsk => 3.141592653589793,
            Modulation::Qpsk => 0.7853981633974483,
        }
    }
}

// An angle brought into the range around 0, from minus half to below plus half. Where the sum y lies within the range it is its own remainder, and the slow
// `%` is left out; so is the test for plus half, since from the largest f64 below the range's length the difference ends below it. Elsewhere a tiny negative
// remainder can round up to the whole length: then the answer is minus half, the one name of that angle.
pub fn wrap(m: Modulation, angle: f64) -> f64
    ensures { result ≡ wrapped m angle }
{
    let half = m.half_limit();
    let limit = m.limit();
    let y = angle + half;
    if (0.0 <= y) & (y < limit) {
        return y - half;
    }
    let r = rem_euclid(y, limit) - half;
    if half <= r {
        return -half;
    }
    r
}
