// Correction of the covariance by the first channel's phase, each half by itself.
ghost use Rattle.std.specs.Prelude.{◌≡◌, true, IfSome};
ghost use Rattle.std.specs.Float.Ieee.{le};
ghost use Rattle.ieee754.specs.Binary64.{ten_to_minus12};
ghost use Rattle.ieee754.specs.Sign.{absolute};
ghost use Rattle.tracker_covariance.specs.Correction.{innovation_variance, gain_of, corrected};
ghost use Rattle.tracker_block_diagonal.specs.Code.Joined.{joined, gains};
ghost use Rattle.tracker_block_diagonal.specs.Code.HalfCorrection.{half_gain, half_floored, half_left, half_right, shifted};

use crate::half::{Gain, Half, Halves};
use tracker_covariance::correction::floor_variance;

// K: the phase's column over s.
fn half_gain(h: Half, s: f64) -> Gain
    ensures { result ≡ half_gain h s }
{
    Gain {
        p: h.pp / s,
        f: h.fp / s,
        c: h.cp / s,
    }
}

// A half with each variance at least 1e-15.
fn floor_half(h: Half) -> Half
    ensures { result ≡ half_floored h }
{
    Half {
        pp: floor_variance(h.pp),
        ff: floor_variance(h.ff),
        cc: floor_variance(h.cc),
        ..h
    }
}

// (I − K·h)·P of the first half.
fn joseph_left(h: Half, k: Gain) -> Half
    ensures { result ≡ half_left h k }
{
    Half {
        pp: h.pp - k.p * h.pp,
        pf: h.pf - k.p * h.pf,
        pc: h.pc - k.p * h.pc,
        fp: h.fp - k.f * h.pp,
        ff: h.ff - k.f * h.pf,
        fc: h.fc - k.f * h.pc,
        cp: h.cp - k.c * h.pp,
        cf: h.cf - k.c * h.pf,
        cc: h.cc - k.c * h.pc,
    }
}

// T·(I − K·h)ᵀ + K·R·Kᵀ of the first half.
fn joseph_right(t: Half, k: Gain, noise: f64) -> Half
    ensures { result ≡ half_right t k noise }
{
    Half {
        pp: t.pp - t.pp * k.p + k.p * k.p * noise,
        pf: t.pf - t.pp * k.f + k.p * k.f * noise,
        pc: t.pc - t.pp * k.c + k.p * k.c * noise,
        fp: t.fp - t.fp * k.p + k.f * k.p * noise,
        ff: t.ff - t.fp * k.f + k.f * k.f * noise,
        fc: t.fc - t.fp * k.c + k.f * k.c * noise,
        cp: t.cp - t.cp * k.p + k.c * k.p * noise,
        cf: t.cf - t.cp * k.f + k.c * k.f * noise,
        cc: t.cc - t.cp * k.c + k.c * k.c * noise,
    }
}

// The second half, whose gain is 0: 0 times the noise is all that is added.
fn shift(h: Half, o: f64) -> Half
    ensures { result ≡ shifted h o }
{
    Half {
        pp: h.pp + o,
        pf: h.pf + o,
        pc: h.pc + o,
        fp: h.fp + o,
        ff: h.ff + o,
        fc: h.fc + o,
        cp: h.cp + o,
        cf: h.cf + o,
        cc: h.cc + o,
    }
}

// The correction with the noise's variance: the gain that it takes, and the halves after it, where they stay apart and a gain is taken. They stay apart where
// every factor of a 0 is finite; a sum is finite only where its terms are, and a product where its factors are, so one sum tells it of the noise, the gain and
// the entries.
pub fn correct(h: Halves, noise: f64) -> Option<(Gain, Halves)>
    ensures { IfSome result (λ (k, after). (le ten_to_minus12 (absolute (innovation_variance (joined h) 0 noise)) ≡ true) × (gains k ≡ gain_of (joined h) 0 (innovation_variance (joined h) 0 noise)) × (joined after ≡ corrected (joined h) 0 (gains k) noise)) }
{
    let s = h.first.pp + noise;
    let k = half_gain(h.first, s);
    let f = floor_half(h.first);
    let g = floor_half(h.second);
    let t = joseph_left(f, k);
    let finite = (s + f.pf + f.pc + t.pp + t.fp + t.cp).is_finite();
    let apart = (1e-12 <= s) & finite;
    let halves = Halves {
        first: joseph_right(t, k, noise),
        second: shift(g, 0.0 * noise),
    };
    apart.then_some((k, halves))
}
