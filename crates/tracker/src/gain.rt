// What a correction makes of the states and the covariance. It is generic over the channel, whose place is so a constant, and each instance has one caller,
// so that all of it is compiled in one piece without copies.
ghost use Rattle.std.specs.Prelude.{◌≡◌};
ghost use Rattle.tracker_covariance.specs.States.{phase_of};
ghost use Rattle.tracker.specs.Correction.{corrected_or_lost};
ghost use Rattle.tracker.specs.Code.Second.{moved};

use crate::correction::{Corrected, Correction, has_nan, limit, lose, wrap_phase};
use crate::state::{CarrierPllEkf, Tracked};
use tracker_covariance::correction::{gain, innovation_variance, takes_gain};
use tracker_covariance::initial::initial;
use tracker_covariance::states::{Channel, correct_state};

// The end of a correction that took the gain k and moved the state to y: lost where a NaN is left after the wrap.
fn end<C: Channel>(h: Tracked, noise: f64, k: [f64; 6], y: [f64; 6], kept: Correction) -> Corrected
    ensures { result ≡ corrected_or_lost h.ekf h.p (phase_of C.BAND) noise k y kept }
{
    let band = C::BAND;
    let v = wrap_phase(y, band, h.ekf.modulation);
    if has_nan(v) {
        return Corrected {
            ekf: lose(h.ekf),
            p: initial(),
            answer: Correction::Lost,
        };
    }
    Corrected {
        ekf: CarrierPllEkf {
            x: limit(v, band),
            ..h.ekf
        },
        p: tracker_joseph::correct::<C>(h.p, k, noise),
        answer: kept,
    }
}

// s = P(i,i) + R, K = column i over s, x + K·z, Joseph's form, i being the place of the channel's phase; nothing of it where s is too small.
pub fn apply<C: Channel>(h: Tracked, z: f64, noise: f64, kept: Correction) -> Corrected
    ensures { result ≡ moved h.ekf h.p (phase_of C.BAND) z noise kept }
{
    let band = C::BAND;
    let Tracked { ekf, p } = h;
    let s = innovation_variance(p, band, noise);
    if takes_gain(s) {
        let k = gain(p, band, s);
        let y = correct_state(ekf.x, k, z);
        return end::<C>(h, noise, k, y, kept);
    }
    Corrected {
        ekf,
        p,
        answer: kept,
    }
}
