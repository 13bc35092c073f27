// Correction by a sample of the second channel (the source's `update_channel` at 1), after the first one's. Its in-phase value and power pair are used by
// nothing, so they are not computed.
ghost use Rattle.std.specs.Prelude.{◌≡◌, List, Float};
ghost use Rattle.tracker.specs.Update.{second_corrected};
ghost use Rattle.tracker.specs.Code.Second.{second_moved};

use crate::correction::{Corrected, Correction, prior_of};
use crate::gain::apply;
use crate::lock::settle;
use crate::state::{CarrierPllEkf, Tracked};
use tracker_covariance::states::{Band, SecondChannel};
use tracker_measurement::angle::phase_error;
use tracker_measurement::measure::receive;
use tracker_measurement::modulation::wrap;

// The sample enters the envelope, and then the states; the window stays. One that is not lost answers the pair of the first correction.
#[tactic(auto, unfolding(crate::specs::Code::Second::second_moved, tracker_measurement::specs::Measurement::measured, tracker_measurement::specs::Code::Parts::received))]
pub fn correct_by_second(h: Tracked, norm_re: f64, pr: f64, re: f32, im: f32) -> Corrected
    ensures { result ≡ second_moved h.ekf h.p norm_re pr re im }
{
    let Tracked { ekf, p } = h;
    let m = ekf.modulation;
    let a = receive(prior_of(ekf, Band::Second), re, im);
    let z = wrap(m, phase_error(m, a.point));
    let ekf = CarrierPllEkf {
        envelope_ema: a.envelope_ema,
        ..ekf
    };
    let kept = Correction::Kept(norm_re, pr);
    apply::<SecondChannel>(Tracked { ekf, p }, z, a.r_effective, kept)
}

// The metric, the guard and the mark go by norm_re and pr, which the first correction answered.
pub fn update_by_second(h: Tracked, norm_re: f64, pr: f64, re: f32, im: f32) -> Tracked
    ensures { (w : List Float) → (result, w) ≡ second_corrected h.ekf h.p w norm_re pr re im }
{
    let Corrected { ekf, p, answer } = correct_by_second(h, norm_re, pr, re, im);
    let Correction::Kept(_, _) = answer else {
        return Tracked { ekf, p };
    };
    let ekf = settle(ekf, norm_re, pr);
    Tracked { ekf, p }
}
