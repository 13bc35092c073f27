// Correction by a sample of the first channel (the source's `update_channel` at 0).
ghost use Rattle.std.specs.Prelude.{◌≡◌, length};
ghost use Rattle.tracker_covariance.specs.declared.states.Band.TheVariants.{First};
ghost use Rattle.tracker.specs.Correction.{band_corrected};

use crate::correction::{Corrected, Correction, enter, prior_of};
use crate::gain::apply;
use crate::state::{CarrierPllEkf, Tracked};
use tracker_covariance::states::{Band, FirstChannel};
use tracker_measurement::measure::measure;

// The sample enters the envelope and the window, and then the states.
pub fn correct_by_first(h: Tracked, w: &mut [f64], re: f32, im: f32) -> Corrected
    requires { length w.old ≡ 2048 }
    ensures { (result, w.new) ≡ band_corrected h.ekf h.p w.old First re im }
{
    let Tracked { ekf, p } = h;
    let m = measure(prior_of(ekf, Band::First), re, im);
    let t = CarrierPllEkf {
        envelope_ema: m.envelope_ema,
        ..ekf
    };
    let ekf = enter(t, w, m.abs_i, m.q_sq);
    let pr = ekf.power.ratio();
    let kept = Correction::Kept(m.norm_re, pr);
    apply::<FirstChannel>(Tracked { ekf, p }, m.z, m.r_effective, kept)
}
