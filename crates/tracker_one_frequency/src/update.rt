// One update by a sample.
ghost use Rattle.std.specs.Prelude.{◌≡◌, MatchOption, length};
ghost use Rattle.tracker_covariance.specs.Correction.{corrected_state};
ghost use Rattle.tracker.specs.Correction.{wrapped_phase, limited};
ghost use Rattle.tracker.specs.State.{with_state};
ghost use Rattle.tracker.specs.Lock.{settled};
ghost use Rattle.tracker.specs.Update.{updated};
ghost use Rattle.tracker_power_ratio.specs.PowerRatio.{ratio};
ghost use Rattle.tracker_block_diagonal.specs.Code.Joined.{joined, gains};
ghost use Rattle.tracker_one_frequency.specs.Code.Whole.{whole};

use crate::state::Single;
use tracker::correction::{enter, has_nan, limit, prior_of, wrap_phase};
use tracker::lock::settle;
use tracker::state::CarrierPllEkf;
use tracker_block_diagonal::correction::correct;
use tracker_block_diagonal::half::Gain;
use tracker_covariance::states::{Band, correct_state};
use tracker_measurement::angle::in_phase;
use tracker_measurement::measure::{detect, receive};
use tracker_measurement::modulation::Modulation;

// The states moved by the gain, the phase wrapped.
fn move_state(x: [f64; 6], k: Gain, z: f64, m: Modulation) -> [f64; 6]
    ensures { result ≡ wrapped_phase (corrected_state x (gains k) z) 0 m }
{
    let g = [k.p, k.f, k.c, 0.0, 0.0, 0.0];
    wrap_phase(correct_state(x, g, z), Band::First, m)
}

// The tracker at the states v, within their limits, and its lock.
fn settle_at(t: CarrierPllEkf, v: [f64; 6], norm_re: f64) -> CarrierPllEkf
    ensures { result ≡ settled (with_state t (limited v 0)) norm_re (ratio t.power.sum_abs_i t.power.sum_q_sq) }
{
    let pr = t.power.ratio();
    let u = CarrierPllEkf {
        x: limit(v, Band::First),
        ..t
    };
    settle(u, norm_re, pr)
}

impl Single {
    // One sample. w is a slice and no array of 2,048: the scope has a channel lend `&mut w[2048*i..2048*(i+1)]` of its memory. Where a number gets so large that the halves would not stay apart, or a NaN comes up, nothing is done. The order is for speed:
    // the covariance is corrected before the phase error is asked for, and the in-phase value, for which no state waits, comes last, so that the
    // next sample's angle is computed beside it.
    pub fn update(self, w: &mut [f64], sample: (f32, f32)) -> Option<Single>
        requires { length w.old ≡ 2048 }
        ensures { MatchOption result
            (w.new ≡ w.old)
            (λ after. (whole after, w.new) ≡ updated self.ekf (joined self.halves) w.old sample.0 sample.1) }
    {
        let t = self.ekf;
        let kind = t.modulation;
        let a = receive(prior_of(t, Band::First), sample.0, sample.1);
        let (k, halves) = correct(self.halves, a.r_effective)?;
        let d = detect(kind, a.point);
        let v = move_state(t.x, k, d.z, kind);
        if has_nan(v) {
            return None;
        }
        let e = CarrierPllEkf {
            envelope_ema: a.envelope_ema,
            ..t
        };
        let u = enter(e, w, d.abs_i, d.q_sq);
        let norm_re = in_phase(kind, d.error);
        let s = settle_at(u, v, norm_re);
        Some(Single { ekf: s, halves })
    }
}
