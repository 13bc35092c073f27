// All that one sample says.
ghost use Rattle.std.specs.Prelude.{◌≡◌};
ghost use Rattle.tracker_measurement.specs.Measurement.{measured};
ghost use Rattle.tracker_measurement.specs.Code.Parts.{received, detected};

use crate::angle::{in_phase, phase_error};
use crate::modulation::{Modulation, wrap};
use crate::noise::{effective_noise, envelope_of};
use crate::sample::{Point, amplitude_of, derotate, fold, used_sample};
use ieee754::sign::abs;

// What is known before the sample.
#[derive(Clone, Copy)]
pub struct Prior {
    pub modulation: Modulation,
    pub theta_pred: f64,
    pub lock_metric: f64,
    pub r_meas: f64,
    pub envelope_ema: f64,
}

// What the covariance waits for: the sample turned back by the predicted phase; the envelope with the sample in it; R, the variance that it is measured with.
#[derive(Clone, Copy)]
pub struct Received {
    pub point: Point,
    pub envelope_ema: f64,
    pub r_effective: f64,
}

// re and im by themselves and no pair, here and above: the definition `measured` has them so, and `used_sample` takes them apart.
// Compiled into each of its callers, for speed. The amplitude, which does not wait for the phase, comes first.
#[inline(always)]
#[tactic(auto, unfolding(crate::specs::Code::Parts::received))]
pub fn receive(prior: Prior, re: f32, im: f32) -> Received
    ensures { result ≡ received prior re im }
{
    let s = used_sample(prior.modulation, re, im);
    let amp = amplitude_of(s);
    let point = derotate(prior.theta_pred, s);
    let envelope_ema = envelope_of(prior.envelope_ema, amp);
    Received {
        point,
        envelope_ema,
        r_effective: effective_noise(prior.r_meas, prior.lock_metric, amp, envelope_ema),
    }
}

// What the phase detector gives: the phase error, and wrapped, the innovation; the pair for the power ratio.
#[derive(Clone, Copy)]
pub struct Detected {
    pub error: f64,
    pub z: f64,
    pub abs_i: f64,
    pub q_sq: f64,
}

#[tactic(auto, unfolding(crate::specs::Code::Parts::detected))]
pub fn detect(m: Modulation, point: Point) -> Detected
    ensures { result ≡ detected m point }
{
    let error = phase_error(m, point);
    let n = fold(m, point);
    Detected {
        error,
        z: wrap(m, error),
        abs_i: abs(n.re),
        q_sq: n.im * n.im,
    }
}

// The innovation, wrapped; the in-phase value; the pair for the power ratio; the envelope with this sample in it; R.
// Not of `Received` and `Detected`: the definition `measured` and those of a correction name these six, and not the turned sample and its error.
#[derive(Clone, Copy)]
pub struct Measured {
    pub z: f64,
    pub norm_re: f64,
    pub abs_i: f64,
    pub q_sq: f64,
    pub envelope_ema: f64,
    pub r_effective: f64,
}

pub fn measure(prior: Prior, re: f32, im: f32) -> Measured
    ensures { result ≡ measured prior re im }
{
    let a = receive(prior, re, im);
    let d = detect(prior.modulation, a.point);
    Measured {
        z: d.z,
        norm_re: in_phase(prior.modulation, d.error),
        abs_i: d.abs_i,
        q_sq: d.q_sq,
        envelope_ema: a.envelope_ema,
        r_effective: a.r_effective,
    }
}
