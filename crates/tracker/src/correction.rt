// The steps of a correction by one sample that are the same on both frequencies, and what a correction answers.
ghost use Rattle.std.specs.Prelude.{◌≡◌, length, is_nan};
ghost use Rattle.std.specs.List.{list_any};
ghost use Rattle.tracker_covariance.specs.declared.states.Band.TheVariants.{First};
ghost use Rattle.tracker_covariance.specs.States.{phase_of};
ghost use Rattle.tracker.specs.State.{lost_tracker};
ghost use Rattle.tracker.specs.Correction.{prior_of, any_nan, wrapped_phase, limited, windowed};

use crate::state::CarrierPllEkf;
use ieee754::order::clamp;
use tracker_covariance::states::Band;
use tracker_measurement::measure::Prior;
use tracker_measurement::modulation::{Modulation, wrap};

// What a correction answers: the in-phase value and the power ratio, or that the tracker was lost. Not an Option of a pair: the scope names the two cases.
#[derive(Clone, Copy)]
pub enum Correction {
    Kept(f64, f64),
    Lost,
}

// A corrected tracker with its covariance, and the answer beside them.
#[derive(Clone, Copy)]
pub struct Corrected {
    pub ekf: CarrierPllEkf,
    pub p: [f64; 36],
    pub answer: Correction,
}

// What the tracker knows of a channel before its sample.
pub fn prior_of(t: CarrierPllEkf, band: Band) -> Prior
    ensures { result ≡ prior_of t (phase_of band) }
{
    let i = band.phase_index();
    Prior {
        modulation: t.modulation,
        theta_pred: t.x[i],
        lock_metric: t.lock_metric,
        r_meas: t.tuning.r_meas,
        envelope_ema: t.envelope_ema,
    }
}

// Apart from `has_nan`, since the check follows the chain only where its own clause is the test of a list.
fn contains_nan(x: &[f64]) -> bool
    ensures { result ≡ list_any is_nan x.now }
{
    x.iter().any(|v| v.is_nan())
}

pub fn has_nan(x: [f64; 6]) -> bool
    ensures { result ≡ any_nan x }
{
    contains_nan(&x)
}

// The channel's phase wrapped.
pub fn wrap_phase(x: [f64; 6], band: Band, m: Modulation) -> [f64; 6]
    ensures { result ≡ wrapped_phase x (phase_of band) m }
{
    let i = band.phase_index();
    let mut y = x;
    y[i] = wrap(m, x[i]);
    y
}

// The channel's frequency and chirp within their limits.
pub fn limit(x: [f64; 6], band: Band) -> [f64; 6]
    ensures { result ≡ limited x (phase_of band) }
{
    let i = band.phase_index();
    let f = clamp(x[i + 1], -CarrierPllEkf::MAX_FREQ, CarrierPllEkf::MAX_FREQ);
    let c = clamp(
        x[i + 2],
        -CarrierPllEkf::MAX_CHIRP,
        CarrierPllEkf::MAX_CHIRP,
    );
    let mut y = x;
    y[i + 1] = f;
    y[i + 2] = c;
    y
}

pub fn lose(t: CarrierPllEkf) -> CarrierPllEkf
    ensures { result ≡ lost_tracker t }
{
    CarrierPllEkf {
        x: [0.0; 6],
        lock_metric: 0.0,
        is_locked: false,
        ..t
    }
}

// The first channel's pair enters the window; the second has none. The window is a slice and no array of 2,048: the scope has a channel lend
// `&mut w[2048*i..2048*(i+1)]` of its memory.
pub fn enter(t: CarrierPllEkf, w: &mut [f64], abs_i: f64, q_sq: f64) -> CarrierPllEkf
    requires { length w.old ≡ 2048 }
    ensures { (result, w.new) ≡ windowed First t w.old abs_i q_sq }
{
    CarrierPllEkf {
        power: t.power.push(w, abs_i, q_sq),
        ..t
    }
}
