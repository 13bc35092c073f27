// Prediction over an interval.
ghost use Rattle.std.specs.Prelude.{◌≡◌};
ghost use Rattle.tracker.specs.Prediction.{noise_scale, process_noise, predicted_over};

use crate::state::{CarrierPllEkf, Tracked};
use ieee754::order::clamp;
use tracker_covariance::prediction::ProcessNoise;
use tracker_covariance::states::predict_state;

// The factor of the process noise: smaller as the lock gets better.
#[tactic(auto, unfolding(crate::specs::Prediction::noise_scale))]
fn noise_scale(adaptive: bool, lock_metric: f64) -> f64
    ensures { result ≡ noise_scale adaptive lock_metric }
{
    if adaptive {
        1.0 - 0.9 * clamp(lock_metric, 0.0, 1.0)
    } else {
        1.0
    }
}

#[tactic(auto, unfolding(crate::specs::Prediction::process_noise))]
pub fn process_noise(t: CarrierPllEkf, dt: f64) -> ProcessNoise
    ensures { result ≡ process_noise dt t }
{
    let s = noise_scale(t.tuning.adaptive_ekf, t.lock_metric);
    ProcessNoise {
        q_p: t.tuning.q_phase * s * dt,
        q_f: t.tuning.q_freq * s * dt,
        q_c: t.tuning.q_chirp * s * dt,
        ratio: t.tuning.frequency_ratio,
    }
}

impl Tracked {
    // x becomes F·x, and P the mean of F·P·Fᵀ + Q and its transpose. The source sets the tracker's interval to dt, predicts and puts its own back; here dt
    // is an argument.
    pub fn predict(self, dt: f64) -> Tracked
        ensures { result ≡ predicted_over dt self.ekf self.p }
    {
        let n = process_noise(self.ekf, dt);
        Tracked {
            ekf: CarrierPllEkf {
                x: predict_state(self.ekf.x, dt),
                ..self.ekf
            },
            p: tracker_covariance::prediction::predict(self.p, dt, n),
        }
    }
}
