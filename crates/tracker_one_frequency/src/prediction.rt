// Prediction over an interval.
ghost use Rattle.std.specs.Prelude.{◌≡◌};
ghost use Rattle.tracker.specs.Prediction.{predicted_over};
ghost use Rattle.tracker_block_diagonal.specs.Code.Joined.{joined};
ghost use Rattle.tracker_block_diagonal.specs.Code.Steady.{Steady};
ghost use Rattle.tracker_one_frequency.specs.Code.Whole.{whole};

use crate::state::Single;
use tracker::prediction::process_noise;
use tracker::state::CarrierPllEkf;
use tracker_covariance::states::predict_state;

impl Single {
    pub fn predict(self, dt: f64) -> Single
        requires { Steady dt self.ekf.tuning.frequency_ratio }
        ensures { whole result ≡ predicted_over dt self.ekf (joined self.halves) }
    {
        let t = self.ekf;
        let n = process_noise(t, dt);
        Single {
            ekf: CarrierPllEkf {
                x: predict_state(t.x, dt),
                ..t
            },
            halves: tracker_block_diagonal::prediction::predict(self.halves, dt, n),
        }
    }
}
