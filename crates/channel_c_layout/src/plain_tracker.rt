// A tracker in the layout of C.
ghost use Rattle.std.specs.Prelude.{◌≡◌};
ghost use Rattle.channel_c_layout.specs.Trackers.{plain_tracker, real_tracker};

use tracker::state::{CarrierPllEkf, Tracked, Tuning};
use tracker_measurement::modulation::Modulation;
use tracker_power_ratio::PowerSums;

// A tracker and its covariance, with a number for the modulation.
#[repr(C)]
#[derive(Clone, Copy)]
pub struct PlainTracker {
    pub modulation: u64,
    pub tuning: Tuning,
    pub x: [f64; 6],
    pub p: [f64; 36],
    pub envelope_ema: f64,
    pub power: PowerSums,
    pub lock_metric: f64,
    pub is_locked: bool,
    pub convergence_guard: usize,
}

impl From<Tracked> for PlainTracker {
    ghost from_gives = { λ h p. p ≡ plain_tracker h };

    #[tactic(auto, unfolding(crate::specs::Trackers::plain_tracker))]
    fn from(h: Tracked) -> PlainTracker {
        let t = h.ekf;
        let x = t.x;
        let p = h.p;
        PlainTracker {
            modulation: t.modulation.number(),
            tuning: t.tuning,
            x,
            p,
            envelope_ema: t.envelope_ema,
            power: t.power,
            lock_metric: t.lock_metric,
            is_locked: t.is_locked,
            convergence_guard: t.convergence_guard,
        }
    }
}

impl From<PlainTracker> for Tracked {
    ghost from_gives = { λ p h. h ≡ real_tracker p };

    #[tactic(auto, unfolding(crate::specs::Trackers::real_tracker, channel_model::specs::Opening::modulation_of))]
    fn from(t: PlainTracker) -> Tracked {
        let x = t.x;
        let p = t.p;
        Tracked {
            ekf: CarrierPllEkf {
                modulation: Modulation::from(t.modulation),
                tuning: t.tuning,
                x,
                envelope_ema: t.envelope_ema,
                power: t.power,
                lock_metric: t.lock_metric,
                is_locked: t.is_locked,
                convergence_guard: t.convergence_guard,
            },
            p,
        }
    }
}
