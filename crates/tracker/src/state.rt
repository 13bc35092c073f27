// The tracker's value, and how it starts.
ghost use Rattle.std.specs.Prelude.{◌≡◌, true};
ghost use Rattle.ieee754.specs.Binary64.{one};
ghost use Rattle.tracker.specs.State.{initial_tracker, reset_to};

use tracker_covariance::initial::initial;
use tracker_measurement::modulation::Modulation;
use tracker_power_ratio::PowerSums;

// What a tracker is opened with beside its modulation: the source's noise figures, its own interval, the ratio of the two frequencies and two switches.
#[repr(C)]
#[derive(Clone, Copy)]
pub struct Tuning {
    pub q_phase: f64,
    pub q_freq: f64,
    pub q_chirp: f64,
    pub r_meas: f64,
    pub ts: f64,
    pub frequency_ratio: f64,
    pub adaptive_ekf: bool,
    pub dual_lock: bool,
}

// A tracker: what it is opened with, and then its states, envelope, power sums and lock. The window of power pairs is lent memory; power says where in it the
// tracker is.
#[derive(Clone, Copy)]
pub struct CarrierPllEkf {
    pub modulation: Modulation,
    pub tuning: Tuning,
    pub x: [f64; 6],
    pub envelope_ema: f64,
    pub power: PowerSums,
    pub lock_metric: f64,
    pub is_locked: bool,
    pub convergence_guard: usize,
}

// A tracker and the 36 covariance numbers that travel with it.
#[derive(Clone, Copy)]
pub struct Tracked {
    pub ekf: CarrierPllEkf,
    pub p: [f64; 36],
}

// An empty window.
const NO_POWER: PowerSums = PowerSums {
    pushed: 0,
    sum_abs_i: 0.0,
    sum_q_sq: 0.0,
};

impl CarrierPllEkf {
    // The largest frequency, in rad/s, and the largest chirp, in rad/s².
    pub const MAX_FREQ: f64 = 2.0 * 3.141592653589793 * 50000.0;

    pub const MAX_CHIRP: f64 = 2.0 * 3.141592653589793 * 1000.0;

    // The updates after a reset that cannot unlock.
    pub const CONVERGENCE_GUARD: usize = 2048;

    #[tactic(auto, unfolding(crate::specs::State::initial_tracker))]
    pub fn new(fs: f64, modulation: Modulation) -> Tracked
        ensures { result ≡ initial_tracker fs modulation true true one }
    {
        let p = initial();
        let tuning = Tuning {
            q_phase: 0.1,
            q_freq: 5000.0,
            q_chirp: 10000.0,
            r_meas: 10.0,
            ts: 1.0 / fs,
            frequency_ratio: 1.0,
            adaptive_ekf: true,
            dual_lock: true,
        };
        let ekf = CarrierPllEkf {
            modulation,
            tuning,
            x: [0.0; 6],
            envelope_ema: 1.0,
            power: NO_POWER,
            lock_metric: 0.0,
            is_locked: false,
            convergence_guard: 0,
        };
        Tracked { ekf, p }
    }

    // The tracker locked anew at a phase, a frequency and a chirp.
    #[tactic(auto, unfolding(crate::specs::State::reset_to))]
    pub fn reset(self, phase: f64, freq_hz: f64, chirp_hz_s: f64) -> Tracked
        ensures { result ≡ reset_to self phase freq_hz chirp_hz_s }
    {
        let p = initial();
        let r = self.tuning.frequency_ratio;
        let f = 6.283185307179586 * freq_hz;
        let c = 6.283185307179586 * chirp_hz_s;
        let ekf = CarrierPllEkf {
            x: [phase, f, c, phase, f * r, c * r],
            envelope_ema: 1.0,
            power: NO_POWER,
            lock_metric: 0.5,
            is_locked: true,
            convergence_guard: CarrierPllEkf::CONVERGENCE_GUARD,
            ..self
        };
        Tracked { ekf, p }
    }
}
