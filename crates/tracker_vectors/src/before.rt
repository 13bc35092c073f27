// What a line has of a tracker before a step. b is the line from there on.
ghost use Rattle.std.specs.Prelude.{◌≡◌};
ghost use Rattle.tracker_vectors.specs.Code.Before.{tuning_from, tracker_from, window_from};

use tracker::state::{CarrierPllEkf, Tuning};
use tracker_measurement::modulation::Modulation;
use tracker_power_ratio::PowerSums;
use vectors::line::{Word, array_in, rest};

// A new tracker's tuning, with the line's measurement noise.
#[tactic(auto, unfolding(crate::specs::Code::Before::tuning_from, tracker::specs::State::initial_tracker))]
fn tuning_in(b: &[u64], dual_lock: bool) -> Tuning
    ensures { result ≡ tuning_from dual_lock b.now }
{
    let new = CarrierPllEkf::new(1000.0, Modulation::Carrier);
    Tuning {
        r_meas: f64::at(b, 44),
        dual_lock,
        ..new.ekf.tuning
    }
}

// The tracker.
#[tactic(auto, unfolding(crate::specs::Code::Before::tracker_from, crate::specs::Code::Before::power_from))]
pub fn tracker_in(b: &[u64], dual_lock: bool, guard: usize) -> CarrierPllEkf
    ensures { result ≡ tracker_from dual_lock guard b.now }
{
    CarrierPllEkf {
        modulation: Modulation::from(u64::at(b, 0)),
        tuning: tuning_in(b, dual_lock),
        x: array_in(rest(b, 2)),
        envelope_ema: f64::at(b, 46),
        power: PowerSums {
            pushed: usize::at(b, 49),
            sum_abs_i: f64::at(b, 47),
            sum_q_sq: f64::at(b, 48),
        },
        lock_metric: f64::at(b, 45),
        is_locked: bool::at(b, 1),
        convergence_guard: guard,
    }
}

// The window: the oldest pair stands in slot 0, where the next one goes if the ring is full or empty.
#[tactic(auto, using(std::proofs::lemmas::Bool::Decides::nat_tests), unfolding(crate::specs::Code::Before::window_from, crate::specs::Code::Before::no_pairs))]
pub fn window_in(b: &[u64]) -> [f64; 2048]
    ensures { result ≡ window_from b.now }
{
    let mut w = [0.0; 2048];
    if u64::at(b, 49) % 1024 == 0 {
        w[0] = f64::at(b, 50);
        w[1] = f64::at(b, 51);
    }
    w
}
