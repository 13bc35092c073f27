// Trackers that are the same: every field is, and the covariance.
use crate::same::Same;
use tracker::state::{CarrierPllEkf, Tracked, Tuning};
use tracker_power_ratio::PowerSums;

impl Same for Tuning {
    #[tactic(auto, using(crate::proofs::EqualBits::both))]
    fn same(&self, other: &Tuning) -> bool {
        self.q_phase.same(&other.q_phase)
            & self.q_freq.same(&other.q_freq)
            & self.q_chirp.same(&other.q_chirp)
            & self.r_meas.same(&other.r_meas)
            & self.ts.same(&other.ts)
            & self.frequency_ratio.same(&other.frequency_ratio)
            & self.adaptive_ekf.same(&other.adaptive_ekf)
            & self.dual_lock.same(&other.dual_lock)
    }
}

impl Same for PowerSums {
    fn same(&self, other: &PowerSums) -> bool {
        self.pushed.same(&other.pushed)
            & self.sum_abs_i.same(&other.sum_abs_i)
            & self.sum_q_sq.same(&other.sum_q_sq)
    }
}

impl Same for CarrierPllEkf {
    #[tactic(auto, using(crate::proofs::EqualBits::both))]
    fn same(&self, other: &CarrierPllEkf) -> bool {
        self.modulation.same(&other.modulation)
            & self.tuning.same(&other.tuning)
            & self.x.same(&other.x)
            & self.envelope_ema.same(&other.envelope_ema)
            & self.power.same(&other.power)
            & self.lock_metric.same(&other.lock_metric)
            & self.is_locked.same(&other.is_locked)
            & self.convergence_guard.same(&other.convergence_guard)
    }
}

impl Same for Tracked {
    fn same(&self, other: &Tracked) -> bool {
        self.ekf.same(&other.ekf) & self.p.same(&other.p)
    }
}
