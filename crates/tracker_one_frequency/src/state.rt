// The value of such a tracker.
use tracker::state::CarrierPllEkf;
use tracker_block_diagonal::half::Halves;

// Not `Tracked` over a kind of covariance: the scope names its 36 numbers, so a parameter would stand in each definition of a tracker above, and the two share
// no more than the seven lines of `predict`.
#[derive(Clone, Copy)]
pub struct Single {
    pub ekf: CarrierPllEkf,
    pub halves: Halves,
}
