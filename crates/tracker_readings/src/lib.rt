// Modules 7 and 9 of the scope: what is read from a tracker, its frequencies in hertz and its phase.
// Functions, and no methods: a tracker is a type of a crate below, where alone it can have methods.
#![tactic(auto)]

ghost use Rattle.std.specs.Prelude.{◌≡◌, ◌+◌};
ghost use Rattle.tracker_covariance.specs.States as states;
ghost use Rattle.tracker_readings.specs.Readings.{scale, hertz, phase_at};

use tracker::state::CarrierPllEkf;
use tracker_covariance::states::Band;
use tracker_measurement::modulation::Modulation;

// What a state is divided by: BPSK is tracked at twice its phase.
#[tactic(auto, unfolding(crate::specs::Readings::scale))]
pub fn scale_of(m: Modulation) -> f64
    ensures { result ≡ scale m }
{
    match m {
        Modulation::Carrier | Modulation::Qpsk => 1.0,
        Modulation::Bpsk => 2.0,
    }
}

// The frequency of a channel at the scale k.
#[tactic(auto, unfolding(crate::specs::Readings::hertz))]
pub fn frequency_of(k: f64, t: CarrierPllEkf, band: Band) -> f64
    ensures { result ≡ hertz k t (1 + states.phase_of band) }
{
    t.x[band.phase_index() + 1] / k / 6.283185307179586
}

// The phase at the scale k.
#[tactic(auto, unfolding(crate::specs::Readings::phase_at))]
pub fn phase_of(k: f64, t: CarrierPllEkf) -> f64
    ensures { result ≡ phase_at k t }
{
    t.x[0] / k
}
