// What a tracker shows: phase, frequency and electron content.
ghost use Rattle.std.specs.Prelude.{◌≡◌};
ghost use Rattle.channel_model.specs.Readout as model;

use channel_model::{Carriers, Reading};
use estimate_dispersion::{cancel, electron_content};
use tracker::state::CarrierPllEkf;
use tracker_covariance::states::Band;
use tracker_readings::{frequency_of, phase_of};

// The frequency that offsets are counted from: the nominal one, or the target where that is 0.
#[tactic(auto, unfolding(channel_model::specs::Readout::centre))]
pub fn centre(nominal: f64, target: f64) -> f64
    ensures { result ≡ model.centre nominal target }
{
    if nominal == 0.0 { target } else { nominal }
}

// The frequency that a tracker shows with this target, at the scale k. With two frequencies the dispersion is cancelled.
// Not an Option of the second carrier: the setup and the carriers are the structs that C has, with a switch for two frequencies.
#[tactic(auto, unfolding(channel_model::specs::Readout::frequency_at))]
pub fn frequency_at(two: bool, k: f64, carriers: Carriers, target: f64, ekf: CarrierPllEkf) -> f64
    ensures { result ≡ model.frequency_at two k carriers target ekf }
{
    let offset = frequency_of(k, ekf, Band::First);
    if two {
        cancel(
            carriers.nominal,
            carriers.frequency2,
            target + offset,
            carriers.target2 + frequency_of(k, ekf, Band::Second),
        )
    } else {
        centre(carriers.nominal, target) + offset
    }
}

// The electron content: 0 with one frequency; with two, what it was where the targets do not tell it. The phases are not scaled.
#[tactic(auto, unfolding(channel_model::specs::Readout::electrons_of))]
pub fn electrons_of(two: bool, carriers: Carriers, ekf: CarrierPllEkf, old: f64) -> f64
    ensures { result ≡ model.electrons_of two carriers ekf old }
{
    if two {
        electron_content(carriers.target, carriers.target2, ekf.x[0], ekf.x[3], old)
    } else {
        0.0
    }
}

// All that a tracker shows; the SNR is not the tracker's, and stays.
#[tactic(auto, unfolding(channel_model::specs::Readout::read_from))]
pub fn read_from(two: bool, k: f64, carriers: Carriers, ekf: CarrierPllEkf, old: Reading) -> Reading
    ensures { result ≡ model.read_from two k carriers ekf old }
{
    Reading {
        phase: phase_of(k, ekf),
        frequency: frequency_at(two, k, carriers, carriers.target, ekf),
        electrons: electrons_of(two, carriers, ekf, old.electrons),
        ..old
    }
}
