// The envelope of the signal, and R, the variance of the measured phase.
ghost use Rattle.std.specs.Prelude.{◌≡◌};
ghost use Rattle.tracker_measurement.specs.Noise.{envelope, relative_amplitude, snr_factor, fade_factor, effective_noise};

use ieee754::order::{clamp, max};

// The running mean of the amplitude.
#[tactic(auto, unfolding(crate::specs::Noise::envelope))]
pub fn envelope_of(old: f64, amplitude: f64) -> f64
    ensures { result ≡ envelope old amplitude }
{
    0.995 * old + 0.005 * amplitude
}

#[tactic(auto, unfolding(crate::specs::Noise::relative_amplitude))]
fn relative_amplitude(amplitude: f64, envelope: f64) -> f64
    ensures { result ≡ relative_amplitude amplitude envelope }
{
    if envelope > 1e-6 {
        amplitude / envelope
    } else {
        1.0
    }
}

// Larger while the lock is poor.
#[tactic(auto, unfolding(crate::specs::Noise::snr_factor))]
fn snr_factor(lock_metric: f64) -> f64
    ensures { result ≡ snr_factor lock_metric }
{
    let m = clamp(lock_metric, 0.001, 0.999);
    clamp((1.0 - m) / m, 0.1, 100.0)
}

// Larger in a fade.
#[tactic(auto, unfolding(crate::specs::Noise::fade_factor))]
fn fade_factor(amplitude: f64, envelope: f64) -> f64
    ensures { result ≡ fade_factor amplitude envelope }
{
    let a = relative_amplitude(amplitude, envelope);
    1.0 / max(a * a, 0.0001)
}

// R.
#[tactic(auto, unfolding(crate::specs::Noise::effective_noise))]
pub fn effective_noise(r_meas: f64, lock_metric: f64, amplitude: f64, envelope: f64) -> f64
    ensures { result ≡ effective_noise r_meas lock_metric amplitude envelope }
{
    let s = snr_factor(lock_metric);
    let f = fade_factor(amplitude, envelope);
    r_meas * s * f
}
