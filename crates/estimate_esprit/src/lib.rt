// Module 4 of the scope, its second half: the frequency of the strongest carrier in interleaved samples.
#![tactic(auto)]

mod phase;
mod power_iteration;

ghost use Rattle.std.specs.Prelude.{◌≡◌};
ghost use Rattle.estimate_correlation.specs.Correlation.{prepared};
ghost use Rattle.estimate_esprit.specs.Esprit.{estimate};

// In Hz, from minus to plus half the sample rate. `squared` estimates from the samples' squares, in which BPSK has a carrier. Of an odd
// length the last number is not read.
pub fn estimate_frequency_esprit(samples: &[f32], squared: bool, sample_rate: f64) -> f64
    ensures { result ≡ estimate (prepared squared samples.now) sample_rate }
{
    let n = samples.len() / 2;
    if n < 10 {
        return 0.0;
    }
    let r_xx = estimate_correlation::correlation_matrix(samples, n - 9, squared);
    let u = power_iteration::strongest_vector(&r_xx, 15);
    phase::frequency_of(&u, sample_rate)
}
