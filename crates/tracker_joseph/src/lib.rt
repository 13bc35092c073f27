// Module 3 of the scope: the covariance after a correction: the floor, then Joseph's form. It is generic over the channel, so that the place of the
// channel's phase is a constant where it is compiled, and all of it is compiled in one piece, without copies.
#![tactic(auto)]

ghost use Rattle.std.specs.Prelude.{◌≡◌};
ghost use Rattle.tracker_covariance.specs.States.{phase_of};
ghost use Rattle.tracker_covariance.specs.Correction.{joseph_left, joseph_right, corrected};

use tracker_covariance::correction::floor_diagonal;
use tracker_covariance::states::Channel;

// (I − K·h)·P, h picking the channel's phase.
// Both by rows and columns: with `from_fn` over the 36 places the two and the mean took 250 ns for 55, as its loop is not laid out.
fn left<C: Channel>(p: [f64; 36], k: [f64; 6]) -> [f64; 36]
    ensures { result ≡ joseph_left p (phase_of C.BAND) k }
{
    let i = C::BAND.phase_index();
    let mut out = [0.0; 36];
    for r in 0..6 {
        for c in 0..6 {
            out[6 * r + c] = p[6 * r + c] - k[r] * p[6 * i + c];
        }
    }
    out
}

// T·(I − K·h)ᵀ + K·R·Kᵀ.
fn right<C: Channel>(t: [f64; 36], k: [f64; 6], noise: f64) -> [f64; 36]
    ensures { result ≡ joseph_right t (phase_of C.BAND) k noise }
{
    let i = C::BAND.phase_index();
    let mut out = [0.0; 36];
    for r in 0..6 {
        for c in 0..6 {
            out[6 * r + c] = t[6 * r + c] - t[6 * r + i] * k[c] + k[r] * k[c] * noise;
        }
    }
    out
}

// The covariance after a correction by the channel with the gain k.
#[tactic(auto, unfolding(tracker_covariance::specs::Correction::corrected))]
pub fn correct<C: Channel>(p: [f64; 36], k: [f64; 6], noise: f64) -> [f64; 36]
    ensures { result ≡ corrected p (phase_of C.BAND) k noise }
{
    right::<C>(left::<C>(floor_diagonal(p), k), k, noise)
}
