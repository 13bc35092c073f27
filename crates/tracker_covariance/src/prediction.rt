// Prediction of the covariance.
ghost use Rattle.std.specs.Prelude.{◌≡◌};
ghost use Rattle.tracker_covariance.specs.Transition.{by_f};
ghost use Rattle.tracker_covariance.specs.ProcessNoise.{same_frequency, noise_matrix};
ghost use Rattle.tracker_covariance.specs.Prediction.{sum_of, mean_of, predicted};
ghost use Rattle.tracker_covariance.specs.Code.Transposed.{transposed};

use crate::states::moved;
use ieee754::sign::abs;

// What one step adds to the variances of the first channel's phase, frequency and chirp, and the second frequency over the first.
#[derive(Clone, Copy)]
pub struct ProcessNoise {
    pub q_p: f64,
    pub q_f: f64,
    pub q_c: f64,
    pub ratio: f64,
}

// Whether the two frequencies count as equal.
pub fn same_frequency(ratio: f64) -> bool
    ensures { result ≡ same_frequency ratio }
{
    abs(ratio - 1.0) < 1e-6
}

// Q. The frequencies and the chirps of the two channels are coupled where the frequencies differ.
#[tactic(auto, unfolding(crate::specs::ProcessNoise::noise_matrix))]
fn noise_matrix(n: ProcessNoise) -> [f64; 36]
    ensures { result ≡ noise_matrix n }
{
    let r = n.ratio;
    let mut q = [0.0; 36];
    q[0] = n.q_p;
    q[7] = n.q_f;
    q[14] = n.q_c;
    q[21] = n.q_p;
    if same_frequency(r) {
        q[28] = n.q_f;
        q[35] = n.q_c;
        return q;
    }
    q[28] = n.q_f * r * r;
    q[35] = n.q_c * r * r;
    q[10] = n.q_f * r;
    q[25] = n.q_f * r;
    q[17] = n.q_c * r;
    q[32] = n.q_c * r;
    q
}

// (F·P)ᵀ: row r is F times column r of P. Done twice, it is F·P·Fᵀ.
// By rows: a matrix is 36 numbers in a row (the scope), and entry by entry with `from_fn` such a step takes five times as long, as its loop is not laid out.
fn transition_transposed(p: [f64; 36], dt: f64) -> [f64; 36]
    ensures { result ≡ transposed (by_f dt p) }
{
    let mut out = [0.0; 36];
    for r in 0..6 {
        let a = moved(p[r], p[6 + r], p[12 + r], dt);
        let b = moved(p[18 + r], p[24 + r], p[30 + r], dt);
        out[6 * r] = a[0];
        out[6 * r + 1] = a[1];
        out[6 * r + 2] = a[2];
        out[6 * r + 3] = b[0];
        out[6 * r + 4] = b[1];
        out[6 * r + 5] = b[2];
    }
    out
}

// P + Q.
fn sum(p: [f64; 36], q: [f64; 36]) -> [f64; 36]
    ensures { result ≡ sum_of p q }
{
    std::array::from_fn(|k| p[k] + q[k])
}

// The mean of P and its transpose, which keeps P symmetric. By rows and columns, as `transition_transposed`.
fn mean(p: [f64; 36]) -> [f64; 36]
    ensures { result ≡ mean_of p }
{
    let mut out = [0.0; 36];
    for r in 0..6 {
        for c in 0..6 {
            out[6 * r + c] = (p[6 * r + c] + p[6 * c + r]) * 0.5;
        }
    }
    out
}

// The covariance after the interval dt.
pub fn predict(p: [f64; 36], dt: f64, n: ProcessNoise) -> [f64; 36]
    ensures { result ≡ predicted dt n p }
{
    let left = transition_transposed(p, dt);
    let both = transition_transposed(left, dt);
    let q = noise_matrix(n);
    mean(sum(both, q))
}
