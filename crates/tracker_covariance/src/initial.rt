// The covariance at the start.
ghost use Rattle.std.specs.Prelude.{◌≡◌};
ghost use Rattle.tracker_covariance.specs.Initial.{initial_covariance};

// The covariance of a tracker that was opened, reset or lost.
#[tactic(auto, unfolding(crate::specs::Initial::initial_covariance))]
pub fn initial() -> [f64; 36]
    ensures { result ≡ initial_covariance }
{
    let f = 6.283185307179586 * 100.0;
    let c = 6.283185307179586 * 50.0;
    let mut p = [0.0; 36];
    p[0] = 1.0;
    p[7] = f * f;
    p[14] = c * c;
    p[21] = 1.0;
    p[28] = f * f;
    p[35] = c * c;
    p
}
