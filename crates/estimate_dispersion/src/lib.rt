// Module 8 of the scope: what the ionosphere does to two carriers from one satellite.
#![tactic(auto)]

ghost use Rattle.std.specs.Prelude.{◌≡◌};
ghost use Rattle.estimate_dispersion.specs.Dispersion.{dispersion_free, electron_content};

// `AppletonHartreeDispersion::cancel`: the offset free of dispersion, from the offsets d1 and d2 that two carriers f1 and f2 show.
#[tactic(auto, unfolding(crate::specs::Dispersion::dispersion_free))]
pub fn cancel(f1: f64, f2: f64, d1: f64, d2: f64) -> f64
    ensures { result ≡ dispersion_free f1 f2 d1 d2 }
{
    let f1_sq = f1 * f1;
    let f2_sq = f2 * f2;
    let diff = f1_sq - f2_sq;
    if ieee754::sign::abs(diff) < 1e-6 {
        return d1;
    }
    (f1_sq * d1 - f2_sq * d2) / diff
}

// The electron content on the way, from the carriers f1 and f2 and their phases. Where a carrier is 0, or the two are within 1e-6 of each
// other, there is none to tell, and it stays what it was. Not an Option: the public definition of a channel's electron content is by
// this one, which takes the old content.
pub fn electron_content(f1: f64, f2: f64, theta1: f64, theta2: f64, old: f64) -> f64
    ensures { result ≡ electron_content f1 f2 theta1 theta2 old }
{
    if f1 == 0.0 {
        return old;
    }
    if f2 == 0.0 {
        return old;
    }
    if !(ieee754::sign::abs(f1 - f2) > 1e-6) {
        return old;
    }
    let f1_sq = f1 * f1;
    let f2_sq = f2 * f2;
    let diff = f1_sq - f2_sq;
    ieee754::sign::abs(1.1839e-10 * (f1_sq * f2_sq / diff) * (theta1 / f1 - theta2 / f2))
}
