// Module 6 of the scope: the signal-to-noise ratio of interleaved samples, estimated from the second and the fourth moment (M2M4).
#![tactic(auto)]

ghost use Rattle.std.specs.Prelude.{◌≡◌};
ghost use Rattle.std.specs.Float.{binary32};
ghost use Rattle.ieee754.specs.Binary64.{square};
ghost use Rattle.sums.specs.Complex.{norm_sqr};
ghost use Rattle.estimate_snr.specs.MomentEstimate.{mean, signal_power, decibels, snr_of};

// The mean power of the samples, and the mean square of the power.
#[derive(Clone, Copy)]
struct Moments {
    m2: f64,
    m4: f64,
}

impl Moments {
    // Each sample's power is an f32, converted by the library's function, which is the hardware's conversion and exact: with ieee754's, which looks for a
    // subnormal first, the loop took an eighth longer. The sums are f64. An odd last number is not read.
    fn of(samples: &[f32]) -> Moments
        ensures m2 { result.m2 ≡ mean (norm_sqr binary32) samples.now }
        ensures m4 { result.m4 ≡ mean (λ a. square (norm_sqr binary32 a)) samples.now }
    {
        let (pairs, _) = samples.as_chunks::<2>();
        let mut m2 = 0.0;
        let mut m4 = 0.0;
        for &[re, im] in pairs {
            let power = f64::from(re * re + im * im);
            m2 += power;
            m4 += power * power;
        }
        let n = ieee754::conversion::u64_to_f64(pairs.len() as u64);
        Moments {
            m2: m2 / n,
            m4: m4 / n,
        }
    }

    #[tactic(auto, unfolding(crate::specs::MomentEstimate::signal_power))]
    fn signal_power(self) -> f64
        ensures { result ≡ signal_power self.m2 self.m4 }
    {
        let v = 2.0 * self.m2 * self.m2 - self.m4;
        if v > 0.0 {
            return ieee754_roots::square_root::sqrt(v);
        }
        0.0
    }
}

// A power that is not above 1e-10, a NaN too, counts as none.
#[tactic(auto, unfolding(crate::specs::MomentEstimate::decibels))]
fn ratio_in_decibels(ps: f64, pn: f64) -> f64
    ensures { result ≡ decibels ps pn }
{
    if !(ps > 1e-10) {
        return -20.0;
    }
    if !(pn > 1e-10) {
        return 40.0;
    }
    ieee754::order::clamp(10.0 * elementary_logarithm::log10(ps / pn), -20.0, 40.0)
}

#[tactic(auto, unfolding(crate::specs::MomentEstimate::snr_of))]
pub fn estimate_snr(samples: &[f32]) -> f64
    ensures { result ≡ snr_of samples.now }
{
    if samples.len() / 2 == 0 {
        return -20.0;
    }
    let moments = Moments::of(samples);
    let ps = moments.signal_power();
    ratio_in_decibels(ps, moments.m2 - ps)
}
