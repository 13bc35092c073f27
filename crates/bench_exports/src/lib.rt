// Functions that bench/ measures and that the C interface does not export, under C names. Nothing else uses this crate.
#![tactic(auto)]

ghost use Rattle.std.specs.Prelude.{◌≡◌, false};
ghost use Rattle.std.specs.Float.{binary32, binary64};
ghost use Rattle.std.specs.Float.Ieee.{to_unsigned};
ghost use Rattle.sequences.specs.Pairs.{pairs};
ghost use Rattle.ieee754.specs.SquareRoot.{sqrt};
ghost use Rattle.ieee754.specs.Conversion.{convert};
ghost use Rattle.ieee754.specs.Remainder.{rem_euclid};
ghost use Rattle.ieee754.specs.Integral.{rounded_away};
ghost use Rattle.ieee754.specs.Order.{maximum, clamped};
ghost use Rattle.ieee754.specs.Sign.{absolute};
ghost use Rattle.ieee754.specs.Hypotenuse.{hypotenuse};
ghost use Rattle.survey.specs.Survey.{survey_of};
ghost use Rattle.estimate_correlation.specs.Correlation.{prepared};
ghost use Rattle.estimate_esprit.specs.Esprit.{estimate};
ghost use Rattle.estimate_snr.specs.MomentEstimate.{snr_of};

#[unsafe(no_mangle)]
pub extern "C" fn measured_sqrt(x: f64) -> f64
    ensures { result ≡ sqrt binary64 x }
{
    ieee754_roots::square_root::sqrt(x)
}

#[unsafe(no_mangle)]
pub extern "C" fn measured_f64_to_f32(x: f64) -> f32
    ensures { result ≡ convert binary32 x }
{
    ieee754::conversion::f64_to_f32(x)
}

#[unsafe(no_mangle)]
pub extern "C" fn measured_rem_euclid(x: f64, y: f64) -> f64
    ensures { result ≡ rem_euclid binary64 x y }
{
    ieee754::remainder::rem_euclid(x, y)
}

#[unsafe(no_mangle)]
pub extern "C" fn measured_round(x: f64) -> f64
    ensures { result ≡ rounded_away binary64 x }
{
    ieee754::integral::round(x)
}

#[unsafe(no_mangle)]
pub extern "C" fn measured_to_usize(x: f64) -> usize
    ensures { result ≡ to_unsigned 64 x }
{
    ieee754::integral::to_usize(x)
}

#[unsafe(no_mangle)]
pub extern "C" fn measured_max(x: f64, y: f64) -> f64
    ensures { result ≡ maximum x y }
{
    ieee754::order::max(x, y)
}

#[unsafe(no_mangle)]
pub extern "C" fn measured_clamp(x: f64, lo: f64, hi: f64) -> f64
    ensures { result ≡ clamped x lo hi }
{
    ieee754::order::clamp(x, lo, hi)
}

#[unsafe(no_mangle)]
pub extern "C" fn measured_abs(x: f64) -> f64
    ensures { result ≡ absolute x }
{
    ieee754::sign::abs(x)
}

#[unsafe(no_mangle)]
pub extern "C" fn measured_hypot(x: f64, y: f64) -> f64
    ensures { result ≡ hypotenuse x y }
{
    ieee754_roots::hypotenuse::hypot(x, y)
}

#[unsafe(no_mangle)]
pub extern "C" fn measured_hypotf(x: f32, y: f32) -> f32
    ensures { result ≡ convert binary32 (hypotenuse x y) }
{
    ieee754_roots::hypotenuse::hypotf(x, y)
}

#[unsafe(no_mangle)]
pub extern "C" fn measured_survey(samples: &[f32]) -> u64
    ensures { result ≡ survey_of (pairs samples.now) }
{
    survey::survey(samples)
}

#[unsafe(no_mangle)]
pub extern "C" fn measured_estimate(samples: &[f32], rate: f64) -> f64
    ensures { result ≡ estimate (prepared false samples.now) rate }
{
    estimate_esprit::estimate_frequency_esprit(samples, false, rate)
}

#[unsafe(no_mangle)]
pub extern "C" fn measured_snr(samples: &[f32]) -> f64
    ensures { result ≡ snr_of samples.now }
{
    estimate_snr::estimate_snr(samples)
}
