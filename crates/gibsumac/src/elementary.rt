// The elementary functions, for callers in other languages.
ghost use Rattle.std.specs.Prelude.{◌≡◌};
ghost use Rattle.std.specs.Float.{binary32, binary64};
ghost use Rattle.ieee754.specs.SquareRoot.{sqrt};
ghost use Rattle.ieee754.specs.Conversion.{convert};
ghost use Rattle.ieee754.specs.Hypotenuse.{hypotenuse};
ghost use Rattle.elementary_sincos.specs.Steps.{sine, cosine};
ghost use Rattle.elementary_sincos.specs.Promise.{SinePromise, CosinePromise};
ghost use Rattle.elementary_arctangent.specs.Steps.{atan2_of};
ghost use Rattle.elementary_arctangent.specs.Promise.{Arctangent};
ghost use Rattle.elementary_logarithm.specs.Steps.{log10_of};
ghost use Rattle.elementary_logarithm.specs.Promise.{CommonLogarithm};

#[unsafe(no_mangle)]
pub extern "C" fn gibsumac_sin(theta: f64) -> f64
    ensures bits { result ≡ sine theta }
    ensures near { SinePromise theta result }
{
    elementary_sincos::sin(theta)
}

#[unsafe(no_mangle)]
pub extern "C" fn gibsumac_cos(theta: f64) -> f64
    ensures bits { result ≡ cosine theta }
    ensures near { CosinePromise theta result }
{
    elementary_sincos::cos(theta)
}

#[unsafe(no_mangle)]
pub extern "C" fn gibsumac_atan2(y: f64, x: f64) -> f64
    ensures bits { result ≡ atan2_of y x }
    ensures near { Arctangent y x result }
{
    elementary_arctangent::atan2(y, x)
}

#[unsafe(no_mangle)]
pub extern "C" fn gibsumac_log10(x: f64) -> f64
    ensures bits { result ≡ log10_of x }
    ensures near { CommonLogarithm x result }
{
    elementary_logarithm::log10(x)
}

#[unsafe(no_mangle)]
pub extern "C" fn gibsumac_hypot(x: f64, y: f64) -> f64
    ensures { result ≡ hypotenuse x y }
{
    ieee754_roots::hypotenuse::hypot(x, y)
}

#[unsafe(no_mangle)]
pub extern "C" fn gibsumac_hypotf(x: f32, y: f32) -> f32
    ensures { result ≡ convert binary32 (hypotenuse x y) }
{
    ieee754_roots::hypotenuse::hypotf(x, y)
}

#[unsafe(no_mangle)]
pub extern "C" fn gibsumac_sqrt(x: f64) -> f64
    ensures { result ≡ sqrt binary64 x }
{
    ieee754_roots::square_root::sqrt(x)
}
