// From a fixed-point number to an f64.
ghost use Rattle.std.specs.Prelude.{◌≡◌};
ghost use Rattle.elementary_series.specs.Conversion.{scaled};

// d units: the nearest f64 to d, times the unit.
pub fn to_f64(d: u64, unit: f64) -> f64
    ensures { result ≡ scaled d unit }
{
    elementary_fixed_point::conversion::to_f64(d, unit)
}
