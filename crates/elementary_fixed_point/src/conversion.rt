// From an f64 to a fixed-point number and back.
ghost use Rattle.std.specs.Prelude.{◌≡◌};
ghost use Rattle.elementary_fixed_point.specs.Conversion.{fixed, scaled};
ghost use Rattle.elementary_fixed_point.specs.Code.Bounds.{Fixable};

// r in units of 2^-61, rounded down, for an r from 0 to below 8.
pub fn from_f64(r: f64) -> u64
    requires { Fixable r }
    ensures { result ≡ fixed r }
{
    std::num::truncating_f64_to_u64(r * 2305843009213693952.0)
}

// d units: the nearest f64 to d, times the unit.
#[tactic(auto, unfolding(crate::specs::Conversion::scaled))]
pub fn to_f64(d: u64, unit: f64) -> f64
    ensures { result ≡ scaled d unit }
{
    ieee754::conversion::u64_to_f64(d) * unit
}
