// The hypotenuse of f64 and of f32.
ghost use Rattle.std.specs.Prelude.{◌≡◌};
ghost use Rattle.std.specs.Float.{binary32};
ghost use Rattle.ieee754.specs.Conversion.{convert};
ghost use Rattle.ieee754.specs.Hypotenuse.{hypotenuse};

// The square root of the sum of the squares, each operation rounded.
pub fn hypot(x: f64, y: f64) -> f64
    ensures { result ≡ hypotenuse x y }
{
    crate::square_root::sqrt(x * x + y * y)
}

// The same of two f32, whose squares are exact in f64, rounded to f32. One test for both, though `f64::from` lets a NaN pass: without it each conversion tests by itself, and
// the function takes 15.1 ns for 13.5.
pub fn hypotf(x: f32, y: f32) -> f32
    ensures { result ≡ convert binary32 (hypotenuse x y) }
{
    if x.is_nan() | y.is_nan() {
        return f32::NAN;
    }
    let a = f64::from(x);
    let b = f64::from(y);
    crate::short_root::sqrt_to_f32(a * a + b * b)
}
