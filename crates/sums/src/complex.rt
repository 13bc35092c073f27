// Complex numbers of two f64, with the operations of Rust's num-complex.
ghost use Rattle.std.specs.Prelude.{◌≡◌};
ghost use Rattle.std.specs.Float.{binary64};
ghost use Rattle.sums.specs.Complex.{add_c, mul_c, div_c, conj, norm_sqr};
ghost use Rattle.sums.specs.Code.Numbers.{parts};

use std::ops::{Add, Div, Mul};

#[derive(Clone, Copy)]
pub struct Complex {
    pub re: f64,
    pub im: f64,
}

impl Complex {
    pub const ZERO: Complex = Complex { re: 0.0, im: 0.0 };

    pub const ONE: Complex = Complex { re: 1.0, im: 0.0 };

    pub fn conjugate(self) -> Complex
        ensures { parts result ≡ conj (parts self) }
    {
        Complex {
            re: self.re,
            im: -self.im,
        }
    }

    // The squared size.
    pub fn norm_sqr(self) -> f64
        ensures { result ≡ norm_sqr binary64 (parts self) }
    {
        self.re * self.re + self.im * self.im
    }
}

impl Add for Complex {
    type Output = Complex;

    ghost add_gives = { λ a b r. parts r ≡ add_c binary64 (parts a) (parts b) };

    fn add(self, other: Complex) -> Complex {
        Complex {
            re: self.re + other.re,
            im: self.im + other.im,
        }
    }
}

impl Mul for Complex {
    type Output = Complex;

    ghost mul_gives = { λ a b r. parts r ≡ mul_c binary64 (parts a) (parts b) };

    fn mul(self, other: Complex) -> Complex {
        Complex {
            re: self.re * other.re - self.im * other.im,
            im: self.re * other.im + self.im * other.re,
        }
    }
}

// By a real number.
impl Div<f64> for Complex {
    type Output = Complex;

    ghost div_gives = { λ a d r. parts r ≡ div_c binary64 (parts a) d };

    fn div(self, divisor: f64) -> Complex {
        Complex {
            re: self.re / divisor,
            im: self.im / divisor,
        }
    }
}
