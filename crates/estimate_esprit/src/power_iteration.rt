// The strongest vector of the correlation matrix: a vector of ones, multiplied by the matrix and brought back to length 1, again and again.
ghost use Rattle.std.specs.Prelude.{◌≡◌};
ghost use Rattle.std.specs.Float.{binary64};
ghost use Rattle.sums.specs.Ascending.{sum_to};
ghost use Rattle.sums.specs.Complex.{add_c, mul_c};
ghost use Rattle.sums.specs.Code.Numbers.{parts, number};
ghost use Rattle.estimate_correlation.specs.Code.Matrices.{matrix};
ghost use Rattle.estimate_esprit.specs.Esprit.{matrix_times, norm, divided_by, power_iteration, ones};
ghost use Rattle.estimate_esprit.specs.Code.Vectors.{vector};

use std::array;
use sums::complex::Complex;

// A row of the matrix times the vector.
fn row_times(row: &[Complex; 10], u: &[Complex; 10]) -> Complex
    ensures { parts result ≡ sum_to (add_c binary64) (λ j. mul_c binary64 (number row.now j) (number u.now j)) 9 }
{
    let mut sum = row[0] * u[0];
    for (&r, &x) in row[1..].iter().zip(&u[1..]) {
        sum = sum + r * x;
    }
    sum
}

fn matrix_times(r: &[[Complex; 10]; 10], u: &[Complex; 10]) -> [Complex; 10]
    ensures { vector result ≡ matrix_times (matrix r.now) (vector u.now) }
{
    array::from_fn(|i| row_times(&r[i], u))
}

fn norm_of(w: &[Complex; 10]) -> f64
    ensures { result ≡ norm (vector w.now) }
{
    let mut sum = w[0].norm_sqr();
    for z in &w[1..] {
        sum += z.norm_sqr();
    }
    ieee754_roots::square_root::sqrt(sum)
}

fn divided(w: &[Complex; 10], d: f64) -> [Complex; 10]
    ensures { vector result ≡ divided_by d (vector w.now) }
{
    array::from_fn(|i| w[i] / d)
}

// After at most n steps.
pub fn strongest_vector(r: &[[Complex; 10]; 10], n: usize) -> [Complex; 10]
    ensures { vector result ≡ power_iteration n (matrix r.now) ones }
{
    let mut u = [Complex::ONE; 10];
    for _step in 0..n {
        let w = matrix_times(r, &u);
        let norm = norm_of(&w);
        if !(norm > 1e-12) {
            return u;
        }
        u = divided(&w, norm);
    }
    u
}
