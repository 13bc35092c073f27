// Module 4 of the scope, its first half: the correlation matrix of the samples at ten lags, row by row.
// Place k is the ten samples from k on, and lag i there is sample k + 9 - i. The sums of all entries grow together, place by place, so that no
// addition waits for the one before it. Those below the diagonal follow from those above.
#![tactic(auto)]

ghost use Rattle.std.specs.Prelude.{◌≡◌, ℕ, ◌+◌, ◌-◌, ◌*◌, ◌<◌, ◌≤◌, length, Bool, true, false};
ghost use Rattle.std.specs.Float.{binary64};
ghost use Rattle.sums.specs.Complex.{add_c, mul_c, div_c, conj};
ghost use Rattle.sums.specs.Code.Numbers.{parts, number};
ghost use Rattle.estimate_correlation.specs.Correlation.{prepared, correlation_matrix};
ghost use Rattle.estimate_correlation.specs.Code.Matrices.{matrix};
ghost use Rattle.estimate_correlation.specs.Code.RunningSums.{sample_of, row_of, Latest, UpperSums, turned, mirrored};

use std::array;
use sums::complex::Complex;

// What is correlated: the samples, or their squares.
trait Preparation {
    ghost squared: { Bool };

    fn sample(re: f32, im: f32) -> Complex
        ensures { parts result ≡ sample_of squared (re, im) };
}

struct Plain;

struct Squares;

impl Preparation for Plain {
    ghost squared = { false };

    fn sample(re: f32, im: f32) -> Complex {
        Complex {
            re: ieee754::conversion::f32_to_f64(re),
            im: ieee754::conversion::f32_to_f64(im),
        }
    }
}

impl Preparation for Squares {
    ghost squared = { true };

    fn sample(re: f32, im: f32) -> Complex {
        Complex {
            re: ieee754::conversion::f32_to_f64(re * re - im * im),
            im: ieee754::conversion::f32_to_f64(re * im + im * re),
        }
    }
}

// The window of the ten latest samples, the latest first, after one sample more.
fn slid(window: &[Complex; 10], latest: Complex) -> [Complex; 10]
    ensures first { number result 0 ≡ parts latest }
    ensures later { (i : ℕ) → i < 9 → number result (i + 1) ≡ number window.now i }
{
    array::from_fn(|i| if i == 0 { latest } else { window[i - 1] })
}

// The window after nine samples.
fn first_window<P: Preparation>(x: &[f32]) -> [Complex; 10]
    requires { 18 ≤ length x.now }
    ensures { Latest (prepared P.squared x.now) 9 result }
{
    let mut window = [Complex::ZERO; 10];
    let (samples, _) = x.as_chunks::<2>();
    for &[re, im] in &samples[..9] {
        window = slid(&window, P::sample(re, im));
    }
    window
}

// Adds the products of lag i and the conjugates of the lags from i on to row i, from its diagonal on.
// By place: of a loop over `iter_mut` with a `zip` or a `skip` the library says nothing of what the row then holds.
fn add_to_row(row: &mut [Complex; 10], window: &[Complex; 10], i: usize)
    ensures { (j : ℕ) → i ≤ j → j < 10 → number row.new j ≡ add_c binary64 (number row.old j) (mul_c binary64 (number window.now i) (conj (number window.now j))) }
{
    for j in i..10 {
        row[j] = row[j] + window[i] * window[j].conjugate();
    }
}

// Adds one place's products to each row.
fn add_place(sums: &mut [[Complex; 10]; 10], window: &[Complex; 10])
    ensures { (i j : ℕ) → i ≤ j → j < 10 → number (row_of sums.new i) j ≡ add_c binary64 (number (row_of sums.old i) j) (mul_c binary64 (number window.now i) (conj (number window.now j))) }
{
    for (i, row) in sums.iter_mut().enumerate() {
        add_to_row(row, window, i);
    }
}

// Adds the products of l places to the sums.
fn add_places<P: Preparation>(sums: &mut [[Complex; 10]; 10], x: &[f32], l: usize)
    requires long { 2 * l + 18 ≤ length x.now }
    requires none { UpperSums (prepared P.squared x.now) 0 sums.old }
    ensures { UpperSums (prepared P.squared x.now) l sums.new }
{
    let mut window = first_window::<P>(x);
    let (samples, _) = x.as_chunks::<2>();
    for &[re, im] in &samples[9..l + 9] {
        window = slid(&window, P::sample(re, im));
        add_place(sums, &window);
    }
}

// The sum on the other side of the diagonal. One that starts at +0 is never -0, so a zero stays.
fn mirror_image(z: Complex) -> Complex
    ensures { parts result ≡ ((parts z).0, turned (parts z).1) }
{
    if z.im == 0.0 {
        return z;
    }
    z.conjugate()
}

// The entry in row i and column j of the matrix, from the upper part.
fn entry(s: &[[Complex; 10]; 10], i: usize, j: usize) -> Complex
    requires row { i < 10 }
    requires column { j < 10 }
    ensures { parts result ≡ mirrored s.now i j }
{
    if j < i {
        return mirror_image(s[j][i]);
    }
    s[i][j]
}

// Row i of the matrix: the means over n places.
fn mean_row(s: &[[Complex; 10]; 10], i: usize, n: f64) -> [Complex; 10]
    requires { i < 10 }
    ensures { (j : ℕ) → j < 10 → number result j ≡ div_c binary64 (mirrored s.now i j) n }
{
    array::from_fn(|j| entry(s, i, j) / n)
}

// The whole matrix in the sums' place. The last row goes first: what is below the diagonal comes from the rows above it.
fn complete(sums: &mut [[Complex; 10]; 10], n: f64)
    ensures { (i j : ℕ) → i < 10 → j < 10 → number (row_of sums.new i) j ≡ div_c binary64 (mirrored sums.old i j) n }
{
    for i in (0..10).rev() {
        sums[i] = mean_row(sums, i, n);
    }
}

pub fn correlation_matrix(x: &[f32], l: usize, squared: bool) -> [[Complex; 10]; 10]
    requires { 2 * l + 18 ≤ length x.now }
    ensures { matrix result ≡ correlation_matrix (prepared squared x.now) l }
{
    let mut r_xx = [[Complex::ZERO; 10]; 10];
    if squared {
        add_places::<Squares>(&mut r_xx, x, l);
    } else {
        add_places::<Plain>(&mut r_xx, x, l);
    }
    complete(&mut r_xx, ieee754::conversion::u64_to_f64(l as u64));
    r_xx
}
