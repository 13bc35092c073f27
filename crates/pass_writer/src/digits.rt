// Numbers in digits.
ghost use Rattle.std.specs.Prelude.{◌≡◌, ◌++◌, ◌∷◌, [], ◌≤◌, ◌<◌, length};
ghost use Rattle.pass_writer.specs.Digits.{glyph_of, digits, decimal_text, float_text};
ghost use Rattle.pass_writer.specs.Code.Buffers.{Wrote};

use ieee754::pattern::f64_to_bits;

// The byte of a digit.
#[tactic(auto, unfolding(crate::specs::Digits::glyph_of), using(std::proofs::lemmas::Bool::Decides::nat_tests))]
fn glyph(d: u64) -> u8
    requires { d < 16 }
    ensures { result ≡ glyph_of d }
{
    let d = d as u8;
    if d < 10 { b'0' + d } else { b'a' + (d - 10) }
}

// How many decimal digits n has.
#[tactic(auto, using(crate::proofs::DigitLaws::digits_counted))]
fn places(n: u64) -> usize
    ensures value { result ≡ length (decimal_text n) }
    ensures upper_bound { result ≤ 20 }
{
    n.max(1).ilog10() as usize + 1
}

// The last digits of n, as many as out has places: the last digit to the last place, then the digits of what is left of n to the places before it.
// Not `for place in out.iter_mut().rev()`: of what such a loop wrote nothing is known after it.
#[tactic(auto, using(crate::proofs::DigitLaws::digits_last, crate::proofs::DigitLaws::no_digits))]
fn put_digits(out: &mut [u8], base: u64, n: u64)
    requires { (0 < base) × (base ≤ 16) }
    ensures { out.new ≡ digits base (length out.old) n }
{
    if let Some((last, front)) = out.split_last_mut() {
        *last = glyph(n % base);
        put_digits(front, base, n / base);
    }
}

// A number and the byte after it, at the head of out: how many bytes they are.
pub fn put_number(out: &mut [u8], n: u64, end: u8) -> usize
    requires { 21 ≤ length out.old }
    ensures wrote { Wrote (decimal_text n ++ (end ∷ [])) out.old result out.new }
    ensures upper_bound { result ≤ 21 }
{
    let count = places(n);
    put_digits(&mut out[..count], 10, n);
    out[count] = end;
    count + 1
}

// A float's bits and the byte after them.
pub fn put_float(out: &mut [u8], x: f64, end: u8) -> usize
    requires { 17 ≤ length out.old }
    ensures wrote { Wrote (float_text x ++ (end ∷ [])) out.old result out.new }
    ensures upper_bound { result ≤ 17 }
{
    put_digits(&mut out[..16], 16, f64_to_bits(x));
    out[16] = end;
    17
}
