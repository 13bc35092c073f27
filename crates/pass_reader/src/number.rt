// Numbers that digits write.
ghost use Rattle.std.specs.Prelude.{◌≡◌, ◌≤◌, length};
ghost use Rattle.pass_reader.specs.Numbers.{digit_value, number_of, decimal_shape, decimal_of};

// The value of a digit, 16 of any other byte: a number and no Option, since the form's definition of a digit compares it with the base.
#[tactic(auto, unfolding(crate::specs::Numbers::digit_value), using(std::proofs::lemmas::Bool::Decides::nat_tests))]
fn digit(b: u8) -> u64
    ensures { result ≡ digit_value b }
{
    match b {
        b'0'..=b'9' => u64::from(b - b'0'),
        b'a'..=b'f' => u64::from(b - b'a') + 10,
        _ => 16,
    }
}

// Reads s digit by digit: the number that it writes, or none where a byte is no digit.
pub fn digits(s: &[u8], base: u64) -> Option<u64>
    requires { (length s.now ≤ 12) × (base ≤ 16) }
    ensures { result ≡ number_of base s.now }
{
    let mut v = 0;
    for b in s {
        let d = digit(*b);
        if d >= base {
            return None;
        }
        v = v * base + d;
    }
    Some(v)
}

// At most 12 digits, and no zero in front of others.
#[tactic(auto, unfolding(crate::specs::Numbers::decimal_shape), using(std::proofs::lemmas::Bool::Decides::nat_tests))]
fn has_decimal_shape(s: &[u8]) -> bool
    ensures { result ≡ decimal_shape s.now }
{
    1 <= s.len() && s.len() <= 12 && (s.len() == 1 || s[0] != b'0')
}

// A decimal field.
#[tactic(auto, unfolding(crate::specs::Numbers::decimal_of), using(crate::proofs::NumberLaws::shape_short))]
pub fn decimal(s: &[u8]) -> Option<u64>
    ensures { result ≡ decimal_of s.now }
{
    if has_decimal_shape(s) {
        digits(s, 10)
    } else {
        None
    }
}
