// Numbers of a text: decimal, or by the pattern of an f64.
ghost use Rattle.std.specs.Prelude.{◌≡◌};
ghost use Rattle.channel_cases.specs.Code.Numbers as meant;

use vectors::line::Word;
use vectors::word_of;

// The digits so far as a whole number, the power of ten of those after the point, and the sign. Marks of what was read: no value goes with them.
#[derive(Clone, Copy)]
struct Decimal {
    negative: bool,
    point: bool,
    digits: f64,
    unit: f64,
}

impl Decimal {
    #[tactic(auto, unfolding(crate::specs::Code::Numbers::with_decimal))]
    fn with_digit(self, b: u8) -> Decimal
        ensures { result ≡ meant.with_decimal self b }
    {
        Decimal {
            digits: self.digits * 10.0 + (b % 16) as f64,
            unit: if self.point {
                self.unit * 10.0
            } else {
                self.unit
            },
            ..self
        }
    }

    #[tactic(auto, using(std::proofs::lemmas::Bool::Decides::nat_tests), unfolding(crate::specs::Code::Numbers::with_byte, channel_script::specs::Code::Letters::stands_for))]
    fn with_byte(self, b: u8) -> Decimal
        ensures { result ≡ meant.with_byte self b }
    {
        match b {
            b'-' => Decimal {
                negative: true,
                ..self
            },
            b'.' => Decimal {
                point: true,
                ..self
            },
            _ => self.with_digit(b),
        }
    }

    #[tactic(auto, unfolding(crate::specs::Code::Numbers::quotient))]
    fn quotient(self) -> f64
        ensures { result ≡ meant.quotient self }
    {
        if self.negative {
            -self.digits / self.unit
        } else {
            self.digits / self.unit
        }
    }
}

// Exact digits over an exact power of ten, so a number of up to 15 digits is the nearest f64.
pub fn decimal_of(s: &[u8]) -> f64
    ensures { result ≡ meant.decimal_of s.now }
{
    let none = Decimal {
        negative: false,
        point: false,
        digits: 0.0,
        unit: 1.0,
    };
    s.iter().fold(none, |d, b| d.with_byte(*b)).quotient()
}

// The f64 whose pattern stands as hexadecimal digits.
#[tactic(auto, unfolding(crate::specs::Code::Numbers::pattern_of))]
pub fn pattern(digits: &[u8]) -> f64
    ensures { result ≡ meant.pattern_of digits.now }
{
    f64::of_pattern(word_of(digits))
}
