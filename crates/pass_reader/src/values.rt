// The line of values.
ghost use Rattle.std.specs.Prelude.{◌≡◌, option_map, option_and_then};
ghost use Rattle.pass_reader.specs.Bytes.{fields};
ghost use Rattle.pass_reader.specs.Lines.{decimals, nine_values, values_line};
ghost use Rattle.pass_reader.specs.Code.Answers.{values_of, fields_of, next_decimal, next_switch};

use crate::line::{place_of, text_of};
use crate::number::decimal;

// The values in the order of their names. The modulation is a number, which may stand for nothing: the channel refuses it.
#[derive(Clone, Copy)]
pub struct Values {
    pub rate: u64,
    pub factor: u64,
    pub modulation: u64,
    pub adaptive: bool,
    pub dual: bool,
    pub bank: bool,
    pub fade: u64,
    pub nominal: u64,
    pub target: u64,
}

// The fields that are not read yet: the text that they stand in, or none after the last.
#[derive(Clone, Copy)]
struct Fields<'a> {
    rest: Option<&'a [u8]>,
}

impl<'a> Fields<'a> {
    // The next field's number.
    #[tactic(auto, unfolding(crate::specs::Code::Answers::next_decimal), using(crate::proofs::ValuesLaws::first_of_more, crate::proofs::ValuesLaws::first_alone, crate::proofs::ByteLaws::tail_is))]
    fn decimal(&mut self) -> Option<u64>
        ensures { (result, fields_of self.new.rest) ≡ next_decimal (fields_of self.old.rest) }
    {
        let s = self.rest?;
        let Some(n) = place_of(s, b' ') else {
            self.rest = None;
            return decimal(s);
        };
        self.rest = Some(&s[n + 1..]);
        decimal(&s[..n])
    }

    // The next field's switch, which is 0 or 1.
    #[tactic(auto, unfolding(crate::specs::Code::Answers::next_switch), using(std::proofs::lemmas::Bool::Decides::nat_tests))]
    fn switch(&mut self) -> Option<bool>
        ensures { (result, fields_of self.new.rest) ≡ next_switch (fields_of self.old.rest) }
    {
        match self.decimal()? {
            0 => Some(false),
            1 => Some(true),
            _ => None,
        }
    }
}

// Reads the fields of s one after the other: there have to be nine, and three of them are switches.
fn nine_values(s: &[u8]) -> Option<Values>
    ensures { option_map values_of result ≡ option_and_then nine_values (decimals (fields s.now)) }
{
    let mut fields = Fields { rest: Some(s) };
    let values = Values {
        rate: fields.decimal()?,
        factor: fields.decimal()?,
        modulation: fields.decimal()?,
        adaptive: fields.switch()?,
        dual: fields.switch()?,
        bank: fields.switch()?,
        fade: fields.decimal()?,
        nominal: fields.decimal()?,
        target: fields.decimal()?,
    };
    if fields.rest.is_some() {
        return None;
    }
    Some(values)
}

// Reads the line of values.
#[tactic(auto, unfolding(crate::specs::Lines::values_line), using(crate::proofs::ByteLaws::text_fields, crate::proofs::LongLines::cut_values))]
pub fn values_line(line: &[u8]) -> Option<Values>
    ensures { option_map values_of result ≡ values_line line.now }
{
    nine_values(text_of(line)?)
}
