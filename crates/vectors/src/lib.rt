// Outside vectors: a line of standard input is read into lent numbers, in one place (`next_line`), and all that is asked of a line is a function of
// these numbers (`line`). A word for many numbers is `mix`; how many lines differ is counted and said by `tally`, and `replay` leads a program
// through all lines.
#![tactic(auto)]

pub mod line;
pub mod mix;
pub mod output;
pub mod tally;

ghost use Rattle.std.specs.Prelude.{◌≡◌, ◌<◌, ◌≤◌, length, IfSome};
ghost use Rattle.vectors.specs.Code.Words.{digit_of, with_digit, word_of};

use crate::output::Stdout;
use crate::tally::Tally;
use std::fmt::Write;

// The value of a hexadecimal digit; any other byte counts as 0.
#[tactic(auto, using(std::proofs::lemmas::Bool::Decides::nat_tests), unfolding(crate::specs::Code::Words::digit_of))]
pub fn digit(b: u8) -> u64
    ensures { (result ≡ digit_of b) × (result < 16) }
{
    match b {
        b'0'..=b'9' => (b - b'0') as u64,
        b'a'..=b'f' => (b - b'a' + 10) as u64,
        _ => 0,
    }
}

// One digit more; of more than 16 digits only the last 16 count.
#[tactic(auto, unfolding(crate::specs::Code::Words::with_digit))]
pub fn with_digit(v: u64, b: u8) -> u64
    ensures { result ≡ with_digit v b }
{
    v % 0x1000_0000_0000_0000 * 16 + digit(b)
}

// The number that digits stand for.
#[tactic(auto, unfolding(crate::specs::Code::Words::word_of))]
pub fn word_of(digits: &[u8]) -> u64
    ensures { result ≡ word_of digits.now }
{
    digits.iter().fold(0, |v, b| with_digit(v, *b))
}

// What standard input has next: 16 digits and the byte that parts them from what follows, a newline at the end of a line.
// Not an enum but a mark: the number is taken before it is asked whether it is the last.
#[derive(Clone, Copy)]
struct Item {
    value: u64,
    last: bool,
}

// No contract can say what a read brings.
fn next_item() -> Option<Item> {
    let mut item = [0u8; 17];
    if io::read_full(0, &mut item) < 17 {
        return None;
    }
    Some(Item {
        value: word_of(&item[..16]),
        last: item[16] == b'\n',
    })
}

// The next line of standard input: its numbers, which stand at the start of the lent list as far as that goes; none at the end of the input.
// Numbers that find no place are passed over, so that the next line begins where it should. n counts those that found one, which not every turn does.
// No line is as long as the bound, which is there so that the loop is seen to end.
pub fn next_line(words: &mut [u64]) -> Option<&[u64]>
    ensures { IfSome result (λ line. length line.now ≤ length words.old) }
{
    let mut n = 0;
    for _ in 0..0x1_0000_0000_0000u64 {
        let Some(item) = next_item() else {
            break;
        };
        if let Some(word) = words.get_mut(n) {
            *word = item.value;
            n += 1;
        }
        if item.last {
            break;
        }
    }
    if n == 0 {
        return None;
    }
    Some(&words[..n])
}

// Decides each line of standard input, up to `most` of them, says which differ, and at the end how many. Of a line as many numbers are read as the lent list
// holds. (The bound is there so that the loop is seen to end.)
pub fn replay<F: FnMut(&[u64]) -> bool>(most: u32, words: &mut [u64], mut agrees: F)
    requires { F.IsAlwaysCallable agrees }
{
    let mut t = Tally::default();
    for _ in 0..most {
        let Some(line) = next_line(words) else {
            break;
        };
        let right = agrees(line);
        t.count(right);
        if !right {
            let _ = writeln!(Stdout, "{} differs", t.lines);
        }
    }
    t.say();
}
