// Runs the vectors that stand in this crate's stdin and compares. A line is an operation's letter, three arguments and the result, each as
// 16 hexadecimal digits; make_vectors says where they come from. A vector that differs is printed.
#![tactic(auto)]

ghost use Rattle.std.specs.Prelude.{◌≡◌};
ghost use Rattle.ieee754_vectors.specs.Code.Lines.{answer, line_agrees};

use ieee754::conversion::{f32_to_f64, f64_to_f32, u64_to_f64};
use ieee754::integral::{round, to_usize};
use ieee754::order::{clamp, max};
use ieee754::remainder::rem_euclid;
use ieee754::sign::abs;
use ieee754_roots::hypotenuse::{hypot, hypotf};
use ieee754_roots::square_root::sqrt;
use vectors::line::Word;
use vectors::output::Stdout;
use vectors::tally::Tally;
use vectors::word_of;

// The result of an operation; a, and any other letter, stands for the absolute value. Letters and not an enum: each stands once, beside what it does.
#[tactic(auto, using(std::proofs::lemmas::Bool::Decides::nat_tests), unfolding(crate::specs::Code::Lines::answer))]
fn answer(letter: u8, a: u64, b: u64, c: u64) -> u64
    ensures { result ≡ answer letter a b c }
{
    let x = f64::of_pattern(a);
    let y = f64::of_pattern(b);
    match letter {
        b's' => sqrt(x).pattern(),
        b'n' => f64_to_f32(x).pattern(),
        b'w' => f32_to_f64(f32::of_pattern(a)).pattern(),
        b'u' => u64_to_f64(a).pattern(),
        b'r' => round(x).pattern(),
        b't' => to_usize(x).pattern(),
        b'h' => hypot(x, y).pattern(),
        b'g' => hypotf(f32::of_pattern(a), f32::of_pattern(b)).pattern(),
        b'e' => rem_euclid(x, y).pattern(),
        b'm' => max(x, y).pattern(),
        b'c' => clamp(x, y, f64::of_pattern(c)).pattern(),
        _ => abs(x).pattern(),
    }
}

#[tactic(auto, unfolding(crate::specs::Code::Lines::line_agrees, sequences::specs::Stretches::stretch))]
fn agrees(line: &[u8; 70]) -> bool
    ensures { result ≡ line_agrees line.now }
{
    let a = word_of(&line[2..18]);
    let b = word_of(&line[19..35]);
    let c = word_of(&line[36..52]);
    answer(line[0], a, b, c) == word_of(&line[53..69])
}

// No input has as many lines as the bound, which is there so that the loop is seen to end. Not `vectors::replay`: a line is text of one length here,
// and of one that differs the text is written and not its number, so that little of the loop would be left between two closures.
fn main() {
    let mut line = [0; 70];
    let mut t = Tally::default();
    for _ in 0..1_000_000u32 {
        if io::read_full(0, &mut line) < line.len() {
            break;
        }
        let right = agrees(&line);
        t.count(right);
        if !right {
            Stdout.write_bytes(&line);
        }
    }
    t.say();
}
