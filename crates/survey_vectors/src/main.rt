// Replays answers of the Rust's raw scan: each line is its kind, a count, so many f32, and the flag. reference/vectors makes them. The number
// of each line that differs is printed.
#![tactic(auto)]

ghost use Rattle.std.specs.Prelude.{◌≡◌};
ghost use Rattle.survey_vectors.specs.Code.Lines.{samples_agree, line_agrees};

use survey::survey;
use vectors::line::{Word, is_rest, list_in, rest};

// The longest list.
const LONGEST: usize = 8192;

// Whether behind the samples stands the port's flag of them, at the line's end.
#[tactic(auto, using(std::proofs::lemmas::Bool::Decides::nat_tests), unfolding(crate::specs::Code::Lines::samples_agree, crate::specs::Code::Lines::flag_of))]
fn samples_agree(words: &[u64]) -> bool
    ensures { result ≡ samples_agree words.now }
{
    // Asked first, so that no memory is cleared for a line that has no place in it.
    if usize::at(words, 0) > LONGEST {
        return false;
    }
    let mut memory = [0.0f32; LONGEST];
    let Some((list, left)) = list_in(words, &mut memory) else {
        return false;
    };
    is_rest(left, &[survey(list)])
}

#[tactic(auto, using(std::proofs::lemmas::Bool::Decides::nat_tests), unfolding(crate::specs::Code::Lines::line_agrees))]
fn agrees(words: &[u64]) -> bool
    ensures { result ≡ line_agrees words.now }
{
    u64::at(words, 0) == 7 && samples_agree(rest(words, 1))
}

fn main() {
    vectors::replay(1_000_000, &mut [0; 8300], agrees);
}
