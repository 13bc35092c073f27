// Replays answers of the Rust's frequency estimate, signal-to-noise estimate and dispersion. A line begins with its kind: 5 is a rate, a list
// and the frequency, 13 the same of the squares; 6 a list and the ratio in dB; 12 two carriers, two offsets and the offset free of dispersion; 11
// a block of a bank, of which the frequency and the electron content of a two-frequency answer are compared. reference/vectors makes them, and
// reference/README.md has the fields. The number of each line that differs is printed.
#![tactic(auto)]

mod bank;

ghost use Rattle.std.specs.Prelude.{◌≡◌};
ghost use Rattle.estimate_vectors.specs.Code.Lines.{estimate_agrees, snr_agrees, cancel_agrees, line_agrees};

use crate::bank::bank_agrees;
use estimate_dispersion::cancel;
use estimate_esprit::estimate_frequency_esprit;
use estimate_snr::estimate_snr;
use vectors::line::{Word, is_rest, list_in, rest};

// The longest list.
const LONGEST: usize = 8192;

// Whether behind the samples stands the port's frequency of them, at the line's end.
#[tactic(auto, using(std::proofs::lemmas::Bool::Decides::nat_tests), unfolding(crate::specs::Code::Lines::estimate_agrees, crate::specs::Code::Lines::frequency_word))]
fn estimate_agrees(words: &[u64], squared: bool) -> bool
    ensures { result ≡ estimate_agrees squared words.now }
{
    let samples = rest(words, 2);
    // Asked first, here and below, so that no memory is cleared for a line that has no place in it.
    if usize::at(samples, 0) > LONGEST {
        return false;
    }
    let mut memory = [0.0f32; LONGEST];
    let Some((list, left)) = list_in(samples, &mut memory) else {
        return false;
    };
    let answer = estimate_frequency_esprit(list, squared, f64::at(words, 1));
    is_rest(left, &[answer])
}

// The same of the port's signal-to-noise ratio.
#[tactic(auto, using(std::proofs::lemmas::Bool::Decides::nat_tests), unfolding(crate::specs::Code::Lines::snr_agrees, crate::specs::Code::Lines::ratio_word))]
fn snr_agrees(words: &[u64]) -> bool
    ensures { result ≡ snr_agrees words.now }
{
    let samples = rest(words, 1);
    if usize::at(samples, 0) > LONGEST {
        return false;
    }
    let mut memory = [0.0f32; LONGEST];
    let Some((list, left)) = list_in(samples, &mut memory) else {
        return false;
    };
    is_rest(left, &[estimate_snr(list)])
}

#[tactic(auto, unfolding(crate::specs::Code::Lines::cancel_agrees))]
fn cancel_agrees(words: &[u64]) -> bool
    ensures { result ≡ cancel_agrees words.now }
{
    let f1 = f64::at(words, 1);
    let f2 = f64::at(words, 2);
    let d1 = f64::at(words, 3);
    let d2 = f64::at(words, 4);
    is_rest(rest(words, 5), &[cancel(f1, f2, d1, d2)])
}

// Numbers and not an enum: each kind of reference/README.md stands once, beside what has its name.
#[tactic(auto, using(std::proofs::lemmas::Bool::Decides::nat_tests), unfolding(crate::specs::Code::Lines::line_agrees, crate::specs::Code::Lines::kind_agrees))]
fn agrees(words: &[u64]) -> bool
    ensures { result ≡ line_agrees words.now }
{
    match u64::at(words, 0) {
        5 => estimate_agrees(words, false),
        6 => snr_agrees(words),
        11 => bank_agrees(words),
        12 => cancel_agrees(words),
        13 => estimate_agrees(words, true),
        _ => false,
    }
}

fn main() {
    vectors::replay(100_000_000, &mut [0; 8300], agrees);
}
