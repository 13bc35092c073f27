// A block of a bank: the frequency and the electron content of a two-frequency answer.
ghost use Rattle.std.specs.Prelude.{◌≡◌};
ghost use Rattle.estimate_vectors.specs.Code.Bank.{scale_of, states_place, offset_of, frequency_from, electrons_from, bank_agrees};

use estimate_dispersion::{cancel, electron_content};
use vectors::line::{Word, rest, strip};

// Of the number that a line has of a modulation. Not that of tracker_readings, which stands above the tracker: this program looks at the estimates alone.
#[tactic(auto, using(std::proofs::lemmas::Bool::Decides::nat_tests), unfolding(crate::specs::Code::Bank::scale_of))]
fn scale_of(modulation: u64) -> f64
    ensures { result ≡ scale_of modulation }
{
    if modulation == 1 { 2.0 } else { 1.0 }
}

// Where the states of the bank's tracker k begin; k is a number of the line, and any above 1 is the third.
#[tactic(auto, using(std::proofs::lemmas::Bool::Decides::nat_tests), unfolding(crate::specs::Code::Bank::states_place))]
fn states_place(k: u64) -> usize
    ensures { result ≡ states_place k }
{
    match k {
        0 => 7,
        1 => 11,
        _ => 15,
    }
}

// The offset in Hz of a frequency in rad/s.
#[tactic(auto, unfolding(crate::specs::Code::Bank::offset_of))]
fn offset_of(scale: f64, x: f64) -> f64
    ensures { result ≡ offset_of scale x }
{
    x / scale / 6.283185307179586
}

// The frequency of the answer; x is the line from the tracker's states on.
#[tactic(auto, unfolding(crate::specs::Code::Bank::frequency_from))]
fn frequency_in(scale: f64, words: &[u64], x: &[u64]) -> f64
    ensures { result ≡ frequency_from scale words.now x.now }
{
    let f1 = f64::at(words, 4) + offset_of(scale, f64::at(x, 1));
    let f2 = f64::at(words, 5) + offset_of(scale, f64::at(x, 3));
    cancel(f64::at(words, 3), f64::at(words, 6), f1, f2)
}

// Its electron content.
#[tactic(auto, unfolding(crate::specs::Code::Bank::electrons_from))]
fn electrons_in(words: &[u64], x: &[u64]) -> f64
    ensures { result ≡ electrons_from words.now x.now }
{
    let f1 = f64::at(words, 4);
    let f2 = f64::at(words, 5);
    electron_content(f1, f2, f64::at(x, 0), f64::at(x, 2), f64::at(words, 35))
}

// Both are those of the tracker in use after the block. Nothing is compared where the channel has not two frequencies, or is not locked after the
// block. Behind them stands the answer's metric.
#[tactic(auto, unfolding(crate::specs::Code::Bank::bank_agrees, crate::specs::Code::Bank::bank_words, vectors::specs::Code::Lines::ends_at))]
pub fn bank_agrees(words: &[u64]) -> bool
    ensures { result ≡ bank_agrees words.now }
{
    if !(bool::at(words, 2) && bool::at(words, 48)) {
        return words.len() == 53;
    }
    let x = rest(words, states_place(u64::at(words, 42)));
    let frequency = frequency_in(scale_of(u64::at(words, 1)), words, x);
    let answer = [frequency, electrons_in(words, x)];
    words.len() == 53 && strip(rest(words, 50), &answer).is_some()
}
