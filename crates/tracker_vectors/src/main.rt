// Replays answers of the Rust's tracker: prediction, correction, updates for one frequency and two, and reset, on built values. A line begins
// with its kind; reference/vectors makes them, and reference/README.md has the fields of each kind. The number of each line that differs is
// printed.
#![tactic(auto)]

mod after;
mod before;
mod steps;

ghost use Rattle.std.specs.Prelude.{◌≡◌};
ghost use Rattle.vectors.specs.Code.Lines.{strip, left_of};
ghost use Rattle.tracker_vectors.specs.Code.Lines.{states_words, predict_agrees, answered_words, first_agrees, second_agrees, correct_agrees, update_agrees, dual_agrees, reset_words, reset_agrees, line_agrees};

use after::{Answered, strip_answer, strip_tracker};
use steps::{first_in, predict_in, reset_in, second_in, update_in};
use tracker::state::Tracked;
use vectors::line::{Word, is_end, rest, strip};

// The states and the covariance.
#[tactic(auto, using(vectors::proofs::LineLaws::strip_both), unfolding(crate::specs::Code::Lines::states_words))]
fn strip_states(words: &[u64], r: Tracked) -> Option<&[u64]>
    ensures { left_of result ≡ strip (states_words r) words.now }
{
    let x = r.ekf.x;
    let p = r.p;
    strip(strip(words, &x)?, &p)
}

#[tactic(auto, unfolding(crate::specs::Code::Lines::predict_agrees, vectors::specs::Code::Lines::is_rest))]
fn predict_agrees(words: &[u64]) -> bool
    ensures { result ≡ predict_agrees words.now }
{
    is_end(strip_states(rest(words, 50), predict_in(words)))
}

#[tactic(auto, using(vectors::proofs::LineLaws::strip_both), unfolding(crate::specs::Code::Lines::answered_words))]
fn strip_answered(words: &[u64], r: Answered) -> Option<&[u64]>
    ensures { left_of result ≡ strip (answered_words r) words.now }
{
    r.after.strip_from(strip_answer(words, r.answer)?)
}

// A sample is a list of two.
#[tactic(auto, using(std::proofs::lemmas::Bool::Decides::nat_tests), unfolding(crate::specs::Code::Lines::first_agrees, vectors::specs::Code::Lines::is_rest))]
fn first_agrees(words: &[u64]) -> bool
    ensures { result ≡ first_agrees words.now }
{
    let r = first_in(rest(words, 2));
    u64::at(words, 54) == 2 && is_end(strip_answered(rest(words, 57), r))
}

#[tactic(auto, using(std::proofs::lemmas::Bool::Decides::nat_tests), unfolding(crate::specs::Code::Lines::second_agrees, vectors::specs::Code::Lines::is_rest))]
fn second_agrees(words: &[u64]) -> bool
    ensures { result ≡ second_agrees words.now }
{
    let r = second_in(rest(words, 2));
    u64::at(words, 54) == 2
        && u64::at(words, 57) == r.kept.pattern()
        && is_end(r.after.strip_from(rest(words, 60)))
}

#[tactic(auto, using(std::proofs::lemmas::Bool::Decides::nat_tests), unfolding(crate::specs::Code::Lines::correct_agrees))]
fn correct_agrees(words: &[u64]) -> bool
    ensures { result ≡ correct_agrees words.now }
{
    if u64::at(words, 1) == 0 {
        first_agrees(words)
    } else {
        second_agrees(words)
    }
}

#[tactic(auto, using(std::proofs::lemmas::Bool::Decides::nat_tests), unfolding(crate::specs::Code::Lines::update_agrees, vectors::specs::Code::Lines::is_rest))]
fn update_agrees(words: &[u64]) -> bool
    ensures { result ≡ update_agrees words.now }
{
    let r = update_in(words, None);
    u64::at(words, 55) == 2 && is_end(r.strip_guarded_from(rest(words, 58)))
}

#[tactic(auto, using(std::proofs::lemmas::Bool::Decides::nat_tests), unfolding(crate::specs::Code::Lines::dual_agrees, vectors::specs::Code::Lines::is_rest))]
fn dual_agrees(words: &[u64]) -> bool
    ensures { result ≡ dual_agrees words.now }
{
    let second = (f32::at(words, 59), f32::at(words, 60));
    let r = update_in(words, Some(second));
    u64::at(words, 55) == 2
        && u64::at(words, 58) == 2
        && is_end(r.strip_guarded_from(rest(words, 61)))
}

#[tactic(auto, using(vectors::proofs::LineLaws::strip_first), unfolding(crate::specs::Code::Lines::reset_words))]
fn strip_reset(words: &[u64], r: Tracked) -> Option<&[u64]>
    ensures { left_of result ≡ strip (reset_words r) words.now }
{
    let left = strip(words, &[r.ekf.convergence_guard])?;
    strip_tracker(left, r)
}

#[tactic(auto, unfolding(crate::specs::Code::Lines::reset_agrees, vectors::specs::Code::Lines::is_rest))]
fn reset_agrees(words: &[u64]) -> bool
    ensures { result ≡ reset_agrees words.now }
{
    is_end(strip_reset(rest(words, 5), reset_in(words)))
}

// Numbers and not an enum: each kind of reference/README.md stands once, beside the function that has its name.
#[tactic(auto, using(std::proofs::lemmas::Bool::Decides::nat_tests), unfolding(crate::specs::Code::Lines::line_agrees, crate::specs::Code::Lines::kind_agrees))]
fn agrees(words: &[u64]) -> bool
    ensures { result ≡ line_agrees words.now }
{
    match u64::at(words, 0) {
        0 => predict_agrees(words),
        1 => correct_agrees(words),
        2 => update_agrees(words),
        3 => dual_agrees(words),
        4 => reset_agrees(words),
        _ => false,
    }
}

fn main() {
    vectors::replay(100_000_000, &mut [0; 8300], agrees);
}
