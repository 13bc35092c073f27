// What is looked at in a session: tables of letters, each with the number that it stands for, a mark as 0 or 1.
// Not an enum of what is looked at: each of its 35 names would be declared, made of its letter and matched, where it now has one line. Nor an array of pairs,
// of which all numbers would be made to look at one: a text of such names took 1.2 times as many instructions.
ghost use Rattle.std.specs.Prelude.{◌≡◌, map};
ghost use Rattle.channel_script.specs.Code.Letters.{found};
ghost use Rattle.channel_script.specs.Code.Looking as meant;

use crate::letters::{NoLetter, is_one_of};
use crate::place::Place;
use crate::session::{Seen, Session};
use channel_control::figures::figures;
use channel_model::{Answer, Channel};
use ieee754::conversion::{f32_to_f64, f64_to_f32, u64_to_f64};
use tracker::state::CarrierPllEkf;

fn mark(on: bool) -> f64
    ensures { result ≡ meant.mark on }
{
    if on { 1.0 } else { 0.0 }
}

// Each table is a match, so that of its numbers only the one that is asked for is made; none of a letter that isn't in it.
#[tactic(auto, using(std::proofs::lemmas::Bool::Decides::nat_tests), unfolding(crate::specs::Code::Letters::found))]
fn in_answer(a: Answer, letter: u8) -> Option<f64>
    ensures { result ≡ found letter (meant.answer_names a) }
{
    Some(match letter {
        b'R' => u64_to_f64(a.refusal),
        b'L' => mark(a.locked),
        b'T' => u64_to_f64(a.tracker),
        b'I' => mark(a.in_fade),
        b'C' => u64_to_f64(a.fade_count),
        b'E' => mark(a.ended),
        b'P' => a.phase,
        b'F' => a.frequency,
        b'S' => a.snr,
        b'N' => a.electrons,
        b'M' => a.metric,
        _ => return None,
    })
}

// Small letters ask the block before.
fn in_before(a: Answer, letter: u8) -> Option<f64>
    ensures { result ≡ found letter (map meant.small (meant.answer_names a)) }
{
    in_answer(a, letter.checked_sub(32)?)
}

#[tactic(auto, using(std::proofs::lemmas::Bool::Decides::nat_tests), unfolding(crate::specs::Code::Letters::found))]
fn in_seen(e: Seen, letter: u8) -> Option<f64>
    ensures { result ≡ found letter (meant.seen_names e) }
{
    Some(match letter {
        b'O' => u64_to_f64(e.number),
        b'*' => u64_to_f64(e.marks),
        b'X' => f32_to_f64(e.re),
        b'Y' => f32_to_f64(e.im),
        b'A' => f32_to_f64(e.other),
        b'B' => mark(e.touched),
        _ => return None,
    })
}

#[tactic(auto, using(std::proofs::lemmas::Bool::Decides::nat_tests), unfolding(crate::specs::Code::Letters::found))]
fn in_channel(c: Channel, letter: u8) -> Option<f64>
    ensures { result ≡ found letter (meant.channel_names c) }
{
    Some(match letter {
        b'K' => mark(c.is_locked),
        b'V' => mark(c.ever_locked),
        b'Z' => f32_to_f64(c.last_snr),
        b'G' => c.carriers.target,
        b'J' => c.reading.frequency,
        b'Q' => c.reading.snr,
        b'U' => u64_to_f64(c.bank.active_idx),
        b'1' => u64_to_f64(c.setup.rate),
        b'2' => u64_to_f64(c.setup.factor),
        b'3' => mark(c.setup.bank),
        b'4' => mark(c.setup.two),
        _ => return None,
    })
}

// How many of the figures are not the remembered ones.
fn differing(f: [f32; 12], remembered: [f32; 12]) -> u64
    ensures { result ≡ meant.differing f remembered }
{
    f.iter().zip(&remembered).filter(|(x, y)| *x != *y).count() as u64
}

#[tactic(auto, using(std::proofs::lemmas::Bool::Decides::nat_tests), unfolding(crate::specs::Code::Letters::found))]
fn in_figures(f: [f32; 12], remembered: [f32; 12], letter: u8) -> Option<f64>
    ensures { result ≡ found letter (meant.figure_names f remembered) }
{
    Some(match letter {
        b'H' => f32_to_f64(f[1] + f[5] + f[9]),
        b'W' => f32_to_f64(f[0] + f[4] + f[8]),
        b'D' => u64_to_f64(differing(f, remembered)),
        _ => return None,
    })
}

// By one letter: the tables one after the other.
fn of_letter(e: Seen, c: Channel, letter: u8) -> Option<f64>
    ensures { result ≡ found letter (meant.one_letter e c) }
{
    in_seen(e, letter)
        .or(in_channel(c, letter))
        .or(in_figures(figures(c), e.figures, letter))
        .or(in_answer(e.answer, letter))
        .or(in_before(e.before, letter))
}

#[tactic(auto, using(std::proofs::lemmas::Bool::Decides::nat_tests), unfolding(crate::specs::Code::Letters::found))]
fn of_tracker(t: CarrierPllEkf, letter: u8) -> Option<f64>
    ensures { result ≡ found letter (meant.tracker_names t) }
{
    Some(match letter {
        b'L' => mark(t.is_locked),
        b'M' => t.lock_metric,
        b'P' => t.x[0],
        b'H' => t.x[0] / 2.0,
        _ => return None,
    })
}

fn tracker_at(c: Channel, place: Place) -> CarrierPllEkf
    ensures { result ≡ meant.tracker_at c place }
{
    match place {
        Place::First => c.bank.t0.ekf,
        Place::Second => c.bank.t1.ekf,
        Place::Third => c.bank.t2.ekf,
        Place::Pll => c.pll.ekf,
    }
}

// By a place and a letter: in a tracker.
fn in_tracker(c: Channel, place: u8, letter: u8) -> Option<f64>
    ensures { result ≡ meant.found_in_tracker c place letter }
{
    match Place::try_from(place) {
        Ok(place) => of_tracker(tracker_at(c, place), letter),
        Err(NoLetter) => None,
    }
}

// The number that a name of one letter, or of a place and a letter, stands for. What stands for nothing has no number, which equals none.
#[tactic(auto, using(crate::proofs::LookLaws::one_named, crate::proofs::LookLaws::two_named, crate::proofs::LookLaws::not_named, crate::proofs::Numbers::no_number))]
pub fn quantity(s: Session, name: &[u8]) -> f64
    ensures { result ≡ meant.quantity_of s name.now }
{
    match name {
        [letter] => of_letter(s.seen, s.channel, *letter).unwrap_or(f64::NAN),
        [place, letter] => in_tracker(s.channel, *place, *letter).unwrap_or(f64::NAN),
        _ => f64::NAN,
    }
}

// What is expected of a list's number is an f32. The three letters stand in `seen_names` too: here is a name alone, and no session to make that table of.
#[tactic(auto, using(crate::proofs::LookLaws::rounded_yes, crate::proofs::LookLaws::rounded_no, crate::proofs::LookLaws::rounded_other))]
pub fn rounded(name: &[u8], v: f64) -> f64
    ensures { result ≡ meant.rounded_for name.now v }
{
    match name {
        [letter] if is_one_of(*letter, b"XYA") => f32_to_f64(f64_to_f32(v)),
        _ => v,
    }
}
