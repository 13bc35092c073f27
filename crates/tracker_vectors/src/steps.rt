// The steps of the port that the lines are about, on what a line has of a tracker. b is the line from *before* on.
ghost use Rattle.std.specs.Prelude.{◌≡◌};
ghost use Rattle.tracker_vectors.specs.Code.Lines.{tuning_to_predict, predicted_from, answered_from, marked_from, after_update, reset_from};

use crate::after::{After, Answered, Marked, is_kept};
use crate::before::{tracker_in, window_in};
use tracker::first::correct_by_first;
use tracker::second::correct_by_second;
use tracker::state::{CarrierPllEkf, Tracked, Tuning};
use tracker_measurement::modulation::Modulation;
use vectors::line::{Word, array_in, rest};

#[tactic(auto, unfolding(crate::specs::Code::Lines::tuning_to_predict, tracker::specs::State::initial_tracker))]
fn tuning_to_predict(words: &[u64]) -> Tuning
    ensures { result ≡ tuning_to_predict words.now }
{
    let new = CarrierPllEkf::new(1000.0, Modulation::Carrier);
    Tuning {
        q_phase: f64::at(words, 43),
        q_freq: f64::at(words, 44),
        q_chirp: f64::at(words, 45),
        ts: f64::at(words, 46),
        frequency_ratio: f64::at(words, 48),
        adaptive_ekf: bool::at(words, 49),
        ..new.ekf.tuning
    }
}

// A new tracker with the line's states, metric and tuning, predicted over the line's interval.
#[tactic(auto, unfolding(crate::specs::Code::Lines::predicted_from, tracker::specs::State::initial_tracker))]
pub fn predict_in(words: &[u64]) -> Tracked
    ensures { result ≡ predicted_from words.now }
{
    let new = CarrierPllEkf::new(1000.0, Modulation::Carrier);
    let t = CarrierPllEkf {
        x: array_in(rest(words, 1)),
        lock_metric: f64::at(words, 47),
        tuning: tuning_to_predict(words),
        ..new.ekf
    };
    let p = array_in(rest(words, 7));
    Tracked { ekf: t, p }.predict(f64::at(words, 46))
}

#[tactic(auto, unfolding(crate::specs::Code::Lines::answered_from, crate::specs::Code::Lines::corrected_from, crate::specs::Code::Before::covariance_from))]
pub fn first_in(b: &[u64]) -> Answered
    ensures { result ≡ answered_from b.now }
{
    let ekf = tracker_in(b, false, 0);
    let p = array_in(rest(b, 8));
    let mut w = window_in(b);
    let d = correct_by_first(Tracked { ekf, p }, &mut w, f32::at(b, 53), f32::at(b, 54));
    let p = d.p;
    Answered {
        answer: d.answer,
        after: After::new(Tracked { ekf: d.ekf, p }, &w, usize::at(b, 49)),
    }
}

// The second channel's correction leaves the window as it was. The zeros stand for the pair of the first channel: it goes into the answer's pair alone,
// which is not compared.
#[tactic(auto, using(crate::proofs::SecondSeen::second_kept, crate::proofs::SecondSeen::second_ekf, crate::proofs::SecondSeen::second_p, crate::proofs::SecondSeen::second_window), unfolding(crate::specs::Code::Lines::marked_from, crate::specs::Code::Lines::second_from, crate::specs::Code::Before::covariance_from))]
pub fn second_in(b: &[u64]) -> Marked
    ensures { result ≡ marked_from b.now }
{
    let ekf = tracker_in(b, false, 0);
    let p = array_in(rest(b, 8));
    let w = window_in(b);
    let d = correct_by_second(Tracked { ekf, p }, 0.0, 0.0, f32::at(b, 53), f32::at(b, 54));
    let p = d.p;
    Marked {
        kept: is_kept(d.answer),
        after: After::new(Tracked { ekf: d.ekf, p }, &w, usize::at(b, 49)),
    }
}

// After one sample, or one of each of two frequencies. The switch and the guard stand before *before*.
#[tactic(auto, unfolding(crate::specs::Code::Lines::after_update, crate::specs::Code::Lines::updated_from, crate::specs::Code::Before::covariance_from))]
pub fn update_in(words: &[u64], second: Option<(f32, f32)>) -> After
    ensures { result ≡ after_update second words.now }
{
    let b = rest(words, 3);
    let ekf = tracker_in(b, bool::at(words, 1), usize::at(words, 2));
    let p = array_in(rest(b, 8));
    let mut w = window_in(b);
    let first = (f32::at(b, 53), f32::at(b, 54));
    let r = Tracked { ekf, p }.update(&mut w, first, second);
    After::new(r, &w, usize::at(b, 49))
}

// A new tracker with the line's ratio, locked anew.
#[tactic(auto, unfolding(crate::specs::Code::Lines::reset_from, tracker::specs::State::initial_tracker))]
pub fn reset_in(words: &[u64]) -> Tracked
    ensures { result ≡ reset_from words.now }
{
    let new = CarrierPllEkf::new(1000.0, Modulation::Carrier);
    let mut t = new.ekf;
    t.tuning.frequency_ratio = f64::at(words, 1);
    t.reset(f64::at(words, 2), f64::at(words, 3), f64::at(words, 4))
}
