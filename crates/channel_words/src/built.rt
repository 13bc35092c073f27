// A channel built from plain numbers.
ghost use Rattle.std.specs.Prelude.{◌≡◌, ◌<◌, ◌≤◌, true, false, length, MatchOption};
ghost use Rattle.channel_words.specs.Code.Built.{ten_at, tracker_length, behind_tracker, given_covariance, given_tuning, given_tracker, given_setup, given_status, given_reading, given_trackers, are_whole, behind_trackers, given_channel, is_whole, behind_channel};

use crate::arguments::carriers_in;
use bank_model::state::EkfTrackingBank;
use channel_model::{Channel, Reading, Setup, Status};
use tracker::state::{CarrierPllEkf, Tracked, Tuning};
use tracker_covariance::initial::initial;
use tracker_measurement::modulation::Modulation;
use tracker_power_ratio::PowerSums;
use vectors::line::{Word, array_in, rest};

// A channel's trackers, in the order in which they stand.
#[derive(Clone, Copy)]
struct Trackers {
    pll: Tracked,
    t0: Tracked,
    t1: Tracked,
    t2: Tracked,
}

// How many numbers of a tracker stand before its last ten.
#[tactic(auto, unfolding(crate::specs::Code::Built::ten_at))]
fn ten_at(words: &[u64]) -> usize
    ensures { (result ≡ ten_at words.now) × (result ≤ 43) }
{
    if bool::at(words, 6) { 43 } else { 7 }
}

#[tactic(auto, unfolding(crate::specs::Code::Built::given_covariance))]
fn covariance_in(words: &[u64]) -> [f64; 36]
    ensures { result ≡ given_covariance words.now }
{
    if bool::at(words, 6) {
        array_in(rest(words, 7))
    } else {
        initial()
    }
}

// The source's noise figures are those of any new tracker.
#[tactic(auto, unfolding(crate::specs::Code::Built::given_tuning, tracker::specs::State::initial_tracker))]
fn tuning_in(ten: &[u64], rate: f64) -> Tuning
    ensures { result ≡ given_tuning rate ten.now }
{
    let new = CarrierPllEkf::new(rate, Modulation::Carrier);
    Tuning {
        frequency_ratio: f64::at(ten, 4),
        adaptive_ekf: bool::at(ten, 8),
        dual_lock: bool::at(ten, 9),
        ..new.ekf.tuning
    }
}

// What is left of a line behind the tracker that it begins with; none where the line ends before.
#[tactic(auto, unfolding(crate::specs::Code::Built::behind_tracker, crate::specs::Code::Built::tracker_length))]
fn behind_tracker(words: &[u64]) -> Option<&[u64]>
    ensures { MatchOption result
        (length words.now < tracker_length words.now)
        (λ left. (tracker_length words.now ≤ length words.now) × (left.now ≡ behind_tracker words.now)) }
{
    words.get(ten_at(words) + 10..)
}

// A tracker that a line begins with. Numbers that the line does not have are 0.
#[tactic(auto, unfolding(crate::specs::Code::Built::given_tracker, crate::specs::Code::Built::given_power))]
fn tracker_in(words: &[u64], rate: f64, modulation: Modulation) -> Tracked
    ensures { result ≡ given_tracker rate modulation words.now }
{
    let ten = rest(words, ten_at(words));
    let ekf = CarrierPllEkf {
        modulation,
        tuning: tuning_in(ten, rate),
        x: array_in(words),
        envelope_ema: f64::at(ten, 1),
        power: PowerSums {
            pushed: usize::at(ten, 5),
            sum_abs_i: f64::at(ten, 2),
            sum_q_sq: f64::at(ten, 3),
        },
        lock_metric: f64::at(ten, 0),
        is_locked: bool::at(ten, 7),
        convergence_guard: usize::at(ten, 6),
    };
    let p = covariance_in(words);
    Tracked { ekf, p }
}

#[tactic(auto, unfolding(crate::specs::Code::Built::given_setup))]
fn setup_in(words: &[u64]) -> Setup
    ensures { result ≡ given_setup words.now }
{
    Setup {
        rate: u64::at(words, 0),
        factor: u64::at(words, 1),
        bank: bool::at(words, 3),
        two: bool::at(words, 4),
    }
}

#[tactic(auto, unfolding(crate::specs::Code::Built::given_status))]
fn status_in(words: &[u64]) -> Status
    ensures { result ≡ given_status words.now }
{
    if bool::at(words, 5) {
        Status::Assigned
    } else {
        Status::Idle
    }
}

#[tactic(auto, unfolding(crate::specs::Code::Built::given_reading))]
fn reading_in(words: &[u64]) -> Reading
    ensures { result ≡ given_reading words.now }
{
    Reading {
        phase: f64::at(words, 18),
        frequency: f64::at(words, 19),
        snr: f64::at(words, 20),
        electrons: f64::at(words, 21),
    }
}

// The four trackers of a channel, from the first one's first number on.
#[tactic(auto, unfolding(crate::specs::Code::Built::given_trackers, crate::specs::Code::Built::behind_tracker, crate::specs::Code::Built::tracker_length))]
fn trackers_in(words: &[u64], rate: f64, m: Modulation) -> Trackers
    ensures { result ≡ given_trackers rate m words.now }
{
    let one = rest(words, ten_at(words) + 10);
    let two = rest(one, ten_at(one) + 10);
    let three = rest(two, ten_at(two) + 10);
    Trackers {
        pll: tracker_in(words, rate, m),
        t0: tracker_in(one, rate, m),
        t1: tracker_in(two, rate, m),
        t2: tracker_in(three, rate, m),
    }
}

// What is left of a line behind its four trackers; none where the line ends before.
#[tactic(auto, using(std::proofs::lemmas::Bool::Decides::nat_tests), unfolding(crate::specs::Code::Built::are_whole, crate::specs::Code::Built::behind_trackers))]
fn behind_trackers(words: &[u64]) -> Option<&[u64]>
    ensures { MatchOption result
        (are_whole words.now ≡ false)
        (λ left. (are_whole words.now ≡ true) × (left.now ≡ behind_trackers words.now)) }
{
    let left = behind_tracker(words)?;
    let left = behind_tracker(left)?;
    let left = behind_tracker(left)?;
    behind_tracker(left)
}

// A channel that a line begins with, in which numbers that the line does not have are 0; and what is left of the line behind it, none where the line ends before.
#[tactic(auto, unfolding(channel_model::specs::Opening::modulation_of, crate::specs::Code::Built::given_channel, crate::specs::Code::Built::given_bank, crate::specs::Code::Built::given_setup))]
pub fn channel_in(words: &[u64]) -> (Channel, Option<&[u64]>)
    ensures channel { result.0 ≡ given_channel words.now }
    ensures left { MatchOption result.1
        (is_whole words.now ≡ false)
        (λ left. (is_whole words.now ≡ true) × (left.now ≡ behind_channel words.now)) }
{
    let setup = setup_in(words);
    let rate = setup.decimated_rate();
    let m = Modulation::from(u64::at(words, 2));
    let trackers = rest(words, 22);
    let h = trackers_in(trackers, rate, m);
    let channel = Channel {
        setup,
        status: status_in(words),
        carriers: carriers_in(rest(words, 6)),
        pll: h.pll,
        bank: EkfTrackingBank {
            t0: h.t0,
            t1: h.t1,
            t2: h.t2,
            active_idx: u64::at(words, 13),
            in_fade: bool::at(words, 14),
            fade_counter: u64::at(words, 16),
            max_fade_steps: u64::at(words, 17),
            terminated_in_fade: bool::at(words, 15),
        },
        ever_locked: bool::at(words, 11),
        last_snr: f32::at(words, 12),
        is_locked: bool::at(words, 10),
        reading: reading_in(words),
    };
    (channel, behind_trackers(trackers))
}
