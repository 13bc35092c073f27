// A channel as it stands in a line, and what is left of the line behind it.
ghost use Rattle.std.specs.Prelude.{◌≡◌, ◌<◌, ◌^◌, List, ℕ};
ghost use Rattle.vectors.specs.Code.Lines.{strip, left_of};
ghost use Rattle.channel_words.specs.Code.Standing.{tracker_mix, tracker_words, mark_words, reading_words, carrier_words, fade_words, standing_words};

use bank_model::state::EkfTrackingBank;
use channel_model::{Carriers, Channel, Reading, Status};
use tracker::state::Tracked;
use vectors::line::{Word, strip};
use vectors::mix::mix_all;

// A value that stands in a line as N numbers.
pub trait Words<const N: usize>: Copy {
    ghost numbers: { Self → List ℕ };

    fn words(self) -> [u64; N]
        ensures { result ≡ numbers self };
}

// What is left of a line behind the value; none where the line begins otherwise.
#[tactic(auto, using(vectors::proofs::LineLaws::strip_words))]
pub fn strip_value<'a, const N: usize, T: Words<N>>(words: &'a [u64], x: T) -> Option<&'a [u64]>
    requires { N < 2 ^ 60 }
    ensures { left_of result ≡ strip (T.numbers x) words.now }
{
    let numbers = x.words();
    strip(words, &numbers)
}

// One number for a tracker's lists and for what no other number shows of it.
#[tactic(auto, unfolding(crate::specs::Code::Standing::tracker_mix))]
fn tracker_mix(h: Tracked) -> u64
    ensures { result ≡ tracker_mix h }
{
    let x = h.ekf.x;
    let p = h.p;
    let more = [
        h.ekf.envelope_ema,
        h.ekf.power.sum_abs_i,
        h.ekf.power.sum_q_sq,
        h.ekf.tuning.ts,
        h.ekf.tuning.frequency_ratio,
    ];
    mix_all(mix_all(mix_all(0, &x), &p), &more)
}

impl Words<5> for Tracked {
    ghost numbers = { tracker_words };

    #[tactic(auto, unfolding(crate::specs::Code::Standing::tracker_words))]
    fn words(self) -> [u64; 5] {
        [
            self.ekf.is_locked.pattern(),
            self.ekf.lock_metric.pattern(),
            self.ekf.power.pushed.pattern(),
            self.ekf.convergence_guard.pattern(),
            tracker_mix(self),
        ]
    }
}

impl Words<4> for Reading {
    ghost numbers = { reading_words };

    #[tactic(auto, unfolding(crate::specs::Code::Standing::reading_words))]
    fn words(self) -> [u64; 4] {
        [
            self.phase.pattern(),
            self.frequency.pattern(),
            self.snr.pattern(),
            self.electrons.pattern(),
        ]
    }
}

// Four floats as those of a reading, but each struct names its own.
impl Words<4> for Carriers {
    ghost numbers = { carrier_words };

    #[tactic(auto, unfolding(crate::specs::Code::Standing::carrier_words))]
    fn words(self) -> [u64; 4] {
        [
            self.nominal.pattern(),
            self.target.pattern(),
            self.target2.pattern(),
            self.frequency2.pattern(),
        ]
    }
}

// A bank by itself; its trackers stand behind.
impl Words<5> for EkfTrackingBank {
    ghost numbers = { fade_words };

    #[tactic(auto, unfolding(crate::specs::Code::Standing::fade_words))]
    fn words(self) -> [u64; 5] {
        [
            self.active_idx,
            self.in_fade.pattern(),
            self.fade_counter,
            self.max_fade_steps,
            self.terminated_in_fade.pattern(),
        ]
    }
}

// A channel by itself; its parts stand behind.
impl Words<4> for Channel {
    ghost numbers = { mark_words };

    #[tactic(auto, unfolding(crate::specs::Code::Standing::mark_words, channel_model::specs::Assigning::idle))]
    fn words(self) -> [u64; 4] {
        [
            matches!(self.status, Status::Assigned).pattern(),
            self.is_locked.pattern(),
            self.ever_locked.pattern(),
            self.last_snr.pattern(),
        ]
    }
}

// A channel as it stands.
#[tactic(auto, using(vectors::proofs::LineLaws::strip_both), unfolding(crate::specs::Code::Standing::standing_words, crate::specs::Code::Standing::pll_words, crate::specs::Code::Standing::bank_words))]
pub fn strip_channel(words: &[u64], c: Channel) -> Option<&[u64]>
    ensures { left_of result ≡ strip (standing_words c) words.now }
{
    let left = strip_value(words, c)?;
    let left = strip_value(left, c.reading)?;
    let left = strip_value(left, c.carriers)?;
    let left = strip_value(left, c.pll)?;
    if !c.setup.bank {
        return Some(left);
    }
    let left = strip_value(left, c.bank)?;
    let left = strip_value(left, c.bank.t0)?;
    let left = strip_value(left, c.bank.t1)?;
    strip_value(left, c.bank.t2)
}
