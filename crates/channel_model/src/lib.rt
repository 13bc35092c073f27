// Module 9 of the scope: the values of the channel and of its five calls, and in specs/ what the calls mean. The only functions here are conversions between
// these values and what a type is at rest.
#![tactic(auto)]

pub mod refusal;

ghost use Rattle.std.specs.Prelude.{◌≡◌};
ghost use Rattle.channel_model.specs.Answers.{refused_answer};
ghost use Rattle.channel_model.specs.Assigning.{idle};
ghost use Rattle.channel_model.specs.Opening.{decimated_rate, new_setup};
ghost use Rattle.channel_model.specs.Returns.{returned};

use crate::refusal::Refusal;
use bank_model::state::EkfTrackingBank;
use ieee754::conversion::u64_to_f64;
use tracker::state::Tracked;

// What open takes, as C gives it: so the modulation is a number, and one above 2 is refused.
#[repr(C)]
#[derive(Clone, Copy)]
pub struct Settings {
    pub rate: u64,
    pub factor: u64,
    pub modulation: u64,
    pub adaptive: bool,
    pub dual_lock: bool,
    pub bank: bool,
    pub two: bool,
    pub fade: u64,
    pub ratio: f64,
}

// What opening settles and no call changes. Whether there is a bank is a mark, as C has it; C's channel has the bank's fields without one too.
#[repr(C)]
#[derive(Clone, Copy)]
pub struct Setup {
    pub rate: u64,
    pub factor: u64,
    pub bank: bool,
    pub two: bool,
}

impl Setup {
    // The rate of the decimated samples.
    #[tactic(auto, unfolding(crate::specs::Opening::decimated_rate, crate::specs::Opening::whole))]
    pub fn decimated_rate(self) -> f64
        ensures { result ≡ decimated_rate self.rate self.factor }
    {
        u64_to_f64(self.rate) / u64_to_f64(self.factor)
    }
}

impl From<Settings> for Setup {
    ghost from_gives = { λ s k. k ≡ new_setup s };

    #[tactic(auto, unfolding(crate::specs::Opening::new_setup))]
    fn from(s: Settings) -> Setup {
        Setup {
            rate: s.rate,
            factor: s.factor,
            bank: s.bank,
            two: s.two,
        }
    }
}

#[derive(Clone, Copy, Debug, PartialEq, Eq)]
pub enum Status {
    Idle,
    Assigned,
}

impl Status {
    // Whether the channel waits for its carriers.
    #[tactic(auto, unfolding(crate::specs::Assigning::idle))]
    pub fn is_idle(self) -> bool
        ensures { result ≡ idle self }
    {
        matches!(self, Status::Idle)
    }
}

// What assign sets, in Hz.
#[repr(C)]
#[derive(Clone, Copy, Default)]
pub struct Carriers {
    pub nominal: f64,
    pub target: f64,
    pub target2: f64,
    pub frequency2: f64,
}

// What a block's answer shows of the signal.
#[repr(C)]
#[derive(Clone, Copy, Default)]
pub struct Reading {
    pub phase: f64,
    pub frequency: f64,
    pub snr: f64,
    pub electrons: f64,
}

#[derive(Clone, Copy)]
pub struct Channel {
    pub setup: Setup,
    pub status: Status,
    pub carriers: Carriers,
    pub pll: Tracked,
    pub bank: EkfTrackingBank,
    pub ever_locked: bool,
    pub last_snr: f32,
    pub is_locked: bool,
    pub reading: Reading,
}

// A block's answer, as the scope lists it and C reads it: so the refusal is its number, 0 for none, and the tracker is 3 for none.
#[repr(C)]
#[derive(Clone, Copy)]
pub struct Answer {
    pub refusal: u64,
    pub locked: bool,
    pub tracker: u64,
    pub in_fade: bool,
    pub fade_count: u64,
    pub ended: bool,
    pub phase: f64,
    pub frequency: f64,
    pub snr: f64,
    pub electrons: f64,
    pub metric: f64,
}

// The answer before any block: no tracker, and all else 0.
impl Default for Answer {
    ghost is_default = { λ a. a ≡ refused_answer 0 };

    #[tactic(auto, unfolding(crate::specs::Answers::refused_answer))]
    fn default() -> Answer {
        Answer {
            refusal: 0,
            locked: false,
            tracker: EkfTrackingBank::NONE,
            in_fade: false,
            fade_count: 0,
            ended: false,
            phase: 0.0,
            frequency: 0.0,
            snr: 0.0,
            electrons: 0.0,
            metric: 0.0,
        }
    }
}

// What a refused open or assign gives back: the cause, and the channel that the scope's table names.
#[derive(Clone, Copy)]
pub struct Refused {
    pub refusal: Refusal,
    pub channel: Channel,
}

// What open and assign return, as the scope's table has it: a number, 0 where the call is accepted, and a channel. By reference: a channel that is taken out of
// an enum by value is copied in single bytes, and an open took twelve times as long.
pub fn number_and_channel(r: &Result<Channel, Refused>) -> (u64, &Channel)
    ensures { (result.0 ≡ (returned r.now).refusal) × (result.1.now ≡ (returned r.now).channel) }
{
    match r {
        Ok(channel) => (0, channel),
        Err(refused) => (refused.refusal.number(), &refused.channel),
    }
}

// What block returns.
#[derive(Clone, Copy)]
pub struct Blocked {
    pub answer: Answer,
    pub channel: Channel,
}
