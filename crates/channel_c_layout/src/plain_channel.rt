// A channel in the layout of C.
ghost use Rattle.std.specs.Prelude.{◌≡◌};
ghost use Rattle.channel_c_layout.specs.Channels.{plain_channel, real_channel, given_back};

use crate::plain_tracker::PlainTracker;
use bank_model::state::EkfTrackingBank;
use channel_model::{Carriers, Channel, Reading, Setup, Status};
use tracker::state::Tracked;

// A channel, with a mark for its status and its bank's fields beside its own.
#[repr(C)]
#[derive(Clone, Copy)]
pub struct PlainChannel {
    pub setup: Setup,
    pub idle: bool,
    pub carriers: Carriers,
    pub pll: PlainTracker,
    pub t0: PlainTracker,
    pub t1: PlainTracker,
    pub t2: PlainTracker,
    pub active_idx: u64,
    pub in_fade: bool,
    pub fade_counter: u64,
    pub max_fade_steps: u64,
    pub terminated_in_fade: bool,
    pub ever_locked: bool,
    pub last_snr: f32,
    pub is_locked: bool,
    pub reading: Reading,
}

impl From<Channel> for PlainChannel {
    ghost from_gives = { λ c p. p ≡ plain_channel c };

    #[tactic(auto, unfolding(crate::specs::Channels::plain_channel))]
    fn from(c: Channel) -> PlainChannel {
        let b = c.bank;
        PlainChannel {
            setup: c.setup,
            idle: c.status.is_idle(),
            carriers: c.carriers,
            pll: PlainTracker::from(c.pll),
            t0: PlainTracker::from(b.t0),
            t1: PlainTracker::from(b.t1),
            t2: PlainTracker::from(b.t2),
            active_idx: b.active_idx,
            in_fade: b.in_fade,
            fade_counter: b.fade_counter,
            max_fade_steps: b.max_fade_steps,
            terminated_in_fade: b.terminated_in_fade,
            ever_locked: c.ever_locked,
            last_snr: c.last_snr,
            is_locked: c.is_locked,
            reading: c.reading,
        }
    }
}

impl From<PlainChannel> for Channel {
    ghost from_gives = { λ p c. c ≡ real_channel p };

    #[tactic(auto, unfolding(crate::specs::Channels::real_channel))]
    fn from(p: PlainChannel) -> Channel {
        Channel {
            setup: p.setup,
            status: if p.idle {
                Status::Idle
            } else {
                Status::Assigned
            },
            carriers: p.carriers,
            pll: Tracked::from(p.pll),
            bank: EkfTrackingBank {
                t0: Tracked::from(p.t0),
                t1: Tracked::from(p.t1),
                t2: Tracked::from(p.t2),
                active_idx: p.active_idx,
                in_fade: p.in_fade,
                fade_counter: p.fade_counter,
                max_fade_steps: p.max_fade_steps,
                terminated_in_fade: p.terminated_in_fade,
            },
            ever_locked: p.ever_locked,
            last_snr: p.last_snr,
            is_locked: p.is_locked,
            reading: p.reading,
        }
    }
}

// The struct after a call. A refused one gives back the struct that it was given, so also a modulation over 2, which stands for no channel of its own.
#[tactic(auto, unfolding(crate::specs::Channels::given_back))]
pub fn given_back(refusal: u64, given: PlainChannel, c: Channel) -> PlainChannel
    ensures { result ≡ given_back refusal given c }
{
    if refusal != 0 {
        return given;
    }
    PlainChannel::from(c)
}
