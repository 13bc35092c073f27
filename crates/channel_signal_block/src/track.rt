// A block with a signal, from the started trackers on: the trackers over the samples, and what they show then.
ghost use Rattle.std.specs.Prelude.{◌≡◌, length};
ghost use Rattle.channel_model.specs.Tracking as model;

use bank_model::state::EkfTrackingBank;
use bank_selection::fade::finish;
use channel_answer::reading::{centre, read_from};
use channel_answer::values::unlock;
use channel_model::{Channel, Reading, Setup};
use ieee754::conversion::u64_to_f64;
use tracker_over_block::lists::Lists;
use tracker_over_block::stretch::follow_on;
use tracker_readings::{phase_of, scale_of};

// The interval between two samples in tracking.
#[tactic(auto, unfolding(channel_model::specs::Tracking::interval, channel_model::specs::Opening::whole))]
pub fn interval(setup: Setup) -> f64
    ensures { result ≡ model.interval setup }
{
    u64_to_f64(setup.factor) / u64_to_f64(setup.rate)
}

// The trackers over a block's samples: the three of the bank, or without one `pll_tracker`.
// A slice and no array of 8,192 for the window memory, here and in the block: the scope has a channel lend `&mut w[2048*i..2048*(i+1)]` of it to a tracker.
#[tactic(auto, unfolding(channel_model::specs::Tracking::followed_by, channel_model::specs::Values::with_all, channel_model::specs::Values::moved, bank_model::specs::Following::on_stretch))]
pub fn follow(c: Channel, first: &[f32], second: &[f32], w: &mut [f64]) -> Channel
    requires { length w.old ≡ 8192 }
    ensures { (result, w.new) ≡ model.followed_by c.setup.bank c (record { two = c.setup.two; first = first.now; second = second.now }) w.old }
{
    let lists = Lists {
        two: c.setup.two,
        first,
        second,
    };
    let dt = interval(c.setup);
    if c.setup.bank {
        let bank = bank_over_block::following::follow(c.bank, lists, w, dt);
        Channel { bank, ..c }
    } else {
        let pll = follow_on(c.pll, lists, w, 0, dt, false);
        Channel { pll, ..c }
    }
}

// BPSK is read at half its states.
#[tactic(auto, unfolding(channel_model::specs::Tracking::scale_of))]
fn scale_for(c: Channel) -> f64
    ensures { result ≡ model.scale_of c }
{
    scale_of(c.pll.ekf.modulation)
}

// Without a bank: a locked `pll_tracker` is read, of another the phase alone.
#[tactic(auto, unfolding(channel_model::specs::Tracking::single_shown, channel_model::specs::Values::moved))]
fn show_single(c: Channel) -> Channel
    ensures { result ≡ model.single_shown c }
{
    let k = scale_for(c);
    let t = c.pll.ekf;
    if t.is_locked {
        Channel {
            reading: read_from(c.setup.two, k, c.carriers, t, c.reading),
            ever_locked: true,
            is_locked: true,
            ..c
        }
    } else {
        let reading = Reading {
            phase: phase_of(k, t),
            frequency: centre(c.carriers.nominal, c.carriers.target),
            electrons: 0.0,
            ..c.reading
        };
        Channel {
            reading,
            is_locked: false,
            ..c
        }
    }
}

// With the bank b after its choice or fade: the tracker in use is read; where none is, the lock is given up.
#[tactic(auto, unfolding(channel_model::specs::Tracking::bank_shown, channel_model::specs::Values::moved, channel_model::specs::Values::with_electrons))]
fn show_bank(b: EkfTrackingBank, c: Channel) -> Channel
    ensures { result ≡ model.bank_shown b c }
{
    match b.used() {
        Some(used) => Channel {
            bank: b,
            reading: read_from(c.setup.two, scale_for(c), c.carriers, used.ekf, c.reading),
            ever_locked: c.ever_locked | !b.in_fade,
            is_locked: true,
            ..c
        },
        None => Channel {
            pll: unlock(c.pll),
            bank: b,
            reading: Reading {
                electrons: 0.0,
                ..c.reading
            },
            ever_locked: false,
            is_locked: false,
            ..c
        },
    }
}

// What the trackers show after a block's samples.
#[tactic(auto, unfolding(channel_model::specs::Tracking::with_shown))]
pub fn show(c: Channel) -> Channel
    ensures { result ≡ model.with_shown c }
{
    if c.setup.bank {
        show_bank(finish(c.bank, scale_for(c)), c)
    } else {
        show_single(c)
    }
}
