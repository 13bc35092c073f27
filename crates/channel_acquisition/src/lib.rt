// Module 9 of the scope: the start of the trackers in a block with a signal.
// Functions, and no methods: a channel is a type of a crate below, where alone it can have methods.
#![tactic(auto)]

ghost use Rattle.std.specs.Prelude.{◌≡◌};
ghost use Rattle.channel_model.specs.Starting as model;

use channel_model::{Channel, Setup};
use estimate_esprit::estimate_frequency_esprit;
use ieee754::integral::{round, to_usize};
use tracker::state::Tracked;
use tracker_measurement::modulation::Modulation;

// Whether the trackers start: `pll_tracker` is not locked, and the channel never was or the last SNR was below 0.
#[tactic(auto, unfolding(channel_model::specs::Starting::starts))]
pub fn starts(c: Channel) -> bool
    ensures { result ≡ model.starts c }
{
    !c.pll.ekf.is_locked && (!c.ever_locked || c.last_snr < 0.0)
}

// How many samples the estimate looks at: a hundredth of a second, rounded.
#[tactic(auto, unfolding(channel_model::specs::Starting::chunk))]
pub fn chunk(setup: Setup) -> usize
    ensures { result ≡ model.chunk setup }
{
    to_usize(round(0.01 * setup.decimated_rate()))
}

// BPSK has a carrier in the samples' squares.
#[tactic(auto, unfolding(channel_model::specs::Starting::squares))]
fn squares(m: Modulation) -> bool
    ensures { result ≡ model.squares m }
{
    matches!(m, Modulation::Bpsk)
}

// The frequency at which the trackers start: the estimate of the list's first samples, with two numbers for each. Twice a chunk can be more than a usize
// holds.
#[tactic(auto, unfolding(channel_model::specs::Starting::start_frequency))]
pub fn start_frequency(m: Modulation, setup: Setup, samples: &[f32]) -> f64
    ensures { result ≡ model.start_frequency m setup samples.now }
{
    let n = chunk(setup).saturating_mul(2).min(samples.len());
    estimate_frequency_esprit(&samples[..n], squares(m), setup.decimated_rate())
}

// A tracker of the bank starts where it is not locked.
#[tactic(auto, unfolding(channel_model::specs::Starting::started_unlocked, channel_model::specs::Starting::restarted))]
fn start_unlocked(hz: f64, h: Tracked) -> Tracked
    ensures { result ≡ model.started_unlocked hz h }
{
    if h.ekf.is_locked {
        h
    } else {
        h.ekf.reset(0.0, hz, 0.0)
    }
}

// `pll_tracker` is reset, and those of the bank that are not locked.
#[tactic(auto, unfolding(channel_model::specs::Starting::started_at, channel_model::specs::Starting::restarted, channel_model::specs::Values::on_each, channel_model::specs::Values::with_all, channel_model::specs::Values::moved))]
fn start_at(hz: f64, c: Channel) -> Channel
    ensures { result ≡ model.started_at hz c }
{
    Channel {
        pll: c.pll.ekf.reset(0.0, hz, 0.0),
        bank: c.bank.map(|h| start_unlocked(hz, h)),
        ..c
    }
}

// The channel with its trackers started, where it starts, from the list as it came.
#[tactic(auto, unfolding(channel_model::specs::Starting::started))]
pub fn started(c: Channel, samples: &[f32]) -> Channel
    ensures { result ≡ model.started c samples.now }
{
    if !starts(c) {
        return c;
    }
    let hz = start_frequency(c.pll.ekf.modulation, c.setup, samples);
    start_at(hz, c)
}
