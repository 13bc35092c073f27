// The raw survey and the five calls, for callers in other languages. The channel goes in and out by value in the layout of C.
ghost use Rattle.std.specs.Prelude.{◌≡◌};
ghost use Rattle.sequences.specs.Pairs.{pairs};
ghost use Rattle.survey.specs.Survey.{survey_of};
ghost use Rattle.channel_c_layout.specs.Calls.{opened_c, assigned_c, left_c, blocked_c, released_c, figures_c};

use channel_c_layout::plain_calls::{PlainBlocked, PlainReturned, TwelveFigures};
use channel_c_layout::plain_channel::{PlainChannel, given_back};
use channel_model::{Carriers, Channel, Settings, number_and_channel};

#[unsafe(no_mangle)]
pub extern "C" fn gibsumac_survey(raw: &[f32]) -> u64
    ensures { result ≡ survey_of (pairs raw.now) }
{
    survey::survey(raw)
}

#[tactic(auto, unfolding(channel_c_layout::specs::Calls::opened_c))]
#[unsafe(no_mangle)]
pub extern "C" fn gibsumac_open(settings: Settings) -> PlainReturned
    ensures { result ≡ opened_c settings }
{
    let returned = channel_open::open(settings);
    let (refusal, c) = number_and_channel(&returned);
    PlainReturned {
        refusal,
        channel: PlainChannel::from(*c),
    }
}

#[tactic(auto, unfolding(channel_c_layout::specs::Calls::assigned_c))]
#[unsafe(no_mangle)]
pub extern "C" fn gibsumac_assign(channel: PlainChannel, carriers: Carriers) -> PlainReturned
    ensures { result ≡ assigned_c channel carriers }
{
    let real = Channel::from(channel);
    let returned = channel_control::assign::assign(real, carriers);
    let (refusal, c) = number_and_channel(&returned);
    PlainReturned {
        refusal,
        channel: given_back(refusal, channel, *c),
    }
}

#[tactic(auto, unfolding(channel_c_layout::specs::Calls::blocked_c, channel_c_layout::specs::Calls::left_c, channel_model::specs::Blocks::outcome))]
#[unsafe(no_mangle)]
pub extern "C" fn gibsumac_block(
    channel: PlainChannel,
    flag: u64,
    first: &mut [f32],
    second: &mut [f32],
    windows: &mut [f64],
) -> PlainBlocked
    ensures { left_c result first.new second.new windows.new
        ≡ blocked_c channel flag first.old second.old windows.old }
{
    let real = Channel::from(channel);
    let b = channel_block::block::block(real, flag, first, second, windows);
    PlainBlocked {
        answer: b.answer,
        channel: given_back(b.answer.refusal, channel, b.channel),
    }
}

#[tactic(auto, unfolding(channel_c_layout::specs::Calls::released_c))]
#[unsafe(no_mangle)]
pub extern "C" fn gibsumac_release(channel: PlainChannel) -> PlainChannel
    ensures { result ≡ released_c channel }
{
    let real = Channel::from(channel);
    PlainChannel::from(channel_control::release::release(real))
}

#[tactic(auto, unfolding(channel_c_layout::specs::Calls::figures_c))]
#[unsafe(no_mangle)]
pub extern "C" fn gibsumac_figures(channel: PlainChannel) -> TwelveFigures
    ensures { result ≡ figures_c channel }
{
    let values = channel_control::figures::figures(Channel::from(channel));
    TwelveFigures { values }
}
