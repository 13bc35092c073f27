// Lines that look at no window memory. Each takes what is given from the line, makes the call, and says whether its answer is the rest of the line.
ghost use Rattle.std.specs.Prelude.{◌≡◌};
ghost use Rattle.channel_vectors.specs.Code.Calls.{open_line, build_line, assign_line, release_line, figures_line, standing_line};

use channel_control::assign::assign;
use channel_control::figures::figures;
use channel_control::release::release;
use channel_model::{Channel, number_and_channel};
use channel_open::open;
use channel_words::arguments::{carriers_in, settings_in};
use channel_words::built::channel_in;
use channel_words::standing::strip_channel;
use vectors::line::{is_end, is_rest, rest};

#[tactic(auto, unfolding(crate::specs::Code::Calls::open_line))]
pub fn replay_open(words: &[u64], c: &mut Channel) -> bool
    ensures { (result, c.new) ≡ open_line words.now }
{
    let opened = open(settings_in(rest(words, 1)));
    let (number, channel) = number_and_channel(&opened);
    *c = *channel;
    is_rest(rest(words, 10), &[number])
}

pub fn replay_build(words: &[u64], c: &mut Channel) -> bool
    ensures { (result, c.new) ≡ build_line words.now }
{
    let (channel, left) = channel_in(rest(words, 1));
    *c = channel;
    is_end(left)
}

#[tactic(auto, unfolding(crate::specs::Code::Calls::assign_line))]
pub fn replay_assign(words: &[u64], c: &mut Channel) -> bool
    ensures { (result, c.new) ≡ assign_line words.now c.old }
{
    let assigned = assign(*c, carriers_in(rest(words, 1)));
    let (number, channel) = number_and_channel(&assigned);
    *c = *channel;
    is_rest(rest(words, 5), &[number])
}

#[tactic(auto, unfolding(crate::specs::Code::Calls::release_line, vectors::specs::Code::Lines::ends_at))]
pub fn replay_release(words: &[u64], c: &mut Channel) -> bool
    ensures { (result, c.new) ≡ release_line words.now c.old }
{
    *c = release(*c);
    words.len() == 1
}

#[tactic(auto, unfolding(crate::specs::Code::Calls::figures_line))]
pub fn replay_figures(words: &[u64], c: Channel) -> bool
    ensures { result ≡ figures_line words.now c }
{
    let twelve = figures(c);
    is_rest(rest(words, 1), &twelve)
}

#[tactic(auto, unfolding(crate::specs::Code::Calls::standing_line, vectors::specs::Code::Lines::is_rest))]
pub fn replay_standing(words: &[u64], c: Channel) -> bool
    ensures { result ≡ standing_line words.now c }
{
    is_end(strip_channel(rest(words, 1), c))
}
