// Replays lists of calls and built channels that the Rust answered. A line is one call and its answer; it begins with its kind. reference/vectors
// makes them, and reference/README.md has the words of each kind. The number of each line that differs is printed. What is read and what is decided stand apart:
// `replay` is a function of the line, the channel and the window memory.
#![tactic(auto)]

mod blocks;
mod calls;
mod memory;
mod state;

ghost use Rattle.std.specs.Prelude.{◌≡◌};
ghost use Rattle.channel_vectors.specs.Code.Lines.{replayed};

use crate::calls::{
    replay_assign, replay_build, replay_figures, replay_open, replay_release, replay_standing,
};
use crate::memory::{set_by_start, set_place};
use crate::state::State;
use channel_model::number_and_channel;
use channel_open::open;
use channel_words::arguments::settings_in;
use vectors::line::Word;

impl State {
    // Numbers and not an enum: each kind stands once, beside the function that has its name.
    #[tactic(auto, using(std::proofs::lemmas::Bool::Decides::nat_tests), unfolding(crate::specs::Code::Lines::replayed, crate::specs::Code::Lines::by_kind, crate::specs::Code::Memory::cleared, vectors::specs::Code::Lines::ends_at))]
    fn replay(&mut self, words: &[u64]) -> bool
        ensures { (result, self.new.channel, self.new.windows) ≡ replayed words.now self.old.channel self.old.windows }
    {
        match u64::at(words, 0) {
            0 => {
                self.windows.fill(0.0);
                words.len() == 1
            }
            1 => {
                set_by_start(&mut self.windows, u64::at(words, 1));
                words.len() == 2
            }
            2 => {
                set_place(&mut self.windows, usize::at(words, 1), f64::at(words, 2));
                words.len() == 3
            }
            3 => replay_open(words, &mut self.channel),
            4 => replay_build(words, &mut self.channel),
            5 => replay_assign(words, &mut self.channel),
            6 => self.replay_listed(words),
            7 => replay_release(words, &mut self.channel),
            8 => replay_figures(words, self.channel),
            9 => replay_standing(words, self.channel),
            10 => self.replay_ruled(words),
            _ => false,
        }
    }
}

fn main() {
    // Any channel: the first line opens or builds another.
    let opened = open(settings_in(&[]));
    let mut state = State {
        channel: *number_and_channel(&opened).1,
        windows: [0.0; 8193],
    };
    vectors::replay(100_000_000, &mut [0; 33300], |words| state.replay(words));
}
