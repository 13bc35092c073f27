// Lines that are block calls. The two lists stand in local arrays, of which as much is lent to the call as the line gives.
ghost use Rattle.std.specs.Prelude.{◌≡◌, ◌<◌, ◌≤◌, drop, length, MatchOption};
ghost use Rattle.vectors.specs.Code.Lines.{strip, left_of, number_at};
ghost use Rattle.channel_vectors.specs.Code.Blocks.{blocked_in, left_by, window_mix, listed_words, ruled_words, ruled_list, listed_line, ruled_line};

use crate::state::State;
use channel_block::block::block;
use channel_model::Answer;
use channel_words::arguments::rule_in;
use channel_words::standing::strip_value;
use vectors::line::{Word, is_end, list_in, rest, strip};
use vectors::mix::mix_all;

// What a block call answers, and one number for the window memory as it leaves it.
#[derive(Clone, Copy)]
struct Answered {
    answer: Answer,
    mix: u64,
}

// What is left of a line behind the answer, both lists and the window memory's number.
#[tactic(auto, using(vectors::proofs::LineLaws::strip_both, vectors::proofs::LineLaws::strip_words), unfolding(crate::specs::Code::Blocks::listed_words))]
fn strip_listed<'a>(
    words: &'a [u64],
    r: Answered,
    first: &[f32],
    second: &[f32],
) -> Option<&'a [u64]>
    ensures { left_of result ≡ strip (listed_words r.answer first.now second.now r.mix) words.now }
{
    let left = strip_value(words, r.answer)?;
    let left = strip(left, first)?;
    let left = strip(left, second)?;
    strip(left, &[r.mix])
}

// The same with a number for each list.
#[tactic(auto, using(vectors::proofs::LineLaws::strip_both, vectors::proofs::LineLaws::strip_words), unfolding(crate::specs::Code::Blocks::ruled_words))]
fn strip_ruled<'a>(
    words: &'a [u64],
    r: Answered,
    first: &[f32],
    second: &[f32],
) -> Option<&'a [u64]>
    ensures { left_of result ≡ strip (ruled_words r.answer first.now second.now r.mix) words.now }
{
    let left = strip_value(words, r.answer)?;
    strip(left, &[mix_all(0, first), mix_all(0, second), r.mix])
}

// A list by a rule, which is a count of pairs and the rule, in lent memory, and what is left of the line behind it; none where the memory is too short.
#[tactic(auto, unfolding(crate::specs::Code::Blocks::ruled_list, channel_words::specs::Code::Rules::ruled_samples))]
fn ruled_in<'a, 'b>(
    words: &'b [u64],
    memory: &'a mut [[f32; 2]],
) -> Option<(&'a mut [f32], &'b [u64])>
    ensures { MatchOption result
        (length memory.old < number_at 0 words.now)
        (λ r. (number_at 0 words.now ≤ length memory.old)
        × (r.0.now ≡ ruled_list words.now)
        × (r.1.now ≡ drop 7 words.now)) }
{
    let pairs = memory.get_mut(..usize::at(words, 0))?;
    rule_in(rest(words, 1)).samples(pairs);
    Some((pairs.as_flattened_mut(), rest(words, 7)))
}

impl State {
    // A block that is lent the first `size` numbers of the window memory. Its flag is a number, as the call takes it.
    #[tactic(auto, unfolding(crate::specs::Code::Blocks::blocked_in, crate::specs::Code::Blocks::window_mix, channel_model::specs::Blocks::outcome))]
    fn block(&mut self, flag: u64, first: &mut [f32], second: &mut [f32], size: usize) -> Answered
        ensures left_value { left_by result.answer self.new first.new second.new ≡ blocked_in self.old.channel (record { flag = flag; first = first.old; second = second.old }) size self.old.windows }
        ensures mix_value { result.mix ≡ window_mix self.new.windows }
    {
        let n = size.min(self.windows.len());
        let r = block(self.channel, flag, first, second, &mut self.windows[..n]);
        self.channel = r.channel;
        let mix = mix_all(0, &self.windows[..8192]);
        Answered {
            answer: r.answer,
            mix,
        }
    }

    // Behind the lists stand the length of the lent window memory and the answer.
    #[tactic(auto, using(std::proofs::lemmas::Bool::Decides::nat_tests), unfolding(crate::specs::Code::Blocks::listed_line, vectors::specs::Code::Lines::is_rest))]
    pub fn replay_listed(&mut self, words: &[u64]) -> bool
        ensures { (result, self.new.channel, self.new.windows) ≡ listed_line words.now self.old.channel self.old.windows }
    {
        let mut first_memory = [0.0f32; 8200];
        let mut second_memory = [0.0f32; 8200];
        let Some((first, left)) = list_in(rest(words, 2), &mut first_memory) else {
            return false;
        };
        let Some((second, left)) = list_in(left, &mut second_memory) else {
            return false;
        };
        let r = self.block(
            u64::at(words, 1),
            &mut *first,
            &mut *second,
            usize::at(left, 0),
        );
        is_end(strip_listed(rest(left, 1), r, first, second))
    }

    #[tactic(auto, using(std::proofs::lemmas::Bool::Decides::nat_tests), unfolding(crate::specs::Code::Blocks::ruled_line, vectors::specs::Code::Lines::is_rest))]
    pub fn replay_ruled(&mut self, words: &[u64]) -> bool
        ensures { (result, self.new.channel, self.new.windows) ≡ ruled_line words.now self.old.channel self.old.windows }
    {
        let mut first_memory = [[0.0f32; 2]; 4096];
        let mut second_memory = [[0.0f32; 2]; 4096];
        let Some((first, left)) = ruled_in(rest(words, 2), &mut first_memory) else {
            return false;
        };
        let Some((second, left)) = ruled_in(left, &mut second_memory) else {
            return false;
        };
        let r = self.block(
            u64::at(words, 1),
            &mut *first,
            &mut *second,
            usize::at(left, 0),
        );
        is_end(strip_ruled(rest(left, 1), r, first, second))
    }
}
