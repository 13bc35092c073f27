// A block of a script: its lists, the call, and what it leaves.
ghost use Rattle.std.specs.Prelude.{◌≡◌};
ghost use Rattle.std.specs.Float.Ieee.{ne};
ghost use Rattle.sequences.specs.Folds.{some};
ghost use Rattle.channel_model.specs.Blocks.{outcome};
ghost use Rattle.channel_script.specs.Code.Blocks as meant;

use crate::session::{Lists, Seen};
use channel_block::block::block;
use channel_model::{Answer, Blocked, Channel};
use std::array;

// What a block gave back: the channel, the answer, and of the memory that was lent what is looked at.
#[derive(Clone, Copy)]
pub struct Left {
    pub channel: Channel,
    pub answer: Answer,
    pub re: f32,
    pub im: f32,
    pub other: f32,
    pub touched: bool,
}

// Eight samples that no tracker follows: quarter turns 0, 1, 3, 2, 2, 3, 1, 0.
const TURNS: [f32; 16] = [
    1.0, 0.0, 0.0, 1.0, 0.0, -1.0, -1.0, 0.0, -1.0, 0.0, 0.0, -1.0, 0.0, 1.0, 1.0, 0.0,
];

// A block without samples. The flag is a number here and below, since a call is also given flags that stand for nothing.
pub fn no_lists(flag: u64) -> Lists
    ensures { result ≡ meant.no_lists flag }
{
    Lists {
        flag,
        first: 0,
        second: 0,
        windows: 8192,
        re: 0.5,
        im: 0.5,
        other: 0.5,
        fill: 0.5,
        jumps: false,
    }
}

// 4,096 samples, the eight again and again, and two zeros.
fn jump(k: usize) -> f32
    ensures { result ≡ meant.jump k }
{
    if k < 8192 { TURNS[k % 16] } else { 0.0 }
}

fn jumps() -> [f32; 8194]
    ensures { result ≡ meant.jumps }
{
    array::from_fn(|k| jump(k))
}

fn first_list(l: Lists) -> [f32; 8194]
    ensures { result ≡ meant.first_memory l }
{
    if l.jumps {
        return jumps();
    }
    let mut list = [l.fill; 8194];
    list[0] = l.re;
    list[1] = l.im;
    list
}

#[tactic(auto, using(crate::proofs::BlockLaws::one_written), unfolding(crate::specs::Code::Blocks::second_memory))]
fn second_list(l: Lists) -> [f32; 8194]
    ensures { result ≡ meant.second_memory l }
{
    let mut list = [l.fill; 8194];
    list[0] = l.other;
    list
}

// Window memory is lent as sevens.
fn is_touched(windows: &[f64]) -> bool
    ensures { result ≡ some (λ w. ne w meant.seven) windows.now }
{
    windows.iter().any(|w| *w != 7.0)
}

fn with_mark(marks: u64, locked: bool) -> u64
    ensures { result ≡ meant.with_mark marks locked }
{
    let shifted = marks % 0x1_0000_0000 * 10;
    if locked { shifted + 1 } else { shifted }
}

impl Left {
    // What was seen, with this block as the last one.
    #[tactic(auto, unfolding(crate::specs::Code::Blocks::with_block))]
    pub fn seen_after(self, e: Seen) -> Seen
        ensures { result ≡ meant.with_block e self }
    {
        Seen {
            answer: self.answer,
            before: e.answer,
            marks: with_mark(e.marks, self.answer.locked),
            re: self.re,
            im: self.im,
            other: self.other,
            touched: self.touched,
            ..e
        }
    }
}

// A block with as much of these lists and of this memory as is asked for.
#[tactic(auto, using(crate::proofs::BlockLaws::lent_is))]
fn lent(c: Channel, l: Lists, first: &mut [f32], second: &mut [f32], windows: &mut [f64]) -> Blocked
    ensures { outcome result first.new second.new windows.new ≡ meant.lent_block c l first.old second.old windows.old }
{
    let n = l.first.min(first.len());
    let m = l.second.min(second.len());
    let k = l.windows.min(windows.len());
    block(
        c,
        l.flag,
        &mut first[..n],
        &mut second[..m],
        &mut windows[..k],
    )
}

pub fn run_block(c: Channel, l: Lists) -> Left
    ensures { result ≡ meant.block_left c l }
{
    let mut first = first_list(l);
    let mut second = second_list(l);
    let mut windows = [7.0; 8193];
    let b = lent(c, l, &mut first, &mut second, &mut windows);
    Left {
        channel: b.channel,
        answer: b.answer,
        re: first[0],
        im: first[1],
        other: second[1],
        touched: is_touched(&windows),
    }
}

pub(crate) fn sample(flag: u64, re: f32, im: f32) -> Lists
    ensures { result ≡ meant.sample flag re im }
{
    Lists {
        first: 2,
        re,
        im,
        ..no_lists(flag)
    }
}

pub(crate) fn shaken() -> Lists
    ensures { result ≡ meant.shaken }
{
    Lists {
        first: 8192,
        jumps: true,
        ..no_lists(1)
    }
}

// (1, 0) and (0, 1).
pub(crate) fn doubled(flag: u64) -> Lists
    ensures { result ≡ meant.doubled flag }
{
    Lists {
        second: 2,
        other: 0.0,
        fill: 1.0,
        ..sample(flag, 1.0, 0.0)
    }
}
