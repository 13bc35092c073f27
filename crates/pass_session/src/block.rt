// The line of a block.
ghost use Rattle.std.specs.Prelude.{◌≡◌};
ghost use Rattle.pass_reader.specs.Lines.{flag_and_samples};
ghost use Rattle.pass_setup.specs.Judging.{shown_of, refused_or, block_taken, block_judged};
ghost use Rattle.pass_setup.specs.Code.Buffers.{printed, printed_with, as_printed};

use channel_block::block::block;
use channel_model::{Answer, Blocked};
use pass_reader::block::block_line as read_block;
use pass_setup::pass::{Judged, OUTSIDE, Pass, Stage, count};
use pass_writer::lines::{Shown, block_line};

// Not a From: both types belong to other crates.
#[tactic(auto, unfolding(pass_setup::specs::Judging::shown_of))]
fn shown(a: Answer) -> Shown
    ensures { result ≡ shown_of a }
{
    Shown {
        locked: a.locked,
        tracker: a.tracker,
        fade: a.fade_count,
        phase: a.phase,
        frequency: a.frequency,
        snr: a.snr,
    }
}

// A block's answer: its line in the list, or its refusal.
#[tactic(auto, unfolding(pass_setup::specs::Judging::refused_or), using(crate::proofs::BlockCases::answer_printed))]
fn take_answer(p: Pass, b: Blocked, out: &mut [u8]) -> Judged
    ensures { as_printed result out.new ≡ printed (refused_or b.answer.refusal p (block_taken b.answer b.channel p)) out.old }
{
    let a = b.answer;
    if a.refusal != 0 {
        return p.refuse(a.refusal, out);
    }
    let block = count(p.block);
    Judged {
        pass: Pass {
            stage: Stage::Blocks,
            line: count(p.line),
            block,
            channel: b.channel,
        },
        added: block_line(out, block, shown(a)),
    }
}

// The samples are read into a buffer of the function's own, which the channel normalises in place.
// Not compiled into its caller, nor is `judge`: there the pass, 2,000 bytes, is copied in single bytes, and a text of short lines took 1.6 times as long.
#[tactic(auto, unfolding(pass_setup::specs::Code::Buffers::printed_with, pass_setup::specs::Judging::block_judged, pass_reader::specs::Code::Answers::read_into))]
#[inline(never)]
pub fn take_block(p: Pass, line: &[u8], windows: &mut [f64], out: &mut [u8]) -> Judged
    ensures { (as_printed result out.new, windows.new) ≡ printed_with (block_judged (flag_and_samples line.now) p windows.old) out.old }
{
    let mut samples = [0.0; 4096];
    let Some((flag, count)) = read_block(line, &mut samples) else {
        return p.refuse(OUTSIDE, out);
    };
    let b = block(p.channel, flag, &mut samples[..count], &mut [], windows);
    take_answer(p, b, out)
}
