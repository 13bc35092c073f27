// One line.
ghost use Rattle.std.specs.Prelude.{◌≡◌, cond};
ghost use Rattle.pass_reader.specs.Lines.{outside};
ghost use Rattle.pass_setup.specs.Judging.{line_refused, line_taken, judged};
ghost use Rattle.pass_setup.specs.Code.Buffers.{printed, printed_with, as_printed};

use crate::block::take_block;
use pass_reader::line::{is_block_names, is_names};
use pass_setup::pass::{Judged, OUTSIDE, Pass, Stage};
use pass_setup::setup::{take_names, take_values};

// A line of names: whether it is the one that has to stand here.
#[tactic(auto, unfolding(pass_setup::specs::Judging::refused_or))]
fn take_named(p: Pass, stands: bool, next: Stage, out: &mut [u8]) -> Judged
    ensures { as_printed result out.new ≡ printed (cond stands (line_taken next p.channel p) (line_refused outside p)) out.old }
{
    if stands {
        take_names(p, 0, next, out)
    } else {
        take_names(p, OUTSIDE, next, out)
    }
}

// Judges one line, its newline with it. What it adds to the list goes to the head of out.
#[tactic(auto, unfolding(pass_setup::specs::Judging::judged, pass_setup::specs::Code::Buffers::printed_with), using(pass_setup::proofs::LineCases::still_printed))]
#[inline(never)]
pub fn judge(p: Pass, line: &[u8], windows: &mut [f64], out: &mut [u8]) -> Judged
    ensures { (as_printed result out.new, windows.new) ≡ printed_with (judged p.stage p windows.old line.now) out.old }
{
    match p.stage {
        Stage::Names => take_named(p, is_names(line), Stage::Values, out),
        Stage::Values => take_values(p, line, out),
        Stage::BlockNames => take_named(p, is_block_names(line), Stage::Blocks, out),
        Stage::Blocks => take_block(p, line, windows, out),
        Stage::Stopped => Judged { pass: p, added: 0 },
    }
}
