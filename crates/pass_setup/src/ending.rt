// The end of the input.
ghost use Rattle.std.specs.Prelude.{◌≡◌};
ghost use Rattle.pass_setup.specs.Listing.{input_ended};
ghost use Rattle.pass_setup.specs.Code.Buffers.{printed, as_printed};

use crate::pass::{Judged, OUTSIDE, Pass, Stage};

// The end of the input, with what stands after the last newline.
#[tactic(auto, unfolding(crate::specs::Listing::input_ended), using(crate::proofs::LineCases::still_printed))]
pub fn finish(p: Pass, left: &[u8], out: &mut [u8]) -> Judged
    ensures { as_printed result out.new ≡ printed (input_ended p.stage p left.now) out.old }
{
    match p.stage {
        Stage::Stopped => Judged { pass: p, added: 0 },
        Stage::Blocks if left.is_empty() => Judged { pass: p, added: 0 },
        _ => p.refuse(OUTSIDE, out),
    }
}
