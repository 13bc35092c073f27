// The first three lines: names, values, names.
ghost use Rattle.std.specs.Prelude.{◌≡◌};
ghost use Rattle.channel_model.specs.Returns.{returned};
ghost use Rattle.pass_reader.specs.Lines.{values_line};
ghost use Rattle.pass_reader.specs.Code.Answers.{values_of};
ghost use Rattle.pass_setup.specs.Opening.{settings_of, carriers_of, readied};
ghost use Rattle.pass_setup.specs.Judging.{line_taken, refused_or, values_judged};
ghost use Rattle.pass_setup.specs.Code.Buffers.{printed, as_printed};

use crate::pass::{Judged, OUTSIDE, Pass, Stage};
use channel_control::assign::assign;
use channel_model::{Carriers, Channel, Refused, Settings};
use channel_open::open;
use ieee754::conversion::u64_to_f64;
use pass_reader::values::{Values, values_line};

// A line of names, by its refusal number: 0 where it is the one that has to stand here.
#[tactic(auto, using(crate::proofs::LineCases::taken_printed), unfolding(crate::specs::Judging::refused_or))]
pub fn take_names(p: Pass, refusal: u64, next: Stage, out: &mut [u8]) -> Judged
    ensures { as_printed result out.new ≡ printed (refused_or refusal p (line_taken next p.channel p)) out.old }
{
    if refusal != 0 {
        return p.refuse(refusal, out);
    }
    Judged {
        pass: p.take(next, p.channel),
        added: 0,
    }
}

// Not a From, nor is `carriers`: both types belong to other crates.
#[tactic(auto, unfolding(crate::specs::Opening::settings_of))]
fn settings(v: Values) -> Settings
    ensures { result ≡ settings_of (values_of v) }
{
    Settings {
        rate: v.rate,
        factor: v.factor,
        modulation: v.modulation,
        adaptive: v.adaptive,
        dual_lock: v.dual,
        bank: v.bank,
        two: false,
        fade: v.fade,
        ratio: 1.0,
    }
}

#[tactic(auto, unfolding(crate::specs::Opening::carriers_of, channel_model::specs::Opening::whole))]
fn carriers(v: Values) -> Carriers
    ensures { result ≡ carriers_of (values_of v) }
{
    Carriers {
        nominal: u64_to_f64(v.nominal),
        target: u64_to_f64(v.target),
        target2: 0.0,
        frequency2: 0.0,
    }
}

// Opens a channel and assigns it.
#[tactic(auto, unfolding(crate::specs::Opening::readied))]
fn ready(v: Values) -> Result<Channel, Refused>
    ensures { returned result ≡ readied (values_of v) }
{
    assign(open(settings(v))?, carriers(v))
}

// A channel that is opened and assigned, or the refusal of one of the two.
#[tactic(auto, using(crate::proofs::LineCases::taken_printed), unfolding(crate::specs::Judging::refused_or))]
fn take_channel(p: Pass, ready: Result<Channel, Refused>, out: &mut [u8]) -> Judged
    ensures { as_printed result out.new ≡ printed (refused_or (returned ready).refusal p (line_taken Stage.BlockNames (returned ready).channel p)) out.old }
{
    match ready {
        Ok(channel) => Judged {
            pass: p.take(Stage::BlockNames, channel),
            added: 0,
        },
        Err(refused) => p.refuse(refused.refusal.number(), out),
    }
}

// The line of values: its form first, then open, then assign.
#[tactic(auto, unfolding(crate::specs::Judging::values_judged))]
pub fn take_values(p: Pass, line: &[u8], out: &mut [u8]) -> Judged
    ensures { as_printed result out.new ≡ printed (values_judged (values_line line.now) p) out.old }
{
    let Some(v) = values_line(line) else {
        return p.refuse(OUTSIDE, out);
    };
    take_channel(p, ready(v), out)
}
