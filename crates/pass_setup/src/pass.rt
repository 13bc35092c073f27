// A pass between two lines, and the two ways in which a line leaves it: taken, or refused.
ghost use Rattle.std.specs.Prelude.{◌≡◌};
ghost use Rattle.pass_setup.specs.Judging.{counted, new_pass, line_refused, line_taken};
ghost use Rattle.pass_setup.specs.Code.Buffers.{printed, as_printed, is_stopped};

use channel_model::{Channel, Settings};
use channel_open::open;
use pass_writer::lines::refusal_line;

// The refusal number of a line outside the form.
pub const OUTSIDE: u64 = 13;

// Which line comes next.
#[derive(Clone, Copy)]
pub enum Stage {
    Names,
    Values,
    BlockNames,
    Blocks,
    Stopped,
}

impl Stage {
    // Whether the run has ended, so that nothing more need be read.
    #[tactic(auto, unfolding(crate::specs::Code::Buffers::is_stopped))]
    pub fn is_stopped(self) -> bool
        ensures { result ≡ is_stopped self }
    {
        matches!(self, Stage::Stopped)
    }
}

// How many lines and blocks there were, and the channel.
#[derive(Clone, Copy)]
pub struct Pass {
    pub stage: Stage,
    pub line: u64,
    pub block: u64,
    pub channel: Channel,
}

// The pass after a line, and how many bytes the line added to the list: they stand at the head of the buffer that was lent.
#[derive(Clone, Copy)]
pub struct Judged {
    pub pass: Pass,
    pub added: usize,
}

// How far a run over a chunk has come: the pass, how many bytes of the chunk are used, and how many of the list wait at the front of its buffer.
#[derive(Clone, Copy)]
pub struct Ran {
    pub pass: Pass,
    pub used: usize,
    pub at: usize,
}

// One more line or block.
#[tactic(auto, unfolding(crate::specs::Judging::counted), using(std::proofs::lemmas::Bool::Decides::nat_tests))]
pub fn count(n: u64) -> u64
    ensures { result ≡ counted n }
{
    n.saturating_add(1)
}

impl Pass {
    // A pass before its first line. Its channel is that of a refused open.
    #[tactic(auto, unfolding(crate::specs::Judging::new_pass, channel_model::specs::Opening::opened, channel_model::specs::Opening::open_refusal, channel_model::specs::Refusals::first_cause, channel_model::specs::Opening::bad_rate))]
    pub fn new() -> Pass
        ensures { result ≡ new_pass }
    {
        let opened = open(Settings {
            rate: 0,
            factor: 0,
            modulation: 0,
            adaptive: false,
            dual_lock: false,
            bank: false,
            two: false,
            fade: 0,
            ratio: 1.0,
        });
        Pass {
            stage: Stage::Names,
            line: 0,
            block: 0,
            channel: opened.unwrap_or_else(|refused| refused.channel),
        }
    }

    // The line is refused, which ends the run. The number is that of any of the refusals, as the list prints it.
    #[tactic(auto, using(crate::proofs::LineCases::refused_printed))]
    pub fn refuse(self, number: u64, out: &mut [u8]) -> Judged
        ensures { as_printed result out.new ≡ printed (line_refused number self) out.old }
    {
        let line = count(self.line);
        Judged {
            pass: Pass {
                stage: Stage::Stopped,
                line,
                ..self
            },
            added: refusal_line(out, line, number),
        }
    }

    // The line is taken, and the list does not change.
    #[tactic(auto, unfolding(crate::specs::Judging::line_taken))]
    pub fn take(self, stage: Stage, channel: Channel) -> Pass
        ensures { result ≡ (line_taken stage channel self).pass }
    {
        Pass {
            stage,
            line: count(self.line),
            channel,
            ..self
        }
    }
}
