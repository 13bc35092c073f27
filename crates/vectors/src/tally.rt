// How many lines were decided and how many of them differ: counted, and said on standard output.
ghost use Rattle.std.specs.Prelude.{◌≡◌};

use crate::output::Stdout;
use std::fmt::{self, Write};

#[derive(Clone, Copy, Default)]
pub struct Tally {
    pub lines: u64,
    pub differ: u64,
}

impl Tally {
    ghost use Rattle.vectors.specs.Code.Counts.{with_line};

    // One line more, which agrees or differs. (At the largest u64 a count stays there.)
    #[tactic(auto, unfolding(crate::specs::Code::Counts::one_more, crate::specs::Code::Counts::with_line))]
    pub fn count(&mut self, agrees: bool)
        ensures { self.new ≡ with_line self.old agrees }
    {
        self.lines = self.lines.saturating_add(1);
        if !agrees {
            self.differ = self.differ.saturating_add(1);
        }
    }

    // The result.
    pub fn say(&self) {
        let _ = writeln!(Stdout, "{self}");
    }
}

impl fmt::Display for Tally {
    fn fmt<W: fmt::Write>(&self, f: &mut fmt::Formatter<W>) -> fmt::Result {
        write!(f, "{} vectors, {} differ", self.lines, self.differ)
    }
}
