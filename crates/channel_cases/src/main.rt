// Runs a text of cases from standard input; the text in this folder says at its head how it is read. What is expected there is written by hand from
// the scope, not taken from the definitions. For each group it prints its title and how many of its cases hold, and each case that does not.
#![tactic(auto)]

mod line;
mod number;

ghost use Rattle.std.specs.Prelude.{◌≡◌};
ghost use Rattle.channel_cases.specs.Code.Groups.{with_case};

use std::fmt::{self, Write};
use vectors::output::Stdout;

// A group so far: its cases, and those that hold.
#[derive(Clone, Copy, Default)]
struct Group {
    good: u64,
    all: u64,
}

impl fmt::Display for Group {
    fn fmt<W: fmt::Write>(&self, f: &mut fmt::Formatter<W>) -> fmt::Result {
        write!(f, "{} of {}", self.good, self.all)
    }
}

// Behind its title, or below the cases that differ.
fn say_group(g: Group) {
    let _ = if g.good == g.all {
        writeln!(Stdout, ": {g}")
    } else {
        writeln!(Stdout, "\n{g}")
    };
}

fn say_differs(case: &[u8]) {
    Stdout.write_bytes(b"\ndiffers: ");
    Stdout.write_bytes(case);
}

// A count begins anew behind 2 ^ 32.
#[tactic(auto, unfolding(crate::specs::Code::Groups::with_case))]
fn judge(case: &[u8], g: Group) -> Group
    ensures { result ≡ with_case g case.now }
{
    let all = g.all % 0x1_0000_0000 + 1;
    if line::holds(case) {
        return Group {
            good: g.good % 0x1_0000_0000 + 1,
            all,
        };
    }
    say_differs(case);
    Group { all, ..g }
}

// A title, which starts a group; a comment; an empty line; or a case. There is no group before the first title.
fn take(text: &[u8], g: Option<Group>) -> Option<Group> {
    match text {
        [] | [b'-', ..] => g,
        [b'#', ..] => {
            if let Some(g) = g {
                say_group(g);
            }
            Stdout.write_bytes(text);
            Some(Group::default())
        }
        _ => {
            let judged = judge(text, g.unwrap_or_default());
            g.map(|_| judged)
        }
    }
}

// Every line of the text.
fn run(text: &[u8]) {
    let mut g = None;
    for line in text.split(|b| *b == b'\n') {
        g = take(line, g);
    }
    if let Some(g) = g {
        say_group(g);
    }
}

fn main() {
    let mut text = io::large_buffer();
    let n = io::read_full(0, &mut text);
    run(&text[..n]);
}
