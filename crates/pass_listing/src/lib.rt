// The list of a pass text, from a reader to a writer (the scope, "The pass text and its list"): the pass takes what is held of the text, what it adds to the
// list is written, and more of the text is read.
#![tactic(auto)]

ghost use Rattle.std.specs.Prelude.{◌≡◌, List, ℕ, Option};
ghost use Rattle.pass_transfer.specs.Account.{Accounted, Carried, Completed};
ghost use Rattle.pass_transfer.specs.Code.Standing.{onward, Countable, Counted, Placed, Stands, Moves};

use pass_setup::pass::Pass;
use pass_transfer::{Account, LIST, Next, State, TEXT, step};
use pass_turn::{begin, end, turn};
use std::io::{Read, Write};
use std::time::Clock;

// A pass after a turn, and where the stream then stands.
#[derive(Clone, Copy)]
pub struct Went {
    pub pass: Pass,
    pub state: State,
}

// What a run works in: the buffer of the text, the memory of the channel's windows, and the buffer of the list.
// Not the reader and the writer too: the methods would have to promise of these besides that they are still lent the same.
#[derive(Drop)]
struct Memory {
    text: [u8; TEXT],
    windows: [f64; 8192],
    list: [u8; LIST],
}

// A proved loop has to end, and nothing says that the text does. A turn reads or writes at least a byte, takes what is held, or waits a hundredth of a second,
// but for one in which a signal came: no run uses these up. The bytes of as many turns can be counted.
const TURNS: u64 = 35184372088832;

impl Memory {
    // One turn: where nothing of the list waits and no read is due, the pass takes what is held, lines or, at the end of the text, what is left; otherwise a write
    // or a read.
    fn go_on<R: Read, W: Write, S: Clock + Eprint>(
        &mut self,
        rt: &S,
        p: Pass,
        s: State,
        input: &mut R,
        output: &mut W,
    ) -> Went
        requires { Placed s self.old.text self.old.list × Countable s }
        ensures stands { Stands s (onward p self.old.windows) self.old.text self.old.list → Stands result.state (onward result.pass self.new.windows) self.new.text self.new.list }
        ensures moves { (had held : Option (List ℕ)) → Moves s (onward p self.old.windows) self.old.text self.old.list had (R.remaining input.old) held (W.contents output.old)
            → Moves result.state (onward result.pass self.new.windows) self.new.text self.new.list had (R.remaining input.new) held (W.contents output.new) }
        ensures counted { Counted s result.state }
    {
        if !s.is_due() {
            return Went {
                pass: p,
                state: step(rt, s, &mut self.text, &mut self.list, input, output),
            };
        }
        if let Next::Close = s.next {
            let n = end(p, &self.text[..s.left], &mut self.list);
            return Went {
                pass: p,
                state: s.closing(n, Next::Ended, 0),
            };
        }
        let f = turn(p, s.left, &mut self.text, &mut self.windows, &mut self.list);
        Went {
            pass: f.pass,
            state: State {
                left: f.left,
                from: 0,
                at: f.at,
                next: f.next,
                ..s
            },
        }
    }

    // Turn after turn.
    fn pump<R: Read, W: Write, S: Clock + Eprint>(
        &mut self,
        rt: &S,
        p: Pass,
        first: State,
        input: &mut R,
        output: &mut W,
    ) -> Account
        requires { Stands first (onward p self.old.windows) self.old.text self.old.list × (first.read ≡ 0) × (first.written ≡ 0) }
        ensures accounted { Accounted result }
        ensures carried { (had held : Option (List ℕ)) → Moves first (onward p self.old.windows) self.old.text self.old.list had (R.remaining input.old) held (W.contents output.old)
            → Carried result had (R.remaining input.new) held (W.contents output.new) }
        ensures completed { Completed result }
    {
        let mut pass = p;
        let mut s = first;
        for turn in 0..TURNS {
            if s.is_over() {
                return s.account(TURNS - turn);
            }
            let w = self.go_on(rt, pass, s, input, output);
            pass = w.pass;
            s = w.state;
        }
        s.account(0)
    }
}

// Reads a pass text to its end, and writes its list: at first its line of names waits, and nothing is read yet. The runtime is asked for the pauses, and for a line
// on standard error where a read or a write fails.
pub fn list<R: Read, W: Write, S: Clock + Eprint>(rt: &S, input: &mut R, output: &mut W) -> Account
    ensures accounted { Accounted result }
    ensures carried { Carried result (R.remaining input.old) (R.remaining input.new) (W.contents output.old) (W.contents output.new) }
    ensures completed { Completed result }
{
    let text = [0; TEXT];
    let windows = [0.0; 8192];
    let list = [0; LIST];
    let mut memory = Memory {
        text,
        windows,
        list,
    };
    let f = begin(&mut memory.list);
    // Not a method of State, nor is the state after a turn: each would be public, for this one place.
    let first = State {
        left: 0,
        from: 0,
        at: f.at,
        next: Next::Read,
        error: 0,
        stuck: false,
        read: 0,
        written: 0,
    };
    memory.pump(rt, f.pass, first, input, output)
}
