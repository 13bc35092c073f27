// The list of a pass text made turn by turn: what is held of the text goes in, and what is to be written and what is then held come out. Nothing here reads
// or writes; `pass_transfer` does.
#![tactic(auto)]

ghost use Rattle.std.specs.Prelude.{◌≡◌, List, ◌++◌, ℕ, ◌≤◌, Float, length, take};
ghost use Rattle.pass_writer.specs.Code.Buffers.{longest};
ghost use Rattle.pass_setup.specs.Listing.{list_after};
ghost use Rattle.pass_transfer.specs.Code.Standing.{onward, NoLine};
ghost use Rattle.pass_turn.specs.Code.Turning.{Buffers, TooLong, Within, Begun, Finished, Turned, GetsOn};

use pass_session::run::run;
use pass_setup::ending::finish;
use pass_setup::pass::Pass;
use pass_stream::carry;
use pass_transfer::Next;
use pass_writer::lines::{has_room, names_line};

// The pass, the `left` bytes of the text that are held at the front of the text's buffer, the `at` bytes at the front of the list's buffer that are to be
// written, and what comes then.
#[derive(Clone, Copy)]
pub struct Flow {
    pub pass: Pass,
    pub left: usize,
    pub at: usize,
    pub next: Next,
}

// Before the first byte: the line of names is to be written.
// The list's buffer is a slice with a `requires`, here and below: an array type would ask more of callers.
#[tactic(auto, using(crate::proofs::TurnLaws::begun, pass_writer::proofs::WrittenLaws::alone))]
pub fn begin(out: &mut [u8]) -> Flow
    requires { longest ≤ length out.old }
    ensures left_value { (result.left ≡ 0) × (result.at ≤ length out.new) × (result.next ≡ Next.Read) }
    ensures begun { Begun result.pass (take result.at out.new) }
{
    let at = names_line(out);
    Flow {
        pass: Pass::new(),
        left: 0,
        at,
        next: Next::Read,
    }
}

// The text has ended with the bytes that are held, in which no line ends: how many bytes of the list are to be written.
#[tactic(auto, using(crate::proofs::TurnLaws::added_within, crate::proofs::TurnLaws::end_made))]
pub fn end(p: Pass, held: &[u8], out: &mut [u8]) -> usize
    requires { (longest ≤ length out.old) × NoLine held.now }
    ensures upper_bound { result ≤ length out.new }
    ensures finished { Finished p held.now (take result out.new) }
{
    finish(p, held, out).added
}

// A line that fills its buffer is outside the form, whatever follows. Answers how many bytes its refusal has.
// The body is that of `end`, under another promise: there the text ends with the bytes that are held, here any bytes may follow them.
#[tactic(auto, using(crate::proofs::TurnLaws::added_within, crate::proofs::TurnLaws::long_made))]
fn too_long(p: Pass, held: &[u8], out: &mut [u8]) -> usize
    requires { (longest ≤ length out.old) × TooLong p held.now }
    ensures upper_bound { result ≤ length out.new }
    ensures more_value { (w : List Float) (more : List ℕ) → list_after (onward p w) (held.now ++ more) ≡ take result out.new }
{
    finish(p, held, out).added
}

// The whole lines that are held, as far as there is room for what they add to the list; what is left of the text goes to the buffer's front.
// `left` beside `buf`: the rest of the buffer is needed too, for what will be read behind the bytes that are held.
pub fn turn(p: Pass, left: usize, buf: &mut [u8], windows: &mut [f64], out: &mut [u8]) -> Flow
    requires { Buffers left buf.old out.old }
    ensures within { Within result.left result.at buf.new out.new }
    ensures turned { Turned result.next (onward p windows.old) (take left buf.old) (take result.at out.new) (onward result.pass windows.new) (take result.left buf.new) }
    ensures gets_on { GetsOn result.next left result.left buf.new }
{
    let r = run(p, &buf[..left], windows, out);
    let refused = Flow {
        pass: r.pass,
        left: 0,
        at: r.at,
        next: Next::Refused,
    };
    if r.pass.stage.is_stopped() {
        return refused;
    }
    let rest = carry(buf, r.used, left);
    if !has_room(&out[r.at..]) {
        return Flow {
            left: rest,
            next: Next::Turn,
            ..refused
        };
    }
    if rest == buf.len() {
        let added = too_long(r.pass, buf, &mut out[r.at..]);
        return Flow {
            at: r.at + added,
            ..refused
        };
    }
    Flow {
        left: rest,
        next: Next::Read,
        ..refused
    }
}
