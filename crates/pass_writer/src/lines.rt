// The lines of the list.
#![tactic(auto, using(crate::proofs::LaidLaws::no_room))]

ghost use Rattle.std.specs.Prelude.{◌≡◌, ◌≤◌, leb, length};
ghost use Rattle.pass_writer.specs.Lines.{names_text, block_text, refusal_text, failure_text};
ghost use Rattle.pass_writer.specs.Code.Buffers.{longest, written, Wrote};

use crate::digits::{put_float, put_number};

// No line has more bytes.
const LONGEST: usize = 135;

// What the list shows of a block's answer: the numbers are printed as the answer has them, the tracker 3 for none.
#[derive(Clone, Copy)]
pub struct Shown {
    pub locked: bool,
    pub tracker: u64,
    pub fade: u64,
    pub phase: f64,
    pub frequency: f64,
    pub snr: f64,
}

// Whether a buffer has room for the longest line.
pub fn has_room(out: &[u8]) -> bool
    ensures { result ≡ leb longest (length out.now) }
{
    LONGEST <= out.len()
}

// Lays s over the head of out, and answers how many bytes it has.
#[tactic(auto, unfolding(crate::specs::Code::Buffers::laid))]
fn put_bytes(out: &mut [u8], s: &[u8]) -> usize
    requires { length s.now ≤ length out.old }
    ensures { Wrote s.now out.old result out.new }
{
    out[..s.len()].copy_from_slice(s);
    s.len()
}

// THE FOUR LINES. Each is written to the head of out where the longest one has room there, and the answer is how many bytes it has.
// The room is taken in each of them by itself, and not by `first_chunk_mut().map_or(0, ..)`: of what the closure leaves in the room nothing is known after it.

// The line of names, which is always first.
pub fn names_line(out: &mut [u8]) -> usize
    ensures { (result, out.new) ≡ written names_text out.old }
{
    let Some(room) = out.first_chunk_mut::<LONGEST>() else {
        return 0;
    };
    put_bytes(room, b"block locked tracker fade phase frequency snr\n")
}

// The line of a block: blocks are counted from 1.
pub fn block_line(out: &mut [u8], count: u64, a: Shown) -> usize
    ensures { (result, out.new) ≡ written (block_text count a) out.old }
{
    let Some(room) = out.first_chunk_mut::<LONGEST>() else {
        return 0;
    };
    let mut n = put_number(room, count, b' ');
    n += put_number(&mut room[n..], u64::from(a.locked), b' ');
    n += put_number(&mut room[n..], a.tracker, b' ');
    n += put_number(&mut room[n..], a.fade, b' ');
    n += put_float(&mut room[n..], a.phase, b' ');
    n += put_float(&mut room[n..], a.frequency, b' ');
    n + put_float(&mut room[n..], a.snr, b'\n')
}

// The line of a refusal: the number of the line that is refused, and the refusal's number.
pub fn refusal_line(out: &mut [u8], line: u64, number: u64) -> usize
    ensures { (result, out.new) ≡ written (refusal_text line number) out.old }
{
    let Some(room) = out.first_chunk_mut::<LONGEST>() else {
        return 0;
    };
    let mut n = put_bytes(room, b"refused ");
    n += put_number(&mut room[n..], line, b' ');
    n + put_number(&mut room[n..], number, b'\n')
}

// The last line where a read failed: the system's number of the error.
pub fn failure_line(out: &mut [u8], error: u64) -> usize
    ensures { (result, out.new) ≡ written (failure_text error) out.old }
{
    let Some(room) = out.first_chunk_mut::<LONGEST>() else {
        return 0;
    };
    let n = put_bytes(room, b"failed ");
    n + put_number(&mut room[n..], error, b'\n')
}
