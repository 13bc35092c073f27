// The lines of a chunk of the text.
ghost use Rattle.std.specs.Prelude.{◌≡◌, [], ◌≤◌, length};
ghost use Rattle.pass_stream.specs.Stream.{lines};
ghost use Rattle.pass_setup.specs.Code.Buffers.{lines_run, as_chunk_run};

use crate::judge::judge;
use pass_setup::pass::{Pass, Ran};
use pass_stream::line_length;
use pass_writer::lines::has_room;

// Judges the whole lines of s, one after the other, as long as the list's buffer has room for its longest line: the loop goes by the room
// that is left, and not over the lines.
pub fn run(p: Pass, s: &[u8], windows: &mut [f64], out: &mut [u8]) -> Ran
    ensures within { (result.used ≤ length s.now) × (result.at ≤ length out.new) }
    ensures ran { as_chunk_run result windows.new out.new ≡ lines_run (lines s.now) (record { pass = p; windows = windows.old; used = 0; list = []; behind = out.old }) }
{
    let mut r = Ran {
        pass: p,
        used: 0,
        at: 0,
    };
    while has_room(&out[r.at..]) {
        let Some(n) = line_length(&s[r.used..]) else {
            return r;
        };
        let end = r.used + n;
        let j = judge(r.pass, &s[r.used..end], windows, &mut out[r.at..]);
        r = Ran {
            pass: j.pass,
            used: end,
            at: r.at + j.added,
        };
    }
    r
}
