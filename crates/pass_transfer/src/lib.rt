// One write or one read at a time, and where the stream of a pass text stands between them (the scope, "The pass text and its list"): what is made of the list is
// written, and more of the text is read. Where it is known which bytes a reader has left and a writer holds, these very bytes are read and written. Of the system's
// files that is not known, and no contract can say it; it is seen in `read_once`, `write_once` and `write_waiting`, three lines at most.
#![tactic(auto)]

ghost use Rattle.std.specs.Prelude.{cond, true, List, ◌≡◌, ℕ, ◌+◌, ◌-◌, ◌≤◌, ◌<◌, length, take, drop, IfOk, Option};
ghost use Rattle.std.specs.Io.KnownBytes.{WriteAppends};
ghost use Rattle.pass_writer.specs.Code.Buffers.{longest};
ghost use Rattle.pass_setup.specs.Listing.{Run};
ghost use Rattle.pass_transfer.specs.Account.{is_last};
ghost use Rattle.pass_transfer.specs.Code.Standing.{got_of, Brought, Took, error_of, failure_of, is_passing, is_over, is_held, is_due, Countable, Counted, waits, Placed, Stands, Moves, Asking, with_written, given_up, with_more, with_end, with_last, account_of};

use pass_pause::pause;
use pass_writer::lines::failure_line;
use std::io;
use std::io::{ErrorKind, Read, Write};
use std::time::Clock;

// The system's number of the error of a call that a signal interrupted.
const EINTR: u64 = 4;

// That of one that would have to wait.
const EAGAIN: u64 = 11;

// The size of the text's buffer in bytes, and of the list's.
pub const TEXT: usize = 262144;

pub const LIST: usize = 65536;

// What comes when all that is made of the list is written: more of the text is read; the lines that are held are taken; the text has ended, and what is held of
// a line is all that is left; or nothing, since a line was refused, since the list is at its end, or since a read failed.
#[derive(Clone, Copy)]
pub enum Next {
    Read,
    Turn,
    Close,
    Refused,
    Ended,
    Failed,
}

impl Next {
    // Whether nothing comes next.
    fn is_last(self) -> bool
        ensures { result ≡ is_last self }
    {
        matches!(self, Next::Refused | Next::Ended | Next::Failed)
    }

    // Whether the bytes that are held are taken next.
    fn is_held(self) -> bool
        ensures { result ≡ is_held self }
    {
        matches!(self, Next::Turn | Next::Close)
    }
}

// Where the stream stands. `left` bytes of the text are held at the front of its buffer; of the `at` bytes at the front of the list's buffer the first `from`
// are written. `error` is that of a read that failed; `stuck` says that a write failed. `read` and `written` count bytes.
// The error is not in `Next::Failed`: what is promised of a run reads it from its account, as a number beside what comes next.
#[derive(Clone, Copy)]
pub struct State {
    pub left: usize,
    pub from: usize,
    pub at: usize,
    pub next: Next,
    pub error: u64,
    pub stuck: bool,
    pub read: usize,
    pub written: usize,
}

// What a run answers for: the bytes that came, those that went, and those of the list that could not be written; what comes next, the error of a read that
// failed, whether a write failed, and how many turns were left.
#[derive(Clone, Copy)]
pub struct Account {
    pub read: usize,
    pub written: usize,
    pub unsent: usize,
    pub next: Next,
    pub error: u64,
    pub stuck: bool,
    pub turns: u64,
}

// What the answer of a read means: how many bytes came, or none at the end of the input.
#[tactic(auto, unfolding(crate::specs::Code::Standing::got_of), using(std::proofs::lemmas::Bool::Decides::nat_tests))]
fn got_of(got: io::Result<usize>, part: &[u8]) -> io::Result<Option<usize>>
    ensures { result ≡ got_of got (length part.now) }
{
    let count = got?.min(part.len());
    Ok((count > 0).then_some(count))
}

#[tactic(auto, using(crate::proofs::ReadLaws::brought, crate::proofs::MovesLaws::took_of))]
fn read_once<R: Read>(part: &mut [u8], input: &mut R) -> io::Result<Option<usize>>
    ensures brought { Brought result (length part.old) }
    ensures took { Took result (R.remaining input.old) (R.remaining input.new) part.new }
{
    let got = input.read(part);
    got_of(got, part)
}

// Reads once, behind the bytes that are held.
// Not `read_once(&mut buf[s.left..], input)` in `fetch`: each of its three ways on would have to say by itself that the bytes in front are left as they were.
fn read_behind<R: Read>(buf: &mut [u8], left: usize, input: &mut R) -> io::Result<Option<usize>>
    requires { left ≤ length buf.old }
    ensures brought { Brought result (length buf.old - left) }
    ensures buf_unchanged { take left buf.new ≡ take left buf.old }
    ensures took { Took result (R.remaining input.old) (R.remaining input.new) (drop left buf.new) }
{
    read_once(&mut buf[left..], input)
}

// Writes once, and answers how many bytes were taken.
fn write_once<W: Write>(part: &[u8], output: &mut W) -> io::Result<usize>
    ensures upper_bound { IfOk result (λ n. n ≤ length part.now) }
    ensures gave { WriteAppends (W.contents output.old) (W.contents output.new) result part.now }
{
    output.write(part)
}

// Writes some of what waits.
#[tactic(auto, using(crate::proofs::MovesLaws::waits_part))]
fn write_waiting<W: Write>(s: State, out: &[u8], output: &mut W) -> io::Result<usize>
    requires { (s.from ≤ s.at) × (s.at ≤ length out.now) }
    ensures upper_bound { IfOk result (λ n. s.from + n ≤ s.at) }
    ensures gave { WriteAppends (W.contents output.old) (W.contents output.new) result (waits s out.now) }
{
    write_once(&out[s.from..s.at], output)
}

// An error as the system numbers it.
fn number_of(e: i32) -> u64
    ensures { result ≡ error_of e }
{
    u64::try_from(e).unwrap_or(0)
}

// The number of a call's error. One that the system did not number has that of a signal or of a call that would have to wait if it is of that kind, and
// otherwise none.
#[tactic(auto, unfolding(crate::specs::Code::Standing::failure_of, crate::specs::Code::Standing::kind_number))]
fn error_number(error: io::Error) -> u64
    ensures { result ≡ failure_of error }
{
    if let Some(code) = error.raw_os_error() {
        return number_of(code);
    }
    match error.kind() {
        ErrorKind::WouldBlock => EAGAIN,
        ErrorKind::Interrupted => EINTR,
        _ => 0,
    }
}

// Whether a call that failed so is made again: a signal came before it, or it would have had to wait, which is done here.
#[tactic(auto, unfolding(crate::specs::Code::Standing::is_passing), using(std::proofs::lemmas::Bool::Decides::nat_tests))]
fn comes_again(clock: &impl Clock, error: u64) -> bool
    ensures { result ≡ is_passing error }
{
    if error == EAGAIN {
        pause(clock);
        return true;
    }
    error == EINTR
}

// A write took nothing: the run ends here.
fn give_up(rt: &impl Eprint, s: State, error: io::Error) -> State
    ensures { result ≡ given_up s }
{
    let _ = eprintln!(rt; "passlist: write: {error}");
    State { stuck: true, ..s }
}

// What a write took of what waits is written; one that failed is made again, or ends the run, and so does one that took nothing, but none that took something.
fn send<W: Write, S: Clock + Eprint>(rt: &S, s: State, out: &[u8; LIST], output: &mut W) -> State
    requires { (s.from < s.at) × (s.at ≤ length out.now) × Countable s }
    ensures stands { (g : Run) (b : List ℕ) → Stands s g b out.now → Stands result g b out.now }
    ensures moves { (g : Run) (b : List ℕ) (had left held : Option (List ℕ)) → Moves s g b out.now had left held (W.contents output.old)
        → Moves result g b out.now had left held (W.contents output.new) }
    ensures counted { Counted s result }
    ensures stuck_unchanged { s.written < result.written → result.stuck ≡ s.stuck }
{
    match write_waiting(s, out, output) {
        Ok(0) => give_up(rt, s, io::Error::from(ErrorKind::WriteZero)),
        Ok(n) => s.sent(n),
        Err(error) if comes_again(rt, error_number(error)) => s,
        Err(error) => give_up(rt, s, error),
    }
}

// A read failed: it is made again, or the list is cut here.
fn at_failure<S: Clock + Eprint>(
    rt: &S,
    s: State,
    out: &mut [u8; LIST],
    failure: io::Error,
) -> State
    requires { (s.next ≡ Next.Read) × (s.from ≡ s.at) }
    ensures stands { (g : Run) (b : List ℕ) → Stands s g b out.old → Stands result g b out.new }
    ensures moves { (g : Run) (b : List ℕ) (had left held holds : Option (List ℕ)) → Moves s g b out.old had left held holds → Moves result g b out.new had left held holds }
    ensures counted { Counted s result }
    ensures next_value { result.next ≡ cond (is_passing (failure_of failure)) Next.Read Next.Failed }
    ensures error_value { result.error ≡ cond (is_passing (failure_of failure)) s.error (failure_of failure) }
    ensures out_unchanged { is_passing (failure_of failure) ≡ true → out.new ≡ out.old }
{
    let error = error_number(failure);
    if comes_again(rt, error) {
        return s;
    }
    let _ = eprintln!(rt; "passlist: read: {failure}");
    let n = failure_line(out, error);
    s.closing(n, Next::Failed, error)
}

// More of the text, behind what is held.
// Not one struct for what is lent: its methods would have to promise of each field besides that it still lends the same memory, reader or writer.
fn fetch<R: Read, S: Clock + Eprint>(
    rt: &S,
    s: State,
    buf: &mut [u8; TEXT],
    out: &mut [u8; LIST],
    input: &mut R,
) -> State
    requires { Asking s buf.old out.old × Countable s }
    ensures stands { (g : Run) → Stands s g buf.old out.old → Stands result g buf.new out.new }
    ensures moves { (g : Run) (had held holds : Option (List ℕ)) → Moves s g buf.old out.old had (R.remaining input.old) held holds
        → Moves result g buf.new out.new had (R.remaining input.new) held holds }
    ensures counted { Counted s result }
{
    match read_behind(buf, s.left, input) {
        Ok(Some(n)) => s.came(n),
        Ok(None) => s.at_end(),
        Err(failure) => at_failure(rt, s, out, failure),
    }
}

// A write of what waits, or else a read, if one is due.
pub fn step<R: Read, W: Write, S: Clock + Eprint>(
    rt: &S,
    s: State,
    buf: &mut [u8; TEXT],
    out: &mut [u8; LIST],
    input: &mut R,
    output: &mut W,
) -> State
    requires { Placed s buf.old out.old × Countable s }
    ensures stands { (g : Run) → Stands s g buf.old out.old → Stands result g buf.new out.new }
    ensures moves { (g : Run) (had held : Option (List ℕ)) → Moves s g buf.old out.old had (R.remaining input.old) held (W.contents output.old)
        → Moves result g buf.new out.new had (R.remaining input.new) held (W.contents output.new) }
    ensures counted { Counted s result }
{
    if s.from < s.at {
        return send(rt, s, out, output);
    }
    match s.next {
        Next::Read => fetch(rt, s, buf, out, input),
        _ => s,
    }
}

// `Countable` is no invariant of State: one call may use up the room that it speaks of, and it is the number of turns that gives it anew each time.
impl State {
    // So many of the bytes that wait are written.
    fn sent(self, n: usize) -> State
        requires { (self.from + n ≤ self.at) × (self.at ≤ 65536) × Countable self }
        ensures { result ≡ with_written self n }
    {
        State {
            from: self.from + n,
            written: self.written + n,
            ..self
        }
    }

    // Bytes came; the lines that are held are taken next.
    fn came(self, n: usize) -> State
        requires { (self.left + n ≤ 262144) × Countable self }
        ensures { result ≡ with_more self n }
    {
        State {
            left: self.left + n,
            next: Next::Turn,
            read: self.read + n,
            ..self
        }
    }

    // The text has ended: what is held is all that is left of it.
    fn at_end(self) -> State
        ensures { result ≡ with_end self }
    {
        State {
            next: Next::Close,
            ..self
        }
    }

    // The list's last bytes, `at` of them, wait: nothing comes after them.
    pub fn closing(self, at: usize, next: Next, error: u64) -> State
        ensures { result ≡ with_last self at next error }
    {
        State {
            left: 0,
            from: 0,
            at,
            next,
            error,
            ..self
        }
    }

    // Whether the run is over: a write failed, or all is written and nothing comes next.
    pub fn is_over(self) -> bool
        ensures { result ≡ is_over self }
    {
        self.stuck || self.at <= self.from && self.next.is_last()
    }

    // Whether it is the pass's turn: all that was made is written, and what is held is to be taken.
    pub fn is_due(self) -> bool
        ensures { result ≡ is_due self }
    {
        self.at <= self.from && self.next.is_held()
    }

    // What a run that stands here answers for.
    pub fn account(self, turns: u64) -> Account
        requires { self.from ≤ self.at }
        ensures { result ≡ account_of self turns }
    {
        Account {
            read: self.read,
            written: self.written,
            unsent: self.at - self.from,
            next: self.next,
            error: self.error,
            stuck: self.stuck,
            turns,
        }
    }
}
