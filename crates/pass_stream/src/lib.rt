// The pass text as a stream: the end of a line in a chunk, and the rest that is carried over to the next chunk.
// The laws that a loop over chunks cites are in proofs/StreamLaws.antt: no border of a chunk can be seen.
#![tactic(auto)]

ghost use Rattle.std.specs.Prelude.{◌≡◌, ◌<◌, MatchOption};
ghost use Rattle.pass_stream.specs.Code.Carrying.{line_length, carried};

use pass_reader::line::place_of;

// How many bytes the first line of s has, its newline with them; none where no line ends in s.
#[tactic(auto, unfolding(crate::specs::Code::Carrying::line_length), using(std::proofs::lemmas::Bool::Decides::nat_tests))]
pub fn line_length(s: &[u8]) -> Option<usize>
    ensures { MatchOption result (line_length s.now ≡ 0) (λ n. (0 < n) × (n ≡ line_length s.now)) }
{
    Some(place_of(s, b'\n')? + 1)
}

// Moves the bytes from `from` up to `to` to the front, and answers how many they are.
// Not `carry(&mut buf[..to], from)`: that a buffer may be full to its last byte would be said of the caller's slice, and here of nothing.
#[tactic(auto, unfolding(crate::specs::Code::Carrying::carried), using(std::proofs::lemmas::Bool::Decides::nat_tests))]
pub fn carry(buf: &mut [u8], from: usize, to: usize) -> usize
    ensures { (result, buf.new) ≡ carried from to buf.old }
{
    if from > to || to > buf.len() {
        return 0;
    }
    buf.copy_within(from..to, 0);
    to - from
}
