// Lines as bytes: their end, their fields, and the two lines of names.
ghost use Rattle.std.specs.Prelude.{◌≡◌, ◌-◌, ◌<◌, true, false, length, take, MatchOption};
ghost use Rattle.pass_reader.specs.Bytes.{same, whole_line};
ghost use Rattle.pass_reader.specs.Lines.{names, block_names};
ghost use Rattle.pass_reader.specs.Code.Places.{place};

// How many bytes of s stand before the first b, if it has one.
pub fn place_of(s: &[u8], b: u8) -> Option<usize>
    ensures { MatchOption result (place b s.now ≡ length s.now) (λ n. (n ≡ place b s.now) × (n < length s.now)) }
{
    s.iter().position(|x| *x == b)
}

// What stands before the newline of a line; none of a line that doesn't end with one.
#[tactic(auto, using(crate::proofs::ByteLaws::ends))]
pub(crate) fn text_of(line: &[u8]) -> Option<&[u8]>
    ensures { MatchOption result (whole_line line.now ≡ false) (λ text. (whole_line line.now ≡ true) × (text.now ≡ take (length line.now - 1) line.now)) }
{
    line.strip_suffix(b"\n".as_slice())
}

// Whether a line is the first, the names of the values.
#[tactic(auto, using(crate::proofs::ByteLaws::same_is))]
pub fn is_names(line: &[u8]) -> bool
    ensures { result ≡ same line.now names }
{
    line == b"rate factor mod adaptive dual bank fade nominal target\n".as_slice()
}

// Whether a line is the third, the names of a block's fields. Its proof has an answer: `using(same_is)`, as above, stops at a limit here.
pub fn is_block_names(line: &[u8]) -> bool
    ensures { result ≡ same line.now block_names }
{
    line == b"flag samples\n".as_slice()
}
