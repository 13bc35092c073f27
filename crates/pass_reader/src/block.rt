// The line of a block.
ghost use Rattle.std.specs.Prelude.{◌≡◌, false, true, ◌++◌, map, ◌≤◌, ◌*◌, ◌/◌, length, drop, MatchOption};
ghost use Rattle.std.specs.Float.{binary32};
ghost use Rattle.std.specs.Float.Ieee.{of_bits};
ghost use Rattle.sequences.specs.Folds.{every};
ghost use Rattle.pass_reader.specs.Bytes.{bytes, same, fields};
ghost use Rattle.pass_reader.specs.Numbers.{is_digit};
ghost use Rattle.pass_reader.specs.Lines.{whole_pairs, bits_of, samples_of, two_fields, flag_and_samples};
ghost use Rattle.pass_reader.specs.Code.Answers.{read_into, samples_into};

use crate::line::{place_of, text_of};
use crate::number::{decimal, digits};
use ieee754::pattern::f32_from_bits;

#[tactic(auto, unfolding(crate::specs::Lines::whole_pairs), using(std::proofs::lemmas::Bool::Decides::nat_tests))]
fn has_whole_pairs(t: &[u8]) -> bool
    ensures { result ≡ whole_pairs t.now }
{
    t.len() % 16 == 0 && 16 <= t.len() && t.len() <= 32768
}

// The bits of the components of t, eight digits each, as many as the lent list holds; none where a byte is no digit.
fn read_bits<'a>(t: &[u8], bits: &'a mut [u32]) -> Option<&'a [u32]>
    requires { 8 * length bits.old ≡ length t.now }
    ensures { MatchOption result (every (is_digit 16) t.now ≡ false) (λ read. (every (is_digit 16) t.now ≡ true) × (read.now ≡ bits_of (length t.now / 8) t.now)) }
{
    for (i, bit) in bits.iter_mut().enumerate() {
        *bit = digits(&t[8 * i..8 * i + 8], 16)? as u32;
    }
    Some(bits)
}

// The components with these bits, at the front of out.
// Not `out.iter_mut().zip(bits)`: after such a loop the proof knows nothing of what it wrote. With `out.iter_mut().enumerate()` the bits would be read by their places: one of the two goes by places either way.
fn write_components(bits: &[u32], out: &mut [f32])
    requires { length bits.now ≤ length out.old }
    ensures { out.new ≡ map (of_bits binary32) bits.now ++ drop (length bits.now) out.old }
{
    for (i, b) in bits.iter().enumerate() {
        out[i] = f32_from_bits(*b);
    }
}

// Whether there are no samples.
#[tactic(auto, using(crate::proofs::ByteLaws::same_is))]
fn is_dash(t: &[u8]) -> bool
    ensures { result ≡ same t.now (bytes "-") }
{
    t == b"-".as_slice()
}

// A block's samples: how many components are written to the front of out. Nothing is written before the last digit is known to be one.
#[tactic(auto, unfolding(crate::specs::Code::Answers::samples_into, crate::specs::Lines::samples_of), using(crate::proofs::BlockLaws::few_groups, crate::proofs::BlockLaws::length_bits, crate::proofs::BlockLaws::samples_said))]
fn samples(t: &[u8], out: &mut [f32; 4096]) -> Option<usize>
    ensures { (result, out.new) ≡ samples_into (samples_of t.now) out.old }
{
    if is_dash(t) {
        return Some(0);
    }
    if !has_whole_pairs(t) {
        return None;
    }
    let mut buffer = [0; 4096];
    let bits = read_bits(t, &mut buffer[..t.len() / 8])?;
    write_components(bits, out);
    Some(bits.len())
}

// The flag and the samples of a line without its newline. The flag is any number: the channel refuses one that stands for nothing.
#[tactic(auto, using(crate::proofs::ByteLaws::place_within, crate::proofs::ByteLaws::front_length, crate::proofs::BlockLaws::one_field_said, crate::proofs::BlockLaws::no_flag_said, crate::proofs::ByteLaws::tail_is))]
fn flag_and_samples(s: &[u8], out: &mut [f32; 4096]) -> Option<(u64, usize)>
    ensures { (result, out.new) ≡ read_into (two_fields (fields s.now)) out.old }
{
    let end = place_of(s, b' ')?;
    let flag = decimal(&s[..end])?;
    let count = samples(&s[end + 1..], out)?;
    Some((flag, count))
}

// Reads a block's line: its flag, and how many components are written to the front of out; a line outside the form leaves out as it was.
#[tactic(auto, unfolding(crate::specs::Code::Answers::read_into, crate::specs::Lines::flag_and_samples), using(crate::proofs::ByteLaws::text_fields, crate::proofs::LongLines::cut_block))]
pub fn block_line(line: &[u8], out: &mut [f32; 4096]) -> Option<(u64, usize)>
    ensures { (result, out.new) ≡ read_into (flag_and_samples line.now) out.old }
{
    flag_and_samples(text_of(line)?, out)
}
