// What stands in a line of numbers, and whether given values stand there. All are pure functions of the line.
ghost use Rattle.std.specs.Prelude.{◌≡◌, ◌<◌, ◌≤◌, List, ℕ, eqb, MatchOption, map, length, drop, refl};
ghost use Rattle.std.specs.Float.{binary32, binary64};
ghost use Rattle.std.specs.Float.Ieee.{of_bits, to_bits};
ghost use Rattle.vectors.specs.Code.Lines.{number_at, mark_number, mark_at, single, float64_at, float32_at, values_in, list_in, behind_list, strip, left_of, is_end, is_rest};
ghost use Rattle.vectors.specs.Code.Reads.{mark_is, float64_is, float32_is};

use ieee754::pattern::{f32_from_bits, f32_to_bits, f64_from_bits, f64_to_bits};
use std::array;

// A value that stands as one number of a line. A float is told apart by its bits, a NaN as one NaN.
pub trait Word: Copy {
    // The number that a value stands as, and the value that a number stands for.
    ghost pattern: { Self → ℕ };

    ghost of_pattern: { ℕ → Self };

    // What stands at a place of a line. It is `of_pattern` of the number there, by `at_is`, and has a name of its own since definitions cite it by it.
    ghost at: { ℕ → List ℕ → Self };

    fn pattern(self) -> u64
        ensures { result ≡ pattern self };

    fn of_pattern(n: u64) -> Self
        ensures { result ≡ of_pattern n };

    // Behind the line's end every number is 0.
    #[tactic(auto, unfolding(crate::specs::Code::Lines::number_at))]
    final fn at(words: &[u64], i: usize) -> Self
        ensures { result ≡ at i words.now }
    {
        Self::of_pattern(words.get(i).copied().unwrap_or(0))
    }

    ghost at_is: { (i : ℕ) (ws : List ℕ) → at i ws ≡ of_pattern (number_at i ws) };
}

impl Word for u64 {
    ghost pattern = { λ n. n };

    ghost of_pattern = { λ n. n };

    ghost at = { number_at };

    ghost at_is = { λ i ws. refl };

    fn pattern(self) -> u64 {
        self
    }

    fn of_pattern(n: u64) -> u64 {
        n
    }
}

impl Word for usize {
    ghost pattern = { λ n. n };

    ghost of_pattern = { λ n. n };

    ghost at = { number_at };

    ghost at_is = { λ i ws. refl };

    fn pattern(self) -> u64 {
        self as u64
    }

    fn of_pattern(n: u64) -> usize {
        n as usize
    }
}

// A mark is 1 or 0; it is set where the number is 1.
impl Word for bool {
    ghost pattern = { mark_number };

    ghost of_pattern = { λ n. eqb n 1 };

    ghost at = { mark_at };

    ghost at_is = { mark_is };

    fn pattern(self) -> u64 {
        self as u64
    }

    fn of_pattern(n: u64) -> bool {
        n == 1
    }
}

impl Word for f64 {
    ghost pattern = { to_bits binary64 };

    ghost of_pattern = { of_bits binary64 };

    ghost at = { float64_at };

    ghost at_is = { float64_is };

    fn pattern(self) -> u64 {
        f64_to_bits(self)
    }

    fn of_pattern(n: u64) -> f64 {
        f64_from_bits(n)
    }
}

// An f32 stands in the lower half.
impl Word for f32 {
    ghost pattern = { to_bits binary32 };

    ghost of_pattern = { single };

    ghost at = { float32_at };

    ghost at_is = { float32_is };

    fn pattern(self) -> u64 {
        f32_to_bits(self) as u64
    }

    #[tactic(auto, unfolding(crate::specs::Code::Lines::single))]
    fn of_pattern(n: u64) -> f32 {
        f32_from_bits((n % 0x1_0000_0000) as u32)
    }
}

// What is left of the line from place i on.
pub fn rest(words: &[u64], i: usize) -> &[u64]
    ensures { result.now ≡ drop i words.now }
{
    words.get(i..).unwrap_or(&[])
}

// The first N values.
pub fn array_in<W: Word, const N: usize>(words: &[u64]) -> [W; N]
    ensures { result ≡ values_in W.at N words.now }
{
    array::from_fn(|k| W::at(words, k))
}

// As many values as the lent list holds.
#[tactic(auto, using(crate::proofs::LineLaws::fill_end), unfolding(crate::specs::Code::Lines::values_in, crate::specs::Code::Lines::from_place))]
pub fn fill<W: Word>(words: &[u64], list: &mut [W])
    ensures { list.new ≡ values_in W.at (length list.old) words.now }
{
    for (k, x) in list.iter_mut().enumerate() {
        *x = W::at(words, k);
    }
}

// A list, which is its count and its values, at the start of lent memory, and what is left of the line behind it; none where the memory is too short.
// No clause says that it stays then: memory that may be lent on has no value after the call.
#[tactic(auto, unfolding(crate::specs::Code::Lines::list_in, crate::specs::Code::Lines::behind_list))]
pub fn list_in<'a, 'b, W: Word>(
    words: &'b [u64],
    memory: &'a mut [W],
) -> Option<(&'a mut [W], &'b [u64])>
    ensures { MatchOption result
        (length memory.old < number_at 0 words.now)
        (λ r. (number_at 0 words.now ≤ length memory.old) × (r.0.now ≡ list_in W.at words.now) × (r.1.now ≡ behind_list words.now)) }
{
    let n = usize::at(words, 0);
    let list = memory.get_mut(..n)?;
    let values = rest(words, 1);
    fill(values, list);
    Some((list, rest(values, n)))
}

// What is left of a line behind the expected values; none where it begins otherwise. As a slice's `strip_prefix`, but the values are not numbers yet.
pub fn strip<'a, W: Word>(words: &'a [u64], expected: &[W]) -> Option<&'a [u64]>
    ensures { left_of result ≡ strip (map W.pattern expected.now) words.now }
{
    let mut left = words;
    for x in expected {
        let [first, others @ ..] = left else {
            return None;
        };
        if *first != x.pattern() {
            return None;
        }
        left = others;
    }
    Some(left)
}

// Whether a line could be followed, and to its end.
#[tactic(auto, unfolding(crate::specs::Code::Lines::is_end))]
pub fn is_end(left: Option<&[u64]>) -> bool
    ensures { result ≡ is_end (left_of left.entry) }
{
    matches!(left, Some([]))
}

// Whether the expected values are all that is left of a line.
#[tactic(auto, unfolding(crate::specs::Code::Lines::is_rest))]
pub fn is_rest<W: Word>(words: &[u64], expected: &[W]) -> bool
    ensures { result ≡ is_rest (map W.pattern expected.now) words.now }
{
    is_end(strip(words, expected))
}
