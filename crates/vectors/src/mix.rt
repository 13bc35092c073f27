// A word that stands for many numbers.
ghost use Rattle.std.specs.Prelude.{◌≡◌};
ghost use Rattle.std.specs.List.{fold};
ghost use Rattle.vectors.specs.Code.Words.{mixed_number, mixed_by};

use crate::line::Word;

// One number more.
#[tactic(auto, unfolding(crate::specs::Code::Words::mixed_number))]
fn mix_number(sum: u64, n: u64) -> u64
    ensures { result ≡ mixed_number sum n }
{
    sum % 0x7ff_ffff_ffff_ffc9 * 31 + n % 0x7ff_ffff_ffff_ffc9
}

// One value more, by the number that it stands as.
#[tactic(auto, unfolding(crate::specs::Code::Words::mixed_by))]
pub fn mix<W: Word>(sum: u64, x: W) -> u64
    ensures { result ≡ mixed_by W.pattern sum x }
{
    mix_number(sum, x.pattern())
}

// A list's word.
pub fn mix_all<W: Word>(start: u64, list: &[W]) -> u64
    ensures { result ≡ fold (mixed_by W.pattern) start list.now }
{
    list.iter().fold(start, |sum, x| mix(sum, *x))
}
