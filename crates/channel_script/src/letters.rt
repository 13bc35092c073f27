// Letters that stand for something, and those that stand for nothing.
ghost use Rattle.std.specs.Prelude.{◌≡◌, eqb};
ghost use Rattle.sequences.specs.Folds.{some};

// A letter that stands for nothing.
#[derive(Clone, Copy, Debug, PartialEq, Eq)]
pub struct NoLetter;

// Whether a letter is one of a list.
pub fn is_one_of(letter: u8, letters: &[u8]) -> bool
    ensures { result ≡ some (eqb letter) letters.now }
{
    letters.contains(&letter)
}
