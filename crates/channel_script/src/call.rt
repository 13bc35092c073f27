// What a letter of a script calls.
ghost use Rattle.std.specs.Prelude.{◌≡◌};
ghost use Rattle.channel_script.specs.Code.Letters.{named};
ghost use Rattle.channel_script.specs.Code.Playing.{call_letters};

use crate::block::{doubled, no_lists, sample, shaken};
use crate::letters::NoLetter;
use crate::session::Lists;

#[derive(Clone, Copy)]
pub enum Call {
    Open,
    Assign,
    Release,
    // An answer is held, or comes to the place of the one before; the figures are remembered.
    Hold,
    Bring,
    Remember,
    // A block as it is set, or one of these lists.
    Planned,
    Block(Lists),
}

impl TryFrom<u8> for Call {
    type Error = NoLetter;

    ghost try_from_gives = { λ letter call. call ≡ named letter call_letters };

    #[tactic(auto, using(std::proofs::lemmas::Bool::Decides::nat_tests, crate::proofs::Numbers::parts), unfolding(crate::specs::Code::Letters::named))]
    fn try_from(letter: u8) -> Result<Self, NoLetter> {
        Ok(match letter {
            b'O' => Call::Open,
            b'a' => Call::Assign,
            b'r' => Call::Release,
            b'h' => Call::Hold,
            b'H' => Call::Bring,
            b'y' => Call::Remember,
            b'p' => Call::Planned,
            b'0' => Call::Block(no_lists(0)),
            b'1' => Call::Block(no_lists(1)),
            b'2' => Call::Block(no_lists(2)),
            b'3' => Call::Block(no_lists(3)),
            b'4' => Call::Block(no_lists(4)),
            b's' => Call::Block(sample(0, 0.5, 0.25)),
            b'c' => Call::Block(sample(1, 1.0, 0.0)),
            b'q' => Call::Block(sample(1, 0.0, 1.0)),
            b'b' => Call::Block(sample(1, 0.8, 0.6)),
            b'n' => Call::Block(sample(1, 3.0, 4.0)),
            b'o' => Call::Block(sample(1, 0.0, 0.0)),
            b'j' => Call::Block(shaken()),
            b'd' => Call::Block(doubled(1)),
            b'D' => Call::Block(doubled(0)),
            _ => return Err(NoLetter),
        })
    }
}
