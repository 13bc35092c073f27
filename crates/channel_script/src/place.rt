// The four trackers of a channel.
ghost use Rattle.std.specs.Prelude.{◌≡◌};
ghost use Rattle.channel_script.specs.Code.Letters.{named};
ghost use Rattle.channel_script.specs.Code.Places.{place_of, place_letters};

use crate::letters::NoLetter;

#[derive(Clone, Copy)]
pub enum Place {
    First,
    Second,
    Third,
    Pll,
}

impl From<u64> for Place {
    ghost from_gives = { λ n place. place ≡ place_of n };

    fn from(number: u64) -> Place {
        match number {
            0 => Place::First,
            1 => Place::Second,
            2 => Place::Third,
            _ => Place::Pll,
        }
    }
}

impl TryFrom<u8> for Place {
    type Error = NoLetter;

    ghost try_from_gives = { λ letter place. place ≡ named letter place_letters };

    #[tactic(auto, using(std::proofs::lemmas::Bool::Decides::nat_tests), unfolding(crate::specs::Code::Letters::named))]
    fn try_from(letter: u8) -> Result<Self, NoLetter> {
        match letter {
            b'0' => Ok(Place::First),
            b'1' => Ok(Place::Second),
            b'2' => Ok(Place::Third),
            b'3' => Ok(Place::Pll),
            _ => Err(NoLetter),
        }
    }
}
