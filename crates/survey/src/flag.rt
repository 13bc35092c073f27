// What a raw block holds, by the numbers of the scope.
ghost use Rattle.survey.specs.Code.Flags.{Names};

#[derive(Clone, Copy, Debug, PartialEq, Eq)]
pub enum Flag {
    NoSignal = 0,
    Signal = 1,
    NotANumber = 2,
    Clipped = 3,
    Empty = 4,
}

// A number that stands for no flag.
#[derive(Clone, Copy, Debug, PartialEq, Eq)]
pub struct NoFlag;

impl TryFrom<u64> for Flag {
    type Error = NoFlag;

    ghost try_from_gives = { Names };

    fn try_from(number: u64) -> Result<Self, NoFlag> {
        match number {
            0 => Ok(Flag::NoSignal),
            1 => Ok(Flag::Signal),
            2 => Ok(Flag::NotANumber),
            3 => Ok(Flag::Clipped),
            4 => Ok(Flag::Empty),
            _ => Err(NoFlag),
        }
    }
}
