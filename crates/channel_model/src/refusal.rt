// Why a call is refused (the scope, "Causes of refusal").
ghost use Rattle.std.specs.Prelude.{◌≡◌};
ghost use Rattle.channel_model.specs.Returns.{refusal_number};

// The causes in the order of their numbers: four of open, two of assign, six of block.
#[derive(Clone, Copy, Debug, PartialEq, Eq)]
pub enum Refusal {
    Rate = 1,
    Modulation = 2,
    Fade = 3,
    Ratio = 4,
    Frequency = 5,
    NotIdle = 6,
    Flag = 7,
    Length = 8,
    NotEmpty = 9,
    Second = 10,
    Component = 11,
    Windows = 12,
}

impl Refusal {
    // The scope's number.
    pub fn number(self) -> u64
        ensures { result ≡ refusal_number self }
    {
        self as u64
    }
}
