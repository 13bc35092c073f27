// The six states: phase, frequency and chirp of the first channel, then of the second.
ghost use Rattle.std.specs.Prelude.{◌≡◌};
ghost use Rattle.tracker_covariance.specs.States.{phase_of};
ghost use Rattle.tracker_covariance.specs.Transition.{predicted_state};
ghost use Rattle.tracker_covariance.specs.Correction.{corrected_state};
ghost use Rattle.tracker_covariance.specs.Code.Moved.{moved};
ghost use Rattle.tracker_covariance.specs.declared.states.Band.{Band};
ghost use Rattle.tracker_covariance.specs.declared.states.Band.TheVariants.{First, Second};

// The channel that a correction is for. An enum, so that no index has to be promised.
#[derive(Clone, Copy)]
pub enum Band {
    First,
    Second,
}

impl Band {
    // Where the channel's phase stands.
    pub fn phase_index(self) -> usize
        ensures { result ≡ phase_of self }
    {
        match self {
            Band::First => 0,
            Band::Second => 3,
        }
    }
}

// A channel as a type: a correction that is generic over it is compiled for each of the two, with the place of the phase a constant.
pub trait Channel {
    const BAND: Band;

    ghost BAND: { Band };
}

pub struct FirstChannel;

pub struct SecondChannel;

impl Channel for FirstChannel {
    const BAND: Band = Band::First;

    ghost BAND = { First };
}

impl Channel for SecondChannel {
    const BAND: Band = Band::Second;

    ghost BAND = { Second };
}

// F on one channel over the interval dt: its phase, its frequency and its chirp.
pub fn moved(phase: f64, freq: f64, chirp: f64, dt: f64) -> [f64; 3]
    ensures { result ≡ moved dt phase freq chirp }
{
    let dt2 = 0.5 * dt * dt;
    [phase + dt * freq + dt2 * chirp, freq + dt * chirp, chirp]
}

// F·x over the interval dt.
#[tactic(auto, unfolding(crate::specs::Transition::predicted_state))]
pub fn predict_state(x: [f64; 6], dt: f64) -> [f64; 6]
    ensures { result ≡ predicted_state dt x }
{
    let a = moved(x[0], x[1], x[2], dt);
    let b = moved(x[3], x[4], x[5], dt);
    [a[0], a[1], a[2], b[0], b[1], b[2]]
}

// x + K·z.
#[tactic(auto, unfolding(crate::specs::Correction::corrected_state))]
pub fn correct_state(x: [f64; 6], k: [f64; 6], z: f64) -> [f64; 6]
    ensures { result ≡ corrected_state x k z }
{
    std::array::from_fn(|i| x[i] + k[i] * z)
}
