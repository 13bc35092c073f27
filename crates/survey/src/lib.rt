// Module 5 of the scope: what a raw block holds, as the flag that a block call takes.
#![tactic(auto)]

pub mod flag;

ghost use Rattle.std.specs.Prelude.{◌≡◌};
ghost use Rattle.sequences.specs.Pairs.{pairs};
ghost use Rattle.survey.specs.Survey.{survey_of};
ghost use Rattle.survey.specs.Code.Flags.{flag_number};

use crate::flag::Flag;

// A NaN comes before clipping, and clipping before a signal.
fn flag_of(samples: &[f32]) -> Flag
    ensures { flag_number result ≡ survey_of (pairs samples.now) }
{
    let (samples, _) = samples.as_chunks::<2>();
    let mut not_a_number = false;
    let mut clipped = false;
    let mut signal = false;
    for &[re, im] in samples {
        let power = re * re + im * im;
        not_a_number |= re.is_nan() | im.is_nan();
        clipped |= power > 1.98;
        signal |= power > 0.000000000001;
    }
    if samples.is_empty() {
        Flag::Empty
    } else if not_a_number {
        Flag::NotANumber
    } else if clipped {
        Flag::Clipped
    } else if signal {
        Flag::Signal
    } else {
        Flag::NoSignal
    }
}

// The flag of a block as the number that C and a block call take: 4 without a whole pair, else 2 with a NaN, else 3 with clipping, else 1 with a signal, else 0.
pub fn survey(samples: &[f32]) -> u64
    ensures { result ≡ survey_of (pairs samples.now) }
{
    flag_of(samples) as u64
}
