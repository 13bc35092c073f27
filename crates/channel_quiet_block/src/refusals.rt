// The refusals of a block, 7 to 12: one function for each test, then the first that holds.
ghost use Rattle.std.specs.Prelude.{◌≡◌, cond, not, ◌&&◌, ◌||◌, ltb, eqb, IfOk};
ghost use Rattle.channel_samples.specs.Limits.{all_in_range};
ghost use Rattle.survey.specs.Code.Flags.{flag_number};
ghost use Rattle.channel_model.specs.Code.Checks.{number_said};
ghost use Rattle.channel_model.specs.Refusals.{bad_length, block_refusal};

use channel_model::refusal::Refusal;
use channel_samples::limits::all_in_range;
use survey::flag::Flag;

// 8, of one list.
#[tactic(auto, unfolding(channel_model::specs::Refusals::bad_length))]
fn bad_length(n: usize) -> bool
    ensures { result ≡ bad_length n }
{
    (n % 2 == 1) | (8192 < n)
}

// 9: samples with a flag that says there are none to be tracked.
fn not_empty(flag: Flag, n: usize) -> bool
    ensures { result ≡ (ltb 1 (flag_number flag) && ltb 0 n) }
{
    match flag {
        Flag::NoSignal | Flag::Signal => false,
        Flag::NotANumber | Flag::Clipped | Flag::Empty => 0 < n,
    }
}

// 10.
fn bad_second(two: bool, n: usize, m: usize) -> bool
    ensures { result ≡ not (eqb m (cond two n 0)) }
{
    m != if two { n } else { 0 }
}

// The flag of a block that is accepted, or the first cause against it. The lists are read only where their lengths are right.
#[tactic(auto, unfolding(channel_model::specs::Refusals::block_refusal, channel_model::specs::Refusals::first_cause))]
pub fn check_block(
    flag: u64,
    two: bool,
    first: &[f32],
    second: &[f32],
    size: usize,
) -> Result<Flag, Refusal>
    ensures refusal { number_said result ≡ block_refusal two (record { flag = flag; first = first.now; second = second.now }) size }
    ensures named { IfOk result (λ f. flag_number f ≡ flag) }
    ensures windows { IfOk result (λ f. size ≡ 8192) }
{
    let Ok(named) = Flag::try_from(flag) else {
        return Err(Refusal::Flag);
    };
    if bad_length(first.len()) || bad_length(second.len()) {
        return Err(Refusal::Length);
    }
    if not_empty(named, first.len()) {
        return Err(Refusal::NotEmpty);
    }
    if bad_second(two, first.len(), second.len()) {
        return Err(Refusal::Second);
    }
    if !(all_in_range(first) && all_in_range(second)) {
        return Err(Refusal::Component);
    }
    if size != 8192 {
        return Err(Refusal::Windows);
    }
    Ok(named)
}
