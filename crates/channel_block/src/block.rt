// Block: refused, or worked according to the channel's status and the flag.
ghost use Rattle.std.specs.Prelude.{◌≡◌, length};
ghost use Rattle.channel_model.specs.Answers.{answer_of};
ghost use Rattle.channel_model.specs.Blocks.{outcome, by_flag, blocked};
ghost use Rattle.survey.specs.Code.Flags.{flag_number};

use channel_answer::answers::answer_of;
use channel_answer::values::unlock;
use channel_model::{Blocked, Channel};
use channel_quiet_block::quiet::{not_locked, refused_answer, without_signal};
use channel_quiet_block::refusals::check_block;
use channel_signal_block::signal::with_signal;
use survey::flag::Flag;

// The channel and its answer.
fn shown(c: Channel) -> Blocked
    ensures { result ≡ record { answer = answer_of c; channel = c } }
{
    Blocked {
        answer: answer_of(c),
        channel: c,
    }
}

// An accepted block of an assigned channel. Only a signal changes the lists and the window memory.
#[tactic(auto, unfolding(channel_model::specs::Blocks::by_flag, channel_model::specs::Blocks::untouched, channel_model::specs::Blocks::outcome))]
fn by_flag(
    c: Channel,
    flag: Flag,
    first: &mut [f32],
    second: &mut [f32],
    windows: &mut [f64],
) -> Blocked
    requires { length windows.old ≡ 8192 }
    ensures { outcome result first.new second.new windows.new ≡ by_flag (flag_number flag) c (record { flag = flag_number flag; first = first.old; second = second.old }) windows.old }
{
    match flag {
        Flag::Signal => with_signal(c, first, second, windows),
        Flag::NoSignal => shown(without_signal(c, first)),
        Flag::NotANumber => shown(not_locked(c, unlock(c.pll), 0.0)),
        Flag::Clipped => shown(not_locked(c, unlock(c.pll), 0.5)),
        Flag::Empty => shown(not_locked(c, c.pll, -5.0)),
    }
}

// Nothing is asked of the caller. A refused block gives all back as it was, also to an idle channel.
// The two lists and the window memory are not one struct: C lends the three, and each function below is lent them anew.
#[tactic(auto, unfolding(channel_model::specs::Blocks::blocked, channel_model::specs::Blocks::block_step, channel_model::specs::Blocks::untouched, channel_model::specs::Blocks::outcome))]
pub fn block(
    c: Channel,
    flag: u64,
    first: &mut [f32],
    second: &mut [f32],
    windows: &mut [f64],
) -> Blocked
    ensures { outcome result first.new second.new windows.new ≡ blocked c (record { flag = flag; first = first.old; second = second.old }) windows.old }
{
    let flag = match check_block(flag, c.setup.two, first, second, windows.len()) {
        Ok(flag) => flag,
        Err(refusal) => {
            return Blocked {
                answer: refused_answer(refusal.number()),
                channel: c,
            };
        }
    };
    if c.status.is_idle() {
        return shown(not_locked(c, c.pll, 0.0));
    }
    by_flag(c, flag, first, second, windows)
}
