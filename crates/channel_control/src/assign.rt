// Assign: a channel at rest takes its carriers.
ghost use Rattle.std.specs.Prelude.{◌≡◌};
ghost use Rattle.channel_model.specs.Returns.{returned};
ghost use Rattle.channel_model.specs.Code.Checks.{number_said};
ghost use Rattle.channel_model.specs.Assigning.{good_carrier, good_carriers, assign_refusal, with_carriers, assigned};

use channel_model::refusal::Refusal;
use channel_model::{Carriers, Channel, Refused, Status};

// 5. Zero of either sign, or within the limits, so a NaN is refused.
#[tactic(auto, unfolding(channel_model::specs::Assigning::good_carrier))]
fn good_carrier(f: f64) -> bool
    ensures { result ≡ good_carrier f }
{
    (f == 0.0) | ((1000000.0 <= f) & (f <= 100000000000.0))
}

// All four are looked at, with one frequency too.
#[tactic(auto, unfolding(channel_model::specs::Assigning::good_carriers))]
fn good_carriers(a: Carriers) -> bool
    ensures { result ≡ good_carriers a }
{
    good_carrier(a.nominal)
        & good_carrier(a.target)
        & good_carrier(a.target2)
        & good_carrier(a.frequency2)
}

// 5 before 6.
#[tactic(auto, unfolding(channel_model::specs::Assigning::assign_refusal, channel_model::specs::Refusals::first_cause))]
fn check(a: Carriers, s: Status) -> Result<(), Refusal>
    ensures { number_said result ≡ assign_refusal a s }
{
    if !good_carriers(a) {
        return Err(Refusal::Frequency);
    }
    if !s.is_idle() {
        return Err(Refusal::NotIdle);
    }
    Ok(())
}

#[tactic(auto, unfolding(channel_model::specs::Assigning::with_carriers))]
fn with_carriers(c: Channel, a: Carriers) -> Channel
    ensures { result ≡ with_carriers c a }
{
    Channel {
        status: Status::Assigned,
        carriers: a,
        ..c
    }
}

// A refused assign gives the channel back as it was.
#[tactic(auto, unfolding(channel_model::specs::Assigning::assigned))]
pub fn assign(c: Channel, a: Carriers) -> Result<Channel, Refused>
    ensures { returned result ≡ assigned c a }
{
    match check(a, c.status) {
        Ok(()) => Ok(with_carriers(c, a)),
        Err(refusal) => Err(Refused {
            refusal,
            channel: c,
        }),
    }
}
