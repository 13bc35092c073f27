// Refusal 11: a component that is not finite or is over 1,024 in size.
ghost use Rattle.std.specs.Prelude.{◌≡◌};
ghost use Rattle.std.specs.List.{list_all};
ghost use Rattle.channel_samples.specs.Limits.{in_range, all_in_range};

// Whether a component may be tracked. A NaN fails both tests, so no third is needed.
#[tactic(auto, using(crate::proofs::RangeTest::range_test))]
pub fn in_range(x: f32) -> bool
    ensures { result ≡ in_range x }
{
    (-1024.0 <= x) & (x <= 1024.0)
}

// Apart from `all_in_range`, since the check follows the chain only where its own clause is the test of a list.
fn are_in_range(samples: &[f32]) -> bool
    ensures { result ≡ list_all in_range samples.now }
{
    samples.iter().all(|x| in_range(*x))
}

// Whether every component may be tracked.
#[tactic(auto, unfolding(crate::specs::Limits::all_in_range), using(crate::proofs::RangeTest::each_is_every))]
pub fn all_in_range(samples: &[f32]) -> bool
    ensures { result ≡ all_in_range samples.now }
{
    are_in_range(samples)
}
