// A block's pairs, each divided by its size.
ghost use Rattle.std.specs.Prelude.{◌≡◌};
ghost use Rattle.channel_samples.specs.Normalisation.{unit, normalised};

// The pair divided by its size, or (0, 0) where that is not above 1e-6 or is a NaN.
#[tactic(auto, unfolding(crate::specs::Normalisation::unit))]
pub fn unit_of(re: f32, im: f32) -> (f32, f32)
    ensures { (result.0, result.1) ≡ unit (re, im) }
{
    let size = ieee754_roots::hypotenuse::hypotf(re, im);
    if 0.000001 < size {
        return (re / size, im / size);
    }
    (0.0, 0.0)
}

// Every whole pair in its place; an odd last number stays.
// By place: the library says nothing of what a slice ends as whose chunks were lent by `as_chunks_mut`, nor does a loop over `[re, im, rest @ ..]` of what it gives back.
pub fn normalise(samples: &mut [f32])
    ensures { samples.new ≡ normalised samples.old }
{
    for k in 0..samples.len() / 2 {
        let i = 2 * k;
        let (re, im) = unit_of(samples[i], samples[i + 1]);
        samples[i] = re;
        samples[i + 1] = im;
    }
}
