// Samples by a rule: a carrier that turns from pair to pair, with noise.
ghost use Rattle.std.specs.Prelude.{◌≡◌, length};
ghost use Rattle.channel_words.specs.Code.Rules.{next_noise, noise_of, first_turn, next_turn, noisy, ruled_pairs};

use ieee754::conversion::{f64_to_f32, u64_to_f64};

// The first pair, the cosine and sine of the angle from one pair to the next, the size of the noise and the number that it begins with.
#[derive(Clone, Copy)]
pub struct Rule {
    pub re: f64,
    pub im: f64,
    pub cos: f64,
    pub sin: f64,
    pub noise: f64,
    pub seed: u64,
}

// The carrier at a pair, and the noise's number before it.
#[derive(Clone, Copy)]
pub struct Turn {
    pub re: f64,
    pub im: f64,
    pub x: u64,
}

// The number is cut first, so that the product fits.
fn next_noise(x: u64) -> u64
    ensures { result ≡ next_noise x }
{
    (x % 0x8000_0000 * 1103515245 + 12345) % 0x8000_0000
}

fn noise_of(x: u64) -> f64
    ensures { result ≡ noise_of x }
{
    u64_to_f64(x) / 2147483648.0 - 0.5
}

impl Rule {
    #[tactic(auto, unfolding(crate::specs::Code::Rules::first_turn))]
    fn first_turn(self) -> Turn
        ensures { result ≡ first_turn self }
    {
        Turn {
            re: self.re,
            im: self.im,
            x: self.seed % 0x8000_0000,
        }
    }

    #[tactic(auto, unfolding(crate::specs::Code::Rules::next_turn))]
    fn next_turn(self, t: Turn) -> Turn
        ensures { result ≡ next_turn self t }
    {
        Turn {
            re: t.re * self.cos - t.im * self.sin,
            im: t.re * self.sin + t.im * self.cos,
            x: next_noise(next_noise(t.x)),
        }
    }

    #[tactic(auto, unfolding(crate::specs::Code::Rules::noisy))]
    fn noisy(self, v: f64, x: u64) -> f32
        ensures { result ≡ noisy self v x }
    {
        f64_to_f32(v + self.noise * noise_of(x))
    }

    // The rule's pairs, over whatever stands in the lent list.
    pub fn samples(self, list: &mut [[f32; 2]])
        ensures { list.new ≡ ruled_pairs self (length list.old) }
    {
        let mut t = self.first_turn();
        for pair in list.iter_mut() {
            let x = next_noise(t.x);
            *pair = [self.noisy(t.re, x), self.noisy(t.im, next_noise(x))];
            t = self.next_turn(t);
        }
    }
}
