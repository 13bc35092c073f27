// Goldschmidt's iteration for a square root. It makes guesses, which are checked exactly, so that no result rests on how well it converges.
ghost use Rattle.std.specs.Prelude.{◌≡◌, ◌≤◌};
ghost use Rattle.ieee754_roots.specs.Code.Goldschmidt.{start_at, refinement};

// A root, and half the inverse of it.
#[derive(Clone, Copy)]
pub struct Estimate {
    pub root: f64,
    pub half: f64,
}

impl Estimate {
    // The start at the number x, from half of its pattern: four digits are right. What is asked of the pattern is asked of the three who read it: they take it apart at
    // once, and a type for it would have its number taken out there.
    pub fn start(x: f64, bits: u64) -> Estimate
        requires { bits ≤ 0x7ff0_0000_0000_0000 }
        ensures { result ≡ start_at x bits }
    {
        let y: f64 = f64::from_bits(0x5fe6_eb50_c7b5_37a9 - bits / 2);
        Estimate {
            root: x * y,
            half: 0.5 * y,
        }
    }

    // One step, which doubles the digits that are right.
    pub fn refined(self) -> Estimate
        ensures { result ≡ refinement self }
    {
        let t = 1.5 - self.root * self.half;
        Estimate {
            root: self.root * t,
            half: self.half * t,
        }
    }
}
