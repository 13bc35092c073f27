// Whole numbers of 2^-160, and those below the turn.
ghost use Rattle.std.specs.Prelude.{◌^◌};
ghost use Rattle.elementary_reduction.specs.Code.Limbs.{limbs, RestLimbs};

// In four limbs of 41 bits, the lowest first. A limb can be too large. By names, and no array: the limbs have bounds of their own, the top one's another, and without a loop (see
// `powers`) an index would only stand for a name.
#[derive(Clone, Copy)]
pub struct Limbs {
    pub w0: u64,
    pub w1: u64,
    pub w2: u64,
    pub w3: u64,
}

// Limbs that are their own remainder by the turn.
#[derive(Clone, Copy)]
pub struct Rest {
    pub w: Limbs,
    ghost below_turn: { RestLimbs (limbs (2 ^ 41) w.w0 w.w1 w.w2 w.w3) w.w0 w.w1 w.w2 w.w3 },
}
