// Whole numbers of 2^-160 in four limbs of 41 bits, and their remainder by the turn. A limb times 2^20 fits a u64 with room for a column's loans.
ghost use Rattle.std.specs.Prelude.{◌≡◌, ◌+◌, ◌-◌, ◌*◌, ◌/◌, ◌^◌, ◌<◌, ◌≤◌};
ghost use Rattle.elementary_reduction.specs.Code.Limbs.{limbs};
ghost use Rattle.elementary_reduction.specs.Code.Rests.{value, Held};

use crate::rest::{Limbs, Rest};

// The turn in limbs, the lowest first.
const TURN0: u64 = 589619687492;

const TURN1: u64 = 1692989091955;

const TURN2: u64 = 899869673868;

const TURN3: u64 = 863554413089;

// 2^41.
const BASE: u64 = 2199023255552;

// What a column of a remainder borrows from the one above it: more than any quotient.
const LOAN: u64 = 2097152;

// A column of a difference: it borrows `loan` of its base from the column above, lends as much to the one below, and gets `back` what that did not need.
// So nothing is below 0.
fn column(a: u64, loan: u64, back: u64, taken: u64) -> u64
    requires { (a < 2 ^ 61) × (loan ≤ 2 ^ 21) × (back < 2 ^ 22) × (taken ≤ loan * (2 ^ 41 - 1)) }
    ensures { result ≡ a + loan * (2 ^ 41 - 1) + back - taken }
{
    a + loan * (BASE - 1) + back - taken
}

// One turn less, where there is one.
fn less_turn(w: Limbs) -> Rest
    requires { (w.w0 < 2 ^ 41) × (w.w1 < 2 ^ 41) × (w.w2 < 2 ^ 41) × (w.w3 < 2 ^ 40) }
    ensures { Held (limbs (2 ^ 41) w.w0 w.w1 w.w2 w.w3) result }
{
    let s0 = column(w.w0, 1, 1, TURN0);
    let s1 = column(w.w1, 1, s0 / BASE, TURN1);
    let s2 = column(w.w2, 1, s1 / BASE, TURN2);
    let s3 = w.w3 + s2 / BASE;
    if s3 <= TURN3 {
        return Rest { w };
    }
    Rest {
        w: Limbs {
            w0: s0 % BASE,
            w1: s1 % BASE,
            w2: s2 % BASE,
            w3: s3 - TURN3 - 1,
        },
    }
}

// The remainder by the turn of limbs that are too large by twenty bits. The quotient of the top limbs, by TURN3 + 1, is at most one too small.
pub fn remainder(a: Limbs) -> Rest
    requires { (a.w0 < 2 ^ 61) × (a.w1 < 2 ^ 61) × (a.w2 < 2 ^ 61) × (a.w3 < 2 ^ 60) }
    ensures { Held (limbs (2 ^ 41) a.w0 a.w1 a.w2 a.w3) result }
{
    let q = a.w3 / (TURN3 + 1);
    let t0 = column(a.w0, LOAN, LOAN, q * TURN0);
    let t1 = column(a.w1, LOAN, t0 / BASE, q * TURN1);
    let t2 = column(a.w2, LOAN, t1 / BASE, q * TURN2);
    less_turn(Limbs {
        w0: t0 % BASE,
        w1: t1 % BASE,
        w2: t2 % BASE,
        w3: a.w3 + t2 / BASE - q * TURN3 - LOAN,
    })
}

impl Rest {
    // The bits from 2^99 on: the units of 2^-61.
    pub fn upper(self) -> u64
        ensures { result ≡ value self / 2 ^ 99 }
    {
        self.w.w3 * 16777216 + self.w.w2 / 131072
    }
}
