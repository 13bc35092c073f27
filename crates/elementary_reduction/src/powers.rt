// A remainder times a power of two, twenty bits a step. There is no loop: of a function with one the compiler does not know that it returns, and then what
// surrounds a call of sine or cosine comes out slower.
ghost use Rattle.std.specs.Prelude.{ℕ, ◌*◌, ◌/◌, ◌%◌, ◌^◌, ◌<◌};
ghost use Rattle.elementary_reduction.specs.Code.Rests.{value, Held};

use crate::limbs::remainder;
use crate::rest::{Limbs, Rest};
use std::marker::PhantomData;

// 2^20.
const STEP: u64 = 1048576;

// A power of two that a remainder can be taken times.
pub trait Power {
    ghost bits: { ℕ };

    fn times(r: Rest) -> Rest
        ensures { Held (value r * 2 ^ bits) result };
}

pub struct By20;

// A power taken twice.
pub struct Twice<P> {
    of: PhantomData<P>,
}

type By40 = Twice<By20>;

type By80 = Twice<By40>;

type By160 = Twice<By80>;

type By320 = Twice<By160>;

type By640 = Twice<By320>;

impl Power for By20 {
    ghost bits = { 20 };

    fn times(r: Rest) -> Rest {
        let w = r.w;
        remainder(Limbs {
            w0: w.w0 * STEP,
            w1: w.w1 * STEP,
            w2: w.w2 * STEP,
            w3: w.w3 * STEP,
        })
    }
}

impl<P: Power> Power for Twice<P> {
    ghost bits = { 2 * P.bits };

    fn times(r: Rest) -> Rest {
        P::times(P::times(r))
    }
}

// Times the power where k is odd.
fn where_odd<P: Power>(r: Rest, k: u64) -> Rest
    ensures { Held (value r * 2 ^ (P.bits * (k % 2))) result }
{
    if k % 2 == 0 { r } else { P::times(r) }
}

impl Rest {
    // k times twenty bits more, a binary digit of k at a time.
    pub fn shifted(self, k: u64) -> Rest
        requires { k < 64 }
        ensures { Held (value self * 2 ^ (20 * k)) result }
    {
        let r1 = where_odd::<By20>(self, k);
        let r2 = where_odd::<By40>(r1, k / 2);
        let r3 = where_odd::<By80>(r2, k / 4);
        let r4 = where_odd::<By160>(r3, k / 8);
        let r5 = where_odd::<By320>(r4, k / 16);
        where_odd::<By640>(r5, k / 32)
    }
}
