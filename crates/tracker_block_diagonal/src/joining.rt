// Between the 36 numbers and the two halves.
ghost use Rattle.std.specs.Prelude.{◌≡◌, true, IfSome};
ghost use Rattle.ieee754.specs.Binary64.{zero};
ghost use Rattle.tracker_block_diagonal.specs.Code.Joined.{joined};

use crate::half::{Half, Halves};
use ieee754::pattern::f64_to_bits;

// Whether x is +0, and not -0.
fn is_plus_zero(x: f64) -> bool
    ensures { result ≡ true → x ≡ zero }
{
    f64_to_bits(x) == 0
}

// Whether all three are +0: what a row has in the other channel's columns.
fn none_shared(p: f64, f: f64, c: f64) -> bool
    ensures { result ≡ true → (p ≡ zero) × (f ≡ zero) × (c ≡ zero) }
{
    is_plus_zero(p) && is_plus_zero(f) && is_plus_zero(c)
}

// The 36 numbers.
#[tactic(auto, unfolding(crate::specs::Code::Joined::joined))]
pub fn join(h: Halves) -> [f64; 36]
    ensures { result ≡ joined h }
{
    let Halves {
        first: a,
        second: b,
    } = h;
    let o = 0.0;
    [
        a.pp, a.pf, a.pc, o, o, o, //
        a.fp, a.ff, a.fc, o, o, o, //
        a.cp, a.cf, a.cc, o, o, o, //
        o, o, o, b.pp, b.pf, b.pc, //
        o, o, o, b.fp, b.ff, b.fc, //
        o, o, o, b.cp, b.cf, b.cc, //
    ]
}

// The halves, where the channels share nothing.
pub fn part(p: [f64; 36]) -> Option<Halves>
    ensures { IfSome result (λ halves. joined halves ≡ p) }
{
    let r0 = none_shared(p[3], p[4], p[5]);
    let r1 = none_shared(p[9], p[10], p[11]);
    let r2 = none_shared(p[15], p[16], p[17]);
    let r3 = none_shared(p[18], p[19], p[20]);
    let r4 = none_shared(p[24], p[25], p[26]);
    let r5 = none_shared(p[30], p[31], p[32]);
    if r0 & r1 & r2 & r3 & r4 & r5 {
        return Some(Halves {
            first: Half {
                pp: p[0],
                pf: p[1],
                pc: p[2],
                fp: p[6],
                ff: p[7],
                fc: p[8],
                cp: p[12],
                cf: p[13],
                cc: p[14],
            },
            second: Half {
                pp: p[21],
                pf: p[22],
                pc: p[23],
                fp: p[27],
                ff: p[28],
                fc: p[29],
                cp: p[33],
                cf: p[34],
                cc: p[35],
            },
        });
    }
    None
}
