// A tracker over all samples of a block, one after the other.
ghost use Rattle.std.specs.Prelude.{◌≡◌, Bool, length};
ghost use Rattle.tracker_model.specs.Following.{over_lists};

use crate::apart::follow_apart;
use crate::lists::Lists;
use crate::step::step;
use tracker::state::Tracked;
use tracker_block_diagonal::joining::{join, part};
use tracker_one_frequency::state::Single;

// The tracker over all samples.
fn follow_all(h: Tracked, lists: Lists, w: &mut [f64], dt: f64, fade: bool) -> Tracked
    requires { length w.old ≡ 2048 }
    ensures { (result, w.new) ≡ over_lists lists.entry.two dt fade lists.entry.first.now lists.entry.second.now (h, w.old) }
{
    let mut t = h;
    let mut a = lists.first;
    let mut b = lists.second;
    while let [re, im, rest @ ..] = a {
        let other = if !lists.two {
            None
        } else if let [re, im, tail @ ..] = b {
            b = tail;
            Some((*re, *im))
        } else {
            break;
        };
        t = step(t, w, (*re, *im), other, dt, fade);
        a = rest;
    }
    t
}

// The tracker after as many samples as can be followed with the covariance in halves, none of two frequencies, and the samples that are left.
fn begin<'a>(h: Tracked, lists: Lists<'a>, w: &mut [f64], dt: f64) -> (Tracked, Lists<'a>)
    requires { length w.old ≡ 2048 }
    ensures { (fade : Bool) → over_lists result.1.two dt fade result.1.first.now result.1.second.now (result.0, w.new) ≡ over_lists lists.entry.two dt fade lists.entry.first.now lists.entry.second.now (h, w.old) }
{
    if lists.two {
        return (h, lists);
    }
    let Tracked { ekf, p } = h;
    let Some(halves) = part(p) else {
        return (h, lists);
    };
    let (s, first) = follow_apart(Single { ekf, halves }, lists.first, w, dt);
    let p = join(s.halves);
    (Tracked { ekf: s.ekf, p }, Lists { first, ..lists })
}

// One list, or two as far as both go.
pub fn follow_lists(h: Tracked, lists: Lists, w: &mut [f64], dt: f64, fade: bool) -> Tracked
    requires { length w.old ≡ 2048 }
    ensures { (result, w.new) ≡ over_lists lists.entry.two dt fade lists.entry.first.now lists.entry.second.now (h, w.old) }
{
    let (t, left) = begin(h, lists, w, dt);
    follow_all(t, left, w, dt, fade)
}
