// Three trackers that are alike, run as one.
ghost use Rattle.std.specs.Prelude.{◌≡◌, true, false, length};
ghost use Rattle.tracker_model.specs.Following.{over_lists};
ghost use Rattle.bank_equal_trackers.specs.Code.Alike.{Level, Alike, thrice};

use crate::same::{Same, same_lists};
use tracker::state::Tracked;
use tracker_over_block::lists::Lists;
use tracker_over_block::stretch::follow_on;

// Whether stretches 2 and 3 of the window memory are the same as stretch 1.
// A slice and no array of 8,192: the scope has a channel lend `&mut w[2048*i..2048*(i+1)]` of the memory, and such a stretch is a slice.
fn are_level(w: &[f64]) -> bool
    requires { length w.now ≡ 8192 }
    ensures { result ≡ true → Level w.now }
{
    let first = &w[2048..4096];
    same_lists(&w[4096..6144], first) & same_lists(&w[6144..8192], first)
}

// Whether the three trackers are the same with all that is theirs.
pub fn are_alike(t0: &Tracked, t1: &Tracked, t2: &Tracked, w: &[f64]) -> bool
    requires { length w.now ≡ 8192 }
    ensures { result ≡ true → Alike t0.now t1.now t2.now w.now }
{
    t1.same(t0) && t2.same(t0) && are_level(w)
}

// One tracker over all samples on stretch 1, for three that are alike and do not fade; its stretch is copied to the others.
pub fn follow_once(h: Tracked, lists: Lists, w: &mut [f64], dt: f64) -> Tracked
    requires { (length w.old ≡ 8192) × Level w.old }
    ensures { (result, result, result, w.new) ≡ thrice (over_lists lists.entry.two dt false lists.entry.first.now lists.entry.second.now) (h, w.old) }
{
    let r = follow_on(h, lists, w, 1, dt, false);
    w.copy_within(2048..4096, 4096);
    w.copy_within(2048..4096, 6144);
    r
}
