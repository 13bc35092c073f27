// A block on one of the four stretches of the window memory.
ghost use Rattle.std.specs.Prelude.{◌≡◌, ◌*◌, ◌<◌, length};
ghost use Rattle.sequences.specs.Stretches.{within};
ghost use Rattle.tracker_model.specs.Following.{over_lists};

use crate::block::follow_lists;
use crate::lists::Lists;
use tracker::state::Tracked;

// Stretch k, of one list or of two.
pub fn follow_on(h: Tracked, lists: Lists, w: &mut [f64], k: usize, dt: f64, fade: bool) -> Tracked
    requires { (length w.old ≡ 8192) × (k < 4) }
    ensures { (result, w.new) ≡ within (2048 * k) 2048 (over_lists lists.entry.two dt fade lists.entry.first.now lists.entry.second.now) (h, w.old) }
{
    let a = 2048 * k;
    let e = a + 2048;
    follow_lists(h, lists, &mut w[a..e], dt, fade)
}
