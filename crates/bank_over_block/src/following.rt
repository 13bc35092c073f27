// The three trackers over the samples of a block, each on its own stretch of the window memory.
ghost use Rattle.std.specs.Prelude.{◌≡◌, true, length};
ghost use Rattle.bank_model.specs.Following.{fades, bank_followed};
ghost use Rattle.bank_model.specs.Code.TrackerByTracker.{tracker_by_tracker};
ghost use Rattle.bank_over_block.specs.Code.AsOne.{AsOne};

use bank_equal_trackers::once::{are_alike, follow_once};
use bank_model::state::EkfTrackingBank;
use tracker_over_block::lists::Lists;
use tracker_over_block::stretch::follow_on;

// Tracker i is the one in use, in a fade.
#[tactic(auto, unfolding(bank_model::specs::Following::fades))]
fn is_fading(b: EkfTrackingBank, i: u64) -> bool
    ensures { result ≡ fades b i }
{
    b.in_fade && b.active_idx == i
}

// Each tracker by itself.
// Not `map` of the bank: each has a stretch and a mark of its own, and the memory goes through all three.
fn follow_each(b: EkfTrackingBank, lists: Lists, w: &mut [f64], dt: f64) -> EkfTrackingBank
    requires { length w.old ≡ 8192 }
    ensures { (result, w.new) ≡ tracker_by_tracker dt record { two = lists.entry.two; first = lists.entry.first.now; second = lists.entry.second.now } (b, w.old) }
{
    let t0 = follow_on(b.t0, lists, w, 1, dt, is_fading(b, 0));
    let t1 = follow_on(b.t1, lists, w, 2, dt, is_fading(b, 1));
    let t2 = follow_on(b.t2, lists, w, 3, dt, is_fading(b, 2));
    EkfTrackingBank { t0, t1, t2, ..b }
}

// Whether one run will do for all three: they are alike, and none fades. Below 64 pairs it is not worth asking.
// A slice and no array of 8,192, here and below: the scope has a channel lend `&mut w[2048*i..2048*(i+1)]` of it, and such a stretch is a slice.
fn moves_as_one(b: EkfTrackingBank, n: usize, w: &[f64]) -> bool
    requires { length w.now ≡ 8192 }
    ensures { result ≡ true → AsOne b w.now }
{
    !b.in_fade && n >= 128 && are_alike(&b.t0, &b.t1, &b.t2, w)
}

// The three over all samples of one list or of two, tracker by tracker, which gives what sample by sample gives. While they are alike one is run, and
// copied.
pub fn follow(b: EkfTrackingBank, lists: Lists, w: &mut [f64], dt: f64) -> EkfTrackingBank
    requires { length w.old ≡ 8192 }
    ensures { (result, w.new) ≡ bank_followed dt record { two = lists.entry.two; first = lists.entry.first.now; second = lists.entry.second.now } (b, w.old) }
{
    if moves_as_one(b, lists.first.len(), w) {
        let h = follow_once(b.t0, lists, w, dt);
        EkfTrackingBank {
            t0: h,
            t1: h,
            t2: h,
            ..b
        }
    } else {
        follow_each(b, lists, w, dt)
    }
}
