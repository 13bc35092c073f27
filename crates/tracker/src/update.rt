// One update of the tracker, for one frequency or two.
ghost use Rattle.std.specs.Prelude.{◌≡◌, MatchOption, length};
ghost use Rattle.tracker.specs.Update.{updated, updated_dual};

use crate::correction::{Corrected, Correction};
use crate::first::correct_by_first;
use crate::lock::settle;
use crate::second::update_by_second;
use crate::state::Tracked;

impl Tracked {
    // One sample of the first channel, and with two frequencies one of the second (the source's `update` and `update_dual`, in one function so that each step
    // has one caller). An update that gets lost stops there. w is the tracker's own stretch of the window memory.
    pub fn update(self, w: &mut [f64], first: (f32, f32), second: Option<(f32, f32)>) -> Tracked
        requires { length w.old ≡ 2048 }
        ensures { MatchOption second
            ((result, w.new) ≡ updated self.ekf self.p w.old first.0 first.1)
            (λ s. (result, w.new) ≡ updated_dual self.ekf self.p w.old first.0 first.1 s.0 s.1) }
    {
        let Corrected { ekf, p, answer } = correct_by_first(self, w, first.0, first.1);
        let Correction::Kept(norm_re, pr) = answer else {
            return Tracked { ekf, p };
        };
        if let Some((re, im)) = second {
            return update_by_second(Tracked { ekf, p }, norm_re, pr, re, im);
        }
        let ekf = settle(ekf, norm_re, pr);
        Tracked { ekf, p }
    }
}
