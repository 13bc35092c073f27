// What a sample does to a tracker, or one of each of two frequencies: a locked tracker is predicted and corrected, one that fades is predicted,
// another stands still. There is one call of the prediction and one of the update, so that the compiler copies no tracker.
ghost use Rattle.std.specs.Prelude.{◌≡◌, MatchOption, cond, length};
ghost use Rattle.tracker_model.specs.Following.{follow, follow_dual};

use tracker::state::Tracked;

// The block's interval for a locked tracker, its own for one that fades.
fn interval_of(locked: bool, dt: f64, own: f64) -> f64
    ensures { result ≡ cond locked dt own }
{
    if locked { dt } else { own }
}

pub fn step(
    h: Tracked,
    w: &mut [f64],
    first: (f32, f32),
    second: Option<(f32, f32)>,
    dt: f64,
    fade: bool,
) -> Tracked
    requires { length w.old ≡ 2048 }
    ensures { MatchOption second
        ((result, w.new) ≡ follow dt fade (h, w.old) first)
        (λ s. (result, w.new) ≡ follow_dual dt fade (h, w.old) (first, s)) }
{
    let locked = h.ekf.is_locked;
    if locked | fade {
        let after = h.predict(interval_of(locked, dt, h.ekf.tuning.ts));
        if locked {
            return after.update(w, first, second);
        }
        return after;
    }
    h
}
