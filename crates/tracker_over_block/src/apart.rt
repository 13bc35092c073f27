// A tracker of one frequency over the samples of a block, as long as it is locked and the halves of its covariance stay apart.
ghost use Rattle.std.specs.Prelude.{◌≡◌, Bool, MatchOption, length};
ghost use Rattle.tracker_one_frequency.specs.Code.Whole.{whole};
ghost use Rattle.tracker_model.specs.Following.{follow};
ghost use Rattle.tracker_model.specs.Code.OneList.{followed};

use tracker_block_diagonal::prediction::is_steady;
use tracker_one_frequency::state::Single;

// One sample, where the tracker is locked and the update can be made; else nothing.
fn step_apart(h: Single, w: &mut [f64], sample: (f32, f32), dt: f64) -> Option<Single>
    requires { length w.old ≡ 2048 }
    ensures { (fade : Bool) → MatchOption result
        (w.new ≡ w.old)
        (λ after. (whole after, w.new) ≡ follow dt fade (whole h, w.old) sample) }
{
    if h.ekf.is_locked && is_steady(dt, h.ekf.tuning.frequency_ratio) {
        return h.predict(dt).update(w, sample);
    }
    None
}

// The tracker after the samples that it could follow, and the samples that are left.
pub fn follow_apart<'a>(
    h: Single,
    samples: &'a [f32],
    w: &mut [f64],
    dt: f64,
) -> (Single, &'a [f32])
    requires { length w.old ≡ 2048 }
    ensures { (fade : Bool) → followed dt fade result.1.now (whole result.0, w.new) ≡ followed dt fade samples.now (whole h, w.old) }
{
    let mut t = h;
    let mut left = samples;
    while let [re, im, rest @ ..] = left {
        let Some(after) = step_apart(t, w, (*re, *im), dt) else {
            break;
        };
        t = after;
        left = rest;
    }
    (t, left)
}
