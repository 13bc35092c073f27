// What a line has of a tracker after a step, and what is left of a line behind it.
ghost use Rattle.std.specs.Prelude.{◌≡◌};
ghost use Rattle.vectors.specs.Code.Lines.{strip, left_of};
ghost use Rattle.tracker_vectors.specs.Code.After.{figures, tracker_words, after_of, after_words, guarded_words, answer_words, is_kept};

use tracker::correction::Correction;
use tracker::state::{CarrierPllEkf, Tracked};
use vectors::line::strip;

// A tracker, and the pair in the window's slot of the last pair.
#[derive(Clone, Copy)]
pub struct After {
    pub h: Tracked,
    pub abs_i: f64,
    pub q_sq: f64,
}

// The same beside what a correction answered.
#[derive(Clone, Copy)]
pub struct Answered {
    pub answer: Correction,
    pub after: After,
}

// The same beside whether a correction was kept, of which nothing else is compared.
#[derive(Clone, Copy)]
pub struct Marked {
    pub kept: bool,
    pub after: After,
}

// Metric, envelope and sums.
#[tactic(auto, unfolding(crate::specs::Code::After::figures))]
fn figures(t: CarrierPllEkf) -> [f64; 4]
    ensures { result ≡ figures t }
{
    [
        t.lock_metric,
        t.envelope_ema,
        t.power.sum_abs_i,
        t.power.sum_q_sq,
    ]
}

// What is left of a line behind a tracker and its covariance; none where it begins otherwise.
#[tactic(auto, using(vectors::proofs::LineLaws::strip_both, vectors::proofs::LineLaws::strip_first), unfolding(crate::specs::Code::After::tracker_words))]
pub fn strip_tracker(words: &[u64], h: Tracked) -> Option<&[u64]>
    ensures { left_of result ≡ strip (tracker_words h) words.now }
{
    let t = h.ekf;
    let x = t.x;
    let p = h.p;
    let left = strip(words, &[t.is_locked])?;
    let left = strip(left, &x)?;
    let left = strip(left, &p)?;
    let left = strip(left, &figures(t))?;
    strip(left, &[t.power.pushed.min(1024)])
}

impl After {
    // The window has had n pairs since the tracker's reset. (n is no place in it: a ring's place is made of it here, once.)
    #[tactic(auto, unfolding(crate::specs::Code::After::after_of))]
    pub fn new(h: Tracked, w: &[f64; 2048], n: usize) -> After
        ensures { result ≡ after_of h w.now n }
    {
        let k = 2 * (n % 1024);
        After {
            h,
            abs_i: w[k],
            q_sq: w[k + 1],
        }
    }

    // What is left of a line behind it.
    #[tactic(auto, using(vectors::proofs::LineLaws::strip_both, vectors::proofs::LineLaws::strip_first), unfolding(crate::specs::Code::After::after_words))]
    pub fn strip_from(self, words: &[u64]) -> Option<&[u64]>
        ensures { left_of result ≡ strip (after_words self) words.now }
    {
        let left = strip_tracker(words, self.h)?;
        strip(left, &[self.abs_i, self.q_sq])
    }

    // After an update the guard stands before it.
    #[tactic(auto, using(vectors::proofs::LineLaws::strip_both, vectors::proofs::LineLaws::strip_first), unfolding(crate::specs::Code::After::guarded_words))]
    pub fn strip_guarded_from(self, words: &[u64]) -> Option<&[u64]>
        ensures { left_of result ≡ strip (guarded_words self) words.now }
    {
        let left = strip(words, &[self.h.ekf.convergence_guard])?;
        self.strip_from(left)
    }
}

// What is left of a line behind what a correction answers.
#[tactic(auto, using(vectors::proofs::LineLaws::strip_both, vectors::proofs::LineLaws::strip_first), unfolding(crate::specs::Code::After::answer_words))]
pub fn strip_answer(words: &[u64], c: Correction) -> Option<&[u64]>
    ensures { left_of result ≡ strip (answer_words c) words.now }
{
    match c {
        Correction::Kept(norm_re, pr) => {
            let left = strip(words, &[1u64])?;
            strip(left, &[norm_re, pr])
        }
        Correction::Lost => strip(words, &[0u64; 3]),
    }
}

#[tactic(auto, unfolding(crate::specs::Code::After::is_kept))]
pub fn is_kept(c: Correction) -> bool
    ensures { result ≡ is_kept c }
{
    matches!(c, Correction::Kept(_, _))
}
