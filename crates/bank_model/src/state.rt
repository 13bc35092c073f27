// The bank's value, and what is asked of its trackers.
ghost use Rattle.std.specs.Prelude.{◌≡◌, cond, Some, None};
ghost use Rattle.bank_model.specs.Values.{with_trackers};
ghost use Rattle.bank_model.specs.Choice.{numbered};
ghost use Rattle.bank_model.specs.Fade.{in_use};

use tracker::state::Tracked;

// Three trackers with their covariances.
#[derive(Clone, Copy)]
pub struct EkfTrackingBank {
    // Not an array: the public definitions in specs/ name the three fields, as the layout in C does; of a list each would have to say that the place is there.
    pub t0: Tracked,
    pub t1: Tracked,
    pub t2: Tracked,
    // Not an Option: the scope and the layout in C have a number here, 3 for none, and C may lend a larger one, which has to stay as it is.
    pub active_idx: u64,
    pub in_fade: bool,
    pub fade_counter: u64,
    pub max_fade_steps: u64,
    pub terminated_in_fade: bool,
}

impl EkfTrackingBank {
    // The active number where no tracker is in use.
    pub const NONE: u64 = 3;

    // The tracker in use.
    #[tactic(auto, unfolding(crate::specs::Choice::numbered))]
    pub fn used(&self) -> Option<Tracked>
        ensures { result ≡ cond (in_use self.now) (Some (numbered self.now.active_idx self.now)) None }
    {
        match self.active_idx {
            0 => Some(self.t0),
            1 => Some(self.t1),
            2 => Some(self.t2),
            _ => None,
        }
    }

    // The bank with f of each tracker in its place.
    pub fn map<F: Fn(Tracked) -> Tracked>(self, f: F) -> EkfTrackingBank
        requires { F.IsAlwaysCallable f }
        ensures first { F.post f self.t0 result.t0 }
        ensures second { F.post f self.t1 result.t1 }
        ensures third { F.post f self.t2 result.t2 }
        ensures rest { result ≡ with_trackers self result.t0 result.t1 result.t2 self.terminated_in_fade }
    {
        EkfTrackingBank {
            t0: f(self.t0),
            t1: f(self.t1),
            t2: f(self.t2),
            ..self
        }
    }
}

// Tracker 0 to 1, 1 to 2, 2 to 0.
#[derive(Clone, Copy)]
pub struct FrequencyDiffs {
    pub d01: f32,
    pub d12: f32,
    pub d20: f32,
}
