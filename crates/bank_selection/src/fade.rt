// What follows a block's samples: pruning, then choice or fade.
ghost use Rattle.std.specs.Prelude.{◌≡◌};
ghost use Rattle.bank_model.specs.Fade.{faded, selected, finished};

use crate::choice::choose;
use bank_model::state::EkfTrackingBank;
use bank_pruning::pruning::prune;

// A bank without a locked tracker: one that used a tracker goes on with it until the count, which stays at the largest u64, exceeds its steps.
#[tactic(auto, unfolding(bank_model::specs::Fade::faded, bank_model::specs::Fade::one_more))]
fn fade_on(b: EkfTrackingBank) -> EkfTrackingBank
    ensures { result ≡ faded b }
{
    if b.active_idx >= EkfTrackingBank::NONE {
        return b;
    }
    let fade_counter = b.fade_counter.saturating_add(1);
    if fade_counter > b.max_fade_steps {
        EkfTrackingBank {
            active_idx: EkfTrackingBank::NONE,
            in_fade: false,
            fade_counter,
            terminated_in_fade: true,
            ..b
        }
    } else {
        EkfTrackingBank {
            in_fade: true,
            fade_counter,
            ..b
        }
    }
}

// The bank with the chosen tracker in use, or one block further in its fade.
#[tactic(auto, unfolding(bank_model::specs::Fade::selected))]
pub fn select(b: EkfTrackingBank) -> EkfTrackingBank
    ensures { result ≡ selected b }
{
    match choose(b) {
        Some(active_idx) => EkfTrackingBank {
            active_idx,
            in_fade: false,
            fade_counter: 0,
            ..b
        },
        None => fade_on(b),
    }
}

// The bank after a block's samples, at the scale k.
#[tactic(auto, unfolding(bank_model::specs::Fade::finished))]
pub fn finish(b: EkfTrackingBank, k: f64) -> EkfTrackingBank
    ensures { result ≡ finished k b }
{
    select(prune(b, k))
}
