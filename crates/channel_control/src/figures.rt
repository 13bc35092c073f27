// Figures: what describes the bank's trackers.
ghost use Rattle.std.specs.Prelude.{◌≡◌};
ghost use Rattle.channel_model.specs.Figures as model;

use bank_selection::features::collect_tracker_features;
use channel_model::Channel;

// Twelve zeros without a bank.
#[tactic(auto, unfolding(channel_model::specs::Figures::figures))]
pub fn figures(c: Channel) -> [f32; 12]
    ensures { result ≡ model.figures c }
{
    if c.setup.bank {
        return collect_tracker_features(c.bank);
    }
    [0.0; 12]
}
