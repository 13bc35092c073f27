// What a block changes in a tracker and in a channel besides its samples' work: the lock mark, and the SNR.
ghost use Rattle.std.specs.Prelude.{◌≡◌};
ghost use Rattle.channel_model.specs.Values.{unlocked};
ghost use Rattle.channel_model.specs.Blocks.{remembered};

use channel_model::{Channel, Reading};
use ieee754::conversion::f64_to_f32;
use tracker::state::{CarrierPllEkf, Tracked};

// A tracker without its lock; all else stays.
#[tactic(auto, unfolding(channel_model::specs::Values::unlocked))]
pub fn unlock(h: Tracked) -> Tracked
    ensures { result ≡ unlocked h }
{
    Tracked {
        ekf: CarrierPllEkf {
            is_locked: false,
            ..h.ekf
        },
        ..h
    }
}

// The SNR shown, and the f32 of it that the next start looks at.
#[tactic(auto, unfolding(channel_model::specs::Blocks::remembered, channel_model::specs::Values::with_snr))]
pub fn remember(c: Channel, snr: f64) -> Channel
    ensures { result ≡ remembered c snr }
{
    Channel {
        last_snr: f64_to_f32(snr),
        reading: Reading { snr, ..c.reading },
        ..c
    }
}
