// What a call or a rule of samples is given, as the numbers that a line begins with.
// No trait, as `Words` is for the way back: nothing reads a value whose type it does not know, where `strip_value` compares one.
ghost use Rattle.std.specs.Prelude.{◌≡◌};
ghost use Rattle.channel_words.specs.Code.Arguments.{given_settings, given_carriers, given_rule};

use crate::rules::Rule;
use channel_model::{Carriers, Settings};
use vectors::line::Word;

#[tactic(auto, unfolding(crate::specs::Code::Arguments::given_settings))]
pub fn settings_in(words: &[u64]) -> Settings
    ensures { result ≡ given_settings words.now }
{
    Settings {
        rate: u64::at(words, 0),
        factor: u64::at(words, 1),
        modulation: u64::at(words, 2),
        adaptive: bool::at(words, 3),
        dual_lock: bool::at(words, 4),
        bank: bool::at(words, 5),
        two: bool::at(words, 6),
        fade: u64::at(words, 7),
        ratio: f64::at(words, 8),
    }
}

#[tactic(auto, unfolding(crate::specs::Code::Arguments::given_carriers))]
pub fn carriers_in(words: &[u64]) -> Carriers
    ensures { result ≡ given_carriers words.now }
{
    Carriers {
        nominal: f64::at(words, 0),
        target: f64::at(words, 1),
        target2: f64::at(words, 2),
        frequency2: f64::at(words, 3),
    }
}

#[tactic(auto, unfolding(crate::specs::Code::Arguments::given_rule))]
pub fn rule_in(words: &[u64]) -> Rule
    ensures { result ≡ given_rule words.now }
{
    Rule {
        re: f64::at(words, 0),
        im: f64::at(words, 1),
        cos: f64::at(words, 2),
        sin: f64::at(words, 3),
        noise: f64::at(words, 4),
        seed: u64::at(words, 5),
    }
}
