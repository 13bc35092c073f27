// What a list of calls leads from line to line.
use channel_model::Channel;

// The window memory is one number longer than a block takes, so that a wrong length can be lent.
#[derive(Clone, Copy)]
pub struct State {
    pub channel: Channel,
    pub windows: [f64; 8193],
}
