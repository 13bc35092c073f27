// Waiting.
#![tactic(auto)]

use std::thread;
use std::time::{Clock, Duration};

// Waits a hundredth of a second.
pub fn pause(clock: &impl Clock) {
    thread::sleep(clock, Duration::from_millis(10));
}
