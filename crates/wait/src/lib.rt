// Waiting without being busy.
#![tactic(auto)]

use std::rt::Clock;
use std::thread;
use std::time::Duration;

// Waits a moment, a thousandth of a second.
pub fn pause(clock: &impl Clock) {
    thread::sleep(clock, Duration::from_millis(1));
}
