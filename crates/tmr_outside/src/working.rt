//! That a run is at work between its loads and saves, told while that lasts.
//!
//! Once a run has lasted for a moment, each of its loads and saves leaves a line on standard error behind it. The next load or save rewrites
//! the line, and it is wiped away before the run's text is put. What is told changes nothing of what a run does.

use std::rt::Clock;
use std::time::Instant;

/// So many milliseconds a run lasts before it is told that it works.
const MOMENT: u128 = 100;

/// Tells that a run is at work.
#[derive(Drop)]
pub struct Working<'a, R: Clock + Eprint> {
    to: &'a R,
    /// When the run began; None where nothing is to be told.
    begun: Option<Instant>,
}

impl<'a, R: Clock + Eprint> Working<'a, R> {
    /// Of a run that begins now.
    pub fn of_run(to: &'a R) -> Self {
        Working {
            to,
            begun: Instant::now(to).ok(),
        }
    }

    /// Nothing will be told.
    pub fn silent(to: &'a R) -> Self {
        Working { to, begun: None }
    }

    /// The run has lasted for a moment, and that is to be told.
    fn is_told(&self) -> bool {
        match self.begun {
            Some(begun) => match begun.elapsed(self.to) {
                Ok(lasted) => lasted.as_millis() >= MOMENT,
                Err(_) => false,
            },
            None => false,
        }
    }

    /// Tells that the run is at work.
    pub fn tell(&self) {
        if self.is_told() {
            let _ = eprint!(self.to; "\rworking\x1b[K");
        }
    }

    /// Wipes away what was told.
    pub fn wipe(&self) {
        if self.is_told() {
            let _ = eprint!(self.to; "\r\x1b[K");
        }
    }
}
