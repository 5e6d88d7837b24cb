//! How far a load or a save has come, told while it lasts.
//!
//! What takes over a second is told on standard error, in one line that is rewritten and in the end wiped away. What is told changes
//! nothing of what is loaded or saved, and where standard error fails the work goes on untold. Names come from outside: a name that could
//! steer a terminal is left out.

use std::rt::Clock;
use std::time::Instant;

/// So many seconds a load or a save lasts before it is told of.
const PATIENCE: u64 = 1;

/// The longest name that is told, in bytes, so that the line stays one.
const LONGEST_NAME: usize = 48;

/// How far the load or the save of one file has come.
#[derive(Drop)]
pub struct Progress<'a, R: Clock + Eprint> {
    to: &'a R,
    /// What is done with the file.
    verb: &'static str,
    name: &'a str,
    /// How long the file is; 0 where that is not known, as of a pipe and of each save.
    length: u64,
    /// So many bytes are read or written.
    done: u64,
    /// When it began; None where nothing is to be told.
    begun: Option<Instant>,
    /// The number that was told last.
    told: Option<u64>,
}

/// What is told of a name: the name itself, or nothing where it is long or has another character than those of plain text.
fn shown(name: &str) -> &str {
    let is_plain = name.bytes().all(|byte| byte >= b' ' && byte < 127);
    if is_plain && name.len() <= LONGEST_NAME {
        name
    } else {
        "a file"
    }
}

/// How many per cent a part is of a whole, rounded down.
fn percent(part: u64, whole: u64) -> u64 {
    match (u128::from(part) * 100).checked_div(u128::from(whole)) {
        Some(percent) => percent.min(100) as u64,
        None => 0,
    }
}

impl<'a, R: Clock + Eprint> Progress<'a, R> {
    /// Nothing is read yet of a file of this length, 0 where that is not known.
    pub fn of_load(to: &'a R, name: &'a str, length: u64) -> Self {
        Progress {
            length,
            begun: Instant::now(to).ok(),
            ..Progress::silent(to, "reading", name)
        }
    }

    /// Nothing is saved yet. How much it will be is not known.
    pub fn of_save(to: &'a R, name: &'a str) -> Self {
        Progress {
            begun: Instant::now(to).ok(),
            ..Progress::silent(to, "saving", name)
        }
    }

    /// Nothing will be told.
    pub fn silent(to: &'a R, verb: &'static str, name: &'a str) -> Self {
        Progress {
            to,
            verb,
            name,
            length: 0,
            done: 0,
            begun: None,
            told: None,
        }
    }

    /// So many bytes more are read or written.
    pub fn advance(&mut self, count: u64) {
        self.done = self.done.saturating_add(count);
        if let Some(begun) = self.begun {
            if let Ok(lasted) = begun.elapsed(self.to) {
                if lasted.as_secs() >= PATIENCE {
                    self.tell();
                }
            }
        }
    }

    /// Tells how far it is, if that has another number than what was told last.
    fn tell(&mut self) {
        let (number, unit) = if self.length == 0 {
            (self.done / 1_000_000, "MB")
        } else {
            (percent(self.done, self.length), "%")
        };
        if self.told != Some(number) {
            self.told = Some(number);
            let verb = self.verb;
            let name = shown(self.name);
            let _ = eprint!(self.to; "\r{verb} {name} {number} {unit}\x1b[K");
        }
    }

    /// It has ended: what was told is wiped away.
    pub fn end(&mut self) {
        if self.told.is_some() {
            self.told = None;
            let _ = eprint!(self.to; "\r\x1b[K");
        }
    }
}
