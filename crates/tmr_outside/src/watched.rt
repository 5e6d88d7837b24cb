//! A source whose reads are told of.
ghost use Rattle.std.specs.Prelude.{◌≡◌};

use crate::progress::Progress;
use crate::{LoadFault, Source};
use std::rt::Clock;

/// A source, and how far the load of it has come. It gives what the source gives.
#[derive(Drop)]
pub struct Watched<'a, F: Source + Drop, R: Clock + Eprint> {
    source: F,
    progress: Progress<'a, R>,
}

impl<'a, F: Source + Drop, R: Clock + Eprint> Watched<'a, F, R> {
    /// The source, of which nothing is read yet.
    pub fn new(source: F, progress: Progress<'a, R>) -> Self
        ensures { result.source ≡ source }
    {
        Watched { source, progress }
    }

    /// No more is read.
    pub fn end(&mut self) {
        self.progress.end();
    }
}

impl<F: Source + Drop, R: Clock + Eprint> Source for Watched<'_, F, R> {
    ghost use Rattle.std.specs.Prelude.{};

    ghost unread = { λ watched. F.unread watched.source };

    ghost failed = { λ watched. F.failed watched.source };

    ghost starved = { λ watched. F.starved watched.source };

    ghost ended = { λ watched. F.ended watched.source };

    fn read_some(&mut self, buffer: &mut [u8]) -> Result<usize, LoadFault> {
        let outcome = self.source.read_some(buffer);
        if let Ok(count) = &outcome {
            self.progress.advance(*count as u64);
        }
        outcome
    }
}
