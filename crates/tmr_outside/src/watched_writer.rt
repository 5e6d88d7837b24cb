//! A writer whose writes are told of.
ghost use Rattle.std.specs.Prelude.{◌≡◌};
ghost use Rattle.std.specs.Io.{WritesAtMost};
ghost use Rattle.std.specs.Io.KnownBytes.{WriteAppends};

use crate::pieces::front;
use crate::progress::Progress;
use std::io;
use std::io::Write;
use std::rt::Clock;

/// The most bytes that are written at once, so that a long piece is told of while it is written.
const LONGEST_WRITE: u64 = 1 << 20;

/// A writer, and how far the save into it has come. What it takes goes to the writer.
#[derive(Drop)]
pub struct WatchedWriter<'a, W: Write + Drop, R: Clock + Eprint> {
    pub to: W,
    progress: Progress<'a, R>,
}

impl<'a, W: Write + Drop, R: Clock + Eprint> WatchedWriter<'a, W, R> {
    /// The writer, into which nothing is saved yet.
    pub fn new(to: W, progress: Progress<'a, R>) -> Self
        ensures { result.to ≡ to }
    {
        WatchedWriter { to, progress }
    }

    /// The save has ended.
    pub fn end(&mut self)
        ensures { self.new.to ≡ self.old.to }
    {
        self.progress.end();
    }
}

/// One write, of at most `LONGEST_WRITE` bytes.
fn write_front<W: Write>(to: &mut W, bytes: &[u8]) -> io::Result<usize>
    ensures bound { WritesAtMost result bytes.now }
    ensures bytes { WriteAppends (W.contents to.old) (W.contents to.new) result bytes.now }
{
    to.write(front(bytes, LONGEST_WRITE))
}

impl<W: Write + Drop, R: Clock + Eprint> Write for WatchedWriter<'_, W, R> {
    ghost use Rattle.std.specs.Prelude.{};

    ghost contents = { λ watched. W.contents watched.to };

    fn write(&mut self, bytes: &[u8]) -> io::Result<usize> {
        let outcome = write_front(&mut self.to, bytes);
        if let Ok(count) = &outcome {
            self.progress.advance(*count as u64);
        }
        outcome
    }

    fn flush(&mut self) -> io::Result<()> {
        self.to.flush()
    }
}
