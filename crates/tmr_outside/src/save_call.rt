//! A save on disk, as it is asked for.
ghost use Rattle.std.specs.Prelude.{◌≡◌};

use crate::progress::Progress;
use crate::watched_writer::WatchedWriter;
use std::alloc::Global;
use std::rt;
use std::rt::Clock;

/// What is asked of a save on disk, besides what it saves.
#[derive(Drop)]
pub struct SaveCall<'a, R: rt::Files + Clock + Eprint> {
    pub rt: &'a R,
    pub alloc: Global,
    pub name: &'a str,
    /// It is told of where it takes long.
    pub tells: bool,
}

impl<'a, R: rt::Files + Clock + Eprint> SaveCall<'a, R> {
    /// The open file, into which nothing is saved yet.
    pub fn watch(&self, file: R::File) -> WatchedWriter<'a, R::File, R>
        ensures { result.to ≡ file }
    {
        let progress = if self.tells {
            Progress::of_save(self.rt, self.name)
        } else {
            Progress::silent(self.rt, "saving", self.name)
        };
        WatchedWriter::new(file, progress)
    }
}
