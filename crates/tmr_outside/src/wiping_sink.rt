//! A sink before which it is wiped away that a run is at work.
ghost use Rattle.std.specs.Prelude.{◌≡◌};

use crate::working::Working;
use crate::{PutFault, Sink};
use std::rt::Clock;

/// A sink, and what tells that the run whose text it takes is at work. It does what the sink does.
#[derive(Drop)]
pub struct WipingSink<'a, S: Sink + Drop, R: Clock + Eprint> {
    sink: S,
    working: Working<'a, R>,
}

impl<'a, S: Sink + Drop, R: Clock + Eprint> WipingSink<'a, S, R> {
    /// The sink of a run that begins now, and that is told of on standard error.
    pub fn telling(sink: S, rt: &'a R) -> Self
        ensures { result.sink ≡ sink }
    {
        WipingSink {
            sink,
            working: Working::of_run(rt),
        }
    }

    /// The sink of a run that is not told of.
    pub fn silent(sink: S, rt: &'a R) -> Self
        ensures { result.sink ≡ sink }
    {
        WipingSink {
            sink,
            working: Working::silent(rt),
        }
    }
}

impl<S: Sink + Drop, R: Clock + Eprint> Sink for WipingSink<'_, S, R> {
    ghost use Rattle.std.specs.Prelude.{};

    ghost seen = { λ wiping. S.seen wiping.sink };

    ghost steady = { λ wiping. S.steady wiping.sink };

    fn put(&mut self, bytes: &[u8]) -> Result<(), PutFault> {
        self.working.wipe();
        self.sink.put(bytes)
    }
}
