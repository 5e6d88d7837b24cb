//! The standard output.
ghost use Rattle.std.specs.Prelude.{◌≡◌};

use crate::fault_count::FaultCount;
use crate::{PutFault, Sink};
use std::io::ErrorKind;
use std::marker::Model;

/// The standard output, as the runtime has it. It tells nothing of what went out, and is never steady.
/// Each refusal raises its count, as which it is seen.
#[derive(Drop)]
pub struct StdSink<'a, P: Print> {
    to: &'a P,
    faults: FaultCount,
}

impl<'a, P: Print> Model for StdSink<'a, P> {
    ghost use Rattle.std.specs.Prelude.{ℕ};

    ghost Value = { ℕ };

    ghost view = { λ sink. sink.faults };
}

impl<'a, P: Print> StdSink<'a, P> {
    /// The standard output of this runtime, without faults.
    pub fn new(to: &'a P) -> Self
        ensures { result ≡ 0 }
    {
        StdSink {
            to,
            faults: FaultCount::new(),
        }
    }
}

/// Writes all the bytes. A refusal for want of memory comes only where nothing went out.
fn write_all(to: &impl Print, bytes: &[u8]) -> Result<(), PutFault> {
    let count = match to.write_some(bytes) {
        Ok(count) => count,
        Err(e) => {
            return match e.kind() {
                ErrorKind::OutOfMemory => Err(PutFault::Memory),
                ErrorKind::Interrupted => write_rest(to, bytes),
                _ => Err(PutFault::Failed),
            };
        }
    };
    write_rest(to, &bytes[count..])
}

/// Writes the bytes that are left.
fn write_rest(to: &impl Print, bytes: &[u8]) -> Result<(), PutFault> {
    match to.write_all(bytes) {
        Ok(()) => Ok(()),
        Err(_) => Err(PutFault::Failed),
    }
}

impl<P: Print> Sink for StdSink<'_, P> {
    ghost use Rattle.std.specs.Prelude.{None};

    ghost seen = { λ count. record { written = None; put_count = count } };

    ghost steady = { λ sink. ⊥ };

    fn put(&mut self, bytes: &[u8]) -> Result<(), PutFault> {
        let outcome = write_all(self.to, bytes);
        self.faults.raise_if(outcome.is_err());
        outcome
    }
}
