//! What a file is read from, with a count of the reads that failed.
ghost use Rattle.std.specs.Prelude.{◌≡◌, ◌≢◌, ◌<◌, ◌≤◌, ◌+◌, ◌-◌, ◌^◌, min, ℕ, List, Option, length, take, true, IfOk, OnOk, OnErr, IsErrOf};
ghost use Rattle.std.specs.Io.{ReadsAtMost};
ghost use Rattle.std.specs.Io.KnownBytes.{Keeps, Consumes, IsAtEnd};
ghost use Rattle.std.specs.IoError.{error_kind};
ghost use Rattle.tmr_outside.specs.Counts.{Rose};
ghost use Rattle.tmr_outside.specs.Reading.{TellsFailures};

use crate::LoadFault;
use crate::fault_count::FaultCount;
use std::io;
use std::io::{ErrorKind, Read};

/// Gives bytes, and counts its reads that failed.
pub trait Source {
    /// The bytes that reads will give from here on, where they are known.
    ghost unread: { Self → Option (List ℕ) };

    /// How often a read failed for another cause than want of memory.
    ghost failed: { Self → ℕ };

    /// How often a read failed for want of memory.
    ghost starved: { Self → ℕ };

    /// The last read that went through might have given a byte, and gave none.
    ghost ended: { Self → Type 0 };

    /// One read into the buffer.
    fn read_some(&mut self, buffer: &mut [u8]) -> Result<usize, LoadFault>
        ensures bound { ReadsAtMost result buffer.new }
        ensures ok { IfOk result (λ count. Consumes (unread self.old) (unread self.new) (take count buffer.new)) }
        ensures end { IfOk result (λ count. count ≡ 0 → 0 < length buffer.old → IsAtEnd (unread self.new)) }
        ensures ended { IfOk result (λ count. count ≡ 0 → 0 < length buffer.old → ended self.new) }
        ensures err { OnErr result (Keeps (unread self.old) (unread self.new)) }
        ensures kinds { result ≢ Err LoadFault.TooLong }
        ensures failures { TellsFailures result (failed self.old) (failed self.new) (starved self.old) (starved self.new) };
}

/// A reader of the runtime's, with the counts of its reads that failed.
#[derive(Drop)]
pub struct Counted<F: Read + Drop> {
    file: F,
    failed: FaultCount,
    starved: FaultCount,
    has_ended: bool,
}

impl<F: Read + Drop> Counted<F> {
    /// No read has failed, and none has come to the end.
    pub fn new(file: F) -> Counted<F> {
        Counted {
            file,
            failed: FaultCount::new(),
            starved: FaultCount::new(),
            has_ended: false,
        }
    }
}

/// Counts a read that failed, and tells how: this is done only with what the runtime answered.
fn count_failure(failed: &mut FaultCount, starved: &mut FaultCount, error: &io::Error) -> LoadFault
    ensures memory { error_kind error.now ≡ ErrorKind.OutOfMemory → result ≡ LoadFault.Memory }
    ensures other { error_kind error.now ≢ ErrorKind.OutOfMemory → result ≡ LoadFault.Failed }
    ensures kinds { result ≢ LoadFault.TooLong }
    ensures failed { result ≡ LoadFault.Failed → Rose failed.old failed.new }
    ensures starved { result ≡ LoadFault.Memory → Rose starved.old starved.new }
{
    let fault = load_fault(error);
    match fault {
        LoadFault::Memory => starved.raise(),
        LoadFault::Failed | LoadFault::TooLong => failed.raise(),
    }
    fault
}

/// Why a load gives nothing where the runtime answers this error.
pub fn load_fault(error: &io::Error) -> LoadFault
    ensures memory { error_kind error.now ≡ ErrorKind.OutOfMemory → result ≡ LoadFault.Memory }
    ensures other { error_kind error.now ≢ ErrorKind.OutOfMemory → result ≡ LoadFault.Failed }
    ensures kinds { result ≢ LoadFault.TooLong }
{
    if error.kind() == ErrorKind::OutOfMemory {
        LoadFault::Memory
    } else {
        LoadFault::Failed
    }
}

impl<F: Read + Drop> Source for Counted<F> {
    ghost use Rattle.std.specs.Prelude.{◌≡◌, true};

    ghost unread = { λ source. F.remaining source.file };

    ghost failed = { λ source. source.failed };

    ghost starved = { λ source. source.starved };

    ghost ended = { λ source. source.has_ended ≡ true };

    /// A read that a signal interrupts is tried again. One that is interrupted as often as can be counted has failed.
    #[tactic(auto, using(crate::proofs::ReadingLemmas::reading_rules))]
    fn read_some(&mut self, buffer: &mut [u8]) -> Result<usize, LoadFault> {
        for _ in 0..u64::MAX {
            match self.file.read(buffer) {
                Ok(count) => {
                    self.has_ended = count == 0;
                    return Ok(count);
                }
                Err(e) => {
                    if e.kind() != ErrorKind::Interrupted {
                        return Err(count_failure(&mut self.failed, &mut self.starved, &e));
                    }
                }
            }
        }
        self.failed.raise();
        Err(LoadFault::Failed)
    }
}
