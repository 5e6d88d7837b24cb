//! Saving a file on disk: whole or not at all, where it can be replaced.
ghost use Rattle.std.specs.Prelude.{◌≡◌, ◌≢◌, IsOkUnless, OnOk, IfSome};
ghost use Rattle.std.specs.Io.KnownBytes.{Appends};
ghost use Rattle.std.specs.IoError.{error_kind};

use crate::replacing::{Kept, Replaced, replace, writable};
use crate::save_call::SaveCall;
use crate::save_target::{SaveTarget, save_target};
use crate::watched_writer::WatchedWriter;
use crate::writing::write_pieces;
use crate::{Giver, SaveFault};
use std::io::{ErrorKind, Read, Seek, Write};
use std::rt::Clock;
use std::{fs, io, rt};

/// The answer of a save where nothing was changed yet, by the runtime's error.
fn fault_before(error: &io::Error) -> SaveFault
    ensures memory { error_kind error.now ≡ ErrorKind.OutOfMemory → result ≡ SaveFault.Memory }
    ensures other { error_kind error.now ≢ ErrorKind.OutOfMemory → result ≡ SaveFault.Failed }
{
    if error.kind() == ErrorKind::OutOfMemory {
        SaveFault::Memory
    } else {
        SaveFault::Failed
    }
}

/// The answer of a save that wrote where the file stands. What the file holds after an error is open, so that want of memory is a failure
/// too.
fn after_opening(outcome: io::Result<()>) -> Result<(), SaveFault>
    ensures { IsOkUnless result SaveFault.Failed }
{
    match outcome {
        Ok(()) => Ok(()),
        Err(_) => Err(SaveFault::Failed),
    }
}

/// The file, opened to be written anew where it stands. A refusal for want of memory leaves it as before.
fn open_anew<'a, R: rt::Files + Clock + Eprint>(
    save: &SaveCall<'a, R>,
) -> Result<WatchedWriter<'a, R::File, R>, SaveFault> {
    match fs::create(save.rt, save.name) {
        Ok(file) => Ok(save.watch(file)),
        Err(e) => Err(fault_before(&e)),
    }
}

/// Writes what is given where the file stands.
fn write_anew<R: rt::Files + Clock + Eprint, G: Giver>(
    save: &SaveCall<'_, R>,
    from: &mut G,
) -> Result<(), SaveFault> {
    let mut file = open_anew(save)?;
    let outcome = write_pieces(from, &mut file);
    file.end();
    after_opening(outcome)
}

/// Writes what another file has yet.
fn copy_rest<F: Read, W: Write>(from: &mut F, to: &mut W) -> io::Result<()>
    ensures { OnOk result (IfSome (F.remaining from.old) (Appends (W.contents to.old) (W.contents to.new))) }
{
    io::copy(from, to)?;
    Ok(())
}

/// Writes all of another file, which is open, where the file stands.
fn copy_anew<R: rt::Files + Clock + Eprint>(
    save: &SaveCall<'_, R>,
    mut from: R::File,
) -> Result<(), SaveFault> {
    match from.rewind() {
        Ok(()) => {}
        Err(e) => return Err(fault_before(&e)),
    }
    let mut file = open_anew(save)?;
    let outcome = copy_rest(&mut from, &mut file);
    file.end();
    after_opening(outcome)
}

/// Replaces what is saved under. Where that cannot be, the file is written where it stands.
fn save_to<R: rt::Files + Clock + Eprint, G: Giver>(
    save: &SaveCall<'_, R>,
    target: &SaveTarget,
    from: &mut G,
) -> Result<(), SaveFault> {
    let replaced = match target {
        SaveTarget::Missing(path) => replace(save, path, None, from),
        SaveTarget::Plain(path) => match writable(save.rt, path) {
            Ok(old) => replace(save, path, Some(old), from),
            Err(e) => return Err(fault_before(&e)),
        },
        SaveTarget::Other => Err(Kept::Irreplaceable),
    };
    match replaced {
        Ok(Replaced::Done) => Ok(()),
        Ok(Replaced::Unplaced(file)) => copy_anew(save, file),
        Err(Kept::Irreplaceable) => write_anew(save, from),
        Err(Kept::Failed) => Err(SaveFault::Failed),
        Err(Kept::Memory) => Err(SaveFault::Memory),
    }
}

/// Makes the name hold the bytes that are given.
pub fn save_file<R: rt::Files + Clock + Eprint, G: Giver>(
    save: &SaveCall<'_, R>,
    from: &mut G,
) -> Result<(), SaveFault> {
    match save_target(save.rt, save.alloc, save.name) {
        Ok(target) => save_to(save, &target, from),
        Err(_) => Err(SaveFault::Memory),
    }
}
