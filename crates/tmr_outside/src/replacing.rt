//! Replacing a file on disk: what is saved is written beside it under a name of its own, synced, and then takes its place.
ghost use Rattle.std.specs.Prelude.{◌≡◌, ◌≢◌, IfOk, OnOk, string_bytes};
ghost use Rattle.std.specs.Io.KnownBytes.{Appends};
ghost use Rattle.std.specs.IoError.{error_kind};
ghost use Rattle.std.specs.Path.{path_buf_bytes, path_with_file_name};
ghost use Rattle.tmr_outside.specs.Beside.{file_beside};

use crate::Giver;
use crate::save_call::SaveCall;
use crate::watched_writer::WatchedWriter;
use crate::writing::write_pieces;
use std::alloc::{AllocError, Global};
use std::fs::{Metadata, OpenFile, OpenOptions};
use std::io::{ErrorKind, Write};
use std::os::unix::fs::{MetadataExt, OpenOptionsExt};
use std::path::{Path, PathBuf};
use std::rt::Clock;
use std::{fs, io, rt};

/// The most names that are tried for the file beside.
const MOST_NAMES: u64 = 1_000;

/// What a file is where the new one was filled. Nothing new stands beside it.
#[derive(Drop)]
pub enum Replaced<F: Drop> {
    /// It is the new one.
    Done,
    /// It is as before: the new one cannot take its place, but it may be that it can be written where it stands. This is the new one, with
    /// all that was given. It has no name any more.
    Unplaced(F),
}

/// Why a file is not replaced. It is as before, and nothing new stands beside it.
#[derive(Clone, Copy, PartialEq, Eq)]
pub enum Kept {
    /// The file cannot be replaced, but it may be that it can be written where it stands. Nothing was taken of what is given.
    Irreplaceable,
    /// A step failed.
    Failed,
    /// There was no room.
    Memory,
}

/// What the runtime's error says of a step. The kinds of the first line are those of a system that does not take the step, whatever is
/// written: the folder takes no new file or gives none away, the file is mounted, its owner stays another, or the name of the file
/// beside is too long.
fn why_kept(error: &io::Error) -> Kept
    ensures full { error_kind error.now ≡ ErrorKind.StorageFull → result ≡ Kept.Failed }
    ensures memory { error_kind error.now ≡ ErrorKind.OutOfMemory → result ≡ Kept.Memory }
{
    match error.kind() {
        ErrorKind::PermissionDenied
        | ErrorKind::ReadOnlyFilesystem
        | ErrorKind::ResourceBusy
        | ErrorKind::CrossesDevices
        | ErrorKind::InvalidFilename
        | ErrorKind::InvalidInput
        | ErrorKind::Unsupported => Kept::Irreplaceable,
        ErrorKind::OutOfMemory => Kept::Memory,
        _ => Kept::Failed,
    }
}

/// The name of a file beside: `.FILE.tmr-NUMBER`.
#[tactic(auto, unfolding(crate::specs::Beside::file_beside))]
fn text_beside(alloc: Global, file: &str, number: u64) -> Result<String, AllocError>
    ensures { IfOk result (λ text. string_bytes text ≡ file_beside file.now number) }
{
    format!(in alloc; ".{file}.tmr-{number}")
}

/// That name, in the folder of the file.
fn name_beside(
    alloc: Global,
    path: &PathBuf,
    file: &str,
    number: u64,
) -> Result<PathBuf, AllocError>
    ensures { IfOk result (λ name. path_buf_bytes name
        ≡ path_with_file_name (path_buf_bytes path.now) (file_beside file.now number)) }
{
    let text = text_beside(alloc, file, number)?;
    path.with_file_name(alloc, text.as_str())
}

/// A file that was made beside another, and its name.
#[derive(Drop)]
struct NewFile<'a, R: rt::Files + Clock + Eprint> {
    file: WatchedWriter<'a, R::File, R>,
    path: PathBuf,
}

/// Makes a new file beside, which only its owner may read yet where it is `private`.
fn make_beside<'a, R: rt::Files + Clock + Eprint>(
    save: &SaveCall<'a, R>,
    path: &PathBuf,
    is_private: bool,
) -> Result<NewFile<'a, R>, Kept> {
    let Some(file) = path.file_name() else {
        return Err(Kept::Irreplaceable);
    };
    let mode = if is_private { 0o600 } else { 0o666 };
    for number in 0..MOST_NAMES {
        let name = match name_beside(save.alloc, path, file, number) {
            Ok(name) => name,
            Err(_) => return Err(Kept::Memory),
        };
        match make_new(save.rt, name.as_path(), mode) {
            Ok(file) => {
                return Ok(NewFile {
                    file: save.watch(file),
                    path: name,
                });
            }
            Err(e) => {
                if e.kind() != ErrorKind::AlreadyExists {
                    return Err(why_kept(&e));
                }
            }
        }
    }
    Err(Kept::Irreplaceable)
}

/// Makes a file, if none has the name. It can be read too, for the case that it cannot take the place.
fn make_new<R: rt::Files>(rt: &R, name: Path<'_>, mode: u32) -> io::Result<R::File> {
    OpenOptions::new()
        .read(true)
        .write(true)
        .create_new(true)
        .mode(mode)
        .open(rt, name)
}

/// Gives the new file what the old one has besides its bytes: owner, group, and who may read and write.
fn liken<R: rt::Files + Clock + Eprint>(
    rt: &R,
    new: &NewFile<'_, R>,
    old: &Metadata,
) -> io::Result<()> {
    let made = new.file.to.metadata()?;
    if made.uid() != old.uid() || made.gid() != old.gid() {
        rt.lchown(new.path.as_str(), Some(old.uid()), Some(old.gid()))?;
    }
    new.file.to.set_permissions(old.permissions())
}

/// Writes what is given. A refusal is never one that the file cannot be replaced: what was taken is not given again.
fn fill<G: Giver, W: Write>(file: &mut W, from: &mut G) -> Result<(), Kept>
    ensures kinds { result ≢ Err Kept.Irreplaceable }
    ensures filled { OnOk result (Appends (W.contents file.old) (W.contents file.new) (G.rest from.old)) }
{
    match write_pieces(from, file) {
        Ok(()) => Ok(()),
        Err(e) => {
            if e.kind() == ErrorKind::OutOfMemory {
                Err(Kept::Memory)
            } else {
                Err(Kept::Failed)
            }
        }
    }
}

/// Lets the new file, which is filled, take its place.
fn place<R: rt::Files + Clock + Eprint>(
    rt: &R,
    new: &NewFile<'_, R>,
    path: &PathBuf,
) -> io::Result<()> {
    new.file.to.sync_all()?;
    rt.rename(new.path.as_str(), path.as_str())
}

/// Fills the new file, and lets it take its place. The answer is whether it did, where it was filled.
fn put_in_place<R: rt::Files + Clock + Eprint, G: Giver>(
    rt: &R,
    new: &mut NewFile<'_, R>,
    old: Option<Metadata>,
    path: &PathBuf,
    from: &mut G,
) -> Result<bool, Kept> {
    if let Some(old) = old {
        match liken(rt, new, &old) {
            Ok(()) => {}
            Err(e) => return Err(why_kept(&e)),
        }
    }
    fill(&mut new.file, from)?;
    match place(rt, new, path) {
        Ok(()) => Ok(true),
        Err(e) => match why_kept(&e) {
            Kept::Irreplaceable => Ok(false),
            kept => Err(kept),
        },
    }
}

/// Makes a file of this name hold what is given: it is replaced whole. `old` is what is known of the file that has the name, if one has it.
pub fn replace<R: rt::Files + Clock + Eprint, G: Giver>(
    save: &SaveCall<'_, R>,
    path: &PathBuf,
    old: Option<Metadata>,
    from: &mut G,
) -> Result<Replaced<R::File>, Kept> {
    let mut new = make_beside(save, path, old.is_some())?;
    let outcome = put_in_place(save.rt, &mut new, old, path, from);
    new.file.end();
    if outcome == Ok(true) {
        return Ok(Replaced::Done);
    }
    let _ = fs::remove_file(save.rt, new.path.as_path());
    match outcome {
        Ok(_) => Ok(Replaced::Unplaced(new.file.to)),
        Err(kept) => Err(kept),
    }
}

/// What is known of a plain file that may be written. It is not changed.
pub fn writable<R: rt::Files>(rt: &R, path: &PathBuf) -> io::Result<Metadata> {
    let file = OpenOptions::new().write(true).open(rt, path.as_path())?;
    file.metadata()
}
