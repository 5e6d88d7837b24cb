//! Where a save on disk goes.

use std::alloc::{AllocError, Global};
use std::io::ErrorKind;
use std::path::{Path, PathBuf};
use std::rt;

/// The most links that are followed.
const MOST_LINKS: u64 = 40;

/// What a file is saved under, as it stands before.
#[derive(Drop)]
pub enum SaveTarget {
    /// No file has this name yet.
    Missing(PathBuf),
    /// A plain file has this name.
    Plain(PathBuf),
    /// Something else has the name, or it cannot be told what.
    Other,
}

/// What has a name, where links are not followed.
#[derive(Drop)]
enum Standing {
    Missing,
    Plain,
    Link,
    Other,
}

fn what_stands<R: rt::Files>(rt: &R, name: Path<'_>) -> Standing {
    match name.symlink_metadata(rt) {
        Ok(found) => {
            if found.is_symlink() {
                Standing::Link
            } else if found.is_file() {
                Standing::Plain
            } else {
                Standing::Other
            }
        }
        Err(e) => {
            if e.kind() == ErrorKind::NotFound {
                Standing::Missing
            } else {
                Standing::Other
            }
        }
    }
}

/// The link stands for a file that this or another process has open. The file that it leads to may not be replaced: what has it open
/// would keep the old one.
fn is_open_file(link: &str) -> bool {
    link.starts_with("/proc/") || link.starts_with("/dev/fd/")
}

/// Where a link leads, if that can be told.
fn led_to<R: rt::Files>(
    rt: &R,
    alloc: Global,
    link: &PathBuf,
) -> Result<Option<PathBuf>, AllocError> {
    if is_open_file(link.as_str()) {
        return Ok(None);
    }
    match rt.read_link(alloc, link.as_str()) {
        Ok(text) => Ok(Some(link.with_file_name(alloc, text.as_str())?)),
        Err(e) => {
            if e.kind() == ErrorKind::OutOfMemory {
                Err(AllocError)
            } else {
                Ok(None)
            }
        }
    }
}

/// Where a save under this name goes: links are followed to their end, as the system follows them.
pub fn save_target<R: rt::Files>(
    rt: &R,
    alloc: Global,
    name: &str,
) -> Result<SaveTarget, AllocError> {
    let mut path = PathBuf::from_str(alloc, name)?;
    for _ in 0..MOST_LINKS {
        match what_stands(rt, path.as_path()) {
            Standing::Missing => return Ok(SaveTarget::Missing(path)),
            Standing::Plain => return Ok(SaveTarget::Plain(path)),
            Standing::Other => return Ok(SaveTarget::Other),
            Standing::Link => match led_to(rt, alloc, &path)? {
                Some(next) => path = next,
                None => return Ok(SaveTarget::Other),
            },
        }
    }
    Ok(SaveTarget::Other)
}
