//! What is printed of a run.

use crate::contents::{Contents, bytes_held};
use crate::notation::{push_bytes, push_lines};
use crate::trial_run::Seen;
use std::alloc::AllocError;
use std::fmt::Write;

/// Appends the exit code of the status, its name, and how many calls and puts were made.
fn push_status(report: &mut String, seen: &Seen) -> Result<(), AllocError> {
    let code = seen.status.code();
    let Seen {
        status,
        calls,
        puts,
        ..
    } = seen;
    writeln!(report, "{code} {status:?}, calls {calls}, puts {puts}")
}

/// The name of a text that is these bytes.
fn name_of<'a>(texts: &'a Contents, bytes: &[u8]) -> Option<&'a str> {
    for (name, held) in texts.iter() {
        if held.as_slice() == bytes {
            return Some(name.as_str());
        }
    }
    None
}

/// Appends the name of the text that is these bytes, or else the bytes line by line.
fn push_contents(report: &mut String, texts: &Contents, bytes: &[u8]) -> Result<(), AllocError> {
    match name_of(texts, bytes) {
        Some(name) => writeln!(report, "= {name}"),
        None => push_lines(report, bytes),
    }
}

/// What is known before a run: the texts, and what the files hold.
#[derive(Clone, Copy, Drop)]
pub struct Before<'a> {
    pub texts: &'a Contents,
    pub files: &'a Contents,
}

/// Appends a file, unless it held the same before.
fn push_file(
    report: &mut String,
    before: &Before,
    name: &str,
    bytes: &[u8],
) -> Result<(), AllocError> {
    if before.files.contains_key(name) && bytes_held(before.files, name) == bytes {
        return Ok(());
    }
    report.push_str("file ")?;
    push_bytes(report, name.as_bytes())?;
    report.push('\n')?;
    push_contents(report, before.texts, bytes)
}

/// Appends what was seen of a run: the status, the calls, the text, and each file that is new or was changed.
pub fn push_seen(report: &mut String, before: &Before, seen: &Seen) -> Result<(), AllocError> {
    push_status(report, seen)?;
    push_contents(report, before.texts, &seen.text)?;
    for (name, bytes) in seen.files.iter() {
        push_file(report, before, name, bytes)?;
    }
    Ok(())
}
