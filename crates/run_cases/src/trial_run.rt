//! One run of the program over files and a sink in memory.

use crate::contents::{Contents, hold};
use crate::line::Failure;
use std::alloc::{AllocError, Global};
use std::collections::BTreeMap;
use tmr_outside::{Files, MemFiles, MemSink, Sink};
use tmr_top::{Status, run};

/// What a run is given.
#[derive(Clone, Copy, Drop)]
pub struct Given<'a> {
    pub words: &'a [String],
    pub files: &'a Contents,
    pub calls: &'a [Failure],
    pub puts: &'a [Failure],
}

/// What was seen of a run: how it ended, what it printed and what the files hold then, and how many calls it made on the
/// files and on the sink.
#[derive(Drop)]
pub struct Seen {
    pub status: Status,
    pub text: Vec<u8>,
    pub files: Contents,
    pub calls: u64,
    pub puts: u64,
}

/// So many calls are counted; more of them count as so many.
const COUNTED: u64 = 16;

/// The files of a run, of which some calls are to fail.
fn files_of(alloc: Global, given: &Given) -> Result<MemFiles, AllocError> {
    let mut files = MemFiles::new(alloc);
    for (name, bytes) in given.files.iter() {
        files.hold(name, bytes)?;
    }
    for failure in given.calls {
        files.fail_at(failure.call, failure.keep)?;
    }
    Ok(files)
}

/// A sink of which some puts are to fail.
fn sink_of(alloc: Global, puts: &[Failure]) -> Result<MemSink, AllocError> {
    let mut sink = MemSink::new(alloc);
    for failure in puts {
        sink.fail_at(failure.call, failure.keep)?;
    }
    Ok(sink)
}

/// Notes what a name holds, if it is there.
fn note(
    alloc: Global,
    held: &mut Contents,
    files: &MemFiles,
    name: &str,
) -> Result<(), AllocError> {
    match files.held(name) {
        Some(bytes) => hold(held, alloc, name, bytes),
        None => Ok(()),
    }
}

/// What the given names and the words hold. No other name can be there.
fn held_after(alloc: Global, given: &Given, files: &MemFiles) -> Result<Contents, AllocError> {
    let mut held = BTreeMap::new(alloc);
    for name in given.files.keys() {
        note(alloc, &mut held, files, name)?;
    }
    for word in given.words {
        note(alloc, &mut held, files, word)?;
    }
    Ok(held)
}

/// How many calls were made on the files. All calls up to a number are now to fail, and each further one that fails was not
/// made before.
fn calls_made(alloc: Global, files: &mut MemFiles) -> Result<u64, AllocError> {
    files.hold("", b"")?;
    for call in 0..COUNTED {
        files.fail_at(call, 0)?;
    }
    for left in 0..COUNTED {
        if files.load(alloc, "", 0).is_ok() {
            return Ok(COUNTED - left);
        }
    }
    Ok(0)
}

/// How many puts were made, in the same way.
fn puts_made(sink: &mut MemSink) -> Result<u64, AllocError> {
    for put in 0..COUNTED {
        sink.fail_at(put, 0)?;
    }
    for left in 0..COUNTED {
        if sink.put(b"").is_ok() {
            return Ok(COUNTED - left);
        }
    }
    Ok(0)
}

/// Runs the program over any files and sink, and hands on nothing of what it promises. It names neither, so that no caller pays for clauses that
/// nobody needs there.
fn run_over<F: Files, S: Sink>(
    alloc: Global,
    words: &[String],
    files: &mut F,
    sink: &mut S,
) -> Status {
    run(alloc, words, files, sink)
}

/// One run.
pub fn run_once(alloc: Global, given: &Given) -> Result<Seen, AllocError> {
    let mut files = files_of(alloc, given)?;
    let mut sink = sink_of(alloc, given.puts)?;
    let status = run_over(alloc, given.words, &mut files, &mut sink);
    let text = sink.written().to_vec(alloc)?;
    let held = held_after(alloc, given, &files)?;
    let calls = calls_made(alloc, &mut files)?;
    let puts = puts_made(&mut sink)?;
    Ok(Seen {
        status,
        text,
        files: held,
        calls,
        puts,
    })
}
