//! What the lines speak of.
use crate::fakes::{CutText, part_of_a_put, read_in_the_middle};
use crate::real::{full_pieces, real_file, real_pieces};
use std::alloc::{AllocError, Global};
use std::{rt, str};
use tmr_base::read_u64;
use tmr_outside::{Files, LoadFault, MemFiles, MemSink, PutFault, SaveFault, Sink};

/// Files and a sink, both in memory.
#[derive(Drop)]
pub struct Room {
    files: MemFiles,
    sink: MemSink,
}

impl Room {
    /// No file, and nothing put.
    pub fn new(alloc: Global) -> Room {
        Room {
            files: MemFiles::new(alloc),
            sink: MemSink::new(alloc),
        }
    }
}

/// Word i of a line, or no bytes.
pub fn word(line: &str, i: usize) -> &str {
    line.split(' ').nth(i).unwrap_or("")
}

/// The number that word i is, or 0.
pub fn number(line: &str, i: usize) -> u64 {
    read_u64(word(line, i).as_bytes()).unwrap_or(0)
}

/// The text that word 2 is, cut into pieces of as many bytes as word 3 says. There is room for as many pieces as word 4 says, if it says it.
fn cut_text(line: &str) -> CutText<'_> {
    CutText::new(
        word(line, 2),
        number(line, 3),
        read_u64(word(line, 4).as_bytes()),
    )
}

/// What a load answered where it gave nothing.
pub fn load_fault(fault: LoadFault) -> &'static str {
    match fault {
        LoadFault::Failed => "failed",
        LoadFault::TooLong => "too long",
        LoadFault::Memory => "memory",
    }
}

/// What a save answered.
pub fn save_answer(answer: Result<(), SaveFault>) -> &'static str {
    match answer {
        Ok(()) => "saved",
        Err(SaveFault::Failed) => "failed",
        Err(SaveFault::Memory) => "memory",
    }
}

/// What a put answered.
pub fn put_answer(answer: Result<(), PutFault>) -> &'static str {
    match answer {
        Ok(()) => "put",
        Err(PutFault::Failed) => "failed",
        Err(PutFault::Memory) => "memory",
    }
}

fn noted(answer: Result<(), AllocError>) -> &'static str {
    match answer {
        Ok(()) => "noted",
        Err(_) => "memory",
    }
}

/// Bytes as a text; of a long one its length alone.
pub fn shown(alloc: Global, bytes: &[u8]) -> Result<String, AllocError> {
    if bytes.len() > 100 {
        return format!(in alloc; "{} bytes", bytes.len());
    }
    match str::from_utf8(bytes) {
        Ok(text) => String::from_str(alloc, text),
        Err(_) => String::from_str(alloc, "no text"),
    }
}

fn held(alloc: Global, files: &MemFiles, name: &str) -> Result<String, AllocError> {
    match files.held(name) {
        Some(bytes) => shown(alloc, bytes),
        None => String::from_str(alloc, "nothing"),
    }
}

fn loaded(
    alloc: Global,
    files: &mut MemFiles,
    name: &str,
    limit: u64,
) -> Result<String, AllocError> {
    match files.load(alloc, name, limit) {
        Ok(bytes) => shown(alloc, bytes.as_slice()),
        Err(fault) => String::from_str(alloc, load_fault(fault)),
    }
}

/// Makes a name hold that many bytes.
fn hold_long(alloc: Global, files: &mut MemFiles, name: &str, count: u64) -> &'static str {
    match vec![in alloc; 7u8; count.min(1_000_000) as usize] {
        Ok(bytes) => noted(files.hold(name, bytes.as_slice())),
        Err(_) => "memory",
    }
}

/// What a call on the files answers with a word, if the line is one.
fn short_answer(room: &mut Room, line: &str) -> Option<&'static str> {
    let name = word(line, 1);
    match word(line, 0) {
        "hold" => Some(noted(room.files.hold(name, word(line, 2).as_bytes()))),
        "fail" => Some(noted(room.files.fail_at(number(line, 1), number(line, 2)))),
        "save" => Some(save_answer(room.files.save(name, word(line, 2).as_bytes()))),
        "give" => Some(save_answer(room.files.save_pieces(name, &mut cut_text(line)))),
        "put" => Some(put_answer(room.sink.put(name.as_bytes()))),
        "fail-put" => Some(noted(room.sink.fail_at(number(line, 1), number(line, 2)))),
        _ => None,
    }
}

/// What the call that a line is answers.
pub fn answer<R: rt::Files + rt::Clock + Eprint>(
    rt: &R,
    alloc: Global,
    room: &mut Room,
    line: &str,
) -> Result<String, AllocError> {
    if let Some(text) = short_answer(room, line) {
        return String::from_str(alloc, text);
    }
    let name = word(line, 1);
    match word(line, 0) {
        "held" => held(alloc, &room.files, name),
        "load" => loaded(alloc, &mut room.files, name, number(line, 2)),
        "written" => shown(alloc, room.sink.written()),
        "long" => String::from_str(
            alloc,
            hold_long(alloc, &mut room.files, name, number(line, 2)),
        ),
        "pieces" => full_pieces(alloc, &mut room.files, name, number(line, 2)),
        "read" => read_in_the_middle(alloc, number(line, 1), number(line, 2), word(line, 3)),
        "out" => part_of_a_put(alloc, name, word(line, 2)),
        "disk" => real_file(rt, alloc, name, number(line, 2), number(line, 3)),
        "disk-give" => real_pieces(rt, alloc, name, &mut cut_text(line)),
        _ => String::from_str(alloc, "no call"),
    }
}
