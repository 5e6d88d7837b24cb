//! Texts of netlists, whole and in pieces.

ghost use Rattle.std.specs.Prelude.{◌≤◌, length};

use crate::keeping::Texts;
use crate::libraries::library_text;
use crate::stop::{Stop, bad_case};
use blif_text::{Library, Reader, TextFault, read_library};
use std::alloc::{AllocError, Global};

/// The line and the kind of a refusal.
fn text_fault(alloc: Global, fault: TextFault) -> Result<String, AllocError> {
    match fault {
        TextFault::Bad { line, kind } => format!(in alloc; "line {line} {kind:?}"),
        TextFault::Memory => String::from_str(alloc, "want of memory"),
    }
}

/// The library of a text.
fn read_whole(alloc: Global, bytes: &[u8]) -> Result<Library, TextFault> {
    if bytes.len() > 1_073_741_824 {
        return Err(TextFault::Memory);
    }
    read_library(alloc, bytes)
}

/// The library of a text, which ends the case where there is none.
pub fn library_of(alloc: Global, bytes: &[u8]) -> Result<Library, Stop> {
    match read_whole(alloc, bytes) {
        Ok(library) => Ok(library),
        Err(fault) => Err(Stop::Answered(text_fault(alloc, fault)?)),
    }
}

/// What reading answers.
fn told(alloc: Global, read: Result<Library, TextFault>) -> Result<String, AllocError> {
    match read {
        Ok(library) => library_text(alloc, &library),
        Err(fault) => text_fault(alloc, fault),
    }
}

/// A reader that was given nothing.
fn new_reader(alloc: Global) -> Result<Reader, Stop> {
    Ok(Reader::new(alloc)?)
}

/// Feeds a piece, where there is room for it.
fn feed(reader: &mut Reader, piece: &[u8]) -> Result<(), TextFault> {
    if piece.len() > reader.room() as usize {
        return Err(TextFault::Memory);
    }
    reader.feed(piece)
}

/// What the end of a text answers.
fn finished(reader: Reader) -> Result<Library, TextFault> {
    reader.finish()
}

/// Feeds each byte. After a fault each feed and the end answer the same fault.
fn feed_bytes(reader: &mut Reader, bytes: &[u8]) {
    for b in bytes {
        let _fed = feed(reader, &[*b]);
    }
}

/// What reading byte by byte answers.
fn told_by_bytes(alloc: Global, bytes: &[u8]) -> Result<String, Stop> {
    let mut reader = new_reader(alloc)?;
    feed_bytes(&mut reader, bytes);
    Ok(told(alloc, finished(reader))?)
}

/// What reading two pieces answers.
fn told_in_two(alloc: Global, first: &[u8], second: &[u8]) -> Result<String, Stop> {
    let mut reader = new_reader(alloc)?;
    let _first = feed(&mut reader, first);
    let _second = feed(&mut reader, second);
    Ok(told(alloc, finished(reader))?)
}

/// What reading answers, and reading byte by byte where that answers otherwise.
fn read_text(alloc: Global, bytes: &[u8]) -> Result<String, Stop> {
    let mut whole = told(alloc, read_whole(alloc, bytes))?;
    let by_bytes = told_by_bytes(alloc, bytes)?;
    if whole.as_str() != by_bytes.as_str() {
        whole.push_str("|by bytes: ")?;
        whole.push_str(by_bytes.as_str())?;
    }
    Ok(whole)
}

/// What reading answers in two pieces that are cut there, if that is something else.
fn other_at(alloc: Global, bytes: &[u8], k: usize, whole: &str) -> Result<Option<String>, Stop>
    requires { k ≤ length bytes.now }
{
    let answer = told_in_two(alloc, &bytes[..k], &bytes[k..])?;
    if answer.as_str() == whole {
        return Ok(None);
    }
    Ok(Some(answer))
}

/// What reading answers, and what the first cut into two pieces answers otherwise.
fn cuts_text(alloc: Global, bytes: &[u8]) -> Result<String, Stop> {
    let mut whole = told(alloc, read_whole(alloc, bytes))?;
    for k in 0..bytes.len() {
        if let Some(other) = other_at(alloc, bytes, k, whole.as_str())? {
            write!(whole, "|cut at {k}: ")?;
            whole.push_str(other.as_str())?;
            return Ok(whole);
        }
    }
    Ok(whole)
}

/// The bytes of each piece of `TEXT + TEXT ..`.
fn pieces_of(alloc: Global, texts: &Texts, rest: &str) -> Result<Vec<Vec<u8>>, Stop> {
    let mut pieces = Vec::new(alloc);
    for piece in rest.split(" + ") {
        let bytes = texts.bytes_of(piece)?;
        pieces.push(bytes)?;
    }
    Ok(pieces)
}

/// Feeds each piece, and keeps what the reader answers to it.
fn feed_pieces(reader: &mut Reader, pieces: &[Vec<u8>], answers: &mut [Result<(), TextFault>]) {
    for i in 0..pieces.len() {
        if i < answers.len() {
            answers[i] = feed(reader, pieces[i].as_slice());
        }
    }
}

/// What feeding answered.
fn fed_text(alloc: Global, fed: Result<(), TextFault>) -> Result<String, AllocError> {
    if let Err(fault) = fed {
        return text_fault(alloc, fault);
    }
    String::from_str(alloc, "ok")
}

/// What a reader answers to each piece.
fn answers_text(alloc: Global, answers: &[Result<(), TextFault>]) -> Result<String, AllocError> {
    let mut text = String::new(alloc);
    for answer in answers {
        text.push_str(fed_text(alloc, *answer)?.as_str())?;
        text.push_str(", ")?;
    }
    Ok(text)
}

/// What each piece answers, the room that is left, and what the end answers.
fn pieces_text(alloc: Global, pieces: &[Vec<u8>]) -> Result<String, Stop> {
    let mut answers: Vec<Result<(), TextFault>> = vec![in alloc; Ok(()); pieces.len()]?;
    let mut reader = new_reader(alloc)?;
    feed_pieces(&mut reader, pieces, answers.as_mut_slice());
    let room = reader.room();
    let end = told(alloc, finished(reader))?;
    let mut text = answers_text(alloc, answers.as_slice())?;
    write!(text, "room {room}, {end}")?;
    Ok(text)
}

/// `TEXT + TEXT ..`.
fn feed_text(alloc: Global, texts: &Texts, rest: &str) -> Result<String, Stop> {
    let pieces = pieces_of(alloc, texts, rest)?;
    pieces_text(alloc, pieces.as_slice())
}

/// `read TEXT`, `cuts TEXT` and `feed TEXT + TEXT ..`.
pub fn answer(alloc: Global, texts: &Texts, verb: &str, rest: &str) -> Result<String, Stop> {
    match verb {
        "read" => read_text(alloc, texts.bytes_of(rest)?.as_slice()),
        "cuts" => cuts_text(alloc, texts.bytes_of(rest)?.as_slice()),
        "feed" => feed_text(alloc, texts, rest),
        _ => Err(bad_case(alloc)),
    }
}
