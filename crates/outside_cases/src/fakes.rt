//! A reader, an output and a giver that fail in the middle, and a taker that only counts.
ghost use Rattle.std.specs.Prelude.{◌≡◌, ◌+◌, ◌<◌, ◌^◌, length};

use crate::room::{load_fault, put_answer};
use std::alloc::{AllocError, Global};
use std::cell::Cell;
use std::fmt::Display;
use std::io;
use std::io::{ErrorKind, Read};
use tmr_outside::{Counted, Giver, LONGEST_PIECE, Sink, StdSink, Taker, hand_out_within};

/// Counts the bytes that it takes, and the pieces that are as long as a piece may be, and keeps none of them.
#[derive(Drop)]
pub struct ByteCount {
    pub count: u64,
    pub room: u64,
    pub full: u64,
    ghost fits: { count + room < 2 ^ 64 },
}

impl Taker for ByteCount {
    ghost use Rattle.std.specs.Prelude.{◌≡◌, length};

    ghost stands = { λ taker given. length given ≡ taker.count };

    ghost room = { λ taker. taker.room };

    fn take(&mut self, piece: &[u8]) {
        self.room -= piece.len() as u64;
        self.count += piece.len() as u64;
        if piece.len() == LONGEST_PIECE {
            self.full = self.full.wrapping_add(1);
        }
    }
}

/// Gives a text in pieces of `size` bytes, and an empty piece before each. After `fails_after` pieces there is no room for the next.
#[derive(Drop)]
pub struct CutText<'a> {
    rest: &'a [u8],
    piece: &'a [u8],
    size: usize,
    is_filled: bool,
    fails_after: Option<u64>,
}

impl<'a> CutText<'a> {
    /// Nothing is given yet.
    pub fn new(text: &'a str, size: u64, fails_after: Option<u64>) -> CutText<'a> {
        CutText {
            rest: text.as_bytes(),
            piece: b"",
            size: size.min(100) as usize,
            is_filled: true,
            fails_after,
        }
    }
}

impl Giver for CutText<'_> {
    ghost use Rattle.std.specs.Prelude.{length, cond, ◌+◌, ◌*◌};

    ghost rest = { λ text. text.rest.now };

    ghost piece = { λ text. text.piece.now };

    ghost left = { λ text. 2 * length text.rest.now + cond text.is_filled 1 0 };

    fn advance(&mut self) -> Result<bool, AllocError> {
        if self.rest.is_empty() {
            return Ok(false);
        }
        if self.fails_after == Some(0) {
            return Err(AllocError);
        }
        self.fails_after = self.fails_after.map(|pieces| pieces.saturating_sub(1));
        self.is_filled = !self.is_filled;
        let count = if self.is_filled {
            self.size.max(1).min(self.rest.len())
        } else {
            0
        };
        let (piece, rest) = self.rest.split_at(count);
        self.piece = piece;
        self.rest = rest;
        Ok(true)
    }

    fn piece(&self) -> &[u8] {
        self.piece
    }
}

/// Gives four bytes at a time, is interrupted before its last read, and fails in this way after `left` reads.
#[derive(Drop)]
struct FailingReader {
    left: u64,
    failure: ErrorKind,
}

impl Read for FailingReader {
    fn read(&mut self, buffer: &mut [u8]) -> io::Result<usize> {
        if self.left == 0 {
            return Err(io::Error::from(self.failure));
        }
        self.left -= 1;
        if self.left == 1 {
            return Err(io::Error::from(ErrorKind::Interrupted));
        }
        Ok(buffer.len().min(4))
    }
}

/// What is answered where a reader fails after so many reads, for want of memory or otherwise, and how many bytes were handed out.
pub fn read_in_the_middle(
    alloc: Global,
    reads: u64,
    limit: u64,
    failure: &str,
) -> Result<String, AllocError> {
    let file = FailingReader {
        left: reads,
        failure: refusal(failure).unwrap_or(ErrorKind::Other),
    };
    let mut taken = ByteCount {
        count: 0,
        room: limit,
        full: 0,
    };
    let text = match hand_out_within(&mut Counted::new(file), limit, &mut taken) {
        Ok(()) => "whole",
        Err(fault) => load_fault(fault),
    };
    format!(in alloc; "{text} after {}", taken.count)
}

/// An output that takes three bytes of the first write, and may refuse that write or the rest. It keeps the digits
/// that went out as a number.
#[derive(Drop)]
struct PartialOutput {
    first: Option<ErrorKind>,
    rest: Option<ErrorKind>,
    digits: Cell<u64>,
}

impl PartialOutput {
    fn note(&self, bytes: &[u8]) {
        for byte in bytes {
            let digit = byte.wrapping_sub(b'0') as u64;
            let digits = self.digits.get().wrapping_mul(10);
            self.digits.set(digits.wrapping_add(digit));
        }
    }
}

impl Print for PartialOutput {
    fn print<D: Display + Drop>(&self, _value: D) -> io::Result<()> {
        Err(io::Error::from(ErrorKind::Unsupported))
    }

    fn println<D: Display + Drop>(&self, _value: D) -> io::Result<()> {
        Err(io::Error::from(ErrorKind::Unsupported))
    }

    fn write_all(&self, bytes: &[u8]) -> io::Result<()> {
        match self.rest {
            Some(kind) => Err(io::Error::from(kind)),
            None => {
                self.note(bytes);
                Ok(())
            }
        }
    }

    fn write_some(&self, bytes: &[u8]) -> io::Result<usize> {
        match self.first {
            Some(kind) => Err(io::Error::from(kind)),
            None => {
                let count = bytes.len().min(3);
                self.note(&bytes[..count]);
                Ok(count)
            }
        }
    }
}

/// The refusal that a word names.
fn refusal(word: &str) -> Option<ErrorKind> {
    match word {
        "memory" => Some(ErrorKind::OutOfMemory),
        "interrupted" => Some(ErrorKind::Interrupted),
        _ => None,
    }
}

/// What a put of `12345` answers where the first write and the rest are refused so, and which digits went out.
pub fn part_of_a_put(alloc: Global, first: &str, rest: &str) -> Result<String, AllocError> {
    let output = PartialOutput {
        first: refusal(first),
        rest: refusal(rest),
        digits: Cell::new(0),
    };
    let text = put_answer(StdSink::new(&output).put(b"12345"));
    format!(in alloc; "{text} {}", output.digits.get())
}
