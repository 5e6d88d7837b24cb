//! A reader that is given a text in pieces.
ghost use Rattle.std.specs.Prelude.{◌≡◌, ◌≤◌, ◌+◌, ◌++◌, [], List, ℕ, Some, None, Err, length, IfOk, IfErr, IfSome, OnOk};
ghost use Rattle.blif_text.specs.Reading.{reading, ended_bad, Reads, IsFaultOf};
ghost use Rattle.blif_text.specs.Reader.{StandsFor, FirstBadIs, most_bytes};

mod text;

use crate::fault::TextFault;
use crate::library::Library;
use crate::progress::Progress;
use crate::reader::text::{finish, take_piece};
use limits::Limits;
use std::alloc::Global;
use std::marker::Model;
use text_lines::PendingLine;
use tmr_base::OutOfMemory;

/// Reads a text that comes in pieces, and keeps of it the models so far and the statement in hand.
///
/// It stands for the bytes that it was given, however they were cut: `StandsFor` is that relation.
/// All pieces together have at most 17,179,869,184 bytes; `room` tells how many more may come. Where a table of such a text
/// has more pins or rows, or the text more models, than numbers of 32 bits count, the answer is `TextFault::Memory`.
#[derive(Drop)]
pub struct Reader {
    alloc: Global,
    lines: PendingLine,
    progress: Progress,
    refused: Option<TextFault>,
    room: u64,
}

impl Model for Reader {
    ghost use Rattle.blif_text.specs.Reader.{ReaderState, KeepsOn};

    ghost Value = { ReaderState };

    ghost view = { λ r. record { room = r.room; pending = r.lines; progress = r.progress; refused = r.refused } };

    ghost invariant = { λ r. KeepsOn (record { room = r.room; pending = r.lines; progress = r.progress; refused = r.refused }) };
}

impl Reader {
    /// A reader that was given nothing.
    pub fn new(alloc: Global) -> Result<Reader, OutOfMemory>
        ensures stands { IfOk result (λ reader. StandsFor reader []) }
        ensures room { IfOk result (λ reader. reader.room ≡ most_bytes) }
    {
        Ok(Reader {
            alloc,
            lines: PendingLine::new(alloc),
            progress: Progress::new(alloc),
            refused: None,
            room: Limits::Large.hardened(),
        })
    }

    /// How many more bytes may come. This takes no memory.
    pub fn room(&self) -> u64
        ensures { result ≡ self.now.room }
    {
        self.room
    }

    /// Takes the next piece of the text.
    ///
    /// `Bad` comes where a bad statement stands among those whose last line was ended by LF and
    /// joins no next line. From the first fault on, each call answers that fault.
    pub fn feed(&mut self, piece: &[u8]) -> Result<(), TextFault>
        requires { length piece.now ≤ self.old.room }
        ensures stands { (given : List ℕ) → StandsFor self.old given → StandsFor self.new (given ++ piece.now) }
        ensures room { self.new.room + length piece.now ≡ self.old.room }
        ensures answer { (given : List ℕ) → StandsFor self.old given → FirstBadIs (ended_bad (given ++ piece.now)) result }
        // A fault is that of every text that begins so.
        ensures bad { IfErr result (λ fault. (given more : List ℕ) → StandsFor self.old given → IsFaultOf (reading ((given ++ piece.now) ++ more)) fault) }
        ensures refused { IfErr result (λ fault. self.new.refused ≡ Some fault) }
        ensures goes_on { OnOk result (self.new.refused ≡ None) }
        ensures again { IfSome self.old.refused (λ fault. result ≡ Err fault) }
    {
        let fault = take_piece(
            self.alloc,
            &mut self.lines,
            &mut self.progress,
            self.refused,
            piece,
        );
        self.refused = fault;
        self.room -= piece.len() as u64;
        match fault {
            None => Ok(()),
            Some(fault) => Err(fault),
        }
    }

    /// Ends the text: the library that it spells, or its first bad line. A reader that has refused
    /// answers the same fault.
    pub fn finish(self) -> Result<Library, TextFault>
        ensures reads { (given : List ℕ) → StandsFor self given → Reads result (reading given) }
        ensures again { IfSome self.refused (λ fault. result ≡ Err fault) }
    {
        finish(self.alloc, self.lines, self.progress, self.refused)
    }
}

/// The library that a text spells, or its first bad line.
pub fn read_library(alloc: Global, bytes: &[u8]) -> Result<Library, TextFault>
    requires { length bytes.now ≤ most_bytes }
    ensures { Reads result (reading bytes.now) }
{
    let mut lines = PendingLine::new(alloc);
    let mut progress = Progress::new(alloc);
    let fault = take_piece(alloc, &mut lines, &mut progress, None, bytes);
    finish(alloc, lines, progress, fault)
}
