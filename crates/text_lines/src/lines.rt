//! The lines of a text, one by one.
ghost use Rattle.std.specs.Prelude.{◌≡◌, ◌==◌, length, is_none, IfSome, OnSome};
ghost use Rattle.std.specs.List.{position, before_first};
ghost use Rattle.text_lines.specs.Lines.{is_line_feed, has_line_feed, behind_line};

use memchr::memchr;
use std::marker::Model;

/// A line, without its line feed.
#[derive(Clone, Copy, Debug, Drop)]
pub struct Line<'a> {
    /// What stands before the line feed, or before the end of the text.
    pub bytes: &'a [u8],
    /// Whether a line feed ended it. Only the last line of a text may lack one.
    pub is_ended: bool,
}

/// What is still to be read of a text, and the number of its next line.
#[derive(Drop)]
pub struct Lines<'a> {
    line: u64,
    bytes: &'a [u8],
}

impl<'a> Model for Lines<'a> {
    ghost use Rattle.std.specs.Prelude.{◌+◌, ◌<◌, ◌^◌, length};
    ghost use Rattle.text_lines.specs.Lines.{Rest};

    ghost Value = { Rest };

    ghost view = { λ r. record { line = r.line; bytes = r.bytes.now } };

    ghost invariant = { λ r. r.line + length r.bytes.now < 2 ^ 64 };
}

/// Where the first line feed of these bytes stands, if there is one.
#[tactic(auto, using(crate::proofs::FirstByte::first_byte))]
pub fn line_end(bytes: &[u8]) -> Option<usize>
    ensures { result ≡ position is_line_feed bytes.now }
{
    memchr(b'\n', bytes)
}

impl<'a> Lines<'a> {
    /// All lines of these bytes.
    pub fn new(bytes: &'a [u8]) -> Lines<'a>
        ensures { result ≡ record { line = 1; bytes = bytes.now } }
    {
        Lines { line: 1, bytes }
    }

    /// The number of the next line, counted from 1.
    pub fn number(&self) -> u64
        ensures { result ≡ self.now.line }
    {
        self.line
    }

    /// Whether all bytes are read.
    pub fn is_done(&self) -> bool
        ensures { result ≡ length self.now.bytes == 0 }
    {
        self.bytes.is_empty()
    }

    /// The next line. None where all bytes are read, and then nothing changes.
    #[tactic(auto, using(crate::proofs::NextLine::next_line))]
    pub fn next(&mut self) -> Option<Line<'a>>
        ensures bytes { IfSome result (λ line. line.bytes.now ≡ before_first is_line_feed self.old.bytes) }
        ensures ended { IfSome result (λ line. line.is_ended ≡ has_line_feed self.old.bytes) }
        ensures rest { OnSome result (self.new ≡ behind_line self.old) }
        ensures none { is_none result ≡ length self.old.bytes == 0 }
        ensures unchanged { result ≡ None → self.new ≡ self.old }
    {
        if self.bytes.is_empty() {
            return None;
        }
        self.line += 1;
        match line_end(self.bytes) {
            Some(end) => {
                let (bytes, _) = self.bytes.split_at(end);
                let (_, rest) = self.bytes.split_at(end + 1);
                self.bytes = rest;
                Some(Line {
                    bytes,
                    is_ended: true,
                })
            }
            None => {
                let (bytes, rest) = self.bytes.split_at(self.bytes.len());
                self.bytes = rest;
                Some(Line {
                    bytes,
                    is_ended: false,
                })
            }
        }
    }
}
