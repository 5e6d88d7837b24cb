//! A file that is taken in pieces, as one list of bytes.
ghost use Rattle.std.specs.Prelude.{◌≡◌, ◌≤◌, ◌+◌, ◌++◌, List, ℕ, [], length, true};

use crate::{LONGEST_PIECE, Taker};
use std::alloc::Global;

/// Gathers the pieces, as long as there is room for them.
#[derive(Drop)]
pub struct Gathered {
    pub bytes: Vec<u8>,
    /// How many more bytes may come.
    pub room: u64,
    /// There was room for every piece.
    pub complete: bool,
}

impl Gathered {
    /// No piece has come.
    pub fn new(alloc: Global, room: u64) -> Gathered
        ensures bytes { result.bytes.items ≡ [] }
        ensures room { result.room ≡ room }
    {
        Gathered {
            bytes: Vec::new(alloc),
            room,
            complete: true,
        }
    }
}

impl Taker for Gathered {
    ghost use Rattle.std.specs.Prelude.{◌≡◌, true};

    ghost stands = { λ gathered given. gathered.complete ≡ true → gathered.bytes.items ≡ given };

    ghost room = { λ gathered. gathered.room };

    fn take(&mut self, piece: &[u8]) {
        self.room -= piece.len() as u64;
        if self.bytes.extend_from_slice(piece).is_err() {
            self.complete = false;
        }
    }
}
