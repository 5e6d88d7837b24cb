//! Bytes that are given in one piece.
ghost use Rattle.std.specs.Prelude.{◌≡◌, false};

use crate::Giver;
use std::alloc::AllocError;

/// Gives these bytes, once, and copies none of them.
#[derive(Drop)]
pub struct Whole<'a> {
    bytes: &'a [u8],
    is_given: bool,
}

impl<'a> Whole<'a> {
    /// Nothing is given yet.
    pub fn new(bytes: &'a [u8]) -> Whole<'a>
        ensures bytes { result.bytes.now ≡ bytes.now }
        ensures fresh { result.is_given ≡ false }
    {
        Whole {
            bytes,
            is_given: false,
        }
    }
}

impl Giver for Whole<'_> {
    ghost use Rattle.std.specs.Prelude.{[], cond};

    ghost rest = { λ whole. cond whole.is_given [] whole.bytes.now };

    ghost piece = { λ whole. whole.bytes.now };

    ghost left = { λ whole. cond whole.is_given 0 1 };

    fn advance(&mut self) -> Result<bool, AllocError> {
        let is_next = !self.is_given;
        self.is_given = true;
        Ok(is_next)
    }

    fn piece(&self) -> &[u8] {
        self.bytes
    }
}
