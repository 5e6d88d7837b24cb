//! A text in pieces.
ghost use Rattle.std.specs.Prelude.{◌≡◌, ◌↔◌, ◌<◌, ◌≤◌, ◌+◌, ◌-◌, ◌++◌, ℕ, [], true, false, length, IfOk, IfErr, IsTrue};
ghost use Rattle.text_pieces.specs.InPieces.{TextInPieces, long_piece};

use crate::Steps;
use std::alloc::{AllocError, Global};
use std::marker::Model;

/// A piece with so many bytes gets no more.
const LONG_PIECE: usize = 65_536;

/// Gives in pieces a text that is made step by step.
///
/// It is never held whole. What is made at one step is never cut, so that a step that makes much can make a piece long.
#[derive(Drop)]
pub struct Pieces<T: Steps> {
    text: T,
    piece: Vec<u8>,
    next: u64,
}

impl<T: Steps> Model for Pieces<T> {
    ghost Value = { TextInPieces };

    ghost view = { λ t. record { rest = (T.in_steps t.text).rest t.next; piece = t.piece.items; left = (T.in_steps t.text).count - t.next } };

    // No more steps are made than there are.
    ghost invariant = { λ t. t.next ≤ (T.in_steps t.text).count };
}

/// Whether a piece gets no more bytes.
fn is_long(piece: &[u8]) -> bool
    ensures { IsTrue result ↔ long_piece ≤ length piece.now }
{
    piece.len() >= LONG_PIECE
}

/// Makes the piece that begins at this step. The answer is the step behind it.
fn make_piece<T: Steps>(piece: &mut Vec<u8>, text: &mut T, from: u64) -> Result<u64, AllocError>
    requires within { from ≤ (T.in_steps text.old).count }
    ensures text { IfOk result (λ next. (T.in_steps text.old).rest from ≡ piece.new.items ++ (T.in_steps text.old).rest next) }
    ensures some { IfOk result (λ next. next ≤ from → (T.in_steps text.old).rest from ≡ []) }
    ensures within { IfOk result (λ next. next ≤ (T.in_steps text.old).count) }
    ensures same { T.in_steps text.new ≡ T.in_steps text.old }
    // Only the last piece is short.
    ensures full { IfOk result (λ next. next < (T.in_steps text.old).count → long_piece ≤ length piece.new.items) }
    // Before each step that was made, the piece was not long yet.
    ensures short { IfOk result (λ next. (k : ℕ) → from ≤ k → k < next
        → length ((T.in_steps text.old).rest from) < length ((T.in_steps text.old).rest k) + long_piece) }
{
    piece.clear();
    let steps = text.count();
    for step in from..steps {
        if is_long(piece) {
            return Ok(step);
        }
        text.put_step(piece, step)?;
    }
    Ok(steps)
}

impl<T: Steps> Pieces<T> {
    /// This text, of which nothing is given yet.
    pub fn new(alloc: Global, text: T) -> Pieces<T>
        ensures { result.rest ≡ (T.in_steps text).rest 0 }
    {
        Pieces {
            text,
            piece: Vec::new(alloc),
            next: 0,
        }
    }

    /// Goes on to the next piece, and says whether there is one. After want of memory what is to come is the same.
    pub fn advance(&mut self) -> Result<bool, AllocError>
        ensures next { IfOk result (λ more. more ≡ true → self.old.rest ≡ self.new.piece ++ self.new.rest) }
        ensures fewer { IfOk result (λ more. more ≡ true → self.new.left < self.old.left) }
        ensures end { IfOk result (λ more. more ≡ false → self.old.rest ≡ []) }
        ensures kept { IfErr result (λ _. self.new.rest ≡ self.old.rest) }
        // Only the last piece is short.
        ensures full { IfOk result (λ more. more ≡ true → 0 < self.new.left → long_piece ≤ length self.new.piece) }
    {
        let next = make_piece(&mut self.piece, &mut self.text, self.next)?;
        let more = self.next < next;
        self.next = next;
        Ok(more)
    }

    /// The piece at hand.
    pub fn piece(&self) -> &[u8]
        ensures { result.now ≡ self.now.piece }
    {
        &self.piece
    }
}
