//! What gives a file in pieces.
ghost use Rattle.std.specs.Prelude.{◌≡◌, ◌<◌, ◌++◌, List, ℕ, [], true, false, IfOk};

use std::alloc::AllocError;

/// Gives the bytes of a file, piece by piece.
pub trait Giver {
    /// What comes behind the piece at hand.
    ghost rest: { Self → List ℕ };

    /// The piece at hand.
    ghost piece: { Self → List ℕ };

    /// At most so many pieces come yet.
    ghost left: { Self → ℕ };

    /// Goes to the next piece, if there is one, and says whether there is. After want of memory nothing is
    /// known of what comes.
    fn advance(&mut self) -> Result<bool, AllocError>
        ensures next { IfOk result (λ more. more ≡ true → rest self.old ≡ piece self.new ++ rest self.new) }
        ensures fewer { IfOk result (λ more. more ≡ true → left self.new < left self.old) }
        ensures end { IfOk result (λ more. more ≡ false → rest self.old ≡ []) };

    /// The piece at hand.
    fn piece(&self) -> &[u8]
        ensures { result.now ≡ piece self.now };
}
