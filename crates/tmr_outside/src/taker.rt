//! What takes a file in pieces.
ghost use Rattle.std.specs.Prelude.{◌≡◌, ◌≤◌, ◌+◌, ◌++◌, List, ℕ, length};

/// The most bytes of one piece.
pub const LONGEST_PIECE: usize = 65_536;

/// Takes the bytes of a file, piece by piece, and need not keep them.
pub trait Taker {
    /// The lists of bytes that it stands for.
    ghost stands: { Self → List ℕ → Type 0 };

    /// How many more bytes it may take.
    ghost room: { Self → ℕ };

    /// Takes the next piece. For each list that it stood for, it then stands for that list with the
    /// piece behind it.
    fn take(&mut self, piece: &[u8])
        requires fits { length piece.now ≤ room self.old }
        requires short { length piece.now ≤ LONGEST_PIECE }
        ensures appended { (given : List ℕ) → stands self.old given → stands self.new (given ++ piece.now) }
        ensures room { room self.new + length piece.now ≡ room self.old };
}
