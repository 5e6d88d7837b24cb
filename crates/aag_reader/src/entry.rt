//! What stands on one line of a section: an input, a latch, an output or a gate.
ghost use Rattle.std.specs.Prelude.{◌≡◌, ℕ, List, Option};
ghost use Rattle.aag_text.specs.Lines.{input_of, latch_of, output_of, gate_of};
ghost use Rattle.aag_reader.specs.Private.Words.{texts};

use crate::forms::{gate_of, input_of, latch_of, output_of};
use aag_text::{Gate, Latch, Literal};

/// What stands on one line of a section.
pub trait Entry: Copy + Drop {
    ghost form: { ℕ → List (List ℕ) → Option Self };

    /// The entry of these words, if they are of its form. No variable is above `most`.
    fn of_words(most: u32, words: &[&[u8]]) -> Option<Self>
        ensures { result ≡ form most (texts words.now) };
}

/// The variable of an input.
impl Entry for u32 {
    ghost form = { input_of };

    fn of_words(most: u32, words: &[&[u8]]) -> Option<u32> {
        input_of(most, words)
    }
}

impl Entry for Latch {
    ghost form = { latch_of };

    fn of_words(most: u32, words: &[&[u8]]) -> Option<Latch> {
        latch_of(most, words)
    }
}

/// The literal of an output.
impl Entry for Literal {
    ghost form = { output_of };

    fn of_words(most: u32, words: &[&[u8]]) -> Option<Literal> {
        output_of(most, words)
    }
}

impl Entry for Gate {
    ghost form = { gate_of };

    fn of_words(most: u32, words: &[&[u8]]) -> Option<Gate> {
        gate_of(most, words)
    }
}
