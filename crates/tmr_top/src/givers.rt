//! Texts that are made while their files are saved.
use std::alloc::AllocError;
use text_pieces::{Pieces, Steps};
use tmr_outside::Giver;

/// Gives a text that is made step by step.
#[derive(Drop)]
pub struct TextGiver<T: Steps> {
    pub text: Pieces<T>,
}

impl<T: Steps> Giver for TextGiver<T> {
    ghost rest = { λ giver. giver.text.rest };

    ghost piece = { λ giver. giver.text.piece };

    ghost left = { λ giver. giver.text.left };

    fn advance(&mut self) -> Result<bool, AllocError> {
        self.text.advance()
    }

    fn piece(&self) -> &[u8] {
        self.text.piece()
    }
}
