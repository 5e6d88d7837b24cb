//! Texts that are made step by step, and given in pieces.
//!
//! The layers above may rely on this: what implements `Steps` makes a text step by step, and `Pieces` gives such a text in pieces. All
//! pieces, put one behind the other, are the text, and none but the last is short. specs/Steps says what is left of a text at each step,
//! specs/InPieces what is known of one that is given in pieces.
#![tactic(auto)]

mod pieces;
mod steps;

pub use pieces::Pieces;
pub use steps::Steps;
