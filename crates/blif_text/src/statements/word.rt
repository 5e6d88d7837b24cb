//! What kind of statement a first token begins.
ghost use Rattle.std.specs.Prelude.{◌≡◌};
ghost use Rattle.blif_text.specs.Word.{word_of};

#[derive(Clone, Copy, Debug, PartialEq, Eq)]
pub(crate) enum Word {
    Model,
    Inputs,
    Outputs,
    Clock,
    Names,
    Latch,
    Subckt,
    End,
    /// Another word with a dot.
    Unknown,
    /// A row, which has no dot.
    Row,
}

#[tactic(auto, unfolding(crate::specs::Word::word_of))]
pub(crate) fn word_of(token: &[u8]) -> Word
    ensures { result ≡ word_of token.now }
{
    if token == b".model".as_slice() {
        Word::Model
    } else if token == b".inputs".as_slice() {
        Word::Inputs
    } else if token == b".outputs".as_slice() {
        Word::Outputs
    } else if token == b".clock".as_slice() {
        Word::Clock
    } else if token == b".names".as_slice() {
        Word::Names
    } else if token == b".latch".as_slice() {
        Word::Latch
    } else if token == b".subckt".as_slice() {
        Word::Subckt
    } else if token == b".end".as_slice() {
        Word::End
    } else {
        match token {
            [b'.', ..] => Word::Unknown,
            _ => Word::Row,
        }
    }
}
