//! Kinds of nets.

/// What a net is.
#[derive(Clone, Copy, Debug, PartialEq, Eq, Drop)]
pub enum Kind {
    Input,
    Table,
    Register,
}
