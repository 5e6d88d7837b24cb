//! What the arguments of a statement give, each by its own word.

pub(crate) mod instance;
pub(crate) mod latch;
pub(crate) mod name_lists;
mod row;
pub(crate) mod table;
pub(crate) mod word;
