//! A walk over the flat elements, which gives their nets names.
//!
//! What is hard is depth: models may be placed thousands deep, and a net may be bound outwards through every level. So the
//! walk keeps a stack of its own and recurses nowhere. Of the paths it keeps the innermost alone, which grows and is cut off again;
//! nets of one text are one net exactly where their paths are as long. A walk that is deep follows the names that it will be
//! asked for once, when it enters a model. A model in which nothing stands is not entered.

pub(crate) mod bindings;
pub(crate) mod branching;
pub(crate) mod named_element;
pub(crate) mod named_model;
pub(crate) mod naming;
pub(crate) mod resolve;
pub(crate) mod walk;
