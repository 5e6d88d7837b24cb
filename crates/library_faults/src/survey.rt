//! The models that the main model reaches, their first fault, and an order of them.
//!
//! Models are numbers here, and which places which is a graph. Models may be placed thousands deep, so nothing
//! recurses: the search and the order are those of `graph`. Only the models that are reached can have a fault,
//! and they are looked at in the order of the file.

pub(crate) mod first_fault;
pub(crate) mod model_names;
pub(crate) mod order;
pub(crate) mod placings;
pub(crate) mod reach;
