//! The flat design: the library is looked at, made one flat model, and that a draft, which is built.
//!
//! What is hard is memory: a library may be as large as memory lets it, and its flat model many times that. So a library is
//! taken apart where it can be: what was known of it is let go before the flat elements are made, names and covers are moved
//! into the design, and a main model that places nothing is its own flat model, of which nothing is copied. There is one way
//! from models to a design (`flattened`); each public call hands it the models, copied or its own.

pub(crate) mod copies;
pub(crate) mod countable;
pub(crate) mod drafted;
pub(crate) mod flat_model;
pub(crate) mod flattening;
