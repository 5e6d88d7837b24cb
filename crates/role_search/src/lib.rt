//! The search for roles: which hardened node is which copy of which original node, and which is a voter of what. It looks at
//! the two designs, and at names of the hardened one only in its last step.
//!
//! Of what is found nothing is promised: `certifying` makes a certificate of it and ends with the eight rules. A place
//! that `first_bad_output` or `first_misfit` names is there.
//!
//! What is hard: a hardened node may look like many original ones, and comparing it with each would take a time that grows
//! with the square. So the search goes backward from the outputs, where the interface tells which copy is which (`backward`):
//! what a node with a role reads is told by the pin of the original, and each node gets a role once. No output leads to
//! some nodes. These are told the other way, by what they read, and found by a key in a map (`by_reads`); where two are alike
//! in that too, a name decides (`by_names`). Each step is linear in the pins.
#![tactic(auto)]

mod backward;
mod by_names;
mod by_reads;
mod designs;
mod found;
mod looks;
mod misfits;
mod missing_copies;
mod pins;
mod roleless;

pub use by_names::search_roles;
pub use designs::Designs;
pub use found::FoundRoles;
pub use misfits::{Misfit, first_bad_output, first_misfit};
