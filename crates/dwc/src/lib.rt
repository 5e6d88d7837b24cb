//! Detection by duplication: a design made twofold, whose alarm tells when the two copies of an output differ.
//!
//! The layers above may rely on this: the guarded design of n is `guard_net n` of `specs/Guard.antt`, no other is taken
//! for it, and whatever strikes copies of one number alone, its alarm tells in each cycle in which that reaches an output.
#![tactic(auto)]

mod check;
mod comparing;
mod covers;
mod guarding;
mod made;
mod names;
mod ports;
mod twins;

pub use check::{GuardAnswer, check_guard};
pub use guarding::{guard, guarded_designs_tell};
