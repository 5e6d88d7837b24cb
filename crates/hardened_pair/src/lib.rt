//! The pair of a hardened design and its certificate, made in memory from the plan of hardening.
//!
//! The layers above may rely on this: `harden` answers a pair in the hardened form, or want of memory;
//! `harden_free` does so with a certificate of version 2, and `harden_deep` in either version with a bound on depths.
//! `harden_form` does so for the lean form too, whose partitions cost no more and whose cut is that at registers.
//!
//! What is hard: nets have different numbers of voters, so the number of a copy does not follow from its original's alone, and a pin may
//! read a copy or a voter that is not made yet. So it is counted first where the copies and voters of each net begin (`layout`). Each pin is
//! then a sum (`pins`), and one pass over the nets makes all nodes, names and roles (`tripling`). No net is found by its name, and no order
//! of tables is searched for: the original's serves, with inputs and registers first (`ordering`).
#![tactic(auto)]

mod assembling;
mod certifying;
mod hardening;
mod layout;
mod marking;
mod naming;
mod ordering;
mod pins;
mod tripling;

pub use hardening::{harden, harden_deep, harden_form, harden_free};
