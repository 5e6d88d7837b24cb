//! How long an upset can last in a partition: the most registers on a walk.
//!
//! The layers above may rely on this: `depths` gives for each node the most registers of a walk through
//! uncut pins that ends in it, and for each partition the greatest of these. `least` gives for each
//! partition of a hardened design the most registers of a walk of copies, with a chain of registers that
//! has so many; no labels and depths that the rules admit have a smaller depth. `bound` gives, for a cut and
//! a bound, the further pins that are voted so that no label is above the bound.
//!
//! What is hard: a design may have more walks than can be listed. But uncut reads make no loop, so there is an order in
//! which each vertex stands behind all that it reads (`ordering`), and one pass over it gives each the greatest of what it
//! reads, and one more at a register (`reaching`). A bound is kept in the same pass: a register that reads the bound begins
//! anew (`bounding`). A longest chain is read backward: each vertex keeps the last register before it (`last_registers`),
//! of several always the same one (`ranks`), and the chain begins at the end of the deepest walk (`longest_chains`).
#![tactic(auto)]

mod bounding;
mod copies;
mod depth_and_chain;
mod depth_table;
mod extra;
mod last_registers;
mod least_depths;
mod longest_chains;
mod ordering;
mod partition_depths;
mod ranks;
mod reaching;
mod uncut;

pub use depth_and_chain::Deep;
pub use depth_table::{DepthTable, depths};
pub use extra::{Extra, bound, bound_in_order};
pub use least_depths::least;
