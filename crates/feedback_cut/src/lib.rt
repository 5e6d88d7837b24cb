//! Feedback inside partitions: which nodes stand on loops together, and a cut of each loop.
//!
//! The layers above may rely on this: `components` gives two nodes one number exactly where reads inside
//! one partition lead each way. `cut` leaves no loop of uncut pins inside a partition, and a cut pin
//! closes a loop of which it is the only cut pin. `cut_registers` leaves no such loop either, and cuts exactly the
//! pins of registers that stand on loops. All follow what each node reads inside its partition, a `Graph`, by
//! depth-first searches. `cut_in_order` and `cut_registers` give the order of the last one beside the cut.
#![tactic(auto)]

mod cutting;
mod gathering;
mod inner;
mod loop_groups;
mod loops;
mod numbering;
mod register_nodes;
mod self_reads;

pub use cutting::{CutPins, OrderedCut, cut, cut_in_order, cut_registers};
pub use inner::inner_reads;
pub use loop_groups::{LoopGroups, components};
pub use register_nodes::{is_register, registers};
