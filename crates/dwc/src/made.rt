//! A part of the guarded design as it is made.
use flat_net::PackedNodes;
use indexmap::IndexSet;
use tmr_base::Name;

/// The names of the inputs and of the first nodes, and those nodes.
#[derive(Drop)]
pub struct Made {
    pub names: IndexSet<Name>,
    pub nodes: PackedNodes,
}
