//! Where each node stands, and what is counted for it.

use crate::counts::marks::Marks;
use crate::reading::Reads;
use graph::Graph;
use std::collections::HashMap;

/// The partition of each node, and beside it what is looked up of the design, and for each
/// partition how many nodes it holds: what tells whether a node may move at all.
#[derive(Drop)]
pub struct Placed {
    pub count: u32,
    pub of: Vec<u32>,
    pub reads: Reads,
    pub held: Vec<u32>,
}

/// The partition of each node, and beside it for each node the other nodes that read it and those that
/// it reads, and the wide ones among these; for each partition how many nodes it holds; for each wide
/// node and each partition how many other nodes read the node there; and where wide nodes of very many readers stand or are read.
#[derive(Drop)]
pub struct Partitioning {
    pub count: u32,
    pub of: Vec<u32>,
    pub readers: Graph,
    pub sources: Graph,
    pub wide: Graph,
    pub held: Vec<u32>,
    pub counts: HashMap<(u32, u32), u32>,
    pub marks: Marks,
}
