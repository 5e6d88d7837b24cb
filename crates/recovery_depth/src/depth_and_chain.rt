//! The depth of a partition with a chain of registers that has it.

use tmr_base::NetId;

/// The least depth of a partition, and the original registers of a longest chain, first to last.
#[derive(Drop)]
pub struct Deep {
    pub depth: u32,
    pub chain: Vec<NetId>,
}
