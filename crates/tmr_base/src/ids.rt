//! Numbers of nets and partitions, a clock's edge, and upsets.

/// A clock's edge.
#[derive(Clone, Copy, Debug, PartialEq, Eq, Drop)]
pub enum Edge {
    Rising,
    Falling,
}

/// The number of a net of a design: inputs come first, then nodes.
#[derive(Clone, Copy, Debug, PartialEq, Eq, Drop)]
pub struct NetId(pub u32);

/// The number of a partition, counted from 0.
#[derive(Clone, Copy, Debug, PartialEq, Eq, Drop)]
pub struct PartId(pub u32);

/// A single event upset: in this cycle (counted from 0) the net has this value in place of its own.
#[derive(Clone, Copy, Debug, PartialEq, Eq, Drop)]
pub struct Upset {
    pub cycle: u32,
    pub net: NetId,
    pub value: bool,
}
