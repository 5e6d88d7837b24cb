//! Why a rule fails at a place.

use tmr_base::{CopyNo, Edge, NetId, PartId};

/// Why a rule fails at a place: what is there, and what was to be there. `net` is a hardened net, `node` an original one.
#[derive(Clone, Copy, Drop)]
pub enum Reason<'a> {
    /// The hardened design has another number of inputs than three times the original's.
    InputCount {
        is: u32,
        wanted: u64,
    },
    /// The original has a clock, and the hardened design has none.
    NoClock,
    /// The hardened design has a clock, and the original has none.
    NewClock,
    /// The clocks have two edges.
    WrongEdge {
        is: Edge,
        wanted: Edge,
    },
    /// A table stands where a register was to be.
    IsTable,
    /// A register stands where a table was to be.
    IsRegister,
    /// Another number of pins.
    PinCount {
        is: u32,
        wanted: u32,
    },
    /// The rows of one table tell where its value is 1, and those of the other where it is 0.
    Polarity,
    /// Another number of rows.
    RowCount {
        is: u32,
        wanted: u32,
    },
    /// The first row that differs, counted from 0.
    Row {
        row: u32,
        is: &'a [u8],
        wanted: &'a [u8],
    },
    /// Another value in cycle 0, or one is free and the other is not.
    Initial {
        is: bool,
        is_free: bool,
        wanted: bool,
        wanted_free: bool,
    },
    /// The first pin that reads a net which does not read `node` for that partition and copy.
    Pin {
        pin: u32,
        net: NetId,
        node: NetId,
        part: PartId,
        copy: CopyNo,
    },
    /// The first pin of a voter that reads another net than its copy of `node`.
    VoterPin {
        net: NetId,
        node: NetId,
        copy: CopyNo,
    },
    /// The first three bits of which a voter does not give the majority.
    Minority {
        first: bool,
        second: bool,
        third: bool,
    },
    /// A label that does not reach what the first such pin wants, which reads `net` with label `count`.
    LowLabel {
        label: u32,
        wants: u64,
        net: NetId,
        count: u32,
    },
    /// A label above the depth of its partition.
    DeepLabel {
        label: u32,
        depth: u32,
        part: PartId,
    },
    /// An output that is not the copy which it is to be.
    WrongOutput {
        net: NetId,
        node: NetId,
        copy: CopyNo,
    },
    /// An output that is missing.
    NoOutput {
        node: NetId,
        copy: CopyNo,
    },
    /// An output of which the original has none.
    NewOutput {
        net: NetId,
    },
}
