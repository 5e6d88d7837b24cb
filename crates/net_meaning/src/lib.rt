//! What a design does: the values of its nets over clock cycles, with and without upsets.
//!
//! The layers above may rely on this: each net has one equation; a fault trace is a list of rows that
//! meets all of them, but for the nets that a schedule names; and for each design, list of input rows
//! and schedule there is exactly one fault trace. Registers may be marked: their values in cycle 0 are
//! then free, and for each choice of them there is exactly one.
#![tactic(auto)]

ghost use Rattle.std.specs.Prelude.{Bool, List};
ghost use Rattle.flat_net.specs.Net.{Net, IsValid};
ghost use Rattle.net_meaning.specs.Meaning.{TracesAreUnique, FreeTracesAreUnique};

pub use table_cover::majority;

/// The law: for each valid design, list of input rows and schedule there is exactly one fault trace.
#[tactic(auto, using(crate::proofs::OneTrace::one_plain_trace))]
pub fn traces_are_unique()
    ensures { (n : Net) → IsValid n → TracesAreUnique n }
{}

/// The law where some registers begin with a free value: for each choice of these values too there is
/// exactly one, and the schedule may name inputs.
#[tactic(auto, using(crate::proofs::OneTrace::one_trace))]
pub fn free_traces_are_unique()
    ensures { (n : Net) (free : List Bool) → IsValid n → FreeTracesAreUnique n free }
{}
