//! Writing the file of a design.
ghost use Rattle.std.specs.Prelude.{◌≡◌, ◌+◌, ◌≤◌, length, IfOk};
ghost use Rattle.limits.specs.Most.{widest_nets};
ghost use Rattle.flat_net.specs.Net.{net_count, pin_total};
ghost use Rattle.hierarchy.specs.Sizes.{row_total};
ghost use Rattle.aag_text.specs.Aig.{plain_aig};
ghost use Rattle.aag_text.specs.Written.{IsFileOf, IsCountedFile};

use crate::aig::Aig;
use crate::law::does_the_same;
use crate::nets::aig_of;
use crate::text::text_of;
use flat_net::FreeNet;
use std::alloc::Global;
use tmr_base::OutOfMemory;

/// The file of a design, and how many gates its graph has.
#[derive(Drop)]
pub struct CountedFile {
    pub bytes: Vec<u8>,
    pub gates: u64,
}

fn gate_count(a: &Aig) -> u64
    ensures { result ≡ length (plain_aig a.now).gates }
{
    a.gates.len() as u64
}

/// The file of a design, and the number of its gates: a graph with the design's inputs, registers and outputs
/// in order, and their names. The graph has a trace for all inputs and start values, and each agrees with the
/// design's on outputs and registers. One pass over the tables; nothing is simplified or shared. `OutOfMemory`
/// says that there was no memory.
pub fn write_counted(alloc: Global, n: &FreeNet) -> Result<CountedFile, OutOfMemory>
    requires few { net_count n.now.design.net + pin_total n.now.design.net ≤ widest_nets }
    requires small { row_total n.now.design.net ≤ widest_nets }
    ensures { IfOk result (λ file. IsCountedFile n.now file.bytes.items file.gates) }
{
    let net = n.net();
    // It says that the design is valid.
    net.input_count();
    does_the_same();
    let a = aig_of(alloc, n)?;
    let gates = gate_count(&a);
    let bytes = text_of(alloc, &a, net)?;
    Ok(CountedFile { bytes, gates })
}

/// The same without the number.
pub fn write_aag(alloc: Global, n: &FreeNet) -> Result<Vec<u8>, OutOfMemory>
    requires few { net_count n.now.design.net + pin_total n.now.design.net ≤ widest_nets }
    requires small { row_total n.now.design.net ≤ widest_nets }
    ensures { IfOk result (λ bytes. IsFileOf n.now bytes.items) }
{
    let file = write_counted(alloc, n)?;
    Ok(file.bytes)
}
