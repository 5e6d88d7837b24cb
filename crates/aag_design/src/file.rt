//! The design of a file.
ghost use Rattle.std.specs.Prelude.{◌≡◌, ◌≤◌, ℕ, IfOk, IfErr, length};
ghost use Rattle.limits.specs.Most.{widest_original};
ghost use Rattle.flat_net.specs.Faults.{net_of_draft};
ghost use Rattle.aag_text.specs.Aig.{PlainAig, plain_aig};
ghost use Rattle.aag_design.specs.Draft.{aig_draft, aig_marks};
ghost use Rattle.aag_design.specs.Private.Drafting.{IsGraph, IsSound};
ghost use Rattle.aag_design.specs.Loop.{HasNoLoop};
ghost use Rattle.aag_design.specs.Private.Small.{is_small};
ghost use Rattle.aag_design.specs.Read.{IsGraphOf, IsDesignOf, IsFaultOf, IsReadAs, IsReadCounted};

use crate::AagFault;
use crate::counts::{Counts, counts_of};
use crate::design::design_of;
use crate::marks::marks_of;
use aag_reader::{Graph, GraphFault, graph_of};
use blif_writer::write_free;
use flat_net::{FlatNet, FreeNet};
use std::alloc::Global;
use tmr_base::OutOfMemory;

/// The design of a file, and how many entries its graph has.
#[derive(Drop)]
pub struct CountedDesign {
    pub net: FreeNet,
    pub counts: Counts,
}

/// The graph of a file, or the first fault of its lines or variables.
#[tactic(auto, using(crate::proofs::FileFacts::file_facts))]
fn sound_graph(alloc: Global, bytes: &[u8]) -> Result<Graph, AagFault>
    requires { length bytes.now ≤ widest_original }
    ensures graph { IfOk result IsGraph }
    ensures sound { IfOk result (λ g. IsSound (plain_aig g.aig)) }
    ensures of { IfOk result (λ g. IsGraphOf bytes.now (plain_aig g.aig)) }
    ensures fault { IfErr result (λ fault. (limit : ℕ) → IsFaultOf bytes.now limit fault) }
{
    match graph_of(alloc, bytes) {
        Ok(g) => Ok(g),
        Err(GraphFault::Line(number)) => Err(AagFault::Line(number)),
        Err(GraphFault::Doubled(variable)) => Err(AagFault::Doubled(variable)),
        Err(GraphFault::Undefined(variable)) => Err(AagFault::Undefined(variable)),
        Err(GraphFault::Memory) => Err(AagFault::Memory),
    }
}

/// The design with its marks.
#[tactic(auto, using(crate::proofs::FileFacts::file_facts))]
fn marked(alloc: Global, g: &Graph, net: FlatNet) -> Result<FreeNet, OutOfMemory>
    requires sound { IsSound (plain_aig g.now.aig) }
    requires net { net.net ≡ net_of_draft (aig_draft (plain_aig g.now.aig)) }
    ensures { IfOk result (IsDesignOf (plain_aig g.now.aig)) }
{
    // It says that the design is valid.
    net.input_count();
    let marks = marks_of(alloc, &g.aig)?;
    Ok(FreeNet::make(net, marks))
}

/// Whether the flat text of a design has at most so many bytes.
#[tactic(auto, unfolding(crate::specs::Private::Small::is_small))]
fn is_within(alloc: Global, net: &FreeNet, limit: u64) -> Result<bool, OutOfMemory>
    ensures { IfOk result (λ within. within ≡ is_small net.now limit) }
{
    let text = write_free(alloc, net)?;
    Ok(text.as_slice().len() as u64 <= limit)
}

/// The design of an AIGER file (ASCII, format 1.0), with names by position: inputs `i0`, `i1` .., then `f`, which is 0, the
/// latches `l0`, `l1` .., the gates `nV` with their variables, the next literals `d0`, `d1` .. and the outputs `o0`, `o1` ... The names in
/// symbol lines are not used. A latch whose value in cycle 0 is free is marked. The design does the same as the file's graph.
///
/// `Line` comes for the first line that is not of its form; then `Doubled` for the first variable that is defined a second time;
/// then `Undefined` for the first that is read and nowhere defined; then `Loop` where gates read each other in a loop; then
/// `TooLarge` where the flat text of the design has more than `limit` bytes. `Memory` may come in place of any answer. The file
/// is not longer than the large limits allow, which the caller knows. Nothing is sized by the numbers that the file names.
///
/// The counts are the numbers of the header, and how many latches are free.
#[tactic(auto, using(crate::proofs::FileFacts::file_facts))]
pub fn read_counted(alloc: Global, bytes: &[u8], limit: u64) -> Result<CountedDesign, AagFault>
    requires { length bytes.now ≤ widest_original }
    ensures design { IfOk result (IsReadCounted bytes.now limit) }
    ensures fault { IfErr result (IsFaultOf bytes.now limit) }
{
    let g = match sound_graph(alloc, bytes) {
        Ok(g) => g,
        Err(fault) => return Err(fault),
    };
    let net = match design_of(alloc, &g) {
        Ok(net) => net,
        Err(fault) => return Err(fault),
    };
    let net = marked(alloc, &g, net)?;
    match is_within(alloc, &net, limit) {
        Ok(true) => Ok(CountedDesign {
            net,
            counts: counts_of(&g.aig),
        }),
        Ok(false) => Err(AagFault::TooLarge),
        Err(_) => Err(AagFault::Memory),
    }
}

/// The same without the counts.
pub fn read_aag(alloc: Global, bytes: &[u8], limit: u64) -> Result<FreeNet, AagFault>
    requires { length bytes.now ≤ widest_original }
    ensures design { IfOk result (IsReadAs bytes.now limit) }
    ensures fault { IfErr result (IsFaultOf bytes.now limit) }
{
    match read_counted(alloc, bytes, limit) {
        Ok(read) => Ok(read.net),
        Err(fault) => Err(fault),
    }
}
