//! The graph of a file.
ghost use Rattle.std.specs.Prelude.{◌≡◌, IfOk, IfErr};
ghost use Rattle.aag_text.specs.Lines.{IsFile};
ghost use Rattle.aag_reader.specs.Faults.{IsGraphFault};
ghost use Rattle.aag_text.specs.Variables.{defined, IsDefinedOnce, IsDefined};
ghost use Rattle.aag_text.specs.Aig.{plain_aig};

use crate::GraphFault;
use crate::reading::aig_of_text;
use crate::variables::{check_reads, defined};
use aag_text::Aig;
use indexmap::IndexSet;
use std::alloc::Global;

/// A graph, and the variables that it defines: those of its inputs, latches and gates, in this order.
#[derive(Drop)]
pub struct Graph {
    pub aig: Aig,
    pub variables: IndexSet<u32>,
}

/// Reads the graph of an AIGER file (ASCII, format 1.0). In the graph each variable is defined once, and each
/// variable that is read is defined or 0.
///
/// `Line` comes for the first line that is not of its form. Where each line is, `Doubled` comes for the first variable
/// that is defined a second time, and then `Undefined` for the first that is read and nowhere defined. `Memory` may
/// come in place of any answer. Loops of gates are not looked for.
#[tactic(auto, using(crate::proofs::GraphFaults::graph_faults))]
pub fn graph_of(alloc: Global, bytes: &[u8]) -> Result<Graph, GraphFault>
    ensures file { IfOk result (λ g. IsFile bytes.now (plain_aig g.aig)) }
    ensures once { IfOk result (λ g. IsDefinedOnce (plain_aig g.aig)) }
    ensures known { IfOk result (λ g. IsDefined (plain_aig g.aig)) }
    ensures variables { IfOk result (λ g. g.variables.keys ≡ defined (plain_aig g.aig)) }
    ensures fault { IfErr result (IsGraphFault bytes.now) }
{
    let a = aig_of_text(alloc, bytes)?;
    let variables = defined(alloc, &a)?;
    check_reads(alloc, &a, &variables)?;
    Ok(Graph { aig: a, variables })
}
