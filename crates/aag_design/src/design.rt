//! The design of a graph.
ghost use Rattle.std.specs.Prelude.{◌≡◌, IfOk, OnOk, IfErr};
ghost use Rattle.flat_net.specs.Faults.{net_of_draft};
ghost use Rattle.aag_text.specs.Aig.{plain_aig};
ghost use Rattle.aag_design.specs.Draft.{aig_draft};
ghost use Rattle.aag_design.specs.Private.Drafting.{IsGraph, IsSound, IsLoopOf};
ghost use Rattle.aag_design.specs.Loop.{HasNoLoop};

use crate::AagFault;
use crate::drafting::draft_of;
use crate::loops::loop_of;
use aag_reader::Graph;
use flat_net::{FlatNet, NetFault, build};
use std::alloc::Global;

/// The design of a graph, or a loop of its gates. No other fault of a draft can come.
#[tactic(auto, using(crate::proofs::Designs::design_facts))]
pub fn design_of(alloc: Global, g: &Graph) -> Result<FlatNet, AagFault>
    requires graph { IsGraph g.now }
    requires sound { IsSound (plain_aig g.now.aig) }
    ensures net { IfOk result (λ n. n.net ≡ net_of_draft (aig_draft (plain_aig g.now.aig))) }
    ensures no_loop { OnOk result (HasNoLoop (plain_aig g.now.aig)) }
    ensures fault { IfErr result (IsLoopOf (plain_aig g.now.aig)) }
{
    let draft = draft_of(alloc, g)?;
    match build(alloc, draft) {
        Ok(net) => {
            // It says that the design is valid.
            net.input_count();
            Ok(net)
        }
        Err(NetFault::CombLoop(names)) => {
            let variables = loop_of(alloc, &names)?;
            Err(AagFault::Loop(variables))
        }
        Err(_) => Err(AagFault::Memory),
    }
}
