//! The models that the main model reaches.
ghost use Rattle.std.specs.Prelude.{◌≡◌, ◌↔◌, ◌<◌, ℕ, true, length, IfOk, OnOk, nat_eq};
ghost use Rattle.std.specs.List.{list_any};
ghost use Rattle.library_faults.specs.Graph.{Reached};
ghost use Rattle.library_faults.specs.Private.Growth.{Gains};
ghost use Rattle.library_faults.specs.Private.Rows.{AreWithin};

use graph::Graph;
use indexmap::IndexSet;
use std::alloc::Global;
use tmr_base::OutOfMemory;

/// Adds the models of a row that are not there yet.
fn add_all(reached: &mut IndexSet<usize>, row: &[u32]) -> Result<(), OutOfMemory>
    ensures { OnOk result (Gains reached.old.keys row.now reached.new.keys) }
{
    for x in row {
        reached.insert(*x as usize)?;
    }
    Ok(())
}

/// The numbers of all models that the main model reaches.
pub(crate) fn reached_models(alloc: Global, graph: &Graph) -> Result<IndexSet<usize>, OutOfMemory>
    requires some { 0 < length graph.now }
    requires within { AreWithin graph.now }
    requires few { length graph.now < 4294967296 }
    ensures { IfOk result (λ reached. (x : ℕ) → (list_any (nat_eq x) reached.keys ≡ true) ↔ Reached graph.now x) }
{
    let mut reached = IndexSet::new(alloc);
    reached.insert(0)?;
    let mut at = 0;
    while at < reached.len() {
        let x = reached.as_slice()[at];
        at += 1;
        add_all(&mut reached, graph.row(x as u32))?;
    }
    Ok(reached)
}
