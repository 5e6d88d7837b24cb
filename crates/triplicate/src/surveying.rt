//! What planning looks up of a design, the same for all sizes of partitions.
ghost use Rattle.std.specs.Prelude.{IfOk};
ghost use Rattle.triplicate.specs.Surveyed.{IsSurvey};

use clustering::{Level, levels_of};
use critical_paths::{Circuit, circuit_of};
use flat_net::FlatNet;
use graph::Graph;
use partitioner::{Reads, reads_of};
use std::alloc::Global;
use tmr_base::OutOfMemory;

/// What the lean form looks up beside: the levels of clusters that are the same for all sizes that are left, and what the search for shorter
/// paths reads.
#[derive(Drop)]
pub struct LeanSurvey {
    pub levels: Vec<Level>,
    pub circuit: Circuit,
}

/// What planning looks up of a design. It does not hang on the size of partitions, so whoever makes plans of many sizes hands it on from
/// one to the next. What only the lean form looks up is made with its first plan.
#[derive(Drop)]
pub struct Survey {
    pub reads: Reads,
    pub lean: Option<LeanSurvey>,
}

/// What planning looks up of a design. The one refusal is want of memory.
pub fn survey_of(alloc: Global, n: &FlatNet) -> Result<Survey, OutOfMemory>
    ensures { IfOk result (λ survey. IsSurvey n.now.net survey) }
{
    let reads = reads_of(alloc, n)?;
    Ok(Survey { reads, lean: None })
}

/// What the lean form looks up: what was made before, or else from the design and the other nodes that read each node.
pub(crate) fn lean_survey(
    alloc: Global,
    n: &FlatNet,
    readers: &Graph,
    made: Option<LeanSurvey>,
) -> Result<LeanSurvey, OutOfMemory> {
    match made {
        Some(lean) => Ok(lean),
        None => Ok(LeanSurvey {
            levels: levels_of(alloc, n, readers)?,
            circuit: circuit_of(alloc, n)?,
        }),
    }
}
