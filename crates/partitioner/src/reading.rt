//! What partitioning looks up of a design, the same whatever its partitions are.
ghost use Rattle.std.specs.Prelude.{IfOk};
ghost use Rattle.partitioner.specs.Reads.{AreMade, AreReads, AreSorted};
ghost use Rattle.node_reads.specs.Sources.{AreOtherReaders};

use flat_net::{FlatNet, nodes_of};
use graph::Graph;
use node_reads::{packed_readers_of, sorted_rows, sources_of, wide_sources_of};
use std::alloc::Global;
use tmr_base::OutOfMemory;

/// For each node the other nodes that it reads, and the wide ones among these in ascending order.
///
/// `rows` has each node once; in which order is no clause. They are made in ascending order of how many nodes read each, so that a node's
/// place is found among few partitions.
#[derive(Drop)]
pub struct Sources {
    pub rows: Graph,
    pub wide: Graph,
}

/// For each node the other nodes that read it, and those that it reads. These are made when a node may move for the first time.
///
/// They are the same for all partitions of a design, so whoever tries many sizes hands them on from one to the next.
#[derive(Drop)]
pub struct Reads {
    pub readers: Graph,
    pub sources: Option<Sources>,
}

/// What partitioning looks up of a design. The one refusal is want of memory.
pub fn reads_of(alloc: Global, n: &FlatNet) -> Result<Reads, OutOfMemory>
    ensures { IfOk result (λ reads. AreReads n.now.net reads) }
{
    let readers = packed_readers_of(alloc, n)?;
    Ok(Reads {
        readers,
        sources: None,
    })
}

/// What each node reads, from the nodes that read each.
fn sorted_of(alloc: Global, n: &FlatNet, readers: &Graph) -> Result<Sources, OutOfMemory>
    requires { AreOtherReaders n.now.net readers.now }
    ensures { IfOk result (λ sources. AreSorted n.now.net sources) }
{
    let ascending = sources_of(alloc, n, readers)?;
    let rows = sorted_rows(alloc, &ascending, readers, nodes_of(n))?;
    let wide = wide_sources_of(alloc, n, readers, &ascending)?;
    Ok(Sources { rows, wide })
}

/// What each node reads: what was made before, or else from the nodes that read each.
pub fn sorted_sources(
    alloc: Global,
    n: &FlatNet,
    readers: &Graph,
    made: Option<Sources>,
) -> Result<Sources, OutOfMemory>
    requires readers { AreOtherReaders n.now.net readers.now }
    requires made { AreMade n.now.net made }
    ensures { IfOk result (λ sources. AreSorted n.now.net sources) }
{
    match made {
        Some(sources) => Ok(sources),
        None => {
            let sources = sorted_of(alloc, n, readers)?;
            Ok(sources)
        }
    }
}
