//! Edges between places, with how many nets lead along each.
ghost use Rattle.std.specs.Prelude.{◌≡◌, ◌==◌, ◌&&◌, ◌||◌, ◌<◌, ◌+◌, ℕ, List, false, length, OnOk, unwrap_or};
ghost use Rattle.partition_graph.specs.Edges.{number_of_edge};
ghost use Rattle.partition_graph.specs.Private.Meeting.{is_met, AreCounted};

use std::alloc::Global;
use std::collections::{BTreeMap, HashSet};
use tmr_base::OutOfMemory;

/// Which nets lead to which places, and for each pair of places how many nets of the first lead to the second.
#[derive(Drop)]
pub struct Edges {
    pub met: HashSet<(usize, usize)>,
    pub counts: BTreeMap<(usize, usize), usize>,
}

/// No net was met yet.
pub fn no_edges(alloc: Global) -> Edges
    ensures counted { (homes : List ℕ) → AreCounted homes result }
    ensures none { (x b : ℕ) → is_met result x b ≡ false }
{
    Edges {
        met: HashSet::new(alloc),
        counts: BTreeMap::new(alloc),
    }
}

/// The number that is kept for the edge from a to b, 0 where there is none.
fn number_of_edge(counts: &BTreeMap<(usize, usize), usize>, a: usize, b: usize) -> usize
    ensures { result ≡ number_of_edge counts.now a b }
{
    match counts.get(&(a, b)) {
        Some(number) => *number,
        None => 0,
    }
}

/// Net x leads to place b. It is counted once for each place.
pub fn note(edges: &mut Edges, homes: &[usize], x: usize, b: usize) -> Result<(), OutOfMemory>
    requires net { x < length homes.now }
    requires few { length homes.now < 4294967296 }
    requires counted { AreCounted homes.now edges.old }
    ensures counted { OnOk result (AreCounted homes.now edges.new) }
    ensures met { OnOk result ((y a : ℕ) → is_met edges.new y a ≡ (is_met edges.old y a || (x == y && b == a))) }
{
    let fresh = edges.met.insert((x, b))?;
    if !fresh {
        return Ok(());
    }
    let a = homes[x];
    let number = number_of_edge(&edges.counts, a, b);
    edges.counts.insert((a, b), number + 1)?;
    Ok(())
}
