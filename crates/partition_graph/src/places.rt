//! Which place each partition and each net has.
ghost use Rattle.std.specs.Prelude.{◌≡◌, ◌==◌, ◌<◌, ◌+◌, ℕ, All, length, slice_index, nat_lt, if◌then◌else◌, IfOk};
ghost use Rattle.partitioner.specs.Below.{count_below};
ghost use Rattle.partition_graph.specs.Places.{is_drawn, home};
ghost use Rattle.partition_graph.specs.Private.Counting.{AreNodeCounts, ArePlaces, AreHomes};

use crate::counting::{all_set, greatest, tally, zeros};
use certificate::Certificate;
use flat_net::{FlatNet, nodes_of};
use std::alloc::Global;
use tmr_base::{NetId, OutOfMemory};

/// The partition of each node.
pub fn part_list(alloc: Global, n: &FlatNet, c: &Certificate) -> Result<Vec<usize>, OutOfMemory>
    requires inputs { c.now.original_inputs ≡ length n.now.net.inputs }
    requires nodes { length c.now.part ≡ length n.now.net.nodes }
    ensures { IfOk result (λ of. of.items ≡ c.now.part) }
{
    let mut of = Vec::new(alloc);
    let inputs = n.input_count();
    for x in 0..nodes_of(n) {
        of.push(c.part(NetId(inputs + x)).0 as usize)?;
    }
    Ok(of)
}

/// How many nodes each partition has.
pub fn node_counts(alloc: Global, n: &FlatNet, c: &Certificate) -> Result<Vec<usize>, OutOfMemory>
    requires inputs { c.now.original_inputs ≡ length n.now.net.inputs }
    requires nodes { length c.now.part ≡ length n.now.net.nodes }
    ensures counts { IfOk result (λ nodes. AreNodeCounts c.now nodes.items) }
    ensures few { IfOk result (λ nodes. All (λ m. m < 4294967296) nodes.items) }
{
    let count = c.parts() as usize;
    let _nodes = nodes_of(n);
    let of = part_list(alloc, n, c)?;
    let all = all_set(alloc, of.len())?;
    let nodes = tally(alloc, &of, &all, count)?;
    Ok(nodes)
}

/// For each number up to the greatest, how many of the numbers are above it, where it is known how many
/// have each value.
fn counts_above(
    alloc: Global,
    numbers: &[usize],
    exactly: &[usize],
) -> Result<Vec<usize>, OutOfMemory>
    requires some { 0 < length exactly.now }
    requires below { All (λ m. m < length exactly.now) numbers.now }
    requires few { length numbers.now < 4294967296 }
    requires exactly { (m : ℕ) → m < length exactly.now → slice_index exactly.now m ≡ count_below (length numbers.now) (λ q. slice_index numbers.now q == m) }
    ensures long { IfOk result (λ above. length above.items ≡ length exactly.now) }
    ensures above { IfOk result (λ above. (m : ℕ) → m < length exactly.now →
        slice_index above.items m ≡ count_below (length numbers.now) (λ q. nat_lt m (slice_index numbers.now q))) }
{
    let mut above = zeros(alloc, exactly.len())?;
    let mut left = exactly.len() - 1;
    let mut sum = 0usize;
    while left > 0 {
        sum += exactly[left];
        left -= 1;
        above[left] = sum;
    }
    Ok(above)
}

/// How many of the numbers have each value, up to the greatest of them.
fn counts_of(alloc: Global, numbers: &[usize]) -> Result<Vec<usize>, OutOfMemory>
    requires few { length numbers.now < 4294967296 }
    requires small { All (λ m. m < 4294967296) numbers.now }
    ensures some { IfOk result (λ exactly. 0 < length exactly.items) }
    ensures below { IfOk result (λ exactly. All (λ m. m < length exactly.items) numbers.now) }
    ensures exactly { IfOk result (λ exactly. (m : ℕ) → m < length exactly.items →
        slice_index exactly.items m ≡ count_below (length numbers.now) (λ q. slice_index numbers.now q == m)) }
{
    let most = greatest(numbers);
    let all = all_set(alloc, numbers.len())?;
    let exactly = tally(alloc, numbers, &all, most + 1)?;
    Ok(exactly)
}

/// The place of a partition before which so many come.
fn place(before: usize, p: usize, rest: usize) -> usize
    ensures { result ≡ (if nat_lt before 400 then p else rest) }
{
    if before < 400 { p } else { rest }
}

/// The place of each partition, by how many nodes it has. A few passes over the partitions.
pub fn places(alloc: Global, c: &Certificate, nodes: &[usize]) -> Result<Vec<usize>, OutOfMemory>
    requires nodes { AreNodeCounts c.now nodes.now }
    requires few { length nodes.now < 4294967296 }
    requires small { All (λ m. m < 4294967296) nodes.now }
    ensures { IfOk result (λ places. ArePlaces c.now places.items) }
{
    let exactly = counts_of(alloc, nodes)?;
    let above = counts_above(alloc, nodes, &exactly)?;
    let mut seen = zeros(alloc, exactly.len())?;
    let mut places = Vec::new(alloc);
    for p in 0..nodes.len() {
        let m = nodes[p];
        places.push(place(above[m] + seen[m], p, nodes.len()))?;
        seen[m] += 1;
    }
    Ok(places)
}

/// The place of net x of the original.
#[tactic(auto, using(flat_net::proofs::Slots::slot_below))]
fn home(n: &FlatNet, c: &Certificate, places: &[usize], x: u32) -> usize
    requires inputs { c.now.original_inputs ≡ length n.now.net.inputs }
    requires range { x < c.now.original_inputs + length c.now.part }
    requires places { ArePlaces c.now places.now }
    requires few { length places.now < 4294967296 }
    ensures { result ≡ home c.now x }
{
    if x < n.input_count() {
        return places.len() + 1;
    }
    places[c.part(NetId(x)).0 as usize]
}

/// The place of each net of the original.
pub fn homes(
    alloc: Global,
    n: &FlatNet,
    c: &Certificate,
    places: &[usize],
) -> Result<Vec<usize>, OutOfMemory>
    requires inputs { c.now.original_inputs ≡ length n.now.net.inputs }
    requires nodes { length c.now.part ≡ length n.now.net.nodes }
    requires places { ArePlaces c.now places.now }
    requires few { length places.now < 4294967296 }
    ensures { IfOk result (λ homes. AreHomes c.now homes.items) }
{
    let mut homes = Vec::new(alloc);
    let nodes = nodes_of(n);
    for x in 0..n.input_count() + nodes {
        homes.push(home(n, c, places, x))?;
    }
    Ok(homes)
}

/// Partition p is drawn.
pub fn is_drawn(c: &Certificate, places: &[usize], p: usize) -> bool
    requires part { p < length c.now.depth }
    requires places { ArePlaces c.now places.now }
    ensures { result ≡ is_drawn c.now p }
{
    // The certificate is not needed to tell.
    let _parts = c.parts();
    places[p] == p
}
