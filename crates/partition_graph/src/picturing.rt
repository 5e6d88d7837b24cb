//! The picture of a hardened design's partitions.
ghost use Rattle.std.specs.Prelude.{◌≡◌, All, ◌<◌, ◌≤◌, ◌+◌, ◌*◌, ℕ, length, map, max, slice_index, IfOk};
ghost use Rattle.std.specs.List.{range_with_len};
ghost use Rattle.flat_net.specs.Net.{net_count, node_of};
ghost use Rattle.certificate.specs.Cert.{Fits, depth_of};
ghost use Rattle.partition_graph.specs.Places.{nodes_in};
ghost use Rattle.partition_graph.specs.Places.{nodes_in};
ghost use Rattle.partition_graph.specs.Picture.{IsPicture, is_node_register, is_register_at, registers_in, if_not_drawn, one};
ghost use Rattle.partition_graph.specs.Private.Counting.{AreCounted, IsRest};

use crate::counting::{greater, greatest, tally};
use crate::groups::groups;
use crate::meeting::edges;
use crate::places::{homes, is_drawn, node_counts, part_list, places};
use crate::writing::{BoxCounts, Rest, put_edges, put_end, put_head, put_parts, put_rest};
use certificate::Certificate;
use flat_net::{FlatNet, Kind, nodes_of};
use std::alloc::Global;
use tmr_base::{NetId, OutOfMemory, PartId};

/// Net x is a register.
fn is_register(n: &FlatNet, x: NetId) -> bool
    requires { x.0 < net_count n.now.net }
    ensures { result ≡ is_node_register (node_of n.now.net x.0) }
{
    match n.kind(x) {
        Kind::Register => true,
        Kind::Input | Kind::Table => false,
    }
}

/// For each node whether it is a register.
fn register_bits(alloc: Global, n: &FlatNet) -> Result<Vec<bool>, OutOfMemory>
    ensures { IfOk result (λ bits. bits.items ≡ map (is_register_at n.now.net) (range_with_len 0 (length n.now.net.nodes))) }
{
    let inputs = n.input_count();
    let mut bits = Vec::new(alloc);
    for x in 0..nodes_of(n) {
        bits.push(is_register(n, NetId(inputs + x)))?;
    }
    Ok(bits)
}

/// How many registers each partition has.
fn register_counts(alloc: Global, n: &FlatNet, c: &Certificate) -> Result<Vec<usize>, OutOfMemory>
    requires inputs { c.now.original_inputs ≡ length n.now.net.inputs }
    requires nodes { length c.now.part ≡ length n.now.net.nodes }
    ensures long { IfOk result (λ registers. length registers.items ≡ length c.now.depth) }
    ensures few { IfOk result (λ registers. All (λ m. m < 4294967296) registers.items) }
    ensures counts { IfOk result (λ registers. (p : ℕ) → p < length c.now.depth → slice_index registers.items p ≡ registers_in n.now.net c.now p) }
{
    let count = c.parts() as usize;
    let of = part_list(alloc, n, c)?;
    let bits = register_bits(alloc, n)?;
    let registers = tally(alloc, &of, &bits, count)?;
    Ok(registers)
}

/// What the boxes tell.
fn counted(alloc: Global, n: &FlatNet, c: &Certificate) -> Result<BoxCounts, OutOfMemory>
    requires inputs { c.now.original_inputs ≡ length n.now.net.inputs }
    requires nodes { length c.now.part ≡ length n.now.net.nodes }
    ensures { IfOk result (λ counts. AreCounted n.now.net c.now counts) }
{
    // What the certificate keeps.
    let _parts = c.parts();
    let nodes = node_counts(alloc, n, c)?;
    let registers = register_counts(alloc, n, c)?;
    let places = places(alloc, c, &nodes)?;
    let most = greatest(&nodes);
    Ok(BoxCounts {
        nodes,
        registers,
        places,
        most,
    })
}

/// Partition p counts too, if it is not drawn.
fn add_rest(c: &Certificate, counts: &BoxCounts, n: &FlatNet, p: u32, rest: &mut Rest)
    requires counts { AreCounted n.now.net c.now counts.now }
    requires part { p < length c.now.depth }
    requires count { rest.old.count ≤ p }
    requires nodes { rest.old.nodes ≤ p * 4294967295 }
    requires registers { rest.old.registers ≤ p * 4294967295 }
    ensures count { rest.new.count ≡ rest.old.count + if_not_drawn c.now one p }
    ensures nodes { rest.new.nodes ≡ rest.old.nodes + if_not_drawn c.now (nodes_in c.now) p }
    ensures registers { rest.new.registers ≡ rest.old.registers + if_not_drawn c.now (registers_in n.now.net c.now) p }
    ensures depth { rest.new.depth ≡ max rest.old.depth (if_not_drawn c.now (depth_of c.now) p) }
    ensures few { rest.new.count ≤ p + 1 }
    ensures few_nodes { rest.new.nodes ≤ (p + 1) * 4294967295 }
    ensures few_registers { rest.new.registers ≤ (p + 1) * 4294967295 }
{
    // The original tells how many registers there can be.
    let _nodes = n.node_count();
    let at = p as usize;
    if is_drawn(c, &counts.places, at) {
        return;
    }
    rest.count += 1;
    rest.nodes += counts.nodes[at];
    rest.registers += counts.registers[at];
    rest.depth = greater(rest.depth, c.depth(PartId(p)) as usize);
}

/// What the box of the partitions that are not drawn tells. One pass over the partitions.
fn rest(c: &Certificate, counts: &BoxCounts, n: &FlatNet) -> Rest
    requires { AreCounted n.now.net c.now counts.now }
    ensures { IsRest n.now.net c.now result }
{
    let mut rest = Rest {
        count: 0,
        nodes: 0,
        registers: 0,
        depth: 0,
    };
    for p in 0..c.parts() {
        add_rest(c, counts, n, p, &mut rest);
    }
    rest
}

/// The text of a picture of a hardened design's partitions, which `dot` draws: a box for each of the 400
/// partitions with the most nodes and one for all others, and edges with the number of nets that have a
/// voter for the partition that the edge leads to. Partitions that are mostly of one placed model stand in
/// one frame. The rules need not hold. One pass over both designs, and sorted edges.
pub fn picture(
    alloc: Global,
    n: &FlatNet,
    h: &FlatNet,
    c: &Certificate,
) -> Result<Vec<u8>, OutOfMemory>
    requires { Fits n.now.net h.now.net c.now }
    ensures { IfOk result (λ text. IsPicture n.now.net c.now text.items) }
{
    // What the certificate keeps.
    let _parts = c.parts();
    let counts = counted(alloc, n, c)?;
    let homes = homes(alloc, n, c, &counts.places)?;
    let edges = edges(alloc, n, h, c, &counts.places, &homes)?;
    let groups = groups(alloc, n, c, &counts.nodes)?;
    let parts = counts.places.len();
    let mut out = Vec::new(alloc);
    put_head(alloc, &mut out, n)?;
    put_parts(alloc, &mut out, n, c, &counts, &groups)?;
    put_rest(alloc, &mut out, rest(c, &counts, n))?;
    put_edges(alloc, &mut out, parts, &edges)?;
    put_end(&mut out)?;
    Ok(out)
}
