//! The frames in which partitions are drawn: the paths that most of their nodes have.
ghost use Rattle.std.specs.Prelude.{◌≡◌, ℕ, ◌<◌, ◌≤◌, ◌+◌, ◌*◌, length, map, [], IfOk};
ghost use Rattle.std.specs.List.{range_with_len};
ghost use Rattle.std.specs.Str.{bytes_eq};
ghost use Rattle.partition_graph.specs.Groups.{path_of, AreGroups};
ghost use Rattle.partition_graph.specs.Private.Counting.{AreNodeCounts, texts};
ghost use Rattle.partition_graph.specs.Private.Leading.{lead_at, voted_lead, has_lead, AreLeading};

use crate::counting::tally;
use crate::paths::{are_same, path};
use crate::places::part_list;
use certificate::Certificate;
use flat_net::{FlatNet, nodes_of};
use std::alloc::Global;
use tmr_base::{NetId, OutOfMemory};

/// A node whose path leads among those of a partition that were seen, and by how many: no other path can
/// have more than half of them.
#[derive(Clone, Copy, Drop)]
pub struct Lead {
    pub node: u32,
    pub by: u32,
}

/// One node more was seen: node x, which has the leading path or another one.
fn vote(lead: Lead, x: u32, same: bool) -> Lead
    requires { lead.by < 4294967295 }
    ensures lead { result ≡ voted_lead lead x same }
    ensures few { result.by ≤ lead.by + 1 }
{
    if lead.by == 0 {
        return Lead { node: x, by: 1 };
    }
    let by = if same { lead.by + 1 } else { lead.by - 1 };
    Lead {
        node: lead.node,
        by,
    }
}

/// One node more was seen: node x, of the partition with this lead.
fn next_lead(n: &FlatNet, inputs: u32, lead: Lead, x: u32) -> Lead
    requires few { lead.by < 4294967295 }
    requires inputs { inputs ≡ length n.now.net.inputs }
    requires range { x < length n.now.net.nodes }
    requires node { 0 < lead.by → lead.node < length n.now.net.nodes }
    ensures { result ≡ voted_lead lead x (bytes_eq (path_of n.now.net (inputs + x)) (path_of n.now.net (inputs + lead.node))) }
{
    // What the design keeps.
    let _nodes = nodes_of(n);
    if lead.by == 0 {
        return vote(lead, x, false);
    }
    let same = are_same(
        path(n, NetId(inputs + x)),
        path(n, NetId(inputs + lead.node)),
    );
    vote(lead, x, same)
}

/// Nothing was seen yet.
fn no_leads(alloc: Global, count: usize) -> Result<Vec<Lead>, OutOfMemory>
    ensures long { IfOk result (λ leads. length leads.items ≡ count) }
    ensures each { IfOk result (λ leads. (p : ℕ) → p < count → lead_at leads.items p ≡ record { node = 0; by = 0 }) }
{
    let mut leads = Vec::new(alloc);
    for p in 0..count {
        let _partition = p;
        leads.push(Lead { node: 0, by: 0 })?;
    }
    Ok(leads)
}

/// For each partition the path that can be that of more than half of its nodes. One pass over the nodes.
fn leads(alloc: Global, n: &FlatNet, c: &Certificate) -> Result<Vec<Lead>, OutOfMemory>
    requires inputs { c.now.original_inputs ≡ length n.now.net.inputs }
    requires nodes { length c.now.part ≡ length n.now.net.nodes }
    ensures { IfOk result (λ leads. AreLeading n.now.net c.now (length c.now.part) leads.items) }
{
    let inputs = n.input_count();
    let mut leads = no_leads(alloc, c.parts() as usize)?;
    for x in 0..nodes_of(n) {
        let p = c.part(NetId(inputs + x)).0 as usize;
        leads[p] = next_lead(n, inputs, leads[p], x);
    }
    Ok(leads)
}

/// Node x has the path that leads in its partition.
fn has_lead(n: &FlatNet, inputs: u32, c: &Certificate, leads: &[Lead], x: u32) -> bool
    requires inputs { inputs ≡ length n.now.net.inputs }
    requires same { c.now.original_inputs ≡ length n.now.net.inputs }
    requires nodes { length c.now.part ≡ length n.now.net.nodes }
    requires leading { AreLeading n.now.net c.now (length c.now.part) leads.now }
    requires range { x < length c.now.part }
    ensures { result ≡ has_lead n.now.net c.now leads.now x }
{
    // What the design keeps.
    let _nodes = nodes_of(n);
    let p = c.part(NetId(inputs + x)).0 as usize;
    are_same(
        path(n, NetId(inputs + x)),
        path(n, NetId(inputs + leads[p].node)),
    )
}

/// For each node whether it has the path that leads in its partition.
fn agreeing(
    alloc: Global,
    n: &FlatNet,
    c: &Certificate,
    leads: &[Lead],
) -> Result<Vec<bool>, OutOfMemory>
    requires inputs { c.now.original_inputs ≡ length n.now.net.inputs }
    requires nodes { length c.now.part ≡ length n.now.net.nodes }
    requires leading { AreLeading n.now.net c.now (length c.now.part) leads.now }
    ensures { IfOk result (λ bits. bits.items ≡ map (has_lead n.now.net c.now leads.now) (range_with_len 0 (length c.now.part))) }
{
    let inputs = n.input_count();
    let mut bits = Vec::new(alloc);
    for x in 0..nodes_of(n) {
        bits.push(has_lead(n, inputs, c, leads, x))?;
    }
    Ok(bits)
}

/// The path of a partition of which it is known which path leads, and how many nodes have it.
fn group<'a>(n: &'a FlatNet, inputs: u32, lead: Lead, agree: usize, nodes: usize) -> &'a [u8]
    requires inputs { inputs ≡ length n.now.net.inputs }
    requires few { agree < 4294967296 }
    requires node { nodes < 2 * agree → lead.node < length n.now.net.nodes }
    ensures most { nodes < 2 * agree → result.now ≡ path_of n.now.net (inputs + lead.node) }
    ensures none { 2 * agree ≤ nodes → result.now ≡ [] }
{
    // What the design keeps.
    let _nodes = nodes_of(n);
    if 2 * agree <= nodes {
        return b"";
    }
    path(n, NetId(inputs + lead.node))
}

/// The path of each partition. A few passes over the nodes.
pub fn groups<'a>(
    alloc: Global,
    n: &'a FlatNet,
    c: &Certificate,
    nodes: &[usize],
) -> Result<Vec<&'a [u8]>, OutOfMemory>
    requires inputs { c.now.original_inputs ≡ length n.now.net.inputs }
    requires nodes { length c.now.part ≡ length n.now.net.nodes }
    requires counts { AreNodeCounts c.now nodes.now }
    ensures { IfOk result (λ groups. AreGroups n.now.net c.now (texts groups.items)) }
{
    let inputs = n.input_count();
    let count = c.parts() as usize;
    let leads = leads(alloc, n, c)?;
    let bits = agreeing(alloc, n, c, &leads)?;
    let of = part_list(alloc, n, c)?;
    let agree = tally(alloc, &of, &bits, count)?;
    let mut groups = Vec::new(alloc);
    for p in 0..count {
        groups.push(group(n, inputs, leads[p], agree[p], nodes[p]))?;
    }
    Ok(groups)
}
