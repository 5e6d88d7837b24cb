//! The lines of a picture.
ghost use Rattle.std.specs.Prelude.{◌≡◌, ◌==◌, ◌<◌, ◌≤◌, ◌+◌, ◌*◌, ◌/◌, ◌++◌, ℕ, length, slice_index, max, IfOk, OnOk, codes};
ghost use Rattle.std.specs.List.{flat_map, range_with_len};
ghost use Rattle.partition_graph.specs.Groups.{group_at};
ghost use Rattle.partition_graph.specs.Picture.{quoted, box_text, framed, unframed, box_line, part_line, part_line_in, rest_text, rest_line, place_name, edge_line, head_text};
ghost use Rattle.partition_graph.specs.Private.Counting.{AreCounted, ArePlaces, texts};

use crate::counting::greater;
use crate::places::is_drawn;
use crate::words::{put_all, put_quoted};
use certificate::Certificate;
use flat_net::FlatNet;
use std::alloc::{AllocError, Global};
use std::collections::BTreeMap;
use tmr_base::PartId;

/// What the boxes tell.
#[derive(Drop)]
pub struct BoxCounts {
    /// How many nodes each partition has.
    pub nodes: Vec<usize>,
    /// How many registers each partition has.
    pub registers: Vec<usize>,
    /// The place of each partition.
    pub places: Vec<usize>,
    /// The most nodes of a partition.
    pub most: usize,
}

/// What the box of the partitions that are not drawn tells.
#[derive(Clone, Copy, Drop)]
pub struct Rest {
    /// How many there are.
    pub count: usize,
    /// How many nodes and registers they have.
    pub nodes: usize,
    pub registers: usize,
    /// The greatest depth of one.
    pub depth: usize,
}

/// A name as it stands between quotes.
fn quoted(alloc: Global, name: &[u8]) -> Result<Vec<u8>, AllocError>
    ensures { IfOk result (λ text. text.items ≡ quoted name.now) }
{
    let mut text = Vec::new(alloc);
    put_quoted(&mut text, name)?;
    Ok(text)
}

/// Puts the first lines.
#[tactic(auto, unfolding(crate::specs::Picture::head_text))]
pub fn put_head(alloc: Global, out: &mut Vec<u8>, n: &FlatNet) -> Result<(), AllocError>
    ensures { OnOk result (out.new.items ≡ out.old.items ++ head_text n.now.net) }
{
    let inputs = n.input_count().to_string(alloc)?;
    let outputs = n.output_count().to_string(alloc)?;
    let name = quoted(alloc, n.model().bytes())?;
    put_all(
        out,
        &[
            b"digraph partitions {\n  label=\"".as_slice(),
            name.as_slice(),
            b"\";\n  node [shape=box];\n  inputs [label=\"inputs\\n".as_slice(),
            inputs.as_bytes(),
            b"\", shape=ellipse];\n  outputs [label=\"outputs\\n".as_slice(),
            outputs.as_bytes(),
            b"\", shape=ellipse];\n".as_slice(),
        ],
    )?;
    Ok(())
}

/// The width of the border of a partition with so many nodes.
fn border(nodes: usize, most: usize) -> usize
    requires { nodes < 4294967296 }
    ensures { result ≡ 1 + (4 * nodes) / max most 1 }
{
    1 + 4 * nodes / greater(most, 1)
}

/// The box of partition p, with these numbers.
#[tactic(auto, unfolding(crate::specs::Picture::box_text))]
fn box_of(
    alloc: Global,
    p: usize,
    nodes: usize,
    registers: usize,
    depth: u32,
    width: usize,
) -> Result<Vec<u8>, AllocError>
    ensures { IfOk result (λ text. text.items ≡ box_text p nodes registers depth width) }
{
    let p = p.to_string(alloc)?;
    let nodes = nodes.to_string(alloc)?;
    let registers = registers.to_string(alloc)?;
    let depth = depth.to_string(alloc)?;
    let width = width.to_string(alloc)?;
    let mut text = Vec::new(alloc);
    put_all(
        &mut text,
        &[
            b"p".as_slice(),
            p.as_bytes(),
            b" [label=\"".as_slice(),
            p.as_bytes(),
            b"\\n".as_slice(),
            nodes.as_bytes(),
            b" nodes\\n".as_slice(),
            registers.as_bytes(),
            b" registers\\ndepth ".as_slice(),
            depth.as_bytes(),
            b"\", penwidth=".as_slice(),
            width.as_bytes(),
            b"];".as_slice(),
        ],
    )?;
    Ok(text)
}

/// Puts a box in the frame of a path.
#[tactic(auto, unfolding(crate::specs::Picture::framed))]
fn put_framed(alloc: Global, out: &mut Vec<u8>, path: &[u8], text: &[u8]) -> Result<(), AllocError>
    ensures { OnOk result (out.new.items ≡ out.old.items ++ framed path.now text.now) }
{
    let name = quoted(alloc, path)?;
    put_all(
        out,
        &[
            b"  subgraph \"cluster_".as_slice(),
            name.as_slice(),
            b"\" { label=\"".as_slice(),
            name.as_slice(),
            b"\"; ".as_slice(),
            text,
            b" }\n".as_slice(),
        ],
    )?;
    Ok(())
}

/// Puts a box without a frame.
#[tactic(auto, unfolding(crate::specs::Picture::unframed))]
fn put_unframed(out: &mut Vec<u8>, text: &[u8]) -> Result<(), AllocError>
    ensures { OnOk result (out.new.items ≡ out.old.items ++ unframed text.now) }
{
    put_all(out, &[b"  ".as_slice(), text, b"\n".as_slice()])
}

/// Puts the line of a box, in the frame of a path if there is one.
fn put_box(alloc: Global, out: &mut Vec<u8>, path: &[u8], text: &[u8]) -> Result<(), AllocError>
    ensures { OnOk result (out.new.items ≡ out.old.items ++ box_line path.now text.now) }
{
    match path {
        [] => put_unframed(out, text),
        [_, ..] => put_framed(alloc, out, path, text),
    }
}

/// Puts the line of partition p, if it is drawn.
fn put_part(
    alloc: Global,
    out: &mut Vec<u8>,
    n: &FlatNet,
    c: &Certificate,
    counts: &BoxCounts,
    path: &[u8],
    p: u32,
) -> Result<(), AllocError>
    requires part { p < length c.now.depth }
    requires counts { AreCounted n.now.net c.now counts.now }
    ensures { OnOk result (out.new.items ≡ out.old.items ++ part_line_in n.now.net c.now path.now p) }
{
    let at = p as usize;
    if !is_drawn(c, &counts.places, at) {
        return Ok(());
    }
    let nodes = counts.nodes[at];
    let registers = counts.registers[at];
    let width = border(nodes, counts.most);
    let text = box_of(alloc, at, nodes, registers, c.depth(PartId(p)), width)?;
    put_box(alloc, out, path, &text)
}

/// The path of partition p.
fn path_of<'a>(groups: &[&'a [u8]], p: usize) -> &'a [u8]
    requires { p < length groups.now }
    ensures { result.now ≡ group_at (texts groups.now) p }
{
    groups[p]
}

/// Puts the lines of all partitions that are drawn.
pub fn put_parts(
    alloc: Global,
    out: &mut Vec<u8>,
    n: &FlatNet,
    c: &Certificate,
    counts: &BoxCounts,
    groups: &[&[u8]],
) -> Result<(), AllocError>
    requires long { length groups.now ≡ length c.now.depth }
    requires counts { AreCounted n.now.net c.now counts.now }
    ensures { OnOk result (out.new.items ≡ out.old.items ++ flat_map (part_line n.now.net c.now (texts groups.now)) (range_with_len 0 (length c.now.depth))) }
{
    for p in 0..c.parts() {
        let path = path_of(groups, p as usize);
        put_part(alloc, out, n, c, counts, path, p)?;
    }
    Ok(())
}

/// Puts the line of the partitions that are not drawn.
#[tactic(auto, unfolding(crate::specs::Picture::rest_text))]
fn put_others(alloc: Global, out: &mut Vec<u8>, rest: Rest) -> Result<(), AllocError>
    ensures { OnOk result (out.new.items ≡ out.old.items ++ rest_text rest.count rest.nodes rest.registers rest.depth) }
{
    let count = rest.count.to_string(alloc)?;
    let nodes = rest.nodes.to_string(alloc)?;
    let registers = rest.registers.to_string(alloc)?;
    let depth = rest.depth.to_string(alloc)?;
    put_all(
        out,
        &[
            b"  rest [label=\"".as_slice(),
            count.as_bytes(),
            b" other partitions\\n".as_slice(),
            nodes.as_bytes(),
            b" nodes\\n".as_slice(),
            registers.as_bytes(),
            b" registers\\ndepth at most ".as_slice(),
            depth.as_bytes(),
            b"\", style=dashed];\n".as_slice(),
        ],
    )?;
    Ok(())
}

/// Puts the line of the partitions that are not drawn, if there are some.
pub fn put_rest(alloc: Global, out: &mut Vec<u8>, rest: Rest) -> Result<(), AllocError>
    ensures { OnOk result (out.new.items ≡ out.old.items ++ rest_line rest.count rest.nodes rest.registers rest.depth) }
{
    if rest.count == 0 {
        return Ok(());
    }
    put_others(alloc, out, rest)
}

/// The name of a place, where there are so many partitions.
#[tactic(auto, unfolding(crate::specs::Picture::place_name))]
fn place_name(alloc: Global, parts: usize, a: usize) -> Result<Vec<u8>, AllocError>
    ensures { IfOk result (λ name. name.items ≡ place_name parts a) }
{
    let mut name = Vec::new(alloc);
    if a < parts {
        let number = a.to_string(alloc)?;
        put_all(&mut name, &[b"p".as_slice(), number.as_bytes()])?;
    } else if a == parts {
        put_all(&mut name, &[b"rest".as_slice()])?;
    } else if a - parts == 1 {
        put_all(&mut name, &[b"inputs".as_slice()])?;
    } else {
        put_all(&mut name, &[b"outputs".as_slice()])?;
    }
    Ok(name)
}

/// Puts the line of an edge.
#[tactic(auto, unfolding(crate::specs::Picture::edge_line))]
fn put_edge(
    alloc: Global,
    out: &mut Vec<u8>,
    parts: usize,
    from: usize,
    to: usize,
    number: usize,
) -> Result<(), AllocError>
    ensures { OnOk result (out.new.items ≡ out.old.items ++ edge_line parts ((from, to), number)) }
{
    let from = place_name(alloc, parts, from)?;
    let to = place_name(alloc, parts, to)?;
    let number = number.to_string(alloc)?;
    put_all(
        out,
        &[
            b"  ".as_slice(),
            from.as_slice(),
            b" -> ".as_slice(),
            to.as_slice(),
            b" [label=".as_slice(),
            number.as_bytes(),
            b"];\n".as_slice(),
        ],
    )
}

/// Puts the lines of all edges.
pub fn put_edges(
    alloc: Global,
    out: &mut Vec<u8>,
    parts: usize,
    edges: &BTreeMap<(usize, usize), usize>,
) -> Result<(), AllocError>
    ensures { OnOk result (out.new.items ≡ out.old.items ++ flat_map (edge_line parts) edges.now.entries) }
{
    for ((from, to), number) in edges {
        put_edge(alloc, out, parts, *from, *to, *number)?;
    }
    Ok(())
}

/// Puts the last line.
pub fn put_end(out: &mut Vec<u8>) -> Result<(), AllocError>
    ensures { OnOk result (out.new.items ≡ out.old.items ++ codes "}\n") }
{
    out.extend_from_slice(b"}\n")?;
    Ok(())
}
