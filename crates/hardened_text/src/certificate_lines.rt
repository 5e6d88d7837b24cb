//! Parts of the text of the certificate.
ghost use Rattle.std.specs.Prelude.{◌≡◌, ◌<◌, ◌+◌, ◌++◌, ◌∷◌, [], length, codes, OnOk};
ghost use Rattle.std.specs.Fmt.{decimal};
ghost use Rattle.std.specs.List.{flat_map};
ghost use Rattle.tmr_base.specs.Copies.{copy_number};
ghost use Rattle.flat_net.specs.Net.{net_count};
ghost use Rattle.certificate.specs.Text.{line_text, part_line};
ghost use Rattle.triplicate.specs.Form.{version_of};
ghost use Rattle.triplicate.specs.Planned.{plan_votes};
ghost use Rattle.triplicate.specs.Starts.{AreVoterRows};
ghost use Rattle.hardened_text.specs.Private.Spelled.{line_head, line_end, line_at, lines_at};
ghost use Rattle.hardened_text.specs.Private.Lines.{node_words, node_text, voters_text};

use crate::names::put_three_names;
use flat_net::{FlatNet, nodes_of};
use itoa::Buffer;
use std::alloc::AllocError;
use tmr_base::{CopyNo, NetId};
use triplicate::Plan;

/// Puts a blank and the word.
fn put_word(out: &mut Vec<u8>, word: &[u8]) -> Result<(), AllocError>
    ensures { OnOk result (out.new.items ≡ out.old.items ++ 32 ∷ word.now) }
{
    out.push(b' ')?;
    out.extend_from_slice(word)?;
    Ok(())
}

/// Puts a blank and the number.
fn put_number(out: &mut Vec<u8>, number: u32) -> Result<(), AllocError>
    ensures { OnOk result (out.new.items ≡ out.old.items ++ 32 ∷ decimal number) }
{
    let mut digits = Buffer::new();
    let digits = digits.format(number);
    put_word(out, digits.as_bytes())?;
    Ok(())
}

/// Puts a blank and the number, three times.
fn put_label(out: &mut Vec<u8>, label: u32) -> Result<(), AllocError>
    ensures { OnOk result (out.new.items ≡ out.old.items ++ 32 ∷ (decimal label ++ 32 ∷ (decimal label ++ 32 ∷ decimal label))) }
{
    let mut digits = Buffer::new();
    let digits = digits.format(label).as_bytes();
    put_word(out, digits)?;
    put_word(out, digits)?;
    put_word(out, digits)?;
    Ok(())
}

/// Puts the line of the node with this name.
fn put_node(out: &mut Vec<u8>, name: &[u8], part: u32, label: u32) -> Result<(), AllocError>
    ensures { OnOk result (out.new.items ≡ out.old.items ++ line_text (node_words name.now part label)) }
{
    out.extend_from_slice(b"node")?;
    put_word(out, name)?;
    put_number(out, part)?;
    put_three_names(out, name)?;
    put_label(out, label)?;
    out.push(b'\n')?;
    Ok(())
}

/// Puts the line of node y.
pub fn put_node_of(out: &mut Vec<u8>, n: &FlatNet, plan: &Plan, y: u32) -> Result<(), AllocError>
    requires parts { length plan.now.parts.of ≡ length n.now.net.nodes }
    requires labels { length plan.now.extra.table.labels ≡ length n.now.net.nodes }
    requires node { y < length n.now.net.nodes }
    ensures { OnOk result (out.new.items ≡ out.old.items ++ node_text n.now.net plan.now.parts plan.now.extra.table.labels y) }
{
    let _nodes = nodes_of(n);
    let name = n.name(NetId(n.input_count() + y)).bytes();
    put_node(out, name, plan.parts.of(y), plan.extra.label(y))?;
    Ok(())
}

/// Puts what the lines of all voters of the net with this name begin with.
fn put_head(out: &mut Vec<u8>, name: &[u8]) -> Result<(), AllocError>
    ensures { OnOk result (out.new.items ≡ out.old.items ++ line_head name.now) }
{
    out.extend_from_slice(b"voter ")?;
    out.extend_from_slice(name)?;
    out.push(b'~')?;
    Ok(())
}

/// How the name of a voter ends, and a blank.
fn ending(c: CopyNo) -> &'static [u8]
    ensures { result.now ≡ 126 ∷ (97 + copy_number c) ∷ 32 ∷ [] }
{
    match c {
        CopyNo::First => b"~a ",
        CopyNo::Second => b"~b ",
        CopyNo::Third => b"~c ",
    }
}

/// How the line of a voter ends: with the number of its copy.
fn copy_end(c: CopyNo) -> &'static [u8]
    ensures { result.now ≡ line_end c }
{
    match c {
        CopyNo::First => b" 0\n",
        CopyNo::Second => b" 1\n",
        CopyNo::Third => b" 2\n",
    }
}

/// Puts the line of the voter that gives copy c.
fn put_voter(
    out: &mut Vec<u8>,
    head: &[u8],
    name: &[u8],
    digits: &[u8],
    c: CopyNo,
) -> Result<(), AllocError>
    ensures { OnOk result (out.new.items ≡ out.old.items ++ line_at head.now name.now digits.now c) }
{
    out.extend_from_slice(head)?;
    out.extend_from_slice(digits)?;
    out.extend_from_slice(ending(c))?;
    out.extend_from_slice(name)?;
    out.push(b' ')?;
    out.extend_from_slice(digits)?;
    out.extend_from_slice(copy_end(c))?;
    Ok(())
}

/// Puts the lines of the three voters for partition p.
fn put_three(out: &mut Vec<u8>, head: &[u8], name: &[u8], p: u32) -> Result<(), AllocError>
    ensures { OnOk result (out.new.items ≡ out.old.items ++ lines_at head.now name.now p) }
{
    let mut digits = Buffer::new();
    let digits = digits.format(p).as_bytes();
    put_voter(out, head, name, digits, CopyNo::First)?;
    put_voter(out, head, name, digits, CopyNo::Second)?;
    put_voter(out, head, name, digits, CopyNo::Third)?;
    Ok(())
}

/// Puts the lines of the voters for each of these partitions.
fn put_each(out: &mut Vec<u8>, head: &[u8], name: &[u8], row: &[u32]) -> Result<(), AllocError>
    ensures { OnOk result (out.new.items ≡ out.old.items ++ flat_map (lines_at head.now name.now) row.now) }
{
    for p in row {
        put_three(out, head, name, *p)?;
    }
    Ok(())
}

/// Puts the lines of the voters of the net with this name for these partitions. `head` is room for a part of a line.
fn put_row(
    out: &mut Vec<u8>,
    name: &[u8],
    row: &[u32],
    head: &mut Vec<u8>,
) -> Result<(), AllocError>
    ensures { OnOk result (out.new.items ≡ out.old.items ++ flat_map (lines_at (line_head name.now) name.now) row.now) }
{
    if row.is_empty() {
        return Ok(());
    }
    head.clear();
    put_head(head, name)?;
    put_each(out, head, name, row)?;
    Ok(())
}

/// Puts the lines of the voters of net x. `head` is room for a part of a line.
pub fn put_voters_of(
    out: &mut Vec<u8>,
    n: &FlatNet,
    plan: &Plan,
    x: u32,
    head: &mut Vec<u8>,
) -> Result<(), AllocError>
    requires voters { AreVoterRows n.now.net plan.now.parts (plan_votes n.now.net plan.now) plan.now.voters }
    requires net { x < net_count n.now.net }
    ensures { OnOk result (out.new.items ≡ out.old.items ++ voters_text n.now.net plan.now.parts (plan_votes n.now.net plan.now) x) }
{
    put_row(out, n.name(NetId(x)).bytes(), plan.voters.row(x), head)?;
    Ok(())
}

/// Puts the line of partition p.
pub fn put_part(out: &mut Vec<u8>, p: u32, depth: u32) -> Result<(), AllocError>
    ensures { OnOk result (out.new.items ≡ out.old.items ++ line_text (part_line p depth)) }
{
    out.extend_from_slice(b"part")?;
    put_number(out, p)?;
    out.extend_from_slice(b" depth")?;
    put_number(out, depth)?;
    out.push(b'\n')?;
    Ok(())
}

/// The version of the certificate.
fn version(inputs: bool) -> u32
    ensures { result ≡ version_of inputs }
{
    if inputs { 2 } else { 1 }
}

/// Puts the first two lines.
pub fn put_front(out: &mut Vec<u8>, plan: &Plan) -> Result<(), AllocError>
    ensures { OnOk result (out.new.items ≡ (out.old.items ++ line_text (codes "tmr-cert" ∷ decimal (version_of plan.now.inputs) ∷ [])) ++ line_text (codes "parts" ∷ decimal plan.now.parts.count ∷ [])) }
{
    out.extend_from_slice(b"tmr-cert")?;
    put_number(out, version(plan.inputs))?;
    out.extend_from_slice(b"\nparts")?;
    put_number(out, plan.parts.count())?;
    out.push(b'\n')?;
    Ok(())
}
