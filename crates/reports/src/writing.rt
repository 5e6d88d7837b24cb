//! The lines of a report.
ghost use Rattle.std.specs.Prelude.{◌≡◌, ◌==◌, ◌≤◌, ◌<◌, ◌+◌, ◌*◌, ◌^◌, ℕ, List, All, [], ◌∷◌, ◌++◌, length, count_by, map, codes, slice_get, slice_index, Some, OnOk};
ghost use Rattle.std.specs.List.{flat_map};
ghost use Rattle.std.specs.Fmt.{decimal};
ghost use Rattle.flat_net.specs.Net.{net_count, register_count};
ghost use Rattle.flat_net.specs.Nodes.{number_of};
ghost use Rattle.certificate.specs.Cert.{Fits};
ghost use Rattle.certificate.specs.Text.{line_text};
ghost use Rattle.recovery_depth.specs.Depths.{is_register_at};
ghost use Rattle.partitioner.specs.Cost.{cost as cost_of};
ghost use Rattle.reports.specs.Counts.{partitions, is_border_voter, is_feedback_voter, is_input_voter, count_in, any_node, loops_in};
ghost use Rattle.reports.specs.Report.{head_lines, input_words, voters_line, part_line, part_words, chain_words};
ghost use Rattle.reports.specs.Private.Left.{spaced, parts_left, AreCounted, AreNets};

use crate::voters::Voters;
use crate::words::{
    put_count, put_decimal, put_end, put_first, put_line, put_names, put_word, put_words,
};
use certificate::Certificate;
use feedback_cut::LoopGroups;
use flat_net::{FlatNet, nodes_of};
use recovery_depth::Deep;
use std::alloc::{AllocError, Global};
use tmr_base::PartId;

/// For each partition, how many nodes it has, how many registers, and how many components with a loop.
#[derive(Drop)]
pub struct PartCounts {
    pub nodes: Vec<u32>,
    pub registers: Vec<u32>,
    pub loops: Vec<u32>,
    /// The components by which the loops are counted.
    pub groups: LoopGroups,
}

/// Puts a word and a number, a blank before each.
fn put_number(alloc: Global, out: &mut Vec<u8>, word: &[u8], number: u32) -> Result<(), AllocError>
    ensures { OnOk result (out.new.items ≡ out.old.items ++ spaced (word.now ∷ decimal number ∷ [])) }
{
    let number = number.to_string(alloc)?;
    put_words(out, &[word, number.as_bytes()])?;
    Ok(())
}

/// In version 2 puts how many voters of inputs there are.
#[tactic(auto, using(crate::proofs::WordLaws::no_inputs, crate::proofs::WordLaws::some_inputs))]
fn put_inputs(
    alloc: Global,
    out: &mut Vec<u8>,
    c: &Certificate,
    inputs: u32,
) -> Result<(), AllocError>
    requires { inputs ≡ count_by (is_input_voter c.now) c.now.roles }
    ensures { OnOk result (out.new.items ≡ out.old.items ++ spaced (input_words c.now)) }
{
    if c.version() == 1 {
        return Ok(());
    }
    put_number(alloc, out, b"inputs", inputs)?;
    Ok(())
}

/// Puts the line of the voters.
#[tactic(auto, using(crate::proofs::WordLaws::voters_put))]
fn put_voters(
    alloc: Global,
    out: &mut Vec<u8>,
    c: &Certificate,
    voters: Voters,
) -> Result<(), AllocError>
    requires border { voters.border ≡ count_by (is_border_voter c.now) c.now.roles }
    requires feedback { voters.feedback ≡ count_by (is_feedback_voter c.now) c.now.roles }
    requires inputs { voters.inputs ≡ count_by (is_input_voter c.now) c.now.roles }
    ensures { OnOk result (out.new.items ≡ out.old.items ++ line_text (voters_line c.now)) }
{
    put_first(out, b"voters")?;
    put_number(alloc, out, b"border", voters.border)?;
    put_number(alloc, out, b"feedback", voters.feedback)?;
    put_inputs(alloc, out, c, voters.inputs)?;
    put_end(out)?;
    Ok(())
}

/// Puts the line of the partitions' number and cost.
fn put_cost(alloc: Global, out: &mut Vec<u8>, parts: u32, cost: u64) -> Result<(), AllocError>
    ensures { OnOk result (out.new.items ≡ out.old.items ++ line_text (codes "partitions" ∷ decimal parts ∷ codes "cost" ∷ decimal cost ∷ [])) }
{
    let parts = parts.to_string(alloc)?;
    let cost = cost.to_string(alloc)?;
    put_line(
        out,
        b"partitions",
        &[parts.as_bytes(), b"cost".as_slice(), cost.as_bytes()],
    )
}

/// Puts the first five lines.
#[tactic(auto, using(crate::proofs::LineLaws::five_put))]
pub fn put_head(
    alloc: Global,
    out: &mut Vec<u8>,
    n: &FlatNet,
    c: &Certificate,
    voters: Voters,
    cost: u64,
) -> Result<(), AllocError>
    requires border { voters.border ≡ count_by (is_border_voter c.now) c.now.roles }
    requires feedback { voters.feedback ≡ count_by (is_feedback_voter c.now) c.now.roles }
    requires inputs { voters.inputs ≡ count_by (is_input_voter c.now) c.now.roles }
    requires cost { cost ≡ cost_of n.now.net (partitions c.now) }
    ensures { OnOk result (out.new.items ≡ out.old.items ++ flat_map line_text (head_lines n.now.net c.now)) }
{
    let nodes = u64::from(nodes_of(n));
    put_count(alloc, out, b"nodes", nodes)?;
    put_count(alloc, out, b"registers", u64::from(n.register_count()))?;
    put_count(alloc, out, b"copies", 3 * nodes)?;
    put_voters(alloc, out, c, voters)?;
    put_cost(alloc, out, c.parts(), cost)?;
    Ok(())
}

/// The numbers that the line of a partition tells.
#[derive(Clone, Copy, Drop)]
struct PartNumbers {
    nodes: u32,
    registers: u32,
    loops: u32,
    depth: u32,
    least: u32,
}

/// Puts the words of partition p's line but the first and the names: six numbers, each behind a word.
#[tactic(auto, using(crate::proofs::WordLaws::numbers_put))]
fn put_numbers(
    alloc: Global,
    out: &mut Vec<u8>,
    p: u32,
    part: PartNumbers,
) -> Result<(), AllocError>
    ensures { OnOk result (out.new.items ≡ out.old.items ++ spaced (decimal p ∷ codes "nodes" ∷ decimal part.nodes ∷ codes "registers" ∷ decimal part.registers ∷ codes "loops" ∷ decimal part.loops ∷ codes "depth" ∷ decimal part.depth ∷ codes "least" ∷ decimal part.least ∷ codes "chain" ∷ [])) }
{
    put_decimal(alloc, out, p)?;
    put_number(alloc, out, b"nodes", part.nodes)?;
    put_number(alloc, out, b"registers", part.registers)?;
    put_number(alloc, out, b"loops", part.loops)?;
    put_number(alloc, out, b"depth", part.depth)?;
    put_number(alloc, out, b"least", part.least)?;
    put_word(out, b"chain")?;
    Ok(())
}

/// The count of partition p.
fn count_at(counts: &[u32], p: u32) -> u32
    requires { p < length counts.now }
    ensures { result ≡ slice_index counts.now p }
{
    counts[p as usize]
}

/// Entry p.
fn deep_at(deeps: &[Deep], p: u32) -> &Deep
    requires { p < length deeps.now }
    ensures { slice_get deeps.now p ≡ Some result.now }
{
    &deeps[p as usize]
}

/// Puts the line of partition p.
#[tactic(auto, using(crate::proofs::WordLaws::long_line_put))]
fn put_part(
    alloc: Global,
    out: &mut Vec<u8>,
    n: &FlatNet,
    c: &Certificate,
    counts: &PartCounts,
    p: u32,
    deep: &Deep,
) -> Result<(), AllocError>
    requires part { p < length c.now.depth }
    requires counts { AreCounted n.now.net c.now counts.now }
    requires chain { All (λ x. x < net_count n.now.net) (map number_of deep.now.chain.items) }
    ensures { OnOk result (out.new.items ≡ out.old.items ++ line_text (part_line n.now.net c.now counts.now.groups p deep.now)) }
{
    put_first(out, b"part")?;
    let nodes = count_at(&counts.nodes, p);
    let registers = count_at(&counts.registers, p);
    let loops = count_at(&counts.loops, p);
    let depth = c.depth(PartId(p));
    let numbers = PartNumbers {
        nodes,
        registers,
        loops,
        depth,
        least: deep.depth,
    };
    put_numbers(alloc, out, p, numbers)?;
    put_names(out, n, &deep.chain)?;
    put_end(out)?;
    Ok(())
}

/// Puts the lines of all partitions.
pub fn put_parts(
    alloc: Global,
    out: &mut Vec<u8>,
    n: &FlatNet,
    c: &Certificate,
    counts: &PartCounts,
    deeps: &[Deep],
) -> Result<(), AllocError>
    requires long { length deeps.now ≡ length c.now.depth }
    requires counts { AreCounted n.now.net c.now counts.now }
    requires chains { AreNets n.now.net deeps.now }
    ensures { OnOk result (out.new.items ≡ out.old.items ++ parts_left n.now.net c.now counts.now.groups deeps.now 0) }
{
    for p in 0..c.parts() {
        put_part(alloc, out, n, c, counts, p, deep_at(deeps, p))?;
    }
    Ok(())
}
