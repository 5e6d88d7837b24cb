//! The partitions of each form, and its cut of the loops inside them.
ghost use Rattle.std.specs.Prelude.{◌≡◌, ◌<◌, ◌≤◌, ◌⊎◌, length, IfOk};
ghost use Rattle.feedback_cut.specs.Cut.{CutsLoops, OrdersUncut};
ghost use Rattle.feedback_cut.specs.Inner.{inner_rows};
ghost use Rattle.partitioner.specs.Cost.{cost};
ghost use Rattle.partitioner.specs.Reads.{AreReads};
ghost use Rattle.partitioner.specs.Refining.{refined};
ghost use Rattle.partitioner.specs.Sizes.{KeepsSize};
ghost use Rattle.triplicate.specs.Choices.{IsCutOf};
ghost use Rattle.triplicate.specs.Surveyed.{IsSurvey};
ghost use Rattle.triplicate.specs.Private.Chosen.{AreChosen, AreTold};

use crate::form::Form;
use crate::surveying::{LeanSurvey, Survey, lean_survey};
use clustering::{Level, clusters_from};
use critical_paths::{CostedParts, shortened_from};
use feedback_cut::{OrderedCut, cut_in_order, cut_registers};
use flat_net::FlatNet;
use partitioner::{Reads, Refined, RefinedFrom, plain, refine_from, refine_known};
use std::alloc::Global;
use tmr_base::{OutOfMemory, Parts};

/// Partitions, and what was looked up for them.
#[derive(Drop)]
pub(crate) struct Chosen {
    pub(crate) refined: Refined,
    pub(crate) survey: Survey,
}

/// Partitions refined from the plain cut.
fn plain_partitions(
    alloc: Global,
    n: &FlatNet,
    reads: Reads,
    size: u32,
) -> Result<RefinedFrom, OutOfMemory>
    requires size { 0 < size }
    requires reads { AreReads n.now.net reads }
    ensures chosen { IfOk result (λ r. AreChosen Form.Plain n.now.net size r.refined) }
    ensures reads { IfOk result (λ r. AreReads n.now.net r.reads) }
{
    let start = plain(alloc, n, size)?;
    let refined = refine_from(alloc, n, reads, &start, size, 8)?;
    Ok(refined)
}

/// Partitions that keep the rule of sizes.
fn clustered(
    alloc: Global,
    n: &FlatNet,
    levels: &mut Vec<Level>,
    size: u32,
) -> Result<Parts, OutOfMemory>
    requires { 0 < size }
    ensures { IfOk result (λ parts. KeepsSize n.now.net size parts) }
{
    let parts = clusters_from(alloc, n, levels, size)?;
    Ok(parts)
}

/// The cheaper of two partitionings; the first where both cost the same.
fn cheaper(first: Refined, second: Refined) -> Refined
    ensures given { (result ≡ first) ⊎ (result ≡ second) }
    ensures first { result.cost ≤ first.cost }
    ensures second { result.cost ≤ second.cost }
    ensures tie { first.cost ≤ second.cost → result ≡ first }
{
    if second.cost < first.cost {
        second
    } else {
        first
    }
}

/// The first of two partitionings if it costs at most so much, else the second.
fn within(most: u64, first: Refined, second: Refined) -> Refined
    requires { second.cost ≤ most }
    ensures given { (result ≡ first) ⊎ (result ≡ second) }
    ensures most { result.cost ≤ most }
    ensures first { first.cost ≤ most → result ≡ first }
{
    if first.cost <= most { first } else { second }
}

/// What refining gives from a start that keeps the rule of sizes.
fn refined_from(
    alloc: Global,
    n: &FlatNet,
    reads: Reads,
    start: &Parts,
    size: u32,
) -> Result<RefinedFrom, OutOfMemory>
    requires size { 0 < size }
    requires reads { AreReads n.now.net reads }
    requires start { KeepsSize n.now.net size start.now }
    ensures exact { IfOk result (λ r. r.refined.parts ≡ refined n.now.net size start.now 8) }
    ensures told { IfOk result (λ r. AreTold n.now.net size r.refined) }
    ensures reads { IfOk result (λ r. AreReads n.now.net r.reads) }
{
    let refined = refine_from(alloc, n, reads, start, size, 8)?;
    Ok(refined)
}

/// What is told of partitions whose cost is known. No node is moved.
fn as_they_are(
    alloc: Global,
    n: &FlatNet,
    reads: Reads,
    short: &CostedParts,
    size: u32,
) -> Result<RefinedFrom, OutOfMemory>
    requires size { 0 < size }
    requires reads { AreReads n.now.net reads }
    requires parts { KeepsSize n.now.net size short.now.parts }
    requires cost { short.now.cost ≡ cost n.now.net short.now.parts }
    ensures parts { IfOk result (λ r. r.refined.parts ≡ short.now.parts) }
    ensures told { IfOk result (λ r. AreTold n.now.net size r.refined) }
    ensures reads { IfOk result (λ r. AreReads n.now.net r.reads) }
{
    let found = refine_known(alloc, n, reads, &short.parts, size, 0, short.cost)?;
    Ok(found)
}

/// Partitions refined from clusters, and then moved off long paths, where these cost no more than those refined from the plain cut; else
/// the cheaper of both as they were refined. No pass follows the moves: it would take them back.
fn lean_partitions(
    alloc: Global,
    n: &FlatNet,
    reads: Reads,
    survey: &mut LeanSurvey,
    size: u32,
) -> Result<RefinedFrom, OutOfMemory>
    requires size { 0 < size }
    requires reads { AreReads n.now.net reads }
    ensures chosen { IfOk result (λ r. AreChosen Form.Lean n.now.net size r.refined) }
    ensures reads { IfOk result (λ r. AreReads n.now.net r.reads) }
{
    let first = plain_partitions(alloc, n, reads, size)?;
    let standard = first.refined;
    let before = standard.before;
    let most = standard.cost;
    let start = clustered(alloc, n, &mut survey.levels, size)?;
    let lean = refined_from(alloc, n, first.reads, &start, size)?;
    let short = shortened_from(
        alloc,
        n,
        &lean.reads.readers,
        &survey.circuit,
        &lean.refined.parts,
        size,
        lean.refined.cost,
    )?;
    let fast = as_they_are(alloc, n, lean.reads, &short, size)?;
    let other = cheaper(standard, lean.refined);
    let chosen = within(most, fast.refined, other);
    let refined = Refined {
        parts: chosen.parts,
        cost: chosen.cost,
        before,
        minimal: chosen.minimal,
    };
    let reads = fast.reads;
    Ok(RefinedFrom { refined, reads })
}

/// Partitions, with what was looked up of the design for all forms and for the lean one.
fn chosen_with(found: RefinedFrom, lean: Option<LeanSurvey>) -> Chosen
    ensures refined { result.refined ≡ found.refined }
    ensures reads { result.survey.reads ≡ found.reads }
    ensures lean { result.survey.lean ≡ lean }
{
    let RefinedFrom { refined, reads } = found;
    Chosen {
        refined,
        survey: Survey { reads, lean },
    }
}

/// The partitions of a form, and what is told of them. `before` is what the plain cut costs.
pub(crate) fn partitions(
    alloc: Global,
    n: &FlatNet,
    survey: Survey,
    form: Form,
    size: u32,
) -> Result<Chosen, OutOfMemory>
    requires size { 0 < size }
    requires survey { IsSurvey n.now.net survey }
    ensures chosen { IfOk result (λ r. AreChosen form n.now.net size r.refined) }
    ensures survey { IfOk result (λ r. IsSurvey n.now.net r.survey) }
{
    let Survey { reads, lean } = survey;
    match form {
        Form::Plain => {
            let found = plain_partitions(alloc, n, reads, size)?;
            Ok(chosen_with(found, lean))
        }
        Form::Lean => {
            let mut made = lean_survey(alloc, n, &reads.readers, lean)?;
            let found = lean_partitions(alloc, n, reads, &mut made, size)?;
            Ok(chosen_with(found, Some(made)))
        }
    }
}

/// The cut of a form.
pub(crate) fn cut_of(
    alloc: Global,
    n: &FlatNet,
    form: Form,
    parts: &Parts,
) -> Result<OrderedCut, OutOfMemory>
    requires { length parts.now.of ≡ length n.now.net.nodes }
    ensures cut { IfOk result (λ found. IsCutOf form n.now.net parts.now found.cut) }
    ensures loops { IfOk result (λ found. CutsLoops n.now.net parts.now found.cut) }
    ensures graph { IfOk result (λ found. found.graph ≡ inner_rows n.now.net parts.now) }
    ensures order { IfOk result (λ found. OrdersUncut n.now.net parts.now found.cut found.order.items) }
{
    match form {
        Form::Plain => {
            let found = cut_in_order(alloc, n, parts)?;
            Ok(found)
        }
        Form::Lean => {
            let found = cut_registers(alloc, n, parts)?;
            Ok(found)
        }
    }
}
