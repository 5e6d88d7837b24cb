//! What a hardened form is made of.
ghost use Rattle.std.specs.Prelude.{◌≡◌, ◌+◌, ◌*◌, ◌<◌, ◌≤◌, ◌^◌, All, length, IfOk, OnOk};
ghost use Rattle.limits.specs.Most.{widest_nets};
ghost use Rattle.flat_net.specs.Net.{net_count, pin_total};
ghost use Rattle.feedback_cut.specs.Inner.{node_pins};
ghost use Rattle.triplicate.specs.Blocks.{hardened_roles};
ghost use Rattle.triplicate.specs.Planned.{IsPlan, votes_in, plan_votes};
ghost use Rattle.triplicate.specs.Numbers.{HasFewNets};
ghost use Rattle.triplicate.specs.Starts.{AreVoterRows, AreStarts};
ghost use Rattle.triplicate.specs.Taps.{AreTaps};
ghost use Rattle.triplicate.specs.Surveyed.{IsSurvey};
ghost use Rattle.triplicate.specs.Private.Chosen.{AreChosen};

use crate::blocks::{block_starts, hardened_nets};
use crate::choosing::{cut_of, partitions};
use crate::depths::depths_of;
use crate::form::Form;
use crate::surveying::{Survey, survey_of};
use crate::taps::{Taps, tap};
use crate::voters::voting_parts;
use crate::voting::VotedPins;
use feedback_cut::CutPins;
use flat_net::{FlatNet, nodes_of};
use graph::Graph;
use partitioner::Refined;
use recovery_depth::{Extra, bound_in_order};
use std::alloc::Global;
use tmr_base::{OutOfMemory, Parts};

/// What a hardened form is made of. All else of it follows.
#[derive(Drop)]
pub struct Plan {
    /// The partition of each node.
    pub parts: Parts,
    /// Whether pins that read inputs are voted, which is so in version 2 alone.
    pub inputs: bool,
    /// The pins that are voted since they close a loop inside a partition.
    pub cut: CutPins,
    /// The pins that are voted so that no depth is above the bound, and all labels and depths.
    pub extra: Extra,
    /// For each net the partitions that need a voter of it, in ascending order.
    pub voters: Graph,
    /// Which of its net's voters each pin reads.
    pub taps: Taps,
    /// In how many pairs of a node and another partition the node is read there.
    pub cost: u64,
    /// That number for the plain cut.
    pub plain: u64,
    /// Whether no single move of a node lowers the cost.
    pub minimal: bool,
}

impl Plan {
    /// The pins that are voted.
    pub fn votes(&self) -> VotedPins<'_>
        ensures { result ≡ votes_in self.now }
    {
        VotedPins {
            inputs: self.inputs,
            cut: &self.cut,
            extra: &self.extra,
        }
    }

    /// Whether pin j of node y is voted: whether it reads a voter. Nodes and pins are counted from 0.
    pub fn is_voted(&self, n: &FlatNet, y: u32, j: u32) -> bool
        requires taps { AreTaps n.now.net self.now.parts (plan_votes n.now.net self.now) self.now.taps }
        requires node { y < length n.now.net.nodes }
        requires pin { j < length (node_pins n.now.net y) }
        ensures { result ≡ plan_votes n.now.net self.now y j }
    {
        let _nodes = nodes_of(n);
        tap(&self.taps, y, j) != 0
    }

    /// The depth of each partition.
    pub fn depths(&self, alloc: Global) -> Result<Vec<u32>, OutOfMemory>
        requires { length self.now.extra.table.depths ≡ self.now.parts.count }
        ensures depths { IfOk result (λ depths. depths.items ≡ self.now.extra.table.depths) }
        ensures small { OnOk result (All (λ d. d < 2 ^ 32) self.now.extra.table.depths) }
    {
        depths_of(alloc, &self.extra, self.parts.count())
    }

    /// How many nets the hardened design has.
    pub fn nets(&self, n: &FlatNet) -> u32
        requires voters { AreVoterRows n.now.net self.now.parts (plan_votes n.now.net self.now) self.now.voters }
        requires few { HasFewNets n.now.net self.now.parts (plan_votes n.now.net self.now) }
        ensures { result ≡ 3 * length n.now.net.inputs + length (hardened_roles n.now.net self.now.parts (plan_votes n.now.net self.now)) }
    {
        hardened_nets(n, &self.parts, &self.votes(), &self.voters)
    }

    /// For each net the number of the first hardened node that stands for it, and last the number behind all.
    pub fn starts(&self, alloc: Global, n: &FlatNet) -> Result<Vec<u32>, OutOfMemory>
        requires voters { AreVoterRows n.now.net self.now.parts (plan_votes n.now.net self.now) self.now.voters }
        requires few { HasFewNets n.now.net self.now.parts (plan_votes n.now.net self.now) }
        ensures { IfOk result (λ starts. AreStarts n.now.net self.now.parts (plan_votes n.now.net self.now) starts.items) }
    {
        block_starts(alloc, n, &self.parts, &self.votes(), &self.voters)
    }
}

/// A plan, and what planning looked up of the design.
#[derive(Drop)]
pub struct PlanFrom {
    pub plan: Plan,
    pub survey: Survey,
}

/// What a hardened form of a design is made of, for partitions of this size. With `inputs` pins that read inputs are
/// voted too, as version 2 has it; no depth is above `most`. The one refusal is want of memory.
pub fn make_plan(
    alloc: Global,
    n: &FlatNet,
    form: Form,
    size: u32,
    inputs: bool,
    most: u32,
) -> Result<Plan, OutOfMemory>
    requires size { 0 < size }
    requires most { 0 < most }
    requires few { net_count n.now.net + pin_total n.now.net ≤ widest_nets }
    ensures { IfOk result (λ p. IsPlan form n.now.net size inputs most p) }
{
    let survey = survey_of(alloc, n)?;
    let chosen = partitions(alloc, n, survey, form, size)?;
    let plan = plan_of(alloc, n, chosen.refined, form, size, inputs, most)?;
    Ok(plan)
}

/// The plan of `make_plan`, from what planning looks up of the design. It comes back for the plan of another size or form.
pub fn plan_from(
    alloc: Global,
    n: &FlatNet,
    survey: Survey,
    form: Form,
    size: u32,
    inputs: bool,
    most: u32,
) -> Result<PlanFrom, OutOfMemory>
    requires survey { IsSurvey n.now.net survey }
    requires size { 0 < size }
    requires most { 0 < most }
    requires few { net_count n.now.net + pin_total n.now.net ≤ widest_nets }
    ensures plan { IfOk result (λ p. IsPlan form n.now.net size inputs most p.plan) }
    ensures survey { IfOk result (λ p. IsSurvey n.now.net p.survey) }
{
    let chosen = partitions(alloc, n, survey, form, size)?;
    let plan = plan_of(alloc, n, chosen.refined, form, size, inputs, most)?;
    Ok(PlanFrom {
        plan,
        survey: chosen.survey,
    })
}

/// The plan over chosen partitions.
fn plan_of(
    alloc: Global,
    n: &FlatNet,
    refined: Refined,
    form: Form,
    size: u32,
    inputs: bool,
    most: u32,
) -> Result<Plan, OutOfMemory>
    requires chosen { AreChosen form n.now.net size refined }
    requires most { 0 < most }
    requires few { net_count n.now.net + pin_total n.now.net ≤ widest_nets }
    ensures { IfOk result (λ p. IsPlan form n.now.net size inputs most p) }
{
    let _nodes = nodes_of(n);
    let parts = refined.parts;
    let _count = parts.count();
    let found = cut_of(alloc, n, form, &parts)?;
    let extra = bound_in_order(alloc, n, &parts, &found, most)?;
    let votes = VotedPins {
        inputs,
        cut: &found.cut,
        extra: &extra,
    };
    let voters = voting_parts(alloc, n, &parts, &votes)?;
    Ok(Plan {
        parts,
        inputs,
        cut: found.cut,
        extra,
        voters: voters.rows,
        taps: voters.taps,
        cost: refined.cost,
        plain: refined.before,
        minimal: refined.minimal,
    })
}
