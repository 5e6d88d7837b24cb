//! Hardening.
ghost use Rattle.std.specs.Prelude.{◌≡◌, ◌+◌, ◌<◌, ◌≤◌, ◌⊎◌, length, IfOk};
ghost use Rattle.limits.specs.Most.{widest_nets};
ghost use Rattle.flat_net.specs.Net.{net_count, pin_total};
ghost use Rattle.triplicate.specs.Construction.{hardened_net};
ghost use Rattle.triplicate.specs.Given.{IsGiven};
ghost use Rattle.triplicate.specs.Labels.{labeling};
ghost use Rattle.triplicate.specs.Pins.{AreVotesOf};
ghost use Rattle.triplicate.specs.Planned.{votes_in, plan_votes, cert_in};
ghost use Rattle.triplicate.specs.Result.{IsHardenedPair, IsFreeHardenedPair, IsBoundedPair};
ghost use Rattle.triplicate.specs.Starts.{AreVoterRows};
ghost use Rattle.triplicate.specs.Taps.{AreTaps};
ghost use Rattle.hardened_pair.specs.Private.Built.{IsBuilt};

use crate::assembling::{assembled, certified};
use crate::layout::Layout;
use crate::marking::hardened_marks;
use crate::tripling::make_tripled;
use certificate::Certificate;
use flat_net::{FlatNet, FreeNet, nodes_of};
use std::alloc::Global;
use tmr_base::OutOfMemory;
use triplicate::{Form, Hardened, HardenedFree, Plan, make_plan};

/// A bound on depths that is above the number of nodes of every design, and so adds no voters.
const NO_BOUND: u32 = 4294967295;

/// The hardened design and its certificate, for this plan.
fn paired(alloc: Global, n: &FlatNet, plan: &Plan) -> Result<(FlatNet, Certificate), OutOfMemory>
    requires votes { AreVotesOf n.now.net plan.now.parts (votes_in plan.now) }
    requires voters { AreVoterRows n.now.net plan.now.parts (plan_votes n.now.net plan.now) plan.now.voters }
    requires taps { AreTaps n.now.net plan.now.parts (plan_votes n.now.net plan.now) plan.now.taps }
    requires given { IsGiven n.now.net plan.now.parts (plan_votes n.now.net plan.now) (labeling plan.now.inputs plan.now.extra.table) }
    ensures net { IfOk result (λ r. r.0.net ≡ hardened_net n.now.net plan.now.parts (plan_votes n.now.net plan.now)) }
    ensures cert { IfOk result (λ r. r.1 ≡ cert_in n.now.net plan.now) }
{
    let _nodes = nodes_of(n);
    let starts = plan.starts(alloc, n)?;
    let layout = Layout {
        net: n,
        plan,
        starts,
    };
    let made = make_tripled(alloc, &layout)?;
    let net = assembled(alloc, &layout, made.names, made.nodes)?;
    let cert = certified(alloc, &layout, made.roles)?;
    Ok((net, cert))
}

/// The pair, whatever its form and version; with `inputs` pins that read inputs are voted too; no label is above `most`. The one refusal is want of memory.
fn build(
    alloc: Global,
    n: &FlatNet,
    form: Form,
    size: u32,
    inputs: bool,
    most: u32,
) -> Result<Hardened, OutOfMemory>
    requires size { 0 < size }
    requires most { 0 < most }
    requires few { net_count n.now.net + pin_total n.now.net ≤ widest_nets }
    ensures { IfOk result (λ r. IsBuilt form n.now.net size inputs most r) }
{
    let _nodes = nodes_of(n);
    let plan = make_plan(alloc, n, form, size, inputs, most)?;
    let (net, cert) = paired(alloc, n, &plan)?;
    let voters = net.node_count() - 3 * n.node_count();
    Ok(Hardened {
        net,
        cert,
        cost: plan.cost,
        plain: plan.plain,
        minimal: plan.minimal,
        voters,
    })
}

/// The design made threefold, with a voter of each net for each partition in which a voted pin reads it, and its
/// certificate, of version 1. `size` is the size of partitions. The one refusal is want of memory.
pub fn harden(alloc: Global, n: &FlatNet, size: u32) -> Result<Hardened, OutOfMemory>
    requires size { 0 < size }
    requires few { net_count n.now.net + pin_total n.now.net ≤ widest_nets }
    ensures { IfOk result (λ r. IsHardenedPair n.now.net size r) }
{
    let hardened = build(alloc, n, Form::Plain, size, false, NO_BOUND)?;
    Ok(hardened)
}

/// The same of either form and in either version, with no depth above `most`, since the pins of registers that would bring
/// a greater label are voted too; a bound above the number of nodes adds no voters. In version 2 pins that read inputs are
/// voted too, and copies are marked as their nodes are; in version 1 no copy is marked. The one refusal is want of memory.
pub fn harden_form(
    alloc: Global,
    n: &FreeNet,
    form: Form,
    size: u32,
    version: u8,
    most: u32,
) -> Result<HardenedFree, OutOfMemory>
    requires size { 0 < size }
    requires version { (version ≡ 1) ⊎ (version ≡ 2) }
    requires most { 0 < most }
    requires few { net_count n.now.design.net + pin_total n.now.design.net ≤ widest_nets }
    ensures { IfOk result (λ r. IsBoundedPair form n.now size version most r) }
{
    let original = n.net();
    let hardened = build(alloc, original, form, size, version == 2, most)?;
    let marks = hardened_marks(alloc, n, &hardened.net, &hardened.cert)?;
    Ok(HardenedFree {
        net: FreeNet::make(hardened.net, marks),
        cert: hardened.cert,
        cost: hardened.cost,
        plain: hardened.plain,
        minimal: hardened.minimal,
        voters: hardened.voters,
    })
}

/// The plain form in either version, with no depth above `most`. The one refusal is want of memory.
pub fn harden_deep(
    alloc: Global,
    n: &FreeNet,
    size: u32,
    version: u8,
    most: u32,
) -> Result<HardenedFree, OutOfMemory>
    requires size { 0 < size }
    requires version { (version ≡ 1) ⊎ (version ≡ 2) }
    requires most { 0 < most }
    requires few { net_count n.now.design.net + pin_total n.now.design.net ≤ widest_nets }
    ensures { IfOk result (λ r. IsBoundedPair Form.Plain n.now size version most r) }
{
    let hardened = harden_form(alloc, n, Form::Plain, size, version, most)?;
    Ok(hardened)
}

/// The plain form in version 2, without a bound. The one refusal is want of memory.
pub fn harden_free(alloc: Global, n: &FreeNet, size: u32) -> Result<HardenedFree, OutOfMemory>
    requires size { 0 < size }
    requires few { net_count n.now.design.net + pin_total n.now.design.net ≤ widest_nets }
    ensures { IfOk result (λ r. IsFreeHardenedPair n.now size r) }
{
    let hardened = harden_deep(alloc, n, size, 2, NO_BOUND)?;
    Ok(hardened)
}
