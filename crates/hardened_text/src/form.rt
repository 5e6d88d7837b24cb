//! What both texts are made of, and what is told of the pair.
ghost use Rattle.std.specs.Prelude.{◌≡◌, ◌+◌, ◌<◌, ◌≤◌, ◌⊎◌, IfOk};
ghost use Rattle.limits.specs.Most.{widest_nets};
ghost use Rattle.flat_net.specs.Net.{net_count, pin_total};
ghost use Rattle.hardened_text.specs.Texts.{IsFormOf};

use flat_net::{FreeNet, nodes_of};
use std::alloc::Global;
use tmr_base::OutOfMemory;
use triplicate::{Form, Plan, make_plan};

/// A hardened form of a design, of which both texts can be given: its plan, and what is told of it.
#[derive(Drop)]
pub struct HardenedForm {
    pub(crate) plan: Plan,
    /// How many nodes the hardened design has.
    pub nodes: u32,
    /// How many partitions there are.
    pub partitions: u32,
    /// The depth of each partition, in cycles.
    pub depths: Vec<u32>,
    /// In how many pairs of a node and another partition the node is read there.
    pub cost: u64,
    /// That number for the plain cut.
    pub plain: u64,
    /// Whether no single move of a node lowers the cost.
    pub minimal: bool,
    /// How many voters there are.
    pub voters: u32,
}

/// The design made threefold in this form, with a certificate of this version. `size` is the size of partitions; no
/// depth is above `most`, and a bound above the number of nodes adds no voters. Both texts and all numbers are those of one
/// pair in the hardened form. The one refusal is want of memory.
pub fn harden_form(
    alloc: Global,
    n: &FreeNet,
    form: Form,
    size: u32,
    version: u8,
    most: u32,
) -> Result<HardenedForm, OutOfMemory>
    requires size { 0 < size }
    requires version { (version ≡ 1) ⊎ (version ≡ 2) }
    requires most { 0 < most }
    requires few { net_count n.now.design.net + pin_total n.now.design.net ≤ widest_nets }
    ensures { IfOk result (λ t. IsFormOf form n.now size version most t) }
{
    let net = n.net();
    let count = nodes_of(net);
    let plan = make_plan(alloc, net, form, size, version == 2, most)?;
    let depths = plan.depths(alloc)?;
    let nodes = plan.nets(net) - 3 * net.input_count();
    Ok(HardenedForm {
        nodes,
        partitions: plan.parts.count(),
        depths,
        cost: plan.cost,
        plain: plan.plain,
        minimal: plan.minimal,
        voters: nodes - 3 * count,
        plan,
    })
}
