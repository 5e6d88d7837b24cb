//! What the hardened form of one size has.
ghost use Rattle.std.specs.Prelude.{◌≡◌, ◌+◌, ◌<◌, ◌≤◌, ◌⊎◌, length, nat_eq, IfOk};
ghost use Rattle.limits.specs.Most.{widest_nets};
ghost use Rattle.flat_net.specs.Net.{net_count, pin_total};
ghost use Rattle.triplicate.specs.Planned.{IsPlan};
ghost use Rattle.triplicate.specs.Surveyed.{IsSurvey};
ghost use Rattle.sweep.specs.Sweep.{greatest, IsSwept};

use crate::counting::copy_counts;
use crate::longest::voted_levels;
use crate::near::near_all;
use crate::reaching::greater;
use crate::votes::Votes;
use flat_net::{FlatNet, FreeNet, nodes_of};
use std::alloc::Global;
use tmr_base::OutOfMemory;
use triplicate::{Form, Plan, Survey, plan_from};

/// What the hardened form of one size has.
#[derive(Clone, Copy, Drop)]
pub struct Swept {
    /// The size of partitions.
    pub size: u32,
    /// How many partitions there are.
    pub partitions: u32,
    /// How many voters there are.
    pub voters: u32,
    /// The greatest depth, in cycles.
    pub depth: u32,
    /// The most tables, voters among them, on a path from an input or a register to a register or an output.
    pub levels: u32,
    /// How many pairs of nets and distances of cycles are too near.
    pub near: u128,
}

/// The greatest of these depths, or 0 where there is none.
fn greatest(depths: &[u32]) -> u32
    ensures { result ≡ greatest depths.now }
{
    let mut most = 0;
    for p in 0..depths.len() {
        most = greater(most, depths[p]);
    }
    most
}

/// The same, and what planning looked up of the design, for the next size.
#[derive(Drop)]
pub struct SweptFrom {
    pub swept: Swept,
    pub survey: Survey,
}

/// The hardened form that is asked for: which one, the size of its partitions, and the version of its certificate.
#[derive(Clone, Copy, Drop)]
struct Asked {
    form: Form,
    size: u32,
    version: u8,
}

/// What the design made threefold by this plan has, where no depth is above `most`. `net` is that of `n`.
fn swept_of(
    alloc: Global,
    n: &FreeNet,
    net: &FlatNet,
    plan: &Plan,
    asked: Asked,
    most: u32,
) -> Result<Swept, OutOfMemory>
    requires version { (asked.version ≡ 1) ⊎ (asked.version ≡ 2) }
    requires same { net.now ≡ n.now.design }
    requires plan { IsPlan asked.form net.now.net asked.size (nat_eq asked.version 2) most plan.now }
    requires few { net_count net.now.net + pin_total net.now.net ≤ widest_nets }
    ensures { IfOk result (λ s. IsSwept asked.form n.now asked.size asked.version most s) }
{
    let count = nodes_of(net);
    let depths = plan.depths(alloc)?;
    let counts = copy_counts(alloc, net, plan)?;
    let levels = voted_levels(alloc, net, &Votes::Planned(plan))?;
    let nodes = plan.nets(net) - 3 * net.input_count();
    Ok(Swept {
        size: asked.size,
        partitions: plan.parts.count(),
        voters: nodes - 3 * count,
        depth: greatest(&depths),
        levels,
        near: near_all(net, plan, &counts, &depths),
    })
}

/// What the design made threefold in this form has, with a certificate of this version. `size` is the size of partitions; no
/// depth is above `most`, and a bound above the number of nodes adds no voters. All is told of one pair in the hardened form,
/// which is not made. `survey` is that of the design. The one refusal is want of memory.
pub fn sweep_size(
    alloc: Global,
    n: &FreeNet,
    survey: Survey,
    form: Form,
    size: u32,
    version: u8,
    most: u32,
) -> Result<SweptFrom, OutOfMemory>
    requires survey { IsSurvey n.now.design.net survey }
    requires size { 0 < size }
    requires version { (version ≡ 1) ⊎ (version ≡ 2) }
    requires most { 0 < most }
    requires few { net_count n.now.design.net + pin_total n.now.design.net ≤ widest_nets }
    ensures swept { IfOk result (λ s. IsSwept form n.now size version most s.swept) }
    ensures survey { IfOk result (λ s. IsSurvey n.now.design.net s.survey) }
{
    let net = n.net();
    let made = plan_from(alloc, net, survey, form, size, version == 2, most)?;
    let asked = Asked {
        form,
        size,
        version,
    };
    let swept = swept_of(alloc, n, net, &made.plan, asked, most)?;
    Ok(SweptFrom {
        swept,
        survey: made.survey,
    })
}
