//! The guarded design.
ghost use Rattle.std.specs.Prelude.{◌≡◌, ◌+◌, ◌*◌, ◌≤◌, length, IfOk};
ghost use Rattle.limits.specs.Most.{widest_nets};
ghost use Rattle.flat_net.specs.Net.{Net, IsValid, IsOrder, net_count, pin_total};
ghost use Rattle.flat_net.specs.Draft.{AreDistinct};
ghost use Rattle.dwc.specs.Guard.{guard_net};
ghost use Rattle.dwc.specs.Tells.{Guards};
ghost use Rattle.dwc.specs.Making.{IsMade, guard_order};

use crate::comparing::{push_alarm, push_comparators};
use crate::made::Made;
use crate::names::{guarded_clock, input_names};
use crate::ports::{guarded_order, guarded_outputs};
use crate::twins::push_twins;
use flat_net::{FlatNet, no_nodes};
use std::alloc::Global;
use tmr_base::OutOfMemory;

/// The law: the guarded design of each valid design tells by its alarm what strikes copies of one number alone.
pub fn guarded_designs_tell()
    ensures { (n : Net) → IsValid n → Guards n (guard_net n) }
{}

/// The names and nodes of the guarded design.
fn made_guard(alloc: Global, n: &FlatNet) -> Result<Made, OutOfMemory>
    requires few { net_count n.now.net ≤ widest_nets }
    requires outputs { length n.now.net.outputs ≤ widest_nets }
    requires inputs { AreDistinct (guard_net n.now.net).inputs }
    requires valid { IsValid (guard_net n.now.net) }
    ensures { IfOk result (λ made. IsMade (guard_net n.now.net) (2 * length n.now.net.nodes + length n.now.net.outputs + 1) made) }
{
    let room = 2 * (n.input_count() + n.node_count()) + n.output_count() + 1;
    let names = input_names(alloc, n, room as usize)?;
    let nodes = no_nodes(alloc);
    let mut made = Made { names, nodes };
    push_twins(alloc, n, &mut made)?;
    push_comparators(alloc, n, &mut made)?;
    push_alarm(alloc, n, &mut made)?;
    Ok(made)
}

/// The guarded design, put together.
fn assembled(alloc: Global, n: &FlatNet) -> Result<FlatNet, OutOfMemory>
    requires few { net_count n.now.net ≤ widest_nets }
    requires outputs { length n.now.net.outputs ≤ widest_nets }
    requires inputs { AreDistinct (guard_net n.now.net).inputs }
    requires valid { IsValid (guard_net n.now.net) }
    requires order { IsOrder (guard_net n.now.net) (guard_order n.now.net n.now.order) }
    ensures { IfOk result (λ g. g.net ≡ guard_net n.now.net) }
{
    let made = made_guard(alloc, n)?;
    let model = n.model().copy(alloc)?;
    let outputs = guarded_outputs(alloc, n)?;
    let clock = guarded_clock(alloc, n)?;
    let order = guarded_order(alloc, n)?;
    let inputs = 2 * n.input_count();
    Ok(FlatNet::make(model, made.names, inputs, made.nodes, outputs, clock, order))
}

/// The guarded design: each input and node twice, a comparator for each output, and an alarm, which is on exactly
/// where the two copies of some output differ. The one refusal is want of memory.
pub fn guard(alloc: Global, n: &FlatNet) -> Result<FlatNet, OutOfMemory>
    requires { net_count n.now.net + pin_total n.now.net ≤ widest_nets }
    ensures design { IfOk result (λ g. g.net ≡ guard_net n.now.net) }
    ensures guards { IfOk result (λ g. Guards n.now.net g.net) }
{
    let _inputs = n.input_count();
    guarded_designs_tell();
    let guarded = assembled(alloc, n)?;
    Ok(guarded)
}
