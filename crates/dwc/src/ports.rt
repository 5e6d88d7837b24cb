//! The outputs of the guarded design, and an order of its nodes.
ghost use Rattle.std.specs.Prelude.{◌≡◌, ◌+◌, ◌*◌, ◌≤◌, ◌<◌, length, map, IfOk};
ghost use Rattle.limits.specs.Most.{widest_nets};
ghost use Rattle.flat_net.specs.Net.{net_count};
ghost use Rattle.flat_net.specs.Nodes.{number_of};
ghost use Rattle.dwc.specs.Guard.{guard_net};
ghost use Rattle.dwc.specs.Making.{guard_order};

use crate::comparing::numbers_from;
use crate::twins::twin;
use flat_net::FlatNet;
use std::alloc::Global;
use tmr_base::{NetId, OutOfMemory};

/// The copies of the outputs, and the alarm.
pub fn guarded_outputs(alloc: Global, n: &FlatNet) -> Result<Vec<NetId>, OutOfMemory>
    requires nets { net_count n.now.net ≤ widest_nets }
    requires outputs { length n.now.net.outputs ≤ widest_nets }
    ensures { IfOk result (λ outputs. map number_of outputs.items ≡ (guard_net n.now.net).outputs) }
{
    let mut outputs = Vec::new(alloc);
    for k in 0..n.output_count() {
        let y = n.output(k);
        outputs.push(twin(y, 0))?;
        outputs.push(twin(y, 1))?;
    }
    outputs.push(NetId(2 * (n.input_count() + n.node_count()) + n.output_count()))?;
    Ok(outputs)
}

/// The copies in the order of their nodes, the comparators, the alarm.
pub fn guarded_order(alloc: Global, n: &FlatNet) -> Result<Vec<NetId>, OutOfMemory>
    requires nets { net_count n.now.net ≤ widest_nets }
    requires outputs { length n.now.net.outputs ≤ widest_nets }
    ensures { IfOk result (λ order. map number_of order.items ≡ guard_order n.now.net n.now.order) }
{
    let mut order = Vec::new(alloc);
    for i in 0..n.node_count() {
        let x = n.ordered(i);
        order.push(twin(x, 0))?;
        order.push(twin(x, 1))?;
    }
    let first = 2 * (n.input_count() + n.node_count());
    let behind = numbers_from(alloc, first, n.output_count() + 1)?;
    order.extend_from_slice(&behind)?;
    Ok(order)
}
