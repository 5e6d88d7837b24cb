//! The comparators and the alarm.
ghost use Rattle.std.specs.Prelude.{◌≡◌, ◌+◌, ◌*◌, ◌<◌, ◌≤◌, length, map, IfOk, OnOk};
ghost use Rattle.std.specs.List.{range_with_len};
ghost use Rattle.limits.specs.Most.{widest_nets};
ghost use Rattle.flat_net.specs.Net.{IsValid, net_count};
ghost use Rattle.flat_net.specs.Nodes.{number_of};
ghost use Rattle.dwc.specs.Guard.{guard_net};
ghost use Rattle.dwc.specs.Making.{IsMade};

use crate::covers::{any_cover, differ_cover};
use crate::made::Made;
use crate::names::{name_of_bytes, suffixed};
use crate::twins::twin;
use flat_net::{FlatNet, push_table};
use std::alloc::Global;
use tmr_base::{NetId, OutOfMemory};

/// Adds the comparator of output k, and its name.
fn push_comparator(alloc: Global, n: &FlatNet, k: u32, made: &mut Made) -> Result<(), OutOfMemory>
    requires output { k < length n.now.net.outputs }
    requires few { net_count n.now.net ≤ widest_nets }
    requires valid { IsValid (guard_net n.now.net) }
    requires made { IsMade (guard_net n.now.net) (2 * length n.now.net.nodes + k) made.old }
    ensures { OnOk result (IsMade (guard_net n.now.net) (2 * length n.now.net.nodes + k + 1) made.new) }
{
    let y = n.output(k);
    let name = suffixed(alloc, n.name(y), b"~e")?;
    made.names.insert(name)?;
    let cover = differ_cover(alloc)?;
    let pins = [twin(y, 0), twin(y, 1)];
    push_table(&mut made.nodes, cover, &pins)?;
    Ok(())
}

/// Adds the comparators of all outputs, and their names.
pub fn push_comparators(alloc: Global, n: &FlatNet, made: &mut Made) -> Result<(), OutOfMemory>
    requires few { net_count n.now.net ≤ widest_nets }
    requires valid { IsValid (guard_net n.now.net) }
    requires made { IsMade (guard_net n.now.net) (2 * length n.now.net.nodes) made.old }
    ensures { OnOk result (IsMade (guard_net n.now.net) (2 * length n.now.net.nodes + length n.now.net.outputs) made.new) }
{
    for k in 0..n.output_count() {
        push_comparator(alloc, n, k, made)?;
    }
    Ok(())
}

/// So many numbers from the first one on.
pub fn numbers_from(alloc: Global, first: u32, count: u32) -> Result<Vec<NetId>, OutOfMemory>
    requires { first + count < 4294967296 }
    ensures { IfOk result (λ numbers. map number_of numbers.items ≡ range_with_len first count) }
{
    let mut numbers = Vec::new(alloc);
    for k in 0..count {
        numbers.push(NetId(first + k))?;
    }
    Ok(numbers)
}

/// The comparators of all outputs.
fn comparators(alloc: Global, n: &FlatNet) -> Result<Vec<NetId>, OutOfMemory>
    requires few { net_count n.now.net ≤ widest_nets }
    requires outputs { length n.now.net.outputs ≤ widest_nets }
    ensures { IfOk result (λ numbers. map number_of numbers.items ≡ range_with_len (2 * net_count n.now.net) (length n.now.net.outputs)) }
{
    let first = 2 * (n.input_count() + n.node_count());
    let count = n.output_count();
    let numbers = numbers_from(alloc, first, count)?;
    Ok(numbers)
}

/// Adds the alarm, which reads all comparators, and its name.
pub fn push_alarm(alloc: Global, n: &FlatNet, made: &mut Made) -> Result<(), OutOfMemory>
    requires few { net_count n.now.net ≤ widest_nets }
    requires outputs { length n.now.net.outputs ≤ widest_nets }
    requires valid { IsValid (guard_net n.now.net) }
    requires made { IsMade (guard_net n.now.net) (2 * length n.now.net.nodes + length n.now.net.outputs) made.old }
    ensures { OnOk result (IsMade (guard_net n.now.net) (2 * length n.now.net.nodes + length n.now.net.outputs + 1) made.new) }
{
    let name = name_of_bytes(alloc, b"alarm~z")?;
    made.names.insert(name)?;
    let cover = any_cover(alloc, n.output_count())?;
    let pins = comparators(alloc, n)?;
    push_table(&mut made.nodes, cover, &pins)?;
    Ok(())
}
