//! The plain cut.
ghost use Rattle.std.specs.Prelude.{◌≡◌, ◌<◌, ◌≤◌, ◌+◌, ◌/◌, ℕ, length, map, IfOk};
ghost use Rattle.std.specs.List.{range_with_len};
ghost use Rattle.partitioner.specs.Sizes.{plain_parts, KeepsSize};

use flat_net::{FlatNet, nodes_of};
use std::alloc::Global;
use tmr_base::{OutOfMemory, Parts};

/// The numbers below `count`, each divided by the size.
fn quotients(alloc: Global, count: u32, size: u32) -> Result<Vec<u32>, OutOfMemory>
    requires { 0 < size }
    ensures { IfOk result (λ v. v.items ≡ map (λ i. i / size) (range_with_len 0 count)) }
{
    let quotients = (0..count).map(|i| i / size).collect(alloc)?;
    Ok(quotients)
}

#[tactic(auto, using(crate::proofs::PlainLaws::plain_in_range, crate::proofs::PlainLaws::plain_keeps_size))]
/// The plain cut: node i stands in partition i / size, and there are as many partitions as that asks for.
pub fn plain(alloc: Global, n: &FlatNet, size: u32) -> Result<Parts, OutOfMemory>
    requires { 0 < size }
    ensures exact { IfOk result (λ parts. parts ≡ plain_parts n.now.net size) }
    ensures size { IfOk result (λ parts. KeepsSize n.now.net size parts) }
{
    let count = nodes_of(n);
    let of = quotients(alloc, count, size)?;
    Ok(Parts::make(count.div_ceil(size), of))
}
