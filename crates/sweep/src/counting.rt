//! How many nets one copy of each partition has in the hardened design.
ghost use Rattle.std.specs.Prelude.{◌≡◌, ◌==◌, ◌+◌, ◌<◌, ℕ, All, length, count_by, slice_index, IfOk};
ghost use Rattle.tmr_base.specs.declared.copies.CopyNo.{CopyNo};
ghost use Rattle.flat_net.specs.Net.{net_count};
ghost use Rattle.triplicate.specs.Blocks.{copies_of};
ghost use Rattle.triplicate.specs.Planned.{plan_votes, cert_in};
ghost use Rattle.triplicate.specs.Numbers.{HasFewNets};
ghost use Rattle.triplicate.specs.Starts.{AreVoterRows};
ghost use Rattle.exposure.specs.Counts.{is_of};
ghost use Rattle.sweep.specs.Private.Counting.{AreSoFar, AreCounts};

use flat_net::{FlatNet, nodes_of};
use std::alloc::Global;
use tmr_base::OutOfMemory;
use triplicate::Plan;

/// Counts each of these partitions once more.
fn count_each(counts: &mut [u32], parts: &[u32])
    requires within { All (λ p. p < length counts.old) parts.now }
    requires few { (p : ℕ) → p < length counts.old → slice_index counts.old p + length parts.now < 4294967296 }
    ensures { (p : ℕ) → p < length counts.old → slice_index counts.new p ≡ slice_index counts.old p + count_by (λ q. q == p) parts.now }
{
    for p in parts {
        counts[*p as usize] += 1;
    }
}

/// Counts the copies of net x, if it is a node.
fn count_copies(n: &FlatNet, plan: &Plan, counts: &mut [u32], x: u32)
    requires parts { length plan.now.parts.of ≡ length n.now.net.nodes }
    requires long { length counts.old ≡ plan.now.parts.count }
    requires net { x < net_count n.now.net }
    requires few { (p : ℕ) → p < length counts.old → slice_index counts.old p + length (copies_of n.now.net x) < 4294967296 }
    ensures { (p : ℕ) (c : CopyNo) → p < length counts.old → slice_index counts.new p ≡ slice_index counts.old p + count_by (is_of (cert_in n.now.net plan.now) p c) (copies_of n.now.net x) }
{
    let _nodes = nodes_of(n);
    let inputs = n.input_count();
    if x >= inputs {
        let part = plan.parts.of(x - inputs);
        counts[part as usize] += 1;
    }
}

/// Counts what stands for net x.
fn count_net(n: &FlatNet, plan: &Plan, counts: &mut [u32], x: u32)
    requires voters { AreVoterRows n.now.net plan.now.parts (plan_votes n.now.net plan.now) plan.now.voters }
    requires few { HasFewNets n.now.net plan.now.parts (plan_votes n.now.net plan.now) }
    requires parts { length plan.now.parts.of ≡ length n.now.net.nodes }
    requires net { x < net_count n.now.net }
    requires counts { AreSoFar n.now.net plan.now x counts.old }
    ensures { AreSoFar n.now.net plan.now (x + 1) counts.new }
{
    count_copies(n, plan, counts, x);
    count_each(counts, plan.voters.row(x));
}

/// How many nets each copy of each partition has: a copy of each of its nodes, and a voter for each net that needs one there.
pub fn copy_counts(alloc: Global, n: &FlatNet, plan: &Plan) -> Result<Vec<u32>, OutOfMemory>
    requires voters { AreVoterRows n.now.net plan.now.parts (plan_votes n.now.net plan.now) plan.now.voters }
    requires few { HasFewNets n.now.net plan.now.parts (plan_votes n.now.net plan.now) }
    requires parts { length plan.now.parts.of ≡ length n.now.net.nodes }
    ensures { IfOk result (λ counts. AreCounts n.now.net plan.now counts.items) }
{
    let nets = n.input_count() + nodes_of(n);
    let mut counts = Vec::from_elem(alloc, 0u32, plan.parts.count() as usize)?;
    for x in 0..nets {
        count_net(n, plan, &mut counts, x);
    }
    Ok(counts)
}
