//! How many pairs of strikes are too near in the hardened design.
ghost use Rattle.std.specs.Prelude.{◌≡◌, ◌<◌, ◌^◌, ℕ, All, length, sum_by, slice_index};
ghost use Rattle.std.specs.List.{range_with_len};
ghost use Rattle.certificate.specs.Cert.{IsCert};
ghost use Rattle.triplicate.specs.Planned.{cert_in};
ghost use Rattle.exposure.specs.Counts.{near_of, near_in, near_inputs, near_total};
ghost use Rattle.sweep.specs.Private.Counting.{AreCounts};

use exposure::near;
use flat_net::FlatNet;
use triplicate::Plan;

/// The pairs of strikes that are too near in partition p.
fn near_part(counts: &[u32], depths: &[u32], p: usize) -> u128
    requires count { p < length counts.now }
    requires depth { p < length depths.now }
    ensures { result ≡ near_of (slice_index counts.now p) (slice_index counts.now p) (slice_index counts.now p) (slice_index depths.now p) }
{
    let count = counts[p];
    near(count, count, count, depths[p])
}

/// The same for all partitions of nodes together.
fn near_parts(n: &FlatNet, plan: &Plan, counts: &[u32], depths: &[u32]) -> u128
    requires counts { AreCounts n.now.net plan.now counts.now }
    requires depths { depths.now ≡ plan.now.extra.table.depths }
    requires long { length depths.now ≡ plan.now.parts.count }
    requires cert { IsCert (cert_in n.now.net plan.now) }
    ensures { result ≡ sum_by (near_in (cert_in n.now.net plan.now)) (range_with_len 0 (length depths.now)) }
{
    let mut total = 0u128;
    for p in 0..depths.len() {
        total += near_part(counts, depths, p);
    }
    total
}

/// The same for the inputs, which are not upset in version 1.
fn near_inputs(n: &FlatNet, plan: &Plan) -> u128
    ensures { result ≡ near_inputs (cert_in n.now.net plan.now) }
{
    if plan.inputs {
        let inputs = n.input_count();
        near(inputs, inputs, inputs, 0)
    } else {
        0
    }
}

/// The same for the inputs and all partitions together.
pub fn near_all(n: &FlatNet, plan: &Plan, counts: &[u32], depths: &[u32]) -> u128
    requires counts { AreCounts n.now.net plan.now counts.now }
    requires depths { depths.now ≡ plan.now.extra.table.depths }
    requires long { length depths.now ≡ plan.now.parts.count }
    requires cert { IsCert (cert_in n.now.net plan.now) }
    ensures { result ≡ near_total (cert_in n.now.net plan.now) }
{
    let inputs = near_inputs(n, plan);
    let parts = near_parts(n, plan, counts, depths);
    inputs + parts
}
