//! How many pairs of strikes are too near.
ghost use Rattle.std.specs.Prelude.{◌≡◌, ◌<◌, length, sum_by};
ghost use Rattle.std.specs.List.{range_with_len};
ghost use Rattle.exposure.specs.Counts.{near_of, near_in, near_inputs, near_total};
ghost use Rattle.exposure.specs.Private.Left.{AreCounted};

use crate::counting::CopyCounts;
use certificate::Certificate;
use flat_net::FlatNet;
use tmr_base::PartId;

/// How many pairs of nets and distances of cycles are too near in a partition of this depth, of which the three copies have so
/// many nets: the pairs of nets of different copies, times the distances from -`depth` to `depth`.
pub fn near(first: u32, second: u32, third: u32, depth: u32) -> u128
    ensures { result ≡ near_of first second third depth }
{
    let first = u128::from(first);
    let second = u128::from(second);
    let third = u128::from(third);
    let distances = 2 * u128::from(depth) + 1;
    (first * second + first * third + second * third) * distances
}

/// The same for partition p.
fn near_part(c: &Certificate, counts: &CopyCounts, p: u32) -> u128
    requires part { p < length c.now.depth }
    requires counts { AreCounted c.now counts.now }
    ensures { result ≡ near_in c.now p }
{
    let first = counts.first[p as usize];
    let second = counts.second[p as usize];
    let third = counts.third[p as usize];
    near(first, second, third, c.depth(PartId(p)))
}

/// The same for all partitions of nodes together.
fn near_parts(c: &Certificate, counts: &CopyCounts) -> u128
    requires { AreCounted c.now counts.now }
    ensures { result ≡ sum_by (near_in c.now) (range_with_len 0 (length c.now.depth)) }
{
    let mut total = 0u128;
    for p in 0..c.parts() {
        total += near_part(c, counts, p);
    }
    total
}

/// The same for the inputs, which are not upset in version 1.
fn near_inputs(n: &FlatNet, c: &Certificate) -> u128
    requires { c.now.original_inputs ≡ length n.now.net.inputs }
    ensures { result ≡ near_inputs c.now }
{
    if c.version() == 1 {
        return 0;
    }
    let inputs = n.input_count();
    near(inputs, inputs, inputs, 0)
}

/// The same for the inputs and all partitions together.
pub fn near_total(n: &FlatNet, c: &Certificate, counts: &CopyCounts) -> u128
    requires inputs { c.now.original_inputs ≡ length n.now.net.inputs }
    requires counts { AreCounted c.now counts.now }
    ensures { result ≡ near_total c.now }
{
    // It says that the certificate is consistent.
    c.parts();
    let inputs = near_inputs(n, c);
    let parts = near_parts(c, counts);
    inputs + parts
}
