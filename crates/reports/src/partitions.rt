//! The partitions of a certificate.
ghost use Rattle.std.specs.Prelude.{◌≡◌, length, IfOk};
ghost use Rattle.reports.specs.Counts.{partitions};

use certificate::Certificate;
use flat_net::{FlatNet, nodes_of};
use std::alloc::Global;
use tmr_base::{NetId, OutOfMemory, Parts};

/// The partition of each node.
fn part_list(alloc: Global, n: &FlatNet, c: &Certificate) -> Result<Vec<u32>, OutOfMemory>
    requires inputs { c.now.original_inputs ≡ length n.now.net.inputs }
    requires nodes { length c.now.part ≡ length n.now.net.nodes }
    ensures { IfOk result (λ of. of.items ≡ c.now.part) }
{
    let mut of = Vec::new(alloc);
    let inputs = n.input_count();
    for x in 0..nodes_of(n) {
        of.push(c.part(NetId(inputs + x)).0)?;
    }
    Ok(of)
}

/// The partitions of the certificate.
pub fn partitions(alloc: Global, n: &FlatNet, c: &Certificate) -> Result<Parts, OutOfMemory>
    requires inputs { c.now.original_inputs ≡ length n.now.net.inputs }
    requires nodes { length c.now.part ≡ length n.now.net.nodes }
    ensures { IfOk result (λ parts. parts ≡ partitions c.now) }
{
    let count = c.parts();
    let _nodes = nodes_of(n);
    let of = part_list(alloc, n, c)?;
    Ok(Parts::make(count, of))
}
