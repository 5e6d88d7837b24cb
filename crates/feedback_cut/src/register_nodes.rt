//! Which nodes are registers.
ghost use Rattle.std.specs.Prelude.{◌≡◌, ◌<◌, length, map, IfOk};
ghost use Rattle.std.specs.List.{range_with_len};
ghost use Rattle.feedback_cut.specs.Registers.{is_register_at};

use flat_net::{FlatNet, Kind, nodes_of};
use std::alloc::Global;
use tmr_base::{NetId, OutOfMemory};

/// Node x is a register.
pub fn is_register(n: &FlatNet, x: u32) -> bool
    requires { x < length n.now.net.nodes }
    ensures { result ≡ is_register_at n.now.net x }
{
    let _nodes = nodes_of(n);
    n.kind(NetId(n.input_count() + x)) == Kind::Register
}

/// For each node whether it is a register.
pub fn registers(alloc: Global, n: &FlatNet) -> Result<Vec<bool>, OutOfMemory>
    ensures { IfOk result (λ bits. bits.items ≡ map (is_register_at n.now.net) (range_with_len 0 (length n.now.net.nodes))) }
{
    let nodes = nodes_of(n);
    let mut bits = Vec::with_capacity(alloc, nodes as usize)?;
    for x in 0..nodes {
        bits.push(is_register(n, x))?;
    }
    Ok(bits)
}
