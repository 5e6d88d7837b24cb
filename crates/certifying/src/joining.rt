//! Original nodes that have to share a partition: where a copy reads a copy, and where two nodes read one voter.
ghost use Rattle.std.specs.Prelude.{◌≡◌, ◌<◌, ◌≤◌, ◌+◌, ◌-◌, ℕ, Option, Some, length, slice_index, slice_get, IfOk};
ghost use Rattle.flat_net.specs.Net.{net_count, node_of, pins_at};
ghost use Rattle.tmr_base.specs.declared.copies.CopyNo.{CopyNo};
ghost use Rattle.certificate.specs.Cert.{Fits, role_of};
ghost use Rattle.certificate.specs.declared.role.Role.TheVariants.{Copy};
ghost use Rattle.certifying.specs.Private.Forests.{IsForest, GoesAlong, FollowsReaders};
ghost use Rattle.certifying.specs.Private.Found.{AreJoined};

use crate::forest::{apart, join};
use certificate::{Certificate, Role};
use flat_net::{FlatNet, nodes_of};
use std::alloc::Global;
use tmr_base::{NetId, OutOfMemory};

/// Which original nodes share a partition, by their places among the nodes: a forest. And for each hardened node an
/// original node that reads it as a voter, if there is one.
#[derive(Drop)]
pub struct Joined {
    pub up: Vec<u32>,
    pub readers: Vec<Option<u32>>,
}

/// An original node that reads hardened node v, if one is noted.
fn reader_of(readers: &Vec<Option<u32>>, v: usize) -> Option<u32>
    requires { v < length readers.now.items }
    ensures { slice_get readers.now.items v ≡ Some result }
{
    readers[v]
}

/// No reader of any of so many.
fn no_readers(alloc: Global, count: u32) -> Result<Vec<Option<u32>>, OutOfMemory>
    ensures long { IfOk result (λ readers. length readers.items ≡ count) }
    ensures none { IfOk result (λ readers. (v y : ℕ) → slice_get readers.items v ≡ Some (Some y) → ⊥) }
{
    let mut readers = Vec::with_capacity(alloc, count as usize)?;
    for made in 0..count {
        let _made = made;
        readers.push(None)?;
    }
    Ok(readers)
}

/// Original node y reads hardened node v, which is a voter: it shares a partition with all that read v.
fn join_reader(up: &mut Vec<u32>, readers: &mut Vec<Option<u32>>, y: u32, v: usize)
    requires forest { IsForest up.old.items }
    requires node { y < length up.old.items }
    requires voter { v < length readers.old.items }
    ensures up_long { length up.new.items ≡ length up.old.items }
    ensures readers_long { length readers.new.items ≡ length readers.old.items }
    ensures forest { IsForest up.new.items }
    ensures along { (f w : ℕ → Option ℕ) → GoesAlong f up.old.items → FollowsReaders f w readers.old.items → w v ≡ f y → GoesAlong f up.new.items }
    ensures readers { (f w : ℕ → Option ℕ) → FollowsReaders f w readers.old.items → w v ≡ f y → FollowsReaders f w readers.new.items }
{
    match reader_of(readers, v) {
        Some(x) => {
            if (x as usize) < up.len() {
                join(up, x, y);
            }
        }
        None => readers[v] = Some(y),
    }
}

/// Pin j of hardened node g, which is a copy of original node y, joins y with what it reads.
fn join_pin(
    joined: &mut Joined,
    n: &FlatNet,
    h: &FlatNet,
    k: &Certificate,
    g: NetId,
    y: NetId,
    j: u32,
)
    requires fits { Fits n.now.net h.now.net k.now }
    requires joined { AreJoined n.now.net h.now.net k.now joined.old.up.items joined.old.readers.items }
    requires range { g.0 < net_count h.now.net }
    requires low { length n.now.net.inputs ≤ y.0 }
    requires high { y.0 < net_count n.now.net }
    requires copy { (c : CopyNo) × (role_of k.now g.0 ≡ Some (Copy y c)) }
    requires pin { j < length (pins_at (node_of h.now.net g.0)) }
    ensures { AreJoined n.now.net h.now.net k.now joined.new.up.items joined.new.readers.items }
{
    let original = n.input_count();
    let inputs = h.input_count();
    let p = h.pin(g, j);
    if p.0 < inputs {
        return;
    }
    match k.role(p) {
        Role::Copy { node, .. } => join(&mut joined.up, node.0 - original, y.0 - original),
        Role::Voter { .. } => {
            let v = (p.0 - inputs) as usize;
            join_reader(&mut joined.up, &mut joined.readers, y.0 - original, v);
        }
    }
}

/// The pins of hardened node g join its original with what they read, if it is a copy.
fn join_pins(joined: &mut Joined, n: &FlatNet, h: &FlatNet, k: &Certificate, g: NetId)
    requires fits { Fits n.now.net h.now.net k.now }
    requires joined { AreJoined n.now.net h.now.net k.now joined.old.up.items joined.old.readers.items }
    requires low { length h.now.net.inputs ≤ g.0 }
    requires range { g.0 < net_count h.now.net }
    ensures { AreJoined n.now.net h.now.net k.now joined.new.up.items joined.new.readers.items }
{
    if let Role::Copy { node, .. } = k.role(g) {
        for j in 0..h.pin_count(g) {
            join_pin(joined, n, h, k, g, node, j);
        }
    }
}

/// Joins all that has to share a partition, and nothing else.
pub fn join_all(
    alloc: Global,
    n: &FlatNet,
    h: &FlatNet,
    k: &Certificate,
) -> Result<Joined, OutOfMemory>
    requires { Fits n.now.net h.now.net k.now }
    ensures { IfOk result (λ j. AreJoined n.now.net h.now.net k.now j.up.items j.readers.items) }
{
    let up = apart(alloc, nodes_of(n))?;
    let readers = no_readers(alloc, nodes_of(h))?;
    let mut joined = Joined { up, readers };
    let inputs = h.input_count();
    for i in 0..nodes_of(h) {
        join_pins(&mut joined, n, h, k, NetId(inputs + i));
    }
    Ok(joined)
}
