//! Which voter each pin reads.
ghost use Rattle.std.specs.Prelude.{◌≡◌, ◌+◌, ◌<◌, length, slice_index, IfOk};
ghost use Rattle.triplicate.specs.Taps.{tap_in};
ghost use Rattle.triplicate.specs.Private.Places.{HasPlaces};

use flat_net::{FlatNet, nodes_of};
use std::alloc::Global;
use tmr_base::{NetId, OutOfMemory};

/// For each pin which voter of its net the copies read there: the place of the voter's partition among those that need a
/// voter of the net, counted from 1, or 0 where they read copies.
///
/// The places for the pins of node y stand side by side from `firsts[y]` on, node by node.
#[derive(Drop)]
pub struct Taps {
    pub firsts: Vec<u32>,
    pub places: Vec<u32>,
}

/// A place for each pin, with nothing noted.
pub fn no_taps(alloc: Global, n: &FlatNet) -> Result<Taps, OutOfMemory>
    ensures { IfOk result (λ taps. HasPlaces n.now.net taps) }
{
    let nodes = nodes_of(n);
    let inputs = n.input_count();
    let _pins = n.pin_total();
    let mut firsts = Vec::with_capacity(alloc, nodes as usize)?;
    let mut next = 0;
    for y in 0..nodes {
        firsts.push(next)?;
        next += n.pin_count(NetId(inputs + y));
    }
    let places = vec![in alloc; 0u32; next as usize]?;
    Ok(Taps { firsts, places })
}

/// The place for pin j of node y.
pub fn tap(taps: &Taps, y: u32, j: u32) -> u32
    requires node { y < length taps.now.firsts.items }
    requires pin { slice_index taps.now.firsts.items y + j < length taps.now.places.items }
    ensures { result ≡ tap_in taps.now y j }
{
    taps.places[taps.firsts[y as usize] as usize + j as usize]
}
