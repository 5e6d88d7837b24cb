//! What is read before it is needed, for speed alone.
//!
//! To note what a node reads takes two look-ups a pin: in which partition the node stands that is read there, and how long its row is. In a
//! large design most of them wait for the memory, one after the other, since what is done next hangs on what was read. So what the next nodes
//! need is read before their turn, in one short loop in which nothing hangs on it. Then these waits run side by side.
ghost use Rattle.std.specs.Prelude.{◌≡◌, ◌<◌, All, length, IfOk};
ghost use Rattle.flat_net.specs.Net.{net_count};
ghost use Rattle.feedback_cut.specs.Inner.{node_pins};

use crate::taps::Taps;
use flat_net::{FlatNet, nodes_of};
use node_reads::Notes;
use std::alloc::AllocError;
use tmr_base::{NetId, Parts};

/// So many nodes are read ahead at once.
const AT_ONCE: usize = 16;

/// The sum of all that was read ahead. It means nothing: it is kept so that no reading can be left out.
#[derive(Clone, Copy, Drop)]
pub struct Ahead {
    pub sum: usize,
}

/// Reads how long the row is of the net that pin j of node y reads, and the partition of that net, if it is a node.
fn pin_ahead(n: &FlatNet, parts: &Parts, rows: &Notes, y: u32, j: u32) -> usize
    requires parts { length parts.now.of ≡ length n.now.net.nodes }
    requires rows { length rows.now ≡ net_count n.now.net }
    requires node { y < length n.now.net.nodes }
    requires pin { j < length (node_pins n.now.net y) }
{
    let _nodes = nodes_of(n);
    let inputs = n.input_count();
    let pin = n.pin(NetId(inputs + y), j);
    let long = rows.count(pin.0);
    if pin.0 < inputs {
        return long;
    }
    long.saturating_add(parts.of(pin.0 - inputs) as usize)
}

/// Reads what will be needed of all pins of node y.
fn pins_ahead(n: &FlatNet, parts: &Parts, rows: &Notes, y: u32) -> usize
    requires parts { length parts.now.of ≡ length n.now.net.nodes }
    requires rows { length rows.now ≡ net_count n.now.net }
    requires node { y < length n.now.net.nodes }
{
    let _nodes = nodes_of(n);
    let node = NetId(n.input_count() + y);
    let mut sum: usize = 0;
    for j in 0..n.pin_count(node) {
        sum = sum.saturating_add(pin_ahead(n, parts, rows, y, j));
    }
    sum
}

/// Reads what will be needed of these nodes from place `turn` on, where that is a multiple of so many as are read at once.
pub fn read_ahead(
    n: &FlatNet,
    parts: &Parts,
    rows: &Notes,
    members: &[u32],
    turn: usize,
    ahead: &mut Ahead,
)
    requires parts { length parts.now.of ≡ length n.now.net.nodes }
    requires rows { length rows.now ≡ net_count n.now.net }
    requires nodes { All (λ y. y < length n.now.net.nodes) members.now }
{
    if turn % AT_ONCE != 0 {
        return;
    }
    let end = members.len().min(turn.saturating_add(AT_ONCE));
    let mut sum = ahead.sum;
    for k in turn..end {
        sum = sum.saturating_add(pins_ahead(n, parts, rows, members[k]));
    }
    ahead.sum = sum;
}

/// Makes room behind the places for one more if the sum of all that was read has its highest bit, which is never so in practice. Nothing is
/// put there. So what is done hangs on all that was read, and no compiler can leave it out.
pub fn keep_readings(taps: Taps, ahead: Ahead) -> Result<Taps, AllocError>
    ensures firsts { IfOk result (λ kept. kept.firsts.items ≡ taps.firsts.items) }
    ensures places { IfOk result (λ kept. kept.places.items ≡ taps.places.items) }
{
    let Taps { firsts, mut places } = taps;
    places.reserve(ahead.sum >> 63)?;
    Ok(Taps { firsts, places })
}
