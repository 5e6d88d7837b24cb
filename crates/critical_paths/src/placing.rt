//! Nodes that go to other partitions, and what that costs.
ghost use Rattle.std.specs.Prelude.{◌≡◌, ◌++◌, ◌∷◌, [], nat_lt, slice_index_or, slice_set, OnOk};

use crate::design::Circuit;
use clustering::numbers::{at, put, raise, row};
use tmr_base::OutOfMemory;

/// The readers of a node that more read are not looked at: most partitions have one whatever is done. The whole cost is compared in the
/// end, so this changes no promise.
const MOST_FOLLOWED: usize = 256;

/// A node that went to another partition, and the one that it came from.
#[derive(Clone, Copy, Drop)]
pub struct Move {
    pub node: u32,
    pub from: u32,
}

/// How many pairs of a node and a foreign partition that reads it come and go by a move.
#[derive(Clone, Copy, Drop)]
pub struct Pairs {
    pub more: u32,
    pub fewer: u32,
}

/// The partition of each node, and how many nodes each holds. `moves` tells what a trial moved, and `pairs` what that cost.
#[derive(Drop)]
pub struct Placing {
    pub of: Vec<u32>,
    pub held: Vec<u32>,
    pub room: u32,
    pub moves: Vec<Move>,
    pub pairs: Pairs,
}

/// Node v aside, a node of this row stands in partition p.
fn is_in(of: &[u32], row: &[u32], p: u32, v: u32) -> bool {
    for y in row {
        if at(of, *y) == p && *y != v {
            return true;
        }
    }
    false
}

/// These pairs, and one more pair where `more` says so, one fewer where `fewer` does.
fn counted(pairs: Pairs, more: bool, fewer: bool) -> Pairs {
    Pairs {
        more: pairs.more.saturating_add(u32::from(more)),
        fewer: pairs.fewer.saturating_add(u32::from(fewer)),
    }
}

/// Which pairs come and go if node v goes to partition q.
pub fn moved_pairs(circuit: &Circuit, of: &[u32], v: u32, q: u32) -> Pairs {
    let p = at(of, v);
    let mut pairs = Pairs { more: 0, fewer: 0 };
    let own = row(&circuit.readers, v);
    if own.len() <= MOST_FOLLOWED {
        pairs = counted(pairs, is_in(of, own, p, v), is_in(of, own, q, v));
    }
    for x in row(&circuit.sources, v) {
        let net = row(&circuit.readers, *x);
        if net.len() <= MOST_FOLLOWED {
            let home = at(of, *x);
            let more = home != q && !is_in(of, net, q, v);
            let fewer = home != p && !is_in(of, net, p, v);
            pairs = counted(pairs, more, fewer);
        }
    }
    pairs
}

/// Partition q has room for a node.
pub fn has_room(placing: &Placing, q: u32) -> bool
    ensures { result ≡ nat_lt (slice_index_or placing.now.held.items q 0) placing.now.room }
{
    at(placing.held.as_slice(), q) < placing.room
}

/// Node v stands in partition q from now on.
fn put_node(of: &mut Vec<u32>, held: &mut Vec<u32>, v: u32, q: u32)
    ensures { of.new.items ≡ slice_set of.old.items v q }
{
    let p = at(of.as_slice(), v);
    let left = at(held.as_slice(), p).saturating_sub(1);
    put(held, p, left);
    raise(held, q, 1);
    put(of, v, q);
}

/// Moves node v to partition q, and counts what that costs.
pub fn move_node(
    circuit: &Circuit,
    placing: &mut Placing,
    v: u32,
    q: u32,
) -> Result<(), OutOfMemory>
    ensures of { OnOk result (placing.new.of.items ≡ slice_set placing.old.of.items v q) }
    ensures moves { OnOk result (placing.new.moves.items ≡ placing.old.moves.items ++ record { node = v; from = slice_index_or placing.old.of.items v 0 } ∷ []) }
    ensures room { OnOk result (placing.new.room ≡ placing.old.room) }
{
    let pairs = moved_pairs(circuit, placing.of.as_slice(), v, q);
    placing.moves.push(Move {
        node: v,
        from: at(placing.of.as_slice(), v),
    })?;
    placing.pairs.more = placing.pairs.more.saturating_add(pairs.more);
    placing.pairs.fewer = placing.pairs.fewer.saturating_add(pairs.fewer);
    put_node(&mut placing.of, &mut placing.held, v, q);
    Ok(())
}

/// All nodes stand where they did before the trial.
pub fn move_back(placing: &mut Placing) {
    for moved in placing.moves.iter().rev() {
        put_node(&mut placing.of, &mut placing.held, moved.node, moved.from);
    }
    settle(placing);
}

/// What a trial moved stays.
pub fn settle(placing: &mut Placing)
    ensures of { placing.new.of.items ≡ placing.old.of.items }
    ensures held { placing.new.held.items ≡ placing.old.held.items }
    ensures room { placing.new.room ≡ placing.old.room }
    ensures moves { placing.new.moves.items ≡ [] }
    ensures pairs { placing.new.pairs ≡ record { more = 0; fewer = 0 } }
{
    placing.moves.clear();
    placing.pairs = Pairs { more: 0, fewer: 0 };
}
