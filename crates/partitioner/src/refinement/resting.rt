//! Nodes that need not be counted again: each was found to gain most where it stands, and nothing changed near it since.
ghost use Rattle.std.specs.Prelude.{◌≡◌, ◌<◌, ◌≤◌, ◌⊎◌, ◌↔◌, ℕ, List, All, length, slice_index, slice_set, IsTrue, IfOk};
ghost use Rattle.flat_net.specs.Net.{Net};
ghost use Rattle.partitioner.specs.Private.Resting.{AreDated, IsApart, IsResting, Rests, changed_at, rested_at};
ghost use Rattle.partitioner.specs.Private.Tracking.{Tracks};

use crate::counts::partitioning::Partitioning;
use flat_net::{FlatNet, nodes_of};
use std::alloc::Global;
use tmr_base::OutOfMemory;

/// For each node, when something changed near it, and when it was last found content: no partition loses less than its own.
///
/// Times are those of the clock, which each move of a node puts forward. 0 is never.
#[derive(Drop)]
pub struct Rest {
    pub clock: u32,
    pub changed: Vec<u32>,
    pub rested: Vec<u32>,
}

/// No node rests.
pub fn no_rest(alloc: Global, n: &FlatNet) -> Result<Rest, OutOfMemory>
    ensures { IfOk result (λ rest. (of : List ℕ) → Rests n.now.net of rest) }
{
    let nodes = nodes_of(n);
    let changed = vec![in alloc; 0u32; nodes as usize]?;
    let rested = vec![in alloc; 0u32; nodes as usize]?;
    Ok(Rest {
        clock: 1,
        changed,
        rested,
    })
}

/// Node i was found content, and nothing changed near it since.
pub fn is_resting(n: &FlatNet, p: &Partitioning, rest: &Rest, i: u32) -> bool
    requires tracks { Tracks n.now.net p.now }
    requires dated { AreDated (length n.now.net.nodes) rest.now }
    requires node { i < length n.now.net.nodes }
    ensures { IsTrue result ↔ IsResting n.now.net rest.now i }
{
    let _nodes = nodes_of(n);
    let since = rest.rested[i as usize];
    if since == 0 || since < rest.changed[i as usize] {
        return false;
    }
    for x in p.sources.row(i) {
        if since < rest.changed[*x as usize] {
            return false;
        }
    }
    true
}

/// Node i is content now.
pub fn note_rest(rest: &mut Rest, i: u32)
    requires { i < length rest.old.rested.items }
    ensures clock { rest.new.clock ≡ rest.old.clock }
    ensures changed { rest.new.changed.items ≡ rest.old.changed.items }
    ensures rested { rest.new.rested.items ≡ slice_set rest.old.rested.items i rest.old.clock }
{
    rest.rested[i as usize] = rest.clock;
}

/// Makes all these times 0.
fn clear(times: &mut Vec<u32>)
    ensures long { length times.new.items ≡ length times.old.items }
    ensures never { (j : ℕ) → slice_index times.new.items j ≡ 0 }
{
    for j in 0..times.len() {
        times[j] = 0;
    }
}

/// Puts the clock forward, past each time at which a node was found content. Where it would run over, all is forgotten.
fn advance(rest: &mut Rest)
    requires past { (j : ℕ) → rested_at rest.old j ≤ rest.old.clock }
    ensures changed_long { length rest.new.changed.items ≡ length rest.old.changed.items }
    ensures rested_long { length rest.new.rested.items ≡ length rest.old.rested.items }
    ensures later { (j : ℕ) → rested_at rest.new j < rest.new.clock }
    ensures kept { (n : Net) (j : ℕ) → IsResting n rest.new j → IsResting n rest.old j }
{
    if rest.clock > 2_147_483_648 {
        clear(&mut rest.changed);
        clear(&mut rest.rested);
        rest.clock = 0;
    }
    rest.clock += 1;
}

/// Sets the times of the nodes of a row.
fn set_times(times: &mut Vec<u32>, row: &[u32], now: u32)
    requires { All (λ x. x < length times.old.items) row.now }
    ensures long { length times.new.items ≡ length times.old.items }
    ensures row { All (λ x. slice_index times.new.items x ≡ now) row.now }
    ensures others { (x : ℕ) → (slice_index times.new.items x ≡ now) ⊎ (slice_index times.new.items x ≡ slice_index times.old.items x) }
{
    for x in row {
        times[*x as usize] = now;
    }
}

/// Node i moved now: something changed near it and near each node that it reads. What still rests is apart from it.
pub fn note_move(n: &FlatNet, p: &Partitioning, rest: &mut Rest, i: u32)
    requires tracks { Tracks n.now.net p.now }
    requires dated { AreDated (length n.now.net.nodes) rest.old }
    requires node { i < length n.now.net.nodes }
    ensures dated { AreDated (length n.now.net.nodes) rest.new }
    ensures kept { (j : ℕ) → IsResting n.now.net rest.new j → IsResting n.now.net rest.old j }
    ensures apart { (j : ℕ) → j < length n.now.net.nodes → IsResting n.now.net rest.new j → IsApart n.now.net i j }
{
    let _nodes = nodes_of(n);
    advance(rest);
    let now = rest.clock;
    rest.changed[i as usize] = now;
    set_times(&mut rest.changed, p.sources.row(i), now);
}
