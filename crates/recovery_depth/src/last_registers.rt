//! The last register before each vertex, on a walk with the most registers.
ghost use Rattle.std.specs.Prelude.{◌≡◌, ◌≢◌, ◌<◌, ◌≤◌, ◌+◌, ◌-◌, ◌⊎◌, ℕ, length, slice_index, slice_index_or, IfOk, if◌then◌else◌};
ghost use Rattle.graph.specs.Rows.{row};
ghost use Rattle.recovery_depth.specs.Private.Vertices.{IsOrdered, IsReachIn};
ghost use Rattle.recovery_depth.specs.Private.Ranks.{is_before};
ghost use Rattle.recovery_depth.specs.Private.LastRegisters.{last_of, number_at, AreBefore, IsChosen, IsOneOf};

use crate::ranks::Ranks;
use crate::reaching::{own_count, reach_at};
use graph::Graph;
use std::alloc::Global;
use tmr_base::OutOfMemory;

/// What is known of walks with the most registers: for each vertex whether it is a register, how many registers such a walk
/// has that ends in it, and the last register before it; which register is taken first, and the number that stands for none.
#[derive(Drop)]
pub struct LastRegisters<'a> {
    pub is_register: &'a [bool],
    pub reaches: &'a [u32],
    pub before: &'a [u32],
    pub ranks: &'a Ranks,
    pub none: u32,
}

/// The vertex itself, if it is a register, else the last register before it.
pub fn last_of(is_register: &[bool], before: &[u32], x: u32) -> u32
    ensures { result ≡ last_of is_register.now before.now x }
{
    match is_register.get(x as usize) {
        Some(true) => x,
        _ => reach_at(before, x),
    }
}

/// The one that ranks first, if one is there; `none` stands for none.
pub fn first_of(ranks: &Ranks, none: u32, best: u32, other: u32) -> u32
    ensures one { IsOneOf none best other result }
    ensures first { best ≢ none → other ≢ none → result ≡ (if is_before ranks.now other best then other else best) }
{
    if other == none {
        return best;
    }
    if best == none || ranks.is_before(other, best) {
        return other;
    }
    best
}

/// The best so far, or the last register of x, where x has this reach.
pub fn considered(last: &LastRegisters<'_>, target: u32, best: u32, x: u32) -> u32
    ensures other { (slice_index_or last.now.reaches.now x 0 ≡ target → IsOneOf last.now.none best (last_of last.now.is_register.now last.now.before.now x) result) }
    ensures first { slice_index_or last.now.reaches.now x 0 ≡ target → best ≢ last.now.none → last_of last.now.is_register.now last.now.before.now x ≢ last.now.none → result ≡ (if is_before last.now.ranks.now (last_of last.now.is_register.now last.now.before.now x) best then last_of last.now.is_register.now last.now.before.now x else best) }
    ensures same { (slice_index_or last.now.reaches.now x 0 ≢ target → result ≡ best) }
{
    if reach_at(last.reaches, x) != target {
        return best;
    }
    let other = last_of(last.is_register, last.before, x);
    first_of(last.ranks, last.none, best, other)
}

/// The register that ranks first among the last registers of the vertices of a row that have this reach.
fn chosen(row: &[u32], last: &LastRegisters<'_>, target: u32) -> u32
    ensures { IsChosen row.now last.now.reaches.now last.now.is_register.now last.now.before.now last.now.none target (length row.now) result }
{
    let mut best = last.none;
    for x in row {
        best = considered(last, target, best, *x);
    }
    best
}

/// For each vertex the last register before it, on a walk with the most registers that ends in it.
pub fn registers_before(
    alloc: Global,
    graph: &Graph,
    is_register: &[bool],
    reaches: &[u32],
    order: &[u32],
    ranks: &Ranks,
    count: u32,
) -> Result<Vec<u32>, OutOfMemory>
    requires count { count ≡ length graph.now }
    requires ordered { IsOrdered graph.now order.now }
    requires reached { (x : ℕ) → x < count → IsReachIn graph.now is_register.now x (slice_index_or reaches.now x 0) }
    requires long { length reaches.now ≡ count }
    ensures { IfOk result (λ before. AreBefore graph.now is_register.now reaches.now before.items) }
{
    let mut before = vec![in alloc; 0; count as usize]?;
    for x in order {
        let own = own_count(is_register, *x);
        let target = reach_at(reaches, *x).saturating_sub(own);
        let last = LastRegisters {
            is_register,
            reaches,
            before: before.as_slice(),
            ranks,
            none: count,
        };
        before[*x as usize] = chosen(graph.row(*x), &last, target);
    }
    Ok(before)
}
