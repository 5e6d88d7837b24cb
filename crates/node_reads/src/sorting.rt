//! Readers in ascending order of how long other rows are.
ghost use Rattle.std.specs.Prelude.{◌≡◌, ◌<◌, [], ℕ, length, slice_index_or, IfOk, OnOk, IsPermutation};

use graph::Graph;
use std::alloc::Global;
use tmr_base::OutOfMemory;

/// The weights of so many rows are read at once.
const AT_ONCE: u32 = 16;

/// How long each row is.
fn lengths(alloc: Global, rows: &Graph, count: u32) -> Result<Vec<u32>, OutOfMemory>
    requires { count ≡ length rows.now }
{
    let mut lengths = Vec::with_capacity(alloc, count as usize)?;
    for x in 0..count {
        lengths.push(u32::try_from(rows.row(x).len()).unwrap_or(u32::MAX))?;
    }
    Ok(lengths)
}

/// Makes `sorted` the numbers of a row in ascending order of their weights.
fn set_by_weight(sorted: &mut Vec<u32>, row: &[u32], weights: &[u32]) -> Result<(), OutOfMemory>
    ensures { OnOk result (IsPermutation row.now sorted.new.items) }
{
    sorted.clear();
    sorted.extend_from_slice(row)?;
    sorted.sort_unstable_by_key(|x| weights.get(*x as usize).copied().unwrap_or(0));
    Ok(())
}

/// Reads the weights of the numbers of a row. What it answers means nothing.
fn weights_ahead(row: &[u32], weights: &[u32]) -> u32 {
    let mut mixed = 0;
    for x in row {
        mixed ^= weights.get(*x as usize).copied().unwrap_or(0);
    }
    mixed
}

/// Reads the weights of the numbers of row x and of the fifteen rows behind it, where x is a multiple of sixteen. That is for speed alone:
/// in a large design they stand far apart, and here they come from memory side by side. `kept` gets room for one number more where what was
/// read, mixed, is odd, so that no reading can be left out.
fn read_block(
    rows: &Graph,
    count: u32,
    weights: &[u32],
    x: u32,
    kept: &mut Vec<u32>,
) -> Result<(), OutOfMemory>
    requires { count ≡ length rows.now }
{
    if x % AT_ONCE != 0 {
        return Ok(());
    }
    let end = count.min(x.saturating_add(AT_ONCE));
    let mut mixed = 0;
    for y in x..end {
        mixed ^= weights_ahead(rows.row(y), weights);
    }
    kept.reserve((mixed % 2) as usize)?;
    Ok(())
}

/// The same rows, each put in ascending order of how long the rows of its numbers are in `by`. That is for speed alone: the clauses
/// promise the same numbers, in some order.
pub fn sorted_rows(
    alloc: Global,
    rows: &Graph,
    by: &Graph,
    count: u32,
) -> Result<Graph, OutOfMemory>
    requires rows { count ≡ length rows.now }
    requires by { count ≡ length by.now }
    ensures long { IfOk result (λ sorted. length sorted ≡ count) }
    ensures each { IfOk result (λ sorted. (x : ℕ) → x < count → IsPermutation (slice_index_or rows.now x []) (slice_index_or sorted x [])) }
{
    let weights = lengths(alloc, by, count)?;
    let room = weights
        .iter()
        .fold(0usize, |room, long| room.saturating_add(*long as usize));
    let mut sorted = Graph::with_room(alloc, count as usize, room)?;
    let mut row = Vec::new(alloc);
    for x in 0..count {
        read_block(rows, count, weights.as_slice(), x, &mut row)?;
        set_by_weight(&mut row, rows.row(x), weights.as_slice())?;
        sorted.push(row.as_slice())?;
    }
    Ok(sorted)
}
