//! The vertices without a number that lead to a vertex.
ghost use Rattle.std.specs.Prelude.{◌≡◌, ◌≢◌, ◌<◌, ℕ, length, OnOk, slice_index, slice_index_or};
ghost use Rattle.graph.specs.Rows.{row};
ghost use Rattle.feedback_cut.specs.Private.Gathering.{IsGathered};

use graph::Readers;
use std::alloc::Global;
use tmr_base::OutOfMemory;

/// The number of vertex x, where `none` stands for none.
pub(crate) fn number_of(numbers: &[u32], none: u32, x: u32) -> u32
    ensures { result ≡ slice_index_or numbers.now x none }
{
    match numbers.get(x as usize) {
        Some(number) => *number,
        None => none,
    }
}

/// Gives a new number to the root and to all vertices that lead to it through vertices that have none.
pub(crate) fn gather(
    alloc: Global,
    readers: &Readers,
    numbers: &mut Vec<u32>,
    none: u32,
    root: u32,
    group: u32,
) -> Result<(), OutOfMemory>
    requires root { root < length readers.now }
    requires long { length numbers.old.items ≡ length readers.now }
    requires within { (x i : ℕ) → i < length (row readers.now x) → slice_index (row readers.now x) i < length readers.now }
    requires group { group ≢ none }
    requires fresh { slice_index_or numbers.old.items root none ≡ none }
    ensures { OnOk result (IsGathered readers.now none group root numbers.old.items numbers.new.items) }
{
    let mut waiting = Vec::new(alloc);
    waiting.push(root)?;
    'waiting: loop {
        let Some(x) = waiting.pop() else {
            return Ok(());
        };
        if number_of(numbers.as_slice(), none, x) != none {
            continue;
        }
        numbers[x as usize] = group;
        waiting.extend_from_slice(readers.row(x))?;
    }
}
