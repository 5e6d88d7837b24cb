//! The cycle at the end of a path.
ghost use Rattle.std.specs.Prelude.{◌≡◌, ◌<◌, ◌≤◌, ℕ, length, slice_index, OnOk};
ghost use Rattle.graph.specs.Rows.{Stands};
ghost use Rattle.graph.specs.Turned.{IsTurned};

use tmr_base::OutOfMemory;

/// The first place of y.
fn place_of(path: &[u32], y: u32) -> usize
    requires { Stands path.now y }
    ensures within { result < length path.now }
    ensures is { slice_index path.now result ≡ y }
{
    let mut place = 0;
    while path[place] != y {
        place += 1;
    }
    place
}

/// The place of the least number from `first` on.
fn least_from(path: &[u32], first: usize) -> usize
    requires { first < length path.now }
    ensures order { first ≤ result }
    ensures within { result < length path.now }
    ensures lowest { (k : ℕ) → first ≤ k → k < length path.now → slice_index path.now result ≤ slice_index path.now k }
{
    let mut least = first;
    for place in first..path.len() {
        if path[place] < path[least] {
            least = place;
        }
    }
    least
}

/// Keeps the end of the path from y on, turned so that it begins with its least number, if none is kept.
pub fn keep_first(cycle: &mut Vec<u32>, path: &[u32], y: u32) -> Result<(), OutOfMemory>
    requires { Stands path.now y }
    ensures kept { OnOk result (0 < length cycle.old.items → cycle.new.items ≡ cycle.old.items) }
    ensures first { OnOk result (length cycle.old.items ≡ 0 → IsTurned path.now y cycle.new.items) }
{
    if !cycle.is_empty() {
        return Ok(());
    }
    let first = place_of(path, y);
    let least = least_from(path, first);
    cycle.extend_from_slice(&path[least..])?;
    cycle.extend_from_slice(&path[first..least])?;
    Ok(())
}
