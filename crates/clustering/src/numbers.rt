//! Rows of numbers that answer whatever is asked.
//!
//! A place past the end has no number, and what would be put there is dropped. No caller asks for one. So callers need not prove where
//! their places stand: which clusters come out is no clause.
ghost use Rattle.std.specs.Prelude.{◌≡◌, ◌+◌, min, length, slice_index_or, slice_set};
ghost use Rattle.graph.specs.Rows.{row};

use graph::Graph;

/// Number i of these, or 0 past their end.
pub fn at(xs: &[u32], i: u32) -> u32
    ensures { result ≡ slice_index_or xs.now i 0 }
{
    match xs.get(i as usize) {
        Some(x) => *x,
        None => 0,
    }
}

/// Number i of these is x from now on.
pub fn put(xs: &mut Vec<u32>, i: u32, x: u32)
    ensures { xs.new.items ≡ slice_set xs.old.items i x }
{
    if (i as usize) < xs.len() {
        xs[i as usize] = x;
    }
}

/// Number i of these is so much more from now on, or 4,294,967,295 if that is more.
pub fn raise(xs: &mut Vec<u32>, i: u32, by: u32)
    ensures { xs.new.items ≡ slice_set xs.old.items i (min (slice_index_or xs.old.items i 0 + by) 4294967295) }
{
    let more = at(xs.as_slice(), i).saturating_add(by);
    put(xs, i, more);
}

/// Row x, or an empty one past the end.
pub fn row(rows: &Graph, x: u32) -> &[u32]
    ensures { result.now ≡ row rows.now x }
{
    if (x as usize) < rows.count() {
        rows.row(x)
    } else {
        &[]
    }
}

/// How many rows there are, or 4,294,967,295 if there are more.
pub fn row_count(rows: &Graph) -> u32
    ensures { result ≡ min (length rows.now) 4294967295 }
{
    u32::try_from(rows.count()).unwrap_or(u32::MAX)
}

/// How many numbers there are, or 4,294,967,295 if there are more.
pub fn count(xs: &[u32]) -> u32
    ensures { result ≡ min (length xs.now) 4294967295 }
{
    u32::try_from(xs.len()).unwrap_or(u32::MAX)
}
