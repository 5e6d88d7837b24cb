//! Nodes that stand next to one another in a row, and in one partition.
ghost use Rattle.std.specs.Prelude.{◌≡◌, ◌≢◌, ◌<◌, ◌≤◌, ℕ, All, length, slice_index};

/// Where the nodes of the row that stand in partition q end, from `first` on: the first place of a node that stands elsewhere, or past the
/// row.
pub fn run_end(of: &[u32], row: &[u32], first: usize, q: u32) -> usize
    requires row { All (λ y. y < length of.now) row.now }
    requires first { first ≤ length row.now }
    ensures first { first ≤ result }
    ensures within { result ≤ length row.now }
    ensures run { (k : ℕ) → first ≤ k → k < result → slice_index of.now (slice_index row.now k) ≡ q }
    ensures end { result < length row.now → slice_index of.now (slice_index row.now result) ≢ q }
{
    for k in first..row.len() {
        if of[row[k] as usize] != q {
            return k;
        }
    }
    row.len()
}
