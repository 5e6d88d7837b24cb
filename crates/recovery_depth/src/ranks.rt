//! Which of two copies is taken first.
ghost use Rattle.std.specs.Prelude.{◌≡◌, ◌++◌, ◌∷◌, [], OnOk};
ghost use Rattle.recovery_depth.specs.Private.Ranks.{ranks_before, rank_in, is_before};

use std::alloc::Global;
use std::marker::Model;
use tmr_base::OutOfMemory;

/// For each vertex its copy's number and its original's number.
#[derive(Drop)]
pub struct Ranks {
    ranks: Vec<(u32, u32)>,
}

impl Model for Ranks {
    ghost use Rattle.std.specs.Prelude.{ℕ, List};

    ghost Value = { List (ℕ × ℕ) };

    ghost view = { λ r. r.ranks.items };
}

/// The copy's number is lower, or it is the same and the original's number is lower.
fn ranks_before(a: (u32, u32), b: (u32, u32)) -> bool
    ensures { result ≡ ranks_before a b }
{
    if a.0 == b.0 { a.1 < b.1 } else { a.0 < b.0 }
}

/// The rank of vertex x; what is no vertex is taken after each copy.
fn rank_in(ranks: &[(u32, u32)], x: u32) -> (u32, u32)
    ensures { result ≡ rank_in ranks.now x }
{
    match ranks.get(x as usize) {
        Some(rank) => *rank,
        None => (3, 0),
    }
}

impl Ranks {
    /// No vertices.
    pub fn new(alloc: Global) -> Ranks
        ensures { result ≡ [] }
    {
        Ranks {
            ranks: Vec::new(alloc),
        }
    }

    /// One more vertex.
    pub fn push(&mut self, copy: u32, original: u32) -> Result<(), OutOfMemory>
        ensures { OnOk result (self.new ≡ self.old ++ (copy, original) ∷ []) }
    {
        self.ranks.push((copy, original))?;
        Ok(())
    }

    /// Vertex x is a copy of a lower number, or a copy of the same number and its original has a lower one.
    pub fn is_before(&self, x: u32, y: u32) -> bool
        ensures { result ≡ is_before self.now x y }
    {
        ranks_before(rank_in(&self.ranks, x), rank_in(&self.ranks, y))
    }
}
