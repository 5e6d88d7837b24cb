//! Places in a list, of which as many as can take four bytes each.
ghost use Rattle.std.specs.Prelude.{◌≡◌, ◌+◌, ◌<◌, ◌++◌, ◌∷◌, [], length, slice_index, IfOk, IfErr, OnOk};
ghost use Rattle.graph.specs.Private.Packed.{start_of};

use std::alloc::Global;
use std::marker::Model;
use tmr_base::OutOfMemory;

/// Places in a list. They stand in 32 bits each up to the first that needs more, and from there on in as
/// many bits as a place may need.
#[derive(Drop)]
pub struct Offsets {
    narrow: Vec<u32>,
    wide: Vec<usize>,
}

impl Model for Offsets {
    ghost use Rattle.std.specs.Prelude.{ℕ, List, ◌++◌};

    ghost Value = { List ℕ };

    ghost view = { λ offsets. offsets.narrow.items ++ offsets.wide.items };
}

/// Number x of these, one list behind the other.
fn offset_at(narrow: &[u32], wide: &[usize], x: usize) -> usize
    requires { x < length narrow.now + length wide.now }
    ensures { result ≡ slice_index (narrow.now ++ wide.now) x }
{
    if x < narrow.len() {
        narrow[x] as usize
    } else {
        wide[x - narrow.len()]
    }
}

/// Number x - 1 of these, or 0 for the first, and number x.
fn piece_at(narrow: &[u32], wide: &[usize], x: usize) -> (usize, usize)
    requires { x < length narrow.now + length wide.now }
    ensures start { result.0 ≡ start_of 0 (narrow.now ++ wide.now) x }
    ensures end { result.1 ≡ slice_index (narrow.now ++ wide.now) x }
{
    let end = offset_at(narrow, wide, x);
    if x == 0 {
        (0, end)
    } else {
        (offset_at(narrow, wide, x - 1), end)
    }
}

impl Offsets {
    /// None.
    pub fn new(alloc: Global) -> Offsets
        ensures { result ≡ [] }
    {
        Offsets {
            narrow: Vec::new(alloc),
            wide: Vec::new(alloc),
        }
    }

    /// None, with room for so many.
    pub fn with_room(alloc: Global, count: usize) -> Result<Offsets, OutOfMemory>
        ensures { IfOk result (λ offsets. offsets ≡ []) }
    {
        let narrow = Vec::with_capacity(alloc, count)?;
        Ok(Offsets {
            narrow,
            wide: Vec::new(alloc),
        })
    }

    /// How many there are.
    pub fn len(&self) -> usize
        ensures { result ≡ length self.now }
    {
        self.narrow.len() + self.wide.len()
    }

    /// Number x of them.
    pub fn at(&self, x: usize) -> usize
        requires { x < length self.now }
        ensures { result ≡ slice_index self.now x }
    {
        offset_at(&self.narrow, &self.wide, x)
    }

    /// Where the piece of a list that ends at number x begins, and where it ends, if the pieces stand one
    /// behind the other.
    pub fn piece(&self, x: usize) -> (usize, usize)
        requires { x < length self.now }
        ensures start { result.0 ≡ start_of 0 self.now x }
        ensures end { result.1 ≡ slice_index self.now x }
    {
        piece_at(&self.narrow, &self.wide, x)
    }

    /// One more.
    pub fn push(&mut self, offset: usize) -> Result<(), OutOfMemory>
        ensures more { OnOk result (self.new ≡ self.old ++ offset ∷ []) }
        ensures kept { IfErr result (λ _. self.new ≡ self.old) }
    {
        if self.wide.is_empty() && offset < 4294967296 {
            self.narrow.push(offset as u32)?;
        } else {
            self.wide.push(offset)?;
        }
        Ok(())
    }
}
