//! The names of copies, voters and the hardened clock.
ghost use Rattle.std.specs.Prelude.{◌≡◌, ◌+◌, ◌++◌, ◌∷◌, [], List, ℕ, IfOk};
ghost use Rattle.std.specs.Fmt.{decimal};
ghost use Rattle.tmr_base.specs.Names.{copy_text, stem_text, voter_text, clock_text};

use crate::name::with_suffix;
use crate::{CopyNo, Name, OutOfMemory, PartId};
use itoa::Buffer;
use smallvec::SmallVec;
use std::alloc::Global;

/// The name of copy c of net x: `x~0`, `x~1` or `x~2`.
pub fn copy_name(alloc: Global, x: &Name, c: CopyNo) -> Result<Name, OutOfMemory>
    ensures { IfOk result (λ name. name ≡ copy_text x.now c) }
{
    match c {
        CopyNo::First => with_suffix(alloc, x, b"~0"),
        CopyNo::Second => with_suffix(alloc, x, b"~1"),
        CopyNo::Third => with_suffix(alloc, x, b"~2"),
    }
}

/// What stands behind the net's name in the names of its voters for partition p.
fn stem_suffix(alloc: Global, p: PartId) -> Result<SmallVec<u8, 16>, OutOfMemory>
    ensures { IfOk result (λ v. v.items ≡ 126 ∷ decimal p.0) }
{
    let mut suffix = SmallVec::new(alloc);
    let mut number = Buffer::new();
    suffix.push(b'~')?;
    suffix.extend_from_slice(number.format(p.0).as_bytes())?;
    Ok(suffix)
}

/// What the names of the three voters of net x for partition p begin with: `x~p`.
#[tactic(auto, using(crate::proofs::NameLaws::stem_suffix_name))]
pub fn voter_stem(alloc: Global, x: &Name, p: PartId) -> Result<Name, OutOfMemory>
    ensures { IfOk result (λ name. name ≡ stem_text x.now p.0) }
{
    let suffix = stem_suffix(alloc, p)?;
    with_suffix(alloc, x, suffix.as_slice())
}

/// The name of the voter that gives copy c, where those of the three begin so.
#[tactic(auto, using(crate::proofs::NameLaws::stem_then_letter))]
pub fn voter_on_stem(alloc: Global, stem: &Name, c: CopyNo) -> Result<Name, OutOfMemory>
    ensures { (x : List ℕ) (p : ℕ) → stem.now ≡ stem_text x p → IfOk result (λ name. name ≡ voter_text x p c) }
{
    match c {
        CopyNo::First => with_suffix(alloc, stem, b"~a"),
        CopyNo::Second => with_suffix(alloc, stem, b"~b"),
        CopyNo::Third => with_suffix(alloc, stem, b"~c"),
    }
}

/// The name of the voter of net x for partition p that gives copy c: `x~p~a`, `x~p~b` or `x~p~c`.
pub fn voter_name(alloc: Global, x: &Name, p: PartId, c: CopyNo) -> Result<Name, OutOfMemory>
    ensures { IfOk result (λ name. name ≡ voter_text x.now p.0 c) }
{
    let stem = voter_stem(alloc, x, p)?;
    voter_on_stem(alloc, &stem, c)
}

/// The name of the hardened clock: `x~k`.
pub fn clock_name(alloc: Global, x: &Name) -> Result<Name, OutOfMemory>
    ensures { IfOk result (λ name. name ≡ clock_text x.now) }
{
    with_suffix(alloc, x, b"~k")
}
