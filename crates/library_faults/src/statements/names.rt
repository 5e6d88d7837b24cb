//! Names that differ, to be asked for.
ghost use Rattle.std.specs.Prelude.{◌≡◌, IfOk};
ghost use Rattle.blif_text.specs.Kind.{is_among};
ghost use Rattle.blif_text.specs.Library.{Differ};
ghost use Rattle.library_faults.specs.Private.Names.{names_in};

use indexmap::IndexSet;
use std::alloc::Global;
use tmr_base::{Name, OutOfMemory};

/// At most so many names are walked. A set of them takes six times the memory.
const FEW: usize = 8;

/// Names that differ, in their order.
#[derive(Drop)]
pub(crate) enum Names {
    Few(Vec<Name>),
    Many(IndexSet<Name>),
}

/// The same names once more.
pub fn copy_names(alloc: Global, names: &[Name]) -> Result<Vec<Name>, OutOfMemory>
    ensures { IfOk result (λ copies. copies.items ≡ names.now) }
{
    let mut copies = Vec::with_capacity(alloc, names.len())?;
    for name in names {
        copies.push(name.copy(alloc)?)?;
    }
    Ok(copies)
}

/// Names that differ, as a set.
#[tactic(auto, using(crate::proofs::NameSets::set_laws))]
fn name_set(alloc: Global, names: &[Name]) -> Result<IndexSet<Name>, OutOfMemory>
    requires { Differ names.now }
    ensures { IfOk result (λ set. set.keys ≡ names.now) }
{
    let mut set = IndexSet::with_capacity(alloc, names.len())?;
    for name in names {
        let copy = name.copy(alloc)?;
        set.insert(copy)?;
    }
    Ok(set)
}

/// The same names, to be asked for.
pub(crate) fn names_of(alloc: Global, names: &[Name]) -> Result<Names, OutOfMemory>
    requires { Differ names.now }
    ensures { IfOk result (λ all. names_in all ≡ names.now) }
{
    if names.len() <= FEW {
        return Ok(Names::Few(copy_names(alloc, names)?));
    }
    Ok(Names::Many(name_set(alloc, names)?))
}

/// The name is one of a few.
fn is_named(names: &[Name], name: &Name) -> bool
    ensures { result ≡ is_among names.now name.now }
{
    names.iter().any(|x| name == x)
}

/// The name is one of these.
pub(crate) fn is_among(names: &Names, name: &Name) -> bool
    ensures { result ≡ is_among (names_in names.now) name.now }
{
    match names {
        Names::Few(names) => is_named(names, name),
        Names::Many(names) => names.contains(name),
    }
}

/// The names in their order.
pub(crate) fn list_of(names: &Names) -> &[Name]
    ensures { result.now ≡ names_in names.now }
{
    match names {
        Names::Few(names) => names.as_slice(),
        Names::Many(names) => names.as_slice(),
    }
}
