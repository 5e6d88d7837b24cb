//! What a statement binds.
ghost use Rattle.std.specs.Prelude.{◌≡◌, ℕ, List, IfOk, OnOk, Some, None, if◌then◌else◌};
ghost use Rattle.std.specs.Str.{bytes_eq};
ghost use Rattle.std.specs.Option.{option_or};
ghost use Rattle.indexmap.specs.IndexMap.{get};
ghost use Rattle.library_faults.specs.Flat.{actual_of};

use indexmap::IndexMap;
use std::alloc::Global;
use tmr_base::{Name, OutOfMemory};

/// Binds a formal, unless it is bound.
fn bind_one(
    alloc: Global,
    actuals: &mut IndexMap<Name, Name>,
    formal: &Name,
    actual: &Name,
) -> Result<(), OutOfMemory>
    ensures { OnOk result ((name : List ℕ) → get bytes_eq actuals.new name ≡ option_or (get bytes_eq actuals.old name) (if bytes_eq name formal.now then Some actual.now else None)) }
{
    if actuals.contains_key(formal) {
        return Ok(());
    }
    let formal = formal.copy(alloc)?;
    let actual = actual.copy(alloc)?;
    actuals.insert(formal, actual)?;
    Ok(())
}

/// The actual of each formal.
pub fn bind_actuals(
    alloc: Global,
    bindings: &[(Name, Name)],
) -> Result<IndexMap<Name, Name>, OutOfMemory>
    ensures { IfOk result (λ actuals. (name : List ℕ) → get bytes_eq actuals name ≡ actual_of bindings.now name) }
{
    let mut actuals = IndexMap::with_capacity(alloc, bindings.len())?;
    for (formal, actual) in bindings {
        bind_one(alloc, &mut actuals, formal, actual)?;
    }
    Ok(actuals)
}

/// The same bindings once more.
pub fn copy_bindings(
    alloc: Global,
    bindings: &[(Name, Name)],
) -> Result<Vec<(Name, Name)>, OutOfMemory>
    ensures { IfOk result (λ copies. copies.items ≡ bindings.now) }
{
    let mut copies = Vec::with_capacity(alloc, bindings.len())?;
    for (formal, actual) in bindings {
        let formal = formal.copy(alloc)?;
        let actual = actual.copy(alloc)?;
        copies.push((formal, actual))?;
    }
    Ok(copies)
}
