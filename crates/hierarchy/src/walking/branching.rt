//! Models of which more than one statement holds an element. Only the time that names take hangs on this, so no clause
//! speaks of it.

use blif_text::{BlifModel, Element};
use indexmap::IndexSet;
use std::alloc::{AllocError, Global};
use tmr_base::Name;
use wrapper_chains::is_bare;

/// More than one of the statements holds an element.
fn is_branching(names: &IndexSet<Name>, holds: &[bool], elements: &[Element]) -> bool {
    let mut some = false;
    for element in elements {
        if !is_bare(names, holds, element) {
            if some {
                return true;
            }
            some = true;
        }
    }
    false
}

/// Whether more than one statement of each model holds an element. A model with one alone only hands on
/// what is bound to its formals.
pub(crate) fn branching_models(
    alloc: Global,
    names: &IndexSet<Name>,
    models: &[BlifModel],
    holds: &[bool],
) -> Result<Vec<bool>, AllocError> {
    let mut branching = Vec::new(alloc);
    for model in models {
        branching.push(is_branching(names, holds, &model.elements))?;
    }
    Ok(branching)
}
