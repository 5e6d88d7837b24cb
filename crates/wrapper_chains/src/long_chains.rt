//! Which models are worth to be cut short. Only the time that a walk takes hangs on this, so no clause
//! speaks of it.

use crate::ways::{Way, only_filled};
use blif_text::{BlifModel, Element};
use indexmap::IndexSet;
use library_faults::{Looked, entry_at, entry_of};
use std::alloc::{AllocError, Global};
use tmr_base::Name;

/// A chain of fewer statements is walked as it is.
const LONG: usize = 8;

/// The number of the model that the only statement places which holds an element.
fn only_placed(names: &IndexSet<Name>, holds: &[bool], elements: &[Element]) -> Option<usize> {
    let place = only_filled(names, holds, elements)?;
    match elements.get(place)? {
        Element::Instance { model, .. } => names.get_index_of(model),
        Element::Table { .. } | Element::Latch { .. } => None,
    }
}

/// No net of the model's own stands in it.
fn is_open(looked: &Looked, x: usize) -> bool {
    match entry_at(&looked.positions, &looked.counts, x) {
        Some(count) => count.places == 0,
        None => false,
    }
}

/// Which models may be the ends of chains: those that have no net of their own and that a model with one statement
/// alone places. None, where no chain is long.
pub(crate) fn end_models(
    alloc: Global,
    models: &[BlifModel],
    looked: &Looked,
    holds: &[bool],
) -> Result<Option<Vec<bool>>, AllocError> {
    let mut ends = vec![in alloc; false; models.len()]?;
    let mut lengths = vec![in alloc; 0usize; models.len()]?;
    let mut longest = 0;
    for x in &looked.order {
        if *x < models.len() {
            if let Some(y) = only_placed(&looked.names, holds, &models[*x].elements) {
                if y < models.len() && is_open(looked, y) {
                    ends[y] = true;
                    lengths[*x] = lengths[y].saturating_add(1);
                    longest = longest.max(lengths[*x]);
                }
            }
        }
    }
    if longest < LONG {
        return Ok(None);
    }
    Ok(Some(ends))
}

/// Marks the models of long chains that the statements place.
fn mark_placed(
    looked: &Looked,
    ways: &[Option<Way>],
    elements: &[Element],
    heads: &mut [bool],
) -> bool {
    let mut some = false;
    for element in elements {
        if let Element::Instance { model, .. } = element {
            if let (Some(y), Some(way)) = (
                looked.names.get_index_of(model),
                entry_of(&looked.names, &looked.positions, ways, model),
            ) {
                if y < heads.len() && way.length >= LONG {
                    heads[y] = true;
                    some = true;
                }
            }
        }
    }
    some
}

/// The models with a long chain that the main model, an end or a model without a way places. None, where there is none.
pub(crate) fn head_models(
    alloc: Global,
    models: &[BlifModel],
    looked: &Looked,
    ways: &[Option<Way>],
) -> Result<Option<Vec<bool>>, AllocError> {
    let mut heads = vec![in alloc; false; models.len()]?;
    let mut some = false;
    for x in &looked.order {
        if *x < models.len() {
            match entry_at(&looked.positions, ways, *x) {
                Some(way) if way.base != *x => {
                    if *x == 0 && way.length >= LONG {
                        heads[*x] = true;
                        some = true;
                    }
                }
                _ => {
                    if mark_placed(looked, ways, &models[*x].elements, &mut heads) {
                        some = true;
                    }
                }
            }
        }
    }
    if some { Ok(Some(heads)) } else { Ok(None) }
}
