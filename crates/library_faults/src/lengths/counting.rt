//! The counts of all models, each after those that it places.
ghost use Rattle.std.specs.Prelude.{◌≡◌, ◌≢◌, ◌≤◌, ◌<◌, ◌||◌, ℕ, List, length, map, slice_index, IfOk, OnOk};
ghost use Rattle.limits.specs.Most.{widest_text};
ghost use Rattle.blif_text.specs.Kind.{is_among};
ghost use Rattle.blif_text.specs.Views.{plain_model};
ghost use Rattle.library_faults.specs.Graph.{graph, names_of};
ghost use Rattle.library_faults.specs.Library.{IsPlaceable};
ghost use Rattle.library_faults.specs.Found.{IsOrder};
ghost use Rattle.library_faults.specs.Private.Counts.{is_formal, AreCounted, ArePlaces};

use crate::lengths::count::{Count, count_model};
use blif_text::BlifModel;
use indexmap::IndexSet;
use std::alloc::{AllocError, Global};
use tmr_base::{Name, OutOfMemory};

/// These names, each once.
fn add_names(alloc: Global, set: &mut IndexSet<Name>, names: &[Name]) -> Result<(), OutOfMemory>
    ensures { OnOk result ((name : List ℕ) → is_among set.new.keys name ≡ (is_among set.old.keys name || is_among names.now name)) }
{
    for name in names {
        let copy = name.copy(alloc)?;
        set.insert(copy)?;
    }
    Ok(())
}

/// The inputs and outputs of a model, in a set without room for more.
fn port_names(alloc: Global, model: &BlifModel) -> Result<IndexSet<Name>, OutOfMemory>
    ensures { IfOk result (λ set. (name : List ℕ) → is_among set.keys name ≡ (is_among (plain_model model.now).inputs name || is_among (plain_model model.now).outputs name)) }
{
    let mut set = IndexSet::new(alloc);
    add_names(alloc, &mut set, &model.inputs)?;
    add_names(alloc, &mut set, &model.outputs)?;
    set.shrink_to_fit();
    Ok(set)
}

/// What statements may bind of the model with this number. Nothing places the main model.
fn formals_of(alloc: Global, models: &[BlifModel], x: usize) -> Result<IndexSet<Name>, OutOfMemory>
    requires { x < length models.now }
    ensures { IfOk result (λ set. (name : List ℕ) → is_among set.keys name ≡ is_formal (map plain_model models.now) x name) }
{
    if x == 0 {
        return Ok(IndexSet::new(alloc));
    }
    port_names(alloc, &models[x])
}

/// The place of each number of the order.
pub(crate) fn places_of(
    alloc: Global,
    order: &[usize],
    count: usize,
) -> Result<Vec<usize>, AllocError>
    requires within { (k : ℕ) → k < length order.now → slice_index order.now k < count }
    requires once { (j k : ℕ) → j < k → k < length order.now → slice_index order.now j ≢ slice_index order.now k }
    ensures { IfOk result (λ positions. ArePlaces order.now positions.items) }
{
    let mut positions = vec![in alloc; 0; count]?;
    for place in 0..order.len() {
        positions[order[place]] = place;
    }
    Ok(positions)
}

/// The counts of the models of the order, each in its place.
pub(crate) fn count_models(
    alloc: Global,
    models: &[BlifModel],
    names: &IndexSet<Name>,
    order: &[usize],
    positions: &[usize],
    limit: u64,
) -> Result<Vec<Option<Count>>, OutOfMemory>
    requires names { names.now.keys ≡ names_of (map plain_model models.now) }
    requires placeable { IsPlaceable (map plain_model models.now) }
    requires ordered { IsOrder (graph (map plain_model models.now)) order.now }
    requires places { ArePlaces order.now positions.now }
    requires limit { limit ≤ widest_text }
    ensures counted { IfOk result (λ counts. AreCounted (map plain_model models.now) limit order.now counts.items) }
    ensures all { IfOk result (λ counts. length counts.items ≡ length order.now) }
{
    let mut counts = Vec::with_capacity(alloc, order.len())?;
    for x in order {
        let formals = formals_of(alloc, models, *x)?;
        let count = count_model(
            alloc,
            names,
            positions,
            &counts,
            &models[*x],
            formals,
            limit,
        )?;
        counts.push(count)?;
    }
    Ok(counts)
}
