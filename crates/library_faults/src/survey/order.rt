//! An order of the reached models in which each stands after each that it places, or a loop of models.
ghost use Rattle.std.specs.Prelude.{◌≡◌, ◌<◌, length, IfOk};
ghost use Rattle.library_faults.specs.Private.Rows.{AreWithin};
ghost use Rattle.library_faults.specs.Found.{IsFound};

use graph::{Graph, Sorted, order_or_cycle};
use std::alloc::Global;
use tmr_base::OutOfMemory;

/// What the walk ends with.
#[derive(Drop)]
pub enum Found {
    Order(Vec<usize>),
    Loop(Vec<usize>),
}

/// The same numbers.
fn models_of(alloc: Global, vertices: &[u32]) -> Result<Vec<usize>, OutOfMemory>
    ensures { IfOk result (λ models. models.items ≡ vertices.now) }
{
    let mut models = Vec::with_capacity(alloc, vertices.len())?;
    for x in vertices {
        models.push(*x as usize)?;
    }
    Ok(models)
}

/// An order of the reached models in which each stands after each that it places, or a loop.
pub(crate) fn order_models(alloc: Global, graph: &Graph) -> Result<Found, OutOfMemory>
    requires some { 0 < length graph.now }
    requires within { AreWithin graph.now }
    ensures { IfOk result (λ found. IsFound graph.now found) }
{
    match order_or_cycle(alloc, graph, 1)? {
        Sorted::Order(order) => Ok(Found::Order(models_of(alloc, &order)?)),
        Sorted::Cycle(cycle) => Ok(Found::Loop(models_of(alloc, &cycle)?)),
    }
}
