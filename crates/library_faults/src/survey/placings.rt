//! Which model places which, by number.
ghost use Rattle.std.specs.Prelude.{◌≡◌, ◌<◌, map, length, IfOk};
ghost use Rattle.library_faults.specs.Graph.{names_of, graph as graph_in, placed_in};
ghost use Rattle.blif_text.specs.Views.{plain_model, plain_element};

use blif_text::{BlifModel, Element};
use graph::Graph;
use indexmap::IndexSet;
use std::alloc::Global;
use tmr_base::{Name, OutOfMemory};

/// The numbers of the models that these statements place, where the library has them.
#[tactic(auto, using(crate::proofs::GraphLaws::number_within), unfolding(crate::specs::Graph::placed_in, crate::specs::Graph::number_named))]
fn placed_models(
    alloc: Global,
    names: &IndexSet<Name>,
    elements: &[Element],
) -> Result<Vec<u32>, OutOfMemory>
    requires { length names.now.keys < 4294967296 }
    ensures { IfOk result (λ row. row.items ≡ placed_in names.now.keys (map plain_element elements.now)) }
{
    let mut row = Vec::new(alloc);
    for element in elements {
        if let Element::Instance { model, .. } = element {
            if let Some(x) = names.get_index_of(model) {
                row.push(x as u32)?;
            }
        }
    }
    Ok(row)
}

/// Which model places which.
pub(crate) fn graph_of(
    alloc: Global,
    names: &IndexSet<Name>,
    models: &[BlifModel],
) -> Result<Graph, OutOfMemory>
    requires names { names.now.keys ≡ names_of (map plain_model models.now) }
    requires few { length models.now < 4294967296 }
    ensures { IfOk result (λ g. g ≡ graph_in (map plain_model models.now)) }
{
    let mut graph = Graph::new(alloc);
    for model in models {
        let row = placed_models(alloc, names, &model.elements)?;
        graph.push(&row)?;
    }
    Ok(graph)
}
