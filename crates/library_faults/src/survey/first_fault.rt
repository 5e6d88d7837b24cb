//! The faults of a library, and the order in which its reached models are counted.
ghost use Rattle.std.specs.Prelude.{◌≡◌, ◌<◌, ◌↔◌, ℕ, true, nat_eq, map, length, All, IfOk, MatchResult};
ghost use Rattle.blif_text.specs.Library.{IsLibrary};
ghost use Rattle.blif_text.specs.Views.{plain_model};
ghost use Rattle.library_faults.specs.Graph.{graph as graph_in, names_of, Reached};
ghost use Rattle.library_faults.specs.Ports.{ports_of};
ghost use Rattle.library_faults.specs.Library.{IsStatementFault, IsPlaceable, picked};
ghost use Rattle.library_faults.specs.Found.{IsOrder};
ghost use Rattle.library_faults.specs.Private.Survey.{IsSurvey};
ghost use Rattle.std.specs.List.{list_any};

use crate::fault::PlacingFault;
use crate::statements::placing::statement_fault;
use crate::statements::ports::{Ports, all_ports};
use crate::survey::model_names::model_names;
use crate::survey::order::{Found, order_models};
use crate::survey::placings::graph_of;
use crate::survey::reach::reached_models;
use blif_text::BlifModel;
use graph::Graph;
use indexmap::IndexSet;
use std::alloc::Global;
use tmr_base::{Name, OutOfMemory};

/// What a look at a library ends with.
#[derive(Drop)]
pub enum Survey {
    /// The names of all models, and an order of the reached ones in which each stands after each that
    /// it places.
    Sound(IndexSet<Name>, Vec<usize>),
    /// The first fault of the statements of the reached models.
    Misplaced(PlacingFault),
    /// No statement has a fault, and of these models each places the next, and the last the first.
    Recursive(Vec<Name>),
}

/// The first fault of the statements of the reached models, in the order of the file.
fn first_fault(
    alloc: Global,
    models: &[BlifModel],
    names: &IndexSet<Name>,
    ports: &[Ports],
    reached: &IndexSet<usize>,
) -> Result<Option<PlacingFault>, OutOfMemory>
    requires names { names.now.keys ≡ names_of (map plain_model models.now) }
    requires ports { ports.now ≡ map ports_of (map plain_model models.now) }
    requires reached { (x : ℕ) → (list_any (nat_eq x) reached.now.keys ≡ true) ↔ Reached (graph_in (map plain_model models.now)) x }
    ensures { IfOk result (λ fault. IsStatementFault (map plain_model models.now) fault) }
{
    for (x, model) in models.iter().enumerate() {
        if reached.contains(&x) {
            if let Some(fault) = statement_fault(alloc, names, ports, &model.elements)? {
                return Ok(Some(fault));
            }
        }
    }
    Ok(None)
}

/// The names of these models.
#[tactic(auto, using(crate::proofs::Loops::loop_laws))]
fn names_at(
    alloc: Global,
    names: &IndexSet<Name>,
    models: &[usize],
) -> Result<Vec<Name>, OutOfMemory>
    requires { All (λ x. x < length names.now.keys) models.now }
    ensures { IfOk result (λ found. found.items ≡ picked names.now.keys models.now) }
{
    let names = names.as_slice();
    let mut found = Vec::new(alloc);
    for x in models {
        found.push(names[*x].copy(alloc)?)?;
    }
    Ok(found)
}

/// The first fault of the statements of the reached models.
fn statements_fault(
    alloc: Global,
    models: &[BlifModel],
    names: &IndexSet<Name>,
    graph: &Graph,
) -> Result<Option<PlacingFault>, OutOfMemory>
    requires library { IsLibrary (map plain_model models.now) }
    requires names { names.now.keys ≡ names_of (map plain_model models.now) }
    requires graph { graph.now ≡ graph_in (map plain_model models.now) }
    ensures { IfOk result (λ fault. IsStatementFault (map plain_model models.now) fault) }
{
    let ports = all_ports(alloc, models)?;
    let reached = reached_models(alloc, graph)?;
    first_fault(alloc, models, names, &ports, &reached)
}

/// The order in which the models of a library without faults are counted, or the loop that is in its way.
fn order_or_loop(
    alloc: Global,
    models: &[BlifModel],
    names: &IndexSet<Name>,
    graph: &Graph,
) -> Result<Result<Vec<usize>, Survey>, OutOfMemory>
    requires library { IsLibrary (map plain_model models.now) }
    requires names { names.now.keys ≡ names_of (map plain_model models.now) }
    requires graph { graph.now ≡ graph_in (map plain_model models.now) }
    requires placeable { IsPlaceable (map plain_model models.now) }
    ensures { IfOk result (λ found. MatchResult found (λ order. IsOrder (graph_in (map plain_model models.now)) order.items) (IsSurvey (map plain_model models.now))) }
{
    match order_models(alloc, graph)? {
        Found::Order(order) => Ok(Ok(order)),
        Found::Loop(found) => {
            let around = names_at(alloc, names, &found)?;
            Ok(Err(Survey::Recursive(around)))
        }
    }
}

/// The order in which the models are counted, or what is in its way.
fn order_or_fault(
    alloc: Global,
    models: &[BlifModel],
    names: &IndexSet<Name>,
) -> Result<Result<Vec<usize>, Survey>, OutOfMemory>
    requires library { IsLibrary (map plain_model models.now) }
    requires names { names.now.keys ≡ names_of (map plain_model models.now) }
    ensures { IfOk result (λ found. MatchResult found (λ order. IsPlaceable (map plain_model models.now) × IsOrder (graph_in (map plain_model models.now)) order.items) (IsSurvey (map plain_model models.now))) }
{
    let graph = graph_of(alloc, names, models)?;
    match statements_fault(alloc, models, names, &graph)? {
        Some(fault) => Ok(Err(Survey::Misplaced(fault))),
        None => order_or_loop(alloc, models, names, &graph),
    }
}

/// The first fault of a library, or the order in which its models are counted.
pub(crate) fn look_over(alloc: Global, models: &[BlifModel]) -> Result<Survey, OutOfMemory>
    requires { IsLibrary (map plain_model models.now) }
    ensures { IfOk result (λ found. IsSurvey (map plain_model models.now) found) }
{
    let names = model_names(alloc, models)?;
    match order_or_fault(alloc, models, &names)? {
        Ok(order) => Ok(Survey::Sound(names, order)),
        Err(survey) => Ok(survey),
    }
}
