//! A look at a library.
ghost use Rattle.std.specs.Prelude.{◌≡◌, ◌≤◌, map, length, IfOk, OnOk, IfErr};
ghost use Rattle.limits.specs.Most.{widest_text};
ghost use Rattle.blif_text.specs.Library.{IsLibrary};
ghost use Rattle.blif_text.specs.Views.{plain_model};
ghost use Rattle.library_faults.specs.Graph.{graph, names_of};
ghost use Rattle.library_faults.specs.Library.{IsPlaceable};
ghost use Rattle.library_faults.specs.Found.{IsOrder};
ghost use Rattle.library_faults.specs.Sound.{IsLibraryFault, Fits};
ghost use Rattle.library_faults.specs.Private.Looked.{IsLooked};
ghost use Rattle.library_faults.specs.Private.Counts.{ArePlaces, AreCounts};
ghost use Rattle.library_faults.specs.Private.Survey.{IsOrderFault, IsLengthFault};

use crate::fault::LibraryFault;
use crate::lengths::count::Count;
use crate::lengths::counting::{count_models, places_of};
use crate::lengths::placed_text::fits;
use crate::survey::first_fault::{Survey, look_over};
use blif_text::BlifModel;
use indexmap::IndexSet;
use std::alloc::Global;
use tmr_base::Name;

/// What is known of a library without faults, whose flat text keeps the limit.
#[derive(Drop)]
pub struct Looked {
    /// The names of all models: a model's number is the place of its name.
    pub names: IndexSet<Name>,
    /// The models that the main model reaches, each after those that it places.
    pub order: Vec<usize>,
    /// For each number of the order, its place there.
    pub positions: Vec<usize>,
    /// For each place of the order, the count of its model. There is none where the flat text of the model is
    /// longer than the limit wherever it is placed.
    pub counts: Vec<Option<Count>>,
}

/// The names of all models, and the order in which they are counted.
#[derive(Drop)]
struct Ordered {
    names: IndexSet<Name>,
    order: Vec<usize>,
}

/// The place of each model in the order, and the count at each place.
#[derive(Drop)]
struct Counted {
    positions: Vec<usize>,
    counts: Vec<Option<Count>>,
}

/// The order in which the models are counted, where no statement has a fault and no models are in a loop.
fn sound_order(alloc: Global, models: &[BlifModel]) -> Result<Ordered, LibraryFault>
    requires { IsLibrary (map plain_model models.now) }
    ensures names { IfOk result (λ found. found.names.keys ≡ names_of (map plain_model models.now)) }
    ensures placeable { OnOk result (IsPlaceable (map plain_model models.now)) }
    ensures order { IfOk result (λ found. IsOrder (graph (map plain_model models.now)) found.order.items) }
    ensures fault { IfErr result (λ fault. IsOrderFault (map plain_model models.now) fault) }
{
    match look_over(alloc, models)? {
        Survey::Sound(names, order) => Ok(Ordered { names, order }),
        Survey::Misplaced(fault) => Err(LibraryFault::Misplaced(fault)),
        Survey::Recursive(names) => Err(LibraryFault::Recursive(names)),
    }
}

/// The counts of the models of the order, where the flat text keeps the limit.
fn counted_within(
    alloc: Global,
    models: &[BlifModel],
    names: &IndexSet<Name>,
    order: &[usize],
    limit: u64,
) -> Result<Counted, LibraryFault>
    requires library { IsLibrary (map plain_model models.now) }
    requires names { names.now.keys ≡ names_of (map plain_model models.now) }
    requires placeable { IsPlaceable (map plain_model models.now) }
    requires ordered { IsOrder (graph (map plain_model models.now)) order.now }
    requires limit { limit ≤ widest_text }
    ensures places { IfOk result (λ counted. ArePlaces order.now counted.positions.items) }
    ensures counts { IfOk result (λ counted. AreCounts (map plain_model models.now) order.now counted.counts.items) }
    ensures fits { OnOk result (Fits (map plain_model models.now) limit) }
    ensures fault { IfErr result (λ fault. IsLengthFault (map plain_model models.now) limit fault) }
{
    let positions = places_of(alloc, order, models.len())?;
    let counts = count_models(alloc, models, names, order, &positions, limit)?;
    if !fits(models, order, &positions, &counts, limit) {
        return Err(LibraryFault::TooLarge);
    }
    Ok(Counted { positions, counts })
}

/// The order of a library's models and the counts of the reached ones, or its first fault: one of a statement, or a
/// loop of models, or a flat text of more than `limit` bytes. `Memory` may come in place of either: also where the names of a
/// model's formals, each as often as it stands in the flat text, have more bytes than 64 bits count. No flat element is made:
/// the time goes by the length of the library.
#[tactic(auto, using(crate::proofs::LookedLaws::looked_laws))]
pub fn look(alloc: Global, models: &[BlifModel], limit: u64) -> Result<Looked, LibraryFault>
    requires library { IsLibrary (map plain_model models.now) }
    requires limit { limit ≤ widest_text }
    ensures ok { IfOk result (λ looked. IsLooked (map plain_model models.now) looked) }
    ensures fits { OnOk result (Fits (map plain_model models.now) limit) }
    ensures fault { IfErr result (λ fault. IsLibraryFault (map plain_model models.now) limit fault) }
{
    let found = sound_order(alloc, models)?;
    let counted = counted_within(alloc, models, &found.names, &found.order, limit)?;
    Ok(Looked {
        names: found.names,
        order: found.order,
        positions: counted.positions,
        counts: counted.counts,
    })
}
