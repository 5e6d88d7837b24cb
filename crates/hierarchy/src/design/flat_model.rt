//! The flat model of a library: the main model with the flat elements, whose nets have their texts as names.
ghost use Rattle.std.specs.Prelude.{◌≡◌, ◌≤◌, ◌<◌, true, map, length, All, IfOk, OnOk, IfErr, None};
ghost use Rattle.limits.specs.Most.{widest_text};
ghost use Rattle.blif_text.specs.Library.{IsLibrary};
ghost use Rattle.blif_text.specs.Views.{plain_model, plain_element};
ghost use Rattle.library_faults.specs.Graph.{names_of};
ghost use Rattle.library_faults.specs.Flat.{flat_model, main_of};
ghost use Rattle.library_faults.specs.Sound.{IsSound, Fits};
ghost use Rattle.library_faults.specs.Private.Looked.{IsLooked};
ghost use Rattle.hierarchy.specs.Clash.{name_clash};
ghost use Rattle.hierarchy.specs.Flatten.{IsFlatFault};
ghost use Rattle.hierarchy.specs.Private.Alone.{places_nothing};
ghost use Rattle.hierarchy.specs.Private.Walk.{AreReady};
ghost use Rattle.hierarchy.specs.Private.Naming.{IsClash};
ghost use Rattle.hierarchy.specs.Private.Stages.{IsFlatModel};

use crate::flat_fault::FlatFault;
use crate::walking::bindings::{Ready, Row, all_links};
use crate::walking::branching::branching_models;
use crate::walking::named_model::named_model;
use crate::walking::naming::NamingFault;
use crate::walking::walk::is_placing;
use blif_text::{BlifModel, Element};
use library_faults::{Looked, look};
use std::alloc::Global;
use tmr_base::OutOfMemory;
use wrapper_chains::{cut_short, filled_models};

/// The statements of a library made ready to be followed. What was known of it is let go.
fn ready_rows(alloc: Global, models: &[BlifModel], looked: Looked) -> Result<Vec<Row>, OutOfMemory>
    requires { looked.names.keys ≡ names_of (map plain_model models.now) }
    ensures { IfOk result (λ rows. AreReady (map plain_model models.now) rows.items) }
{
    let holds = filled_models(alloc, &looked.names, models, &looked.order)?;
    let branching = branching_models(alloc, &looked.names, models, &holds)?;
    all_links(alloc, &looked, &holds, &branching, models)
}

/// The main model with the flat elements, unless two nets share a text. All statements are followed as they stand.
fn walked_model(
    alloc: Global,
    models: &[BlifModel],
    looked: Looked,
) -> Result<BlifModel, NamingFault>
    requires names { looked.names.keys ≡ names_of (map plain_model models.now) }
    requires some { 0 < length models.now }
    ensures model { IfOk result (λ flat. plain_model flat ≡ flat_model (map plain_model models.now)) }
    ensures clear { OnOk result (name_clash (map plain_model models.now) ≡ None) }
    ensures fault { IfErr result (λ fault. IsClash (map plain_model models.now) fault) }
{
    let rows = ready_rows(alloc, models, looked)?;
    let ready = Ready {
        models,
        rows: &rows,
    };
    named_model(alloc, &ready)
}

/// The same, where long chains of wrappers are cut short before.
#[tactic(auto, using(crate::proofs::Shortened::short_laws))]
fn named_flat(
    alloc: Global,
    models: Vec<BlifModel>,
    looked: Looked,
) -> Result<BlifModel, NamingFault>
    requires library { IsLibrary (map plain_model models.items) }
    requires looked { IsLooked (map plain_model models.items) looked }
    ensures model { IfOk result (λ flat. plain_model flat ≡ flat_model (map plain_model models.items)) }
    ensures clear { OnOk result (name_clash (map plain_model models.items) ≡ None) }
    ensures fault { IfErr result (λ fault. IsClash (map plain_model models.items) fault) }
{
    let short = cut_short(alloc, models, &looked)?;
    walked_model(alloc, &short, looked)
}

/// The flat model of a library without faults of its own, whose flat elements are walked.
#[tactic(auto, using(crate::proofs::FlatModels::flat_models))]
fn walked_flat(
    alloc: Global,
    models: Vec<BlifModel>,
    looked: Looked,
    limit: u64,
) -> Result<BlifModel, FlatFault>
    requires library { IsLibrary (map plain_model models.items) }
    requires looked { IsLooked (map plain_model models.items) looked }
    requires sound { IsSound (map plain_model models.items) }
    requires fits { Fits (map plain_model models.items) limit }
    ensures model { IfOk result (λ flat. IsFlatModel (map plain_model models.items) limit (plain_model flat)) }
    ensures fault { IfErr result (λ fault. IsFlatFault (map plain_model models.items) limit fault) }
{
    match named_flat(alloc, models, looked) {
        Ok(flat) => Ok(flat),
        Err(NamingFault::Clash(text)) => Err(FlatFault::NameClash(text)),
        Err(NamingFault::Memory) => Err(FlatFault::Memory),
    }
}

/// No element places a model.
#[tactic(auto, unfolding(crate::specs::Private::Alone::places_nothing))]
fn places_nothing(elements: &[Element]) -> bool
    ensures { result ≡ places_nothing (map plain_element elements.now) }
{
    for element in elements {
        if is_placing(element) {
            return false;
        }
    }
    true
}

/// The main model places no models: it is its own flat model then, and no two of its nets share a text.
fn is_alone(models: &[BlifModel]) -> bool
    requires { 0 < length models.now }
    ensures model { result ≡ true → flat_model (map plain_model models.now) ≡ main_of (map plain_model models.now) }
    ensures clear { result ≡ true → name_clash (map plain_model models.now) ≡ None }
{
    let main = &models[0];
    places_nothing(&main.elements)
}

/// The main model, of which nothing else is kept.
fn into_main(models: Vec<BlifModel>) -> BlifModel
    requires { 0 < length models.items }
    ensures { plain_model result ≡ main_of (map plain_model models.items) }
{
    let mut models = models;
    models.swap_remove(0)
}

/// The flat model of a library without faults of its own: the main model itself, where it places no models.
#[tactic(auto, using(crate::proofs::FlatModels::flat_models))]
fn looked_model(
    alloc: Global,
    models: Vec<BlifModel>,
    looked: Looked,
    limit: u64,
) -> Result<BlifModel, FlatFault>
    requires library { IsLibrary (map plain_model models.items) }
    requires looked { IsLooked (map plain_model models.items) looked }
    requires sound { IsSound (map plain_model models.items) }
    requires fits { Fits (map plain_model models.items) limit }
    ensures model { IfOk result (λ flat. IsFlatModel (map plain_model models.items) limit (plain_model flat)) }
    ensures fault { IfErr result (λ fault. IsFlatFault (map plain_model models.items) limit fault) }
{
    if is_alone(&models) {
        return Ok(into_main(models));
    }
    walked_flat(alloc, models, looked, limit)
}

/// The flat model of a library that is taken apart, or the first fault of the library or of its flat text.
#[tactic(auto, using(crate::proofs::FlatModels::library_laws))]
pub(crate) fn taken_model(
    alloc: Global,
    models: Vec<BlifModel>,
    limit: u64,
) -> Result<BlifModel, FlatFault>
    requires library { IsLibrary (map plain_model models.items) }
    requires limit { limit ≤ widest_text }
    ensures model { IfOk result (λ flat. IsFlatModel (map plain_model models.items) limit (plain_model flat)) }
    ensures fault { IfErr result (λ fault. IsFlatFault (map plain_model models.items) limit fault) }
{
    let looked = look(alloc, &models, limit)?;
    looked_model(alloc, models, looked, limit)
}
