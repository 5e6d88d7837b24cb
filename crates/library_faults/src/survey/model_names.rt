//! The names of models, by number.
ghost use Rattle.std.specs.Prelude.{◌≡◌, map, IfOk};
ghost use Rattle.library_faults.specs.Graph.{names_of};
ghost use Rattle.blif_text.specs.Library.{Differ};
ghost use Rattle.blif_text.specs.Views.{plain_model};

use blif_text::BlifModel;
use indexmap::IndexSet;
use std::alloc::Global;
use tmr_base::{Name, OutOfMemory};

#[tactic(auto, using(crate::proofs::NameSets::model_laws))]
/// The names of all models: a model's number is the place of its name.
pub(crate) fn model_names(
    alloc: Global,
    models: &[BlifModel],
) -> Result<IndexSet<Name>, OutOfMemory>
    requires { Differ (names_of (map plain_model models.now)) }
    ensures { IfOk result (λ names. names.keys ≡ names_of (map plain_model models.now)) }
{
    let mut names = IndexSet::new(alloc);
    for model in models {
        let name = model.name.copy(alloc)?;
        names.insert(name)?;
    }
    Ok(names)
}
