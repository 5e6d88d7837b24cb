//! What is kept of models in the places that an order gives them.
ghost use Rattle.std.specs.Prelude.{◌≡◌, option_copied};
ghost use Rattle.library_faults.specs.Private.Entries.{entry_at, entry_named};

use indexmap::IndexSet;
use tmr_base::Name;

/// What is kept of the model of this number.
pub fn entry_at<'a, T>(positions: &[usize], entries: &'a [Option<T>], x: usize) -> Option<&'a T>
    ensures { option_copied result ≡ entry_at positions.now entries.now x }
{
    let place = positions.get(x)?;
    entries.get(*place)?.as_ref()
}

/// What is kept of the model of this name.
#[tactic(auto, unfolding(crate::specs::Graph::number_named))]
pub fn entry_of<'a, T>(
    names: &IndexSet<Name>,
    positions: &[usize],
    entries: &'a [Option<T>],
    model: &Name,
) -> Option<&'a T>
    ensures { option_copied result ≡ entry_named names.now.keys positions.now entries.now model.now }
{
    let x = names.get_index_of(model)?;
    entry_at(positions, entries, x)
}
