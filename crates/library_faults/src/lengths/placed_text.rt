//! The length of the flat text of a library, by the counts of its models: no flat element is walked.
ghost use Rattle.std.specs.Prelude.{◌≡◌, ◌≤◌, ◌<◌, true, false, map, length};
ghost use Rattle.limits.specs.Most.{widest_text};
ghost use Rattle.blif_text.specs.Views.{plain_model};
ghost use Rattle.library_faults.specs.Graph.{graph};
ghost use Rattle.library_faults.specs.Library.{IsPlaceable};
ghost use Rattle.library_faults.specs.Found.{IsOrder};
ghost use Rattle.library_faults.specs.Private.Counts.{AreCounted, ArePlaces};
ghost use Rattle.library_faults.specs.Flat.{flat_model};
ghost use Rattle.library_faults.specs.FlatText.{capped, text_length as length_of_text, header_length as length_of_header};

use crate::lengths::count::Count;
use crate::lengths::entries::entry_at;
use crate::lengths::flat_text::{spaced_name, spaced_names};
use blif_text::BlifModel;

/// All lines but those of the elements.
#[tactic(auto, using(crate::proofs::Capped::capped_laws))]
fn header_length(model: &BlifModel) -> u64
    ensures { result ≡ capped (length_of_header (plain_model model.now)) }
{
    spaced_name(&model.name)
        .saturating_add(spaced_names(&model.inputs))
        .saturating_add(spaced_names(&model.outputs))
        .saturating_add(29)
}

/// The flat text has at most so many bytes.
pub(crate) fn fits(
    models: &[BlifModel],
    order: &[usize],
    positions: &[usize],
    counts: &[Option<Count>],
    limit: u64,
) -> bool
    requires placeable { IsPlaceable (map plain_model models.now) }
    requires ordered { IsOrder (graph (map plain_model models.now)) order.now }
    requires places { ArePlaces order.now positions.now }
    requires counted { AreCounted (map plain_model models.now) limit order.now counts.now }
    requires all { length counts.now ≡ length order.now }
    requires some { 0 < length models.now }
    requires limit { limit ≤ widest_text }
    ensures yes { result ≡ true → length_of_text (flat_model (map plain_model models.now)) ≤ limit }
    ensures no { result ≡ false → limit < length_of_text (flat_model (map plain_model models.now)) }
{
    match entry_at(positions, counts, 0) {
        Some(count) => {
            let total = header_length(&models[0]).saturating_add(count.bytes);
            total <= limit
        }
        None => false,
    }
}
