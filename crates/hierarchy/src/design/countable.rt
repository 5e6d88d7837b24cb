//! Whether the design of a flat model has no more nets and pins than it can count.
ghost use Rattle.std.specs.Prelude.{◌≡◌, map, sum_by};
ghost use Rattle.blif_text.specs.Views.{plain_model, plain_element};
ghost use Rattle.library_faults.specs.FlatText.{capped};
ghost use Rattle.hierarchy.specs.Private.Countable.{pins_of, is_countable as is_countable_model};

use blif_text::{BlifModel, Element};

/// A design counts its nets and its pins with 32 bits.
const MOST: u64 = u32::MAX as u64;

/// How many pins the element has.
fn pin_count(element: &Element) -> u64
    ensures { result ≡ pins_of (plain_element element.now) }
{
    match element {
        Element::Table { pins, .. } => pins.len() as u64,
        Element::Latch { .. } => 1,
        Element::Instance { .. } => 0,
    }
}

/// How many pins the elements have, as far as 64 bits count them.
fn pin_sum(elements: &[Element]) -> u64
    ensures { result ≡ capped (sum_by pins_of (map plain_element elements.now)) }
{
    let mut total: u64 = 0;
    for element in elements {
        total = total.saturating_add(pin_count(element));
    }
    total
}

/// The nets and the pins of the model's design are fewer than 32 bits count.
#[tactic(auto, unfolding(crate::specs::Private::Countable::is_countable))]
pub(crate) fn is_countable(flat: &BlifModel) -> bool
    ensures { result ≡ is_countable_model (plain_model flat.now) }
{
    let inputs = flat.inputs.len() as u64;
    let nets = inputs.saturating_add(flat.elements.len() as u64);
    nets < MOST && pin_sum(&flat.elements) < MOST
}
