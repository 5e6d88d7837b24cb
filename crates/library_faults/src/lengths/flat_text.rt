//! The lengths of names and rows in a flat text.
ghost use Rattle.std.specs.Prelude.{◌≡◌, ◌*◌, length, string_bytes, IfOk};
ghost use Rattle.library_faults.specs.Flat.{step};
ghost use Rattle.library_faults.specs.FlatText.{capped, spaced, all_spaced, row_length as length_of_row, rows_length as length_of_rows};

use std::alloc::{AllocError, Global};
use table_cover::Cover;
use tmr_base::Name;

/// `u`, the number and `/`.
#[tactic(auto, unfolding(crate::specs::Flat::step))]
pub fn step_text(alloc: Global, number: usize) -> Result<String, AllocError>
    ensures { IfOk result (λ text. string_bytes text ≡ step number) }
{
    format!(in alloc; "u{number}/")
}

/// A blank and the name.
pub(crate) fn spaced_name(name: &Name) -> u64
    ensures { result ≡ capped (spaced name.now) }
{
    (name.bytes().len() as u64).saturating_add(1)
}

/// The names, a blank before each.
#[tactic(auto, using(crate::proofs::Capped::capped_laws))]
pub(crate) fn spaced_names(names: &[Name]) -> u64
    ensures { result ≡ capped (all_spaced names.now) }
{
    let mut total: u64 = 0;
    for name in names {
        total = total.saturating_add(spaced_name(name));
    }
    total
}

/// A row with its output and the end of its line.
fn row_length(width: u32) -> u64
    ensures { result ≡ length_of_row width }
{
    if width == 0 { 2 } else { width as u64 + 3 }
}

/// All rows.
pub(crate) fn rows_length(cover: &Cover) -> u64
    ensures { result ≡ capped (length_of_rows cover.now) }
{
    (cover.row_count() as u64).saturating_mul(row_length(cover.width()))
}
