//! Rows of a table.
ghost use Rattle.std.specs.Prelude.{◌≡◌, ◌∷◌, ◌++◌, [], option_map, option_to_list, OnOk, OnErr};
ghost use Rattle.table_cover.specs.Pushing as pushing;
ghost use Rattle.blif_text.specs.Private.Answers.{Answers, plain};
ghost use Rattle.blif_text.specs.Kind.{Marks, row_wide, row_parts, row_in, row_of, marks_kind};
ghost use Rattle.blif_text.specs.Views.{marked_rows};
ghost use Rattle.blif_text.specs.Private.Progress.{output_before};

use crate::fault::{Refusal, TextKind};
use table_cover::{Cover, RowFault};

/// The marks with the output that the token is, if it is one byte.
fn with_output<'a>(marks: &'a [u8], token: &[u8]) -> Option<(&'a [u8], u8)>
    ensures { option_map (λ r. let row : Marks = record { marks = r.0.now; output = r.1 } in row) result ≡ row_wide (marks.now ∷ token.now ∷ []) }
{
    match token {
        [output] => Some((marks, *output)),
        _ => None,
    }
}

/// What may be the marks and the output of a row in a table of that many pins.
fn parts<'a>(width: usize, first: &'a [u8], arguments: &[&'a [u8]]) -> Option<(&'a [u8], u8)>
    ensures { option_map (λ r. let row : Marks = record { marks = r.0.now; output = r.1 } in row) result ≡ row_parts width (first.now ∷ plain arguments.now) }
{
    match arguments {
        [] if width == 0 => with_output(&first[..0], first),
        [output] if width != 0 => with_output(first, output),
        _ => None,
    }
}

/// Adds a row to a cover, unless it has as many as numbers of 32 bits count.
#[tactic(auto, using(crate::proofs::Rows::pushed_rows))]
fn put_marks(cover: &mut Cover, marks: &[u8], output: u8) -> Result<(), Refusal>
    ensures row { Answers result (marks_kind (output_before cover.old) (row_in cover.old.width (record { marks = marks.now; output = output })))
        (λ _. marked_rows cover.new ≡ marked_rows cover.old ++ option_to_list (row_in cover.old.width (record { marks = marks.now; output = output }))) }
    ensures ok { OnOk result (cover.new ≡ pushing.with_row cover.old marks.now output) }
    ensures err { OnErr result (cover.new ≡ cover.old) }
{
    if cover.row_count() == u32::MAX {
        return Err(Refusal::Memory);
    }
    match cover.push_row(marks, output) {
        Ok(()) => Ok(()),
        Err(RowFault::Width | RowFault::BadChar) => Err(Refusal::Bad(TextKind::BadRow)),
        Err(RowFault::Mixed) => Err(Refusal::Bad(TextKind::MixedCover)),
        Err(RowFault::Memory) => Err(Refusal::Memory),
    }
}

/// Adds the row that the tokens are to the cover of a table of that many pins.
#[tactic(auto, unfolding(crate::specs::Kind::row_of))]
pub(crate) fn put_row(
    cover: &mut Cover,
    width: usize,
    first: &[u8],
    arguments: &[&[u8]],
) -> Result<(), Refusal>
    requires { cover.old.width ≡ width }
    ensures row { Answers result (marks_kind (output_before cover.old) (row_of width (first.now ∷ plain arguments.now)))
        (λ _. marked_rows cover.new ≡ marked_rows cover.old ++ option_to_list (row_of width (first.now ∷ plain arguments.now))) }
    ensures width { cover.new.width ≡ cover.old.width }
    ensures err { OnErr result (cover.new ≡ cover.old) }
{
    match parts(width, first, arguments) {
        Some((marks, output)) => put_marks(cover, marks, output),
        None => Err(Refusal::Bad(TextKind::BadRow)),
    }
}
