//! Takes the bytes of a text, its lines and their statements.
ghost use Rattle.std.specs.Prelude.{◌≡◌, ◌≤◌, ◌<◌, ◌+◌, ◌-◌, ◌^◌, ◌++◌, ◌∷◌, [], List, ℕ, Ok, length, take, OnOk, IfOk, IfErr, IfSome, IsOkUnless, Some, None};
ghost use Rattle.blif_text.specs.Private.Stands.{Stands, Takes, Refuses, IsBadOf, reading_in};
ghost use Rattle.blif_text.specs.Reading.{Reads, reading};
ghost use Rattle.blif_text.specs.Private.Sound.{IsSound};
ghost use Rattle.blif_text.specs.Reader.{HasRead};
ghost use Rattle.blif_text.specs.Text.{spoken, tokens};
ghost use Rattle.blif_text.specs.Private.Pending.{with_bytes};

use crate::fault::{Refusal, TextFault, TextKind};
use crate::library::Library;
use crate::progress::Progress;
use std::alloc::Global;
use text_lines::{PendingLine, line_end, tokens};

/// Takes the statement of a joined line, if it has tokens.
#[tactic(auto, unfolding(crate::specs::Text::spoken))]
fn take_text(alloc: Global, progress: &mut Progress, text: &[u8]) -> Result<(), Refusal>
    ensures { (line : ℕ) → Takes (spoken line (tokens text.now)) progress.old progress.new result }
{
    let tokens = tokens(alloc, text)?;
    match tokens.as_slice() {
        [] => Ok(()),
        [first, arguments @ ..] => progress.take(alloc, first, arguments),
    }
}

/// Takes the statement of a joined line, the first of whose lines has this number.
fn take_statement(
    alloc: Global,
    progress: &mut Progress,
    line: u64,
    text: &[u8],
) -> Result<(), TextFault>
    ensures taken { OnOk result (Takes (spoken line (tokens text.now)) progress.old progress.new (Ok tt)) }
    ensures refused { IfErr result (λ fault. Refuses line (λ r. Takes (spoken line (tokens text.now)) progress.old progress.new r) fault) }
    ensures sound { OnOk result (IsSound progress.old → IsSound progress.new) }
{
    match take_text(alloc, progress, text) {
        Ok(()) => Ok(()),
        Err(Refusal::Bad(kind)) => Err(TextFault::Bad { line, kind }),
        Err(Refusal::Memory) => Err(TextFault::Memory),
    }
}

/// Takes the statement of the joined line in hand, and begins the next.
fn take_joined(
    alloc: Global,
    lines: &mut PendingLine,
    progress: &mut Progress,
) -> Result<(), TextFault>
    ensures begun { OnOk result (lines.new ≡ record { first = lines.old.number; text = []; number = lines.old.number; line = lines.old.line }) }
    ensures taken { OnOk result (Takes (spoken lines.old.first (tokens lines.old.text)) progress.old progress.new (Ok tt)) }
    ensures refused { IfErr result (λ fault. Refuses lines.old.first (λ r. Takes (spoken lines.old.first (tokens lines.old.text)) progress.old progress.new r) fault) }
    ensures sound { OnOk result (IsSound progress.old → IsSound progress.new) }
    ensures number { lines.new.number ≡ lines.old.number }
{
    let line = lines.first();
    match take_statement(alloc, progress, line, lines.text()) {
        Ok(()) => {
            lines.begin();
            Ok(())
        }
        Err(fault) => Err(fault),
    }
}

/// Ends the line in hand, and takes the statement that ends with it.
fn end_line(
    alloc: Global,
    lines: &mut PendingLine,
    progress: &mut Progress,
) -> Result<(), TextFault>
    requires { lines.old.number < 2 ^ 64 - 1 }
    ensures ok { OnOk result ((given : List ℕ) → Stands lines.old progress.old given → Stands lines.new progress.new (given ++ 10 ∷ [])) }
    ensures bad { IfErr result (λ fault. (given : List ℕ) → Stands lines.old progress.old given → IsBadOf (given ++ 10 ∷ []) fault) }
    ensures sound { OnOk result (IsSound progress.old → IsSound progress.new) }
    ensures number { lines.new.number ≤ lines.old.number + 1 }
{
    match lines.end_line() {
        Ok(true) => match take_joined(alloc, lines, progress) {
            Ok(()) => Ok(()),
            Err(fault) => Err(fault),
        },
        Ok(false) => Ok(()),
        Err(_) => Err(TextFault::Memory),
    }
}

/// Takes bytes of the line in hand.
fn take_inner(lines: &mut PendingLine, bytes: &[u8]) -> Result<(), TextFault>
    ensures ok { OnOk result (lines.new ≡ with_bytes lines.old bytes.now) }
    ensures number { lines.new.number ≡ lines.old.number }
    ensures kinds { IsOkUnless result TextFault.Memory }
{
    match lines.extend(bytes) {
        Ok(()) => Ok(()),
        Err(_) => Err(TextFault::Memory),
    }
}

/// Takes what is left of the line in hand, and ends it.
fn take_last(
    alloc: Global,
    lines: &mut PendingLine,
    progress: &mut Progress,
    bytes: &[u8],
) -> Result<(), TextFault>
    requires { lines.old.number < 2 ^ 64 - 1 }
    ensures ok { OnOk result ((given : List ℕ) → Stands (with_bytes lines.old bytes.now) progress.old given → Stands lines.new progress.new (given ++ 10 ∷ [])) }
    ensures bad { IfErr result (λ fault. (given : List ℕ) → Stands (with_bytes lines.old bytes.now) progress.old given → IsBadOf (given ++ 10 ∷ []) fault) }
    ensures sound { OnOk result (IsSound progress.old → IsSound progress.new) }
    ensures number { lines.new.number ≤ lines.old.number + 1 }
{
    match take_inner(lines, bytes) {
        Ok(()) => end_line(alloc, lines, progress),
        Err(fault) => Err(fault),
    }
}

/// The same. A line that stands whole in one piece, and joins no next line, is read where it stands, and is not copied.
fn take_line(
    alloc: Global,
    lines: &mut PendingLine,
    progress: &mut Progress,
    bytes: &[u8],
) -> Result<(), TextFault>
    requires { lines.old.number < 2 ^ 64 - 1 }
    ensures ok { OnOk result ((given : List ℕ) → Stands (with_bytes lines.old bytes.now) progress.old given → Stands lines.new progress.new (given ++ 10 ∷ [])) }
    ensures bad { IfErr result (λ fault. (given : List ℕ) → Stands (with_bytes lines.old bytes.now) progress.old given → IsBadOf (given ++ 10 ∷ []) fault) }
    ensures sound { OnOk result (IsSound progress.old → IsSound progress.new) }
    ensures number { lines.new.number ≤ lines.old.number + 1 }
{
    let line = lines.first();
    match lines.pass(bytes) {
        Some(text) => take_statement(alloc, progress, line, text),
        None => take_last(alloc, lines, progress, bytes),
    }
}

/// Takes bytes up to the first end of a line, or all. The result is how many.
fn take_front(
    alloc: Global,
    lines: &mut PendingLine,
    progress: &mut Progress,
    bytes: &[u8],
) -> Result<usize, TextFault>
    requires some { 0 < length bytes.now }
    requires number { lines.old.number + length bytes.now < 2 ^ 64 - 1 }
    ensures some { IfOk result (λ n. (0 < n) × (n ≤ length bytes.now)) }
    ensures ok { IfOk result (λ n. (given : List ℕ) → Stands lines.old progress.old given → Stands lines.new progress.new (given ++ take n bytes.now)) }
    ensures bad { IfErr result (λ fault. (given : List ℕ) → Stands lines.old progress.old given → IsBadOf (given ++ bytes.now) fault) }
    ensures sound { OnOk result (IsSound progress.old → IsSound progress.new) }
    ensures number { lines.new.number ≤ lines.old.number + 1 }
{
    match line_end(bytes) {
        Some(end) => {
            take_line(alloc, lines, progress, &bytes[..end])?;
            Ok(end + 1)
        }
        None => {
            take_inner(lines, bytes)?;
            Ok(bytes.len())
        }
    }
}

/// Takes a piece.
fn take_bytes(
    alloc: Global,
    lines: &mut PendingLine,
    progress: &mut Progress,
    piece: &[u8],
) -> Result<(), TextFault>
    requires { lines.old.number + length piece.now < 2 ^ 64 - 1 }
    ensures ok { OnOk result ((given : List ℕ) → Stands lines.old progress.old given → Stands lines.new progress.new (given ++ piece.now)) }
    ensures bad { IfErr result (λ fault. (given : List ℕ) → Stands lines.old progress.old given → IsBadOf (given ++ piece.now) fault) }
    ensures sound { OnOk result (IsSound progress.old → IsSound progress.new) }
    ensures number { lines.new.number ≤ lines.old.number + length piece.now }
{
    let mut taken = 0;
    while taken < piece.len() {
        taken += take_front(alloc, lines, progress, &piece[taken..])?;
    }
    Ok(())
}

/// The library, where no more statements come.
fn ended(alloc: Global, progress: &mut Progress) -> Result<Library, TextFault>
    requires { IsSound progress.old }
    ensures { Reads result (reading_in progress.old) }
{
    if progress.is_empty() {
        return Err(TextFault::Bad {
            line: 1,
            kind: TextKind::NoModel,
        });
    }
    match progress.ended(alloc) {
        Ok(models) => {
            // Numbers of 32 bits count the models.
            if models.len() > u32::MAX as usize {
                return Err(TextFault::Memory);
            }
            Ok(Library::new(models))
        }
        Err(_) => Err(TextFault::Memory),
    }
}

/// Ends the text: an LF ends the last line, and another what a backslash there leaves open.
fn end_text(
    alloc: Global,
    lines: &mut PendingLine,
    progress: &mut Progress,
) -> Result<Library, TextFault>
    requires number { lines.old.number < 2 ^ 64 - 2 }
    requires sound { IsSound progress.old }
    ensures { (given : List ℕ) → Stands lines.old progress.old given → Reads result (reading given) }
{
    end_line(alloc, lines, progress)?;
    end_line(alloc, lines, progress)?;
    ended(alloc, progress)
}

/// Ends the text, unless a fault was met before.
fn end_unrefused(
    alloc: Global,
    lines: &mut PendingLine,
    progress: &mut Progress,
    refused: Option<TextFault>,
) -> Result<Library, TextFault>
    requires number { lines.old.number < 2 ^ 64 - 2 }
    requires sound { refused ≡ None → IsSound progress.old }
    ensures reads { (given : List ℕ) → HasRead refused lines.old progress.old given → Reads result (reading given) }
    ensures again { IfSome refused (λ fault. result ≡ Err fault) }
{
    match refused {
        None => end_text(alloc, lines, progress),
        Some(fault) => Err(fault),
    }
}

/// The same, of a text of which no more is read. All that is kept of it is freed here alone.
pub(crate) fn finish(
    alloc: Global,
    mut lines: PendingLine,
    mut progress: Progress,
    refused: Option<TextFault>,
) -> Result<Library, TextFault>
    requires number { lines.number < 2 ^ 64 - 2 }
    requires sound { refused ≡ None → IsSound progress }
    ensures reads { (given : List ℕ) → HasRead refused lines progress given → Reads result (reading given) }
    ensures again { IfSome refused (λ fault. result ≡ Err fault) }
{
    end_unrefused(alloc, &mut lines, &mut progress, refused)
}

/// Takes a piece, unless a fault was met before. Gives the fault that is met by then.
pub(crate) fn take_piece(
    alloc: Global,
    lines: &mut PendingLine,
    progress: &mut Progress,
    refused: Option<TextFault>,
    piece: &[u8],
) -> Option<TextFault>
    requires { lines.old.number + length piece.now < 2 ^ 64 - 1 }
    ensures read { (given : List ℕ) → HasRead refused lines.old progress.old given → HasRead result lines.new progress.new (given ++ piece.now) }
    ensures again { IfSome refused (λ fault. result ≡ Some fault) }
    ensures sound { (refused ≡ None → IsSound progress.old) → result ≡ None → IsSound progress.new }
    ensures number { lines.new.number ≤ lines.old.number + length piece.now }
{
    match refused {
        Some(fault) => Some(fault),
        None => match take_bytes(alloc, lines, progress, piece) {
            Ok(()) => None,
            Err(fault) => Some(fault),
        },
    }
}
