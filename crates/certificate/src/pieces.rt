//! Takes the pieces of a certificate's text, and of them the lines.
ghost use Rattle.std.specs.Prelude.{◌≡◌, ◌≤◌, ◌<◌, ◌+◌, ◌-◌, ◌^◌, ◌++◌, ◌∷◌, [], List, ℕ, length, drop, OnOk, IfOk, IfErr, IfSome, Some, None};
ghost use Rattle.flat_net.specs.Net.{IsDesign};
ghost use Rattle.text_lines.specs.Pending.{IsOneLine};
ghost use Rattle.certificate.specs.Gives.{Gives, Fails};
ghost use Rattle.certificate.specs.Reading.{cert_of_text};
ghost use Rattle.certificate.specs.Carrying.{to_come};
ghost use Rattle.certificate.specs.Reader.{HasRead, IsReady};
ghost use Rattle.certificate.specs.declared.fault.CertFault.TheVariants.{Memory};

use crate::CertFault;
use crate::progress::{Progress, take_line};
use flat_net::FlatNet;
use std::alloc::Global;
use text_lines::line_end;

/// The number of the line at hand, and what came of it so far.
#[derive(Drop)]
pub struct LineInHand {
    pub number: u64,
    pub part: Vec<u8>,
}

/// Takes bytes of the line at hand, among which is no line feed.
fn extend(line: &mut LineInHand, bytes: &[u8]) -> Result<(), CertFault>
    ensures part { OnOk result (line.new.part.items ≡ line.old.part.items ++ bytes.now) }
    ensures number { line.new.number ≡ line.old.number }
    ensures memory { IfErr result (λ e. e ≡ Memory) }
{
    line.part.extend_from_slice(bytes)?;
    Ok(())
}

/// Takes the line at hand, which has come to its end, and begins the next.
fn end_line(
    alloc: Global,
    n: &FlatNet,
    h: &FlatNet,
    line: &mut LineInHand,
    progress: &mut Progress,
) -> Result<(), CertFault>
    requires number { line.old.number < 2 ^ 64 - 1 }
    requires ready { IsReady h.now.net line.old progress.old }
    ensures passes { OnOk result ((more : List ℕ) → to_come n.now.net h.now.net line.old progress.old (10 ∷ more) ≡ to_come n.now.net h.now.net line.new progress.new more) }
    ensures refuses { IfErr result (λ fault. (more : List ℕ) → Fails fault (to_come n.now.net h.now.net line.old progress.old (10 ∷ more))) }
    ensures ready { OnOk result (IsReady h.now.net line.new progress.new) }
    ensures number { line.new.number ≤ line.old.number + 1 }
{
    take_line(alloc, n, h, progress, &line.part, line.number)?;
    line.part.clear();
    line.number += 1;
    Ok(())
}

/// Takes what is left of the line at hand, and ends it. A line that stands whole in one piece is read where it stands.
fn take_last(
    alloc: Global,
    n: &FlatNet,
    h: &FlatNet,
    line: &mut LineInHand,
    progress: &mut Progress,
    bytes: &[u8],
) -> Result<(), CertFault>
    requires number { line.old.number < 2 ^ 64 - 1 }
    requires ready { IsReady h.now.net line.old progress.old }
    requires one_line { IsOneLine bytes.now }
    ensures passes { OnOk result ((more : List ℕ) → to_come n.now.net h.now.net line.old progress.old (bytes.now ++ 10 ∷ more) ≡ to_come n.now.net h.now.net line.new progress.new more) }
    ensures refuses { IfErr result (λ fault. (more : List ℕ) → Fails fault (to_come n.now.net h.now.net line.old progress.old (bytes.now ++ 10 ∷ more))) }
    ensures ready { OnOk result (IsReady h.now.net line.new progress.new) }
    ensures number { line.new.number ≤ line.old.number + 1 }
{
    if line.part.is_empty() {
        take_line(alloc, n, h, progress, bytes, line.number)?;
        line.number += 1;
        return Ok(());
    }
    extend(line, bytes)?;
    end_line(alloc, n, h, line, progress)
}

/// Takes bytes up to the first end of a line, or all. The result is how many.
fn take_front(
    alloc: Global,
    n: &FlatNet,
    h: &FlatNet,
    line: &mut LineInHand,
    progress: &mut Progress,
    bytes: &[u8],
) -> Result<usize, CertFault>
    requires some { 0 < length bytes.now }
    requires number { line.old.number < 2 ^ 64 - 1 }
    requires ready { IsReady h.now.net line.old progress.old }
    ensures some { IfOk result (λ k. (0 < k) × (k ≤ length bytes.now)) }
    ensures passes { IfOk result (λ k. (more : List ℕ) → to_come n.now.net h.now.net line.old progress.old (bytes.now ++ more) ≡ to_come n.now.net h.now.net line.new progress.new (drop k bytes.now ++ more)) }
    ensures refuses { IfErr result (λ fault. (more : List ℕ) → Fails fault (to_come n.now.net h.now.net line.old progress.old (bytes.now ++ more))) }
    ensures ready { OnOk result (IsReady h.now.net line.new progress.new) }
    ensures number { line.new.number ≤ line.old.number + 1 }
{
    match line_end(bytes) {
        Some(end) => {
            take_last(alloc, n, h, line, progress, &bytes[..end])?;
            Ok(end + 1)
        }
        None => {
            extend(line, bytes)?;
            Ok(bytes.len())
        }
    }
}

/// Takes a piece.
fn take_bytes(
    alloc: Global,
    n: &FlatNet,
    h: &FlatNet,
    line: &mut LineInHand,
    progress: &mut Progress,
    piece: &[u8],
) -> Result<(), CertFault>
    requires number { line.old.number + length piece.now < 2 ^ 64 }
    requires ready { IsReady h.now.net line.old progress.old }
    ensures passes { OnOk result ((more : List ℕ) → to_come n.now.net h.now.net line.old progress.old (piece.now ++ more) ≡ to_come n.now.net h.now.net line.new progress.new more) }
    ensures refuses { IfErr result (λ fault. (more : List ℕ) → Fails fault (to_come n.now.net h.now.net line.old progress.old (piece.now ++ more))) }
    ensures ready { OnOk result (IsReady h.now.net line.new progress.new) }
    ensures number { line.new.number ≤ line.old.number + length piece.now }
{
    let mut taken = 0;
    while taken < piece.len() {
        taken += take_front(alloc, n, h, line, progress, &piece[taken..])?;
    }
    Ok(())
}

/// Takes a piece, unless a fault was met before. Gives the fault that is met by then.
pub fn take_piece(
    alloc: Global,
    n: &FlatNet,
    h: &FlatNet,
    line: &mut LineInHand,
    progress: &mut Progress,
    refused: Option<CertFault>,
    piece: &[u8],
) -> Option<CertFault>
    requires number { line.old.number + length piece.now < 2 ^ 64 }
    requires ready { refused ≡ None → IsReady h.now.net line.old progress.old }
    ensures read { (given : List ℕ) → HasRead n.now.net h.now.net refused line.old progress.old given → HasRead n.now.net h.now.net result line.new progress.new (given ++ piece.now) }
    ensures again { IfSome refused (λ fault. result ≡ Some fault) }
    ensures ready { result ≡ None → IsReady h.now.net line.new progress.new }
    ensures number { line.new.number ≤ line.old.number + length piece.now }
{
    match refused {
        Some(fault) => Some(fault),
        None => match take_bytes(alloc, n, h, line, progress, piece) {
            Ok(()) => None,
            Err(fault) => Some(fault),
        },
    }
}
