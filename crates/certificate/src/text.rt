//! A certificate's text: `cert_text` says how it is spelled, `cert_of_text` what a text must be, and its first fault.
ghost use Rattle.std.specs.Prelude.{◌≡◌, ◌↔◌, ◌≤◌, length, IfOk, IsTrue, Ok};
ghost use Rattle.certificate.specs.Cert.{PlainCert, IsCert, Fits};
ghost use Rattle.certificate.specs.Gives.{Gives};
ghost use Rattle.certificate.specs.Length.{cert_length};
ghost use Rattle.certificate.specs.Reading.{cert_of_text};
ghost use Rattle.certificate.specs.Text.{cert_text};

use crate::{CertFault, CertReader, CertText, Certificate};
use flat_net::FlatNet;
use std::alloc::Global;
use tmr_base::OutOfMemory;

/// The certificate that a text gives for the original n and the hardened design h. It fits both.
///
/// Each fault has the number of the first line that is not the expected one; where the text ends too
/// early, that is the number of its lines plus 1. Within a line they come in this order: `Line` for a
/// wrong word, form or number, a missing line feed, or bytes after `end`; `UnknownNet` for a name that
/// no node of its design has; `Order` for a node that is not the one that is due; `Range` for a
/// partition that there is not; `Doubled` for a copy that has a role already. `Memory` comes where
/// memory ran out. One pass, one look-up a name.
pub fn read_cert(
    alloc: Global,
    bytes: &[u8],
    n: &FlatNet,
    h: &FlatNet,
) -> Result<Certificate, CertFault>
    // What is read fits the two designs.
    ensures fits { IfOk result (λ k. Fits n.now.net h.now.net k) }
    // What is read is spelled so, each byte of it.
    ensures found { IfOk result (λ k. bytes.now ≡ cert_text n.now.net h.now.net k) }
    // What is spelled so is read, unless memory runs out.
    ensures only { (k : PlainCert) → IsCert k → Fits n.now.net h.now.net k → bytes.now ≡ cert_text n.now.net h.now.net k → Gives (λ k. k) result (Ok k) }
    // The certificate that the lines spell, or the fault of the first line that is not as it must be.
    ensures exact { Gives (λ k. k) result (cert_of_text n.now.net h.now.net bytes.now) }
{
    let mut reader = CertReader::new(alloc, n, h);
    reader.feed(bytes);
    reader.finish()
}

/// The text of certificate c for the original n and the hardened design h, which it fits. `CertText` gives it in pieces.
pub fn write_cert(
    alloc: Global,
    n: &FlatNet,
    h: &FlatNet,
    c: &Certificate,
) -> Result<Vec<u8>, OutOfMemory>
    requires { Fits n.now.net h.now.net c.now }
    ensures text { IfOk result (λ bytes. bytes.items ≡ cert_text n.now.net h.now.net c.now) }
    // Reading it gives c.
    ensures read { IfOk result (λ bytes. cert_of_text n.now.net h.now.net bytes.items ≡ Ok c.now) }
    // Its length, line by line.
    ensures length { IfOk result (λ bytes. length bytes.items ≡ cert_length n.now.net h.now.net c.now) }
{
    let mut text = CertText::in_pieces(alloc, n, h, c);
    let mut bytes = Vec::new(alloc);
    while text.advance()? {
        bytes.extend_from_slice(text.piece())?;
    }
    Ok(bytes)
}

/// Whether the text of certificate c for the original n and the hardened design h, which it fits, has at most so many bytes.
///
/// It is made in pieces up to the first that is too much, and never held whole.
pub fn cert_is_within(
    alloc: Global,
    n: &FlatNet,
    h: &FlatNet,
    c: &Certificate,
    most: u64,
) -> Result<bool, OutOfMemory>
    requires { Fits n.now.net h.now.net c.now }
    ensures { IfOk result (λ within. IsTrue within ↔ length (cert_text n.now.net h.now.net c.now) ≤ most) }
{
    let mut text = CertText::in_pieces(alloc, n, h, c);
    let mut room = most;
    while text.advance()? {
        let bytes = text.piece().len() as u64;
        if bytes > room {
            return Ok(false);
        }
        room -= bytes;
    }
    Ok(true)
}
