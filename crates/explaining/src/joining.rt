//! Pieces of a text, one behind the other.
ghost use Rattle.std.specs.Prelude.{◌≡◌, IfOk};
ghost use Rattle.std.specs.List.{concat};
ghost use Rattle.certificate.specs.Plain.{texts};

use std::alloc::{AllocError, Global};

/// The pieces, one behind the other.
#[tactic(auto, using(crate::proofs::Joins::pieces))]
pub fn join(alloc: Global, pieces: &[&[u8]]) -> Result<Vec<u8>, AllocError>
    ensures { IfOk result (λ text. text.items ≡ concat (texts pieces.now)) }
{
    let mut text = Vec::new(alloc);
    for piece in pieces {
        text.extend_from_slice(piece)?;
    }
    Ok(text)
}
