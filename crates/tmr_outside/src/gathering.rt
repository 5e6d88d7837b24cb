//! All pieces of a giver, as one list of bytes.
ghost use Rattle.std.specs.Prelude.{◌≡◌, IfOk};

use crate::Giver;
use std::alloc::{AllocError, Global};

/// The bytes that are given, in one vector.
pub fn gather<G: Giver>(alloc: Global, from: &mut G) -> Result<Vec<u8>, AllocError>
    ensures { IfOk result (λ bytes. bytes.items ≡ G.rest from.old) }
{
    let mut bytes = Vec::new(alloc);
    while from.advance()? {
        bytes.extend_from_slice(from.piece())?;
    }
    Ok(bytes)
}
