//! Writing what a giver gives.
ghost use Rattle.std.specs.Prelude.{◌≡◌, OnOk};
ghost use Rattle.std.specs.Io.KnownBytes.{Appends};

use crate::Giver;
use std::io;
use std::io::Write;

/// Writes all pieces, in their order. Where one is not written, or there was no room for it, none behind it is: a first part of what is
/// given was written then, and of the piece in question an unknown part.
pub fn write_pieces<G: Giver, W: Write>(from: &mut G, to: &mut W) -> io::Result<()>
    ensures { OnOk result (Appends (W.contents to.old) (W.contents to.new) (G.rest from.old)) }
{
    while from.advance()? {
        to.write_all(from.piece())?;
    }
    Ok(())
}
