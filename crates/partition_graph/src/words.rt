//! Pieces of text, put one after the other.
ghost use Rattle.std.specs.Prelude.{◌≡◌, ◌++◌, OnOk};
ghost use Rattle.std.specs.List.{concat};
ghost use Rattle.partition_graph.specs.Picture.{escaped, quoted};
ghost use Rattle.partition_graph.specs.Private.Counting.{texts};

use std::alloc::AllocError;

/// Puts pieces, one behind the other.
pub fn put_all(out: &mut Vec<u8>, pieces: &[&[u8]]) -> Result<(), AllocError>
    ensures { OnOk result (out.new.items ≡ out.old.items ++ concat (texts pieces.now)) }
{
    for piece in pieces {
        out.extend_from_slice(piece)?;
    }
    Ok(())
}

/// Puts a byte of a name that stands between quotes.
fn put_escaped(out: &mut Vec<u8>, byte: u8) -> Result<(), AllocError>
    ensures { OnOk result (out.new.items ≡ out.old.items ++ escaped byte) }
{
    match byte {
        b'"' => out.extend_from_slice(b"\\\"")?,
        b'\\' => out.extend_from_slice(b"\\\\")?,
        b'&' => out.extend_from_slice(b"&amp;")?,
        _ => out.push(byte)?,
    }
    Ok(())
}

/// Puts a name that stands between quotes.
pub fn put_quoted(out: &mut Vec<u8>, name: &[u8]) -> Result<(), AllocError>
    ensures { OnOk result (out.new.items ≡ out.old.items ++ quoted name.now) }
{
    for byte in name {
        put_escaped(out, *byte)?;
    }
    Ok(())
}
