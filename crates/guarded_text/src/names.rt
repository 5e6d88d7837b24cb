//! The names of copies, put into a text.
ghost use Rattle.std.specs.Prelude.{◌≡◌, ◌++◌, ◌∷◌, OnOk};
ghost use Rattle.guarded_text.specs.Private.Spelled.{tailed, two_spelled};

use std::alloc::AllocError;

/// Puts a blank, the name, a tilde and this byte. Two bytes are put faster one by one than as a slice.
pub fn put_tailed(out: &mut Vec<u8>, name: &[u8], byte: u8) -> Result<(), AllocError>
    ensures { OnOk result (out.new.items ≡ out.old.items ++ 32 ∷ tailed name.now byte) }
{
    out.push(b' ')?;
    out.extend_from_slice(name)?;
    out.push(b'~')?;
    out.push(byte)?;
    Ok(())
}

/// Puts the names of both copies of the net with this name, a blank before each.
pub fn put_two_names(out: &mut Vec<u8>, name: &[u8]) -> Result<(), AllocError>
    ensures { OnOk result (out.new.items ≡ out.old.items ++ two_spelled name.now) }
{
    put_tailed(out, name, b'0')?;
    put_tailed(out, name, b'1')?;
    Ok(())
}
