//! The lines of the comparators and of the alarm.
ghost use Rattle.std.specs.Prelude.{◌≡◌, ◌<◌, ◌++◌, ◌∷◌, length, slice_index, OnOk};
ghost use Rattle.flat_net.specs.Net.{name_of};
ghost use Rattle.guarded_text.specs.Private.Spelled.{tailed, comparator_text, any_rows, alarm_end};

use crate::names::{put_tailed, put_two_names};
use flat_net::FlatNet;
use std::alloc::{AllocError, Global};

/// Puts the lines of the comparator of the output with this name.
fn put_comparator(out: &mut Vec<u8>, name: &[u8]) -> Result<(), AllocError>
    ensures { OnOk result (out.new.items ≡ out.old.items ++ comparator_text name.now) }
{
    out.extend_from_slice(b".names")?;
    put_two_names(out, name)?;
    put_tailed(out, name, b'e')?;
    out.extend_from_slice(b"\n10 1\n01 1\n")?;
    Ok(())
}

/// Puts the lines of the comparator of output k.
pub fn put_comparator_of(out: &mut Vec<u8>, n: &FlatNet, k: u32) -> Result<(), AllocError>
    requires { k < length n.now.net.outputs }
    ensures { OnOk result (out.new.items ≡ out.old.items ++ comparator_text (name_of n.now.net (slice_index n.now.net.outputs k))) }
{
    put_comparator(out, n.name(n.output(k)).bytes())?;
    Ok(())
}

/// Puts a blank and the name of the comparator of output k.
pub fn put_comparator_name_of(out: &mut Vec<u8>, n: &FlatNet, k: u32) -> Result<(), AllocError>
    requires { k < length n.now.net.outputs }
    ensures { OnOk result (out.new.items ≡ out.old.items ++ 32 ∷ tailed (name_of n.now.net (slice_index n.now.net.outputs k)) 101) }
{
    put_tailed(out, n.name(n.output(k)).bytes(), b'e')?;
    Ok(())
}

/// Puts the row that is off where all of so many bits are off. For no bits there is none.
fn put_any_rows(alloc: Global, out: &mut Vec<u8>, width: u32) -> Result<(), AllocError>
    ensures { OnOk result (out.new.items ≡ out.old.items ++ any_rows width) }
{
    if width > 0 {
        let zeros = vec![in alloc; b'0'; width as usize]?;
        out.extend_from_slice(&zeros)?;
        out.extend_from_slice(b" 0\n")?;
    }
    Ok(())
}

/// Puts what stands behind the names that the alarm reads: its own name, its row, and the end of the text.
pub fn put_alarm_end(alloc: Global, out: &mut Vec<u8>, n: &FlatNet) -> Result<(), AllocError>
    ensures { OnOk result (out.new.items ≡ out.old.items ++ alarm_end n.now.net) }
{
    out.extend_from_slice(b" alarm~z\n")?;
    put_any_rows(alloc, out, n.output_count())?;
    out.extend_from_slice(b".end\n")?;
    Ok(())
}
