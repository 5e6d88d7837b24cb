//! The covers of comparators and of the alarm.
ghost use Rattle.std.specs.Prelude.{◌≡◌, ◌<◌, length, IfOk, OnOk};
ghost use Rattle.table_cover.specs.Pushing.{with_row};
ghost use Rattle.dwc.specs.Guard.{differ_cover, any_cover};

use std::alloc::Global;
use table_cover::Cover;
use tmr_base::OutOfMemory;

/// Adds a row, of which only memory can be wanted.
fn push(cover: &mut Cover, row: &[u8], output: u8) -> Result<(), OutOfMemory>
    requires { length cover.old.rows < 4294967295 }
    ensures { OnOk result (cover.new ≡ with_row cover.old row.now output) }
{
    match cover.push_row(row, output) {
        Ok(()) => Ok(()),
        Err(_) => Err(OutOfMemory),
    }
}

/// On where two bits differ.
pub fn differ_cover(alloc: Global) -> Result<Cover, OutOfMemory>
    ensures { IfOk result (λ cover. cover ≡ differ_cover) }
{
    let mut cover = Cover::new(alloc, 2);
    push(&mut cover, b"10", b'1')?;
    push(&mut cover, b"01", b'1')?;
    Ok(cover)
}

/// Off where all of so many bits are off.
pub fn any_cover(alloc: Global, width: u32) -> Result<Cover, OutOfMemory>
    ensures { IfOk result (λ cover. cover ≡ any_cover width) }
{
    let mut cover = Cover::new(alloc, width);
    if width > 0 {
        let zeros = vec![in alloc; b'0'; width as usize]?;
        push(&mut cover, &zeros, b'0')?;
    }
    Ok(cover)
}
