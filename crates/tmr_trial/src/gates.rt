//! The covers of tables.
ghost use Rattle.std.specs.Prelude.{◌≡◌, ◌<◌, length, IfOk, OnOk};
ghost use Rattle.table_cover.specs.Pushing.{with_row};
ghost use Rattle.tmr_trial.specs.Designs.{gate};

use std::alloc::Global;
use table_cover::Cover;
use tmr_base::OutOfMemory;

/// Adds a row.
fn push(cover: &mut Cover, row: &[u8], output: u8) -> Result<(), OutOfMemory>
    requires { length cover.old.rows < 4294967295 }
    ensures { OnOk result (cover.new ≡ with_row cover.old row.now output) }
{
    match cover.push_row(row, output) {
        Ok(()) => Ok(()),
        Err(_) => Err(OutOfMemory),
    }
}

/// The cover of this number: both bits, some bit, one bit alone, not both.
#[tactic(auto, unfolding(crate::specs::Designs::gate))]
pub fn gate(alloc: Global, number: u32) -> Result<Cover, OutOfMemory>
    ensures { IfOk result (λ cover. cover ≡ gate number) }
{
    let mut cover = Cover::new(alloc, 2);
    match number {
        0 => push(&mut cover, b"11", b'1')?,
        1 => push(&mut cover, b"00", b'0')?,
        2 => {
            push(&mut cover, b"10", b'1')?;
            push(&mut cover, b"01", b'1')?;
        }
        _ => push(&mut cover, b"11", b'0')?,
    }
    Ok(cover)
}
