//! The lines of voters.
ghost use Rattle.std.specs.Prelude.{◌≡◌, ◌++◌, OnOk};
ghost use Rattle.std.specs.List.{flat_map};
ghost use Rattle.hardened_text.specs.Private.Spelled.{voter_head, voter_rows, voter_text_at, voters_at};

use crate::names::put_three_names;
use itoa::Buffer;
use std::alloc::AllocError;
use tmr_base::CopyNo;

/// Puts what the lines of all voters of the net with this name begin with: all but the partition and the letter.
fn put_head(out: &mut Vec<u8>, name: &[u8]) -> Result<(), AllocError>
    ensures { OnOk result (out.new.items ≡ out.old.items ++ voter_head name.now) }
{
    out.extend_from_slice(b".names")?;
    put_three_names(out, name)?;
    out.push(b' ')?;
    out.extend_from_slice(name)?;
    out.push(b'~')?;
    Ok(())
}

/// How the line of a voter ends behind its partition, and the rows of the majority.
fn rows(c: CopyNo) -> &'static [u8]
    ensures { result.now ≡ voter_rows c }
{
    match c {
        CopyNo::First => b"~a\n11- 1\n1-1 1\n-11 1\n",
        CopyNo::Second => b"~b\n11- 1\n1-1 1\n-11 1\n",
        CopyNo::Third => b"~c\n11- 1\n1-1 1\n-11 1\n",
    }
}

/// Puts the lines of a voter.
fn put_voter(out: &mut Vec<u8>, head: &[u8], digits: &[u8], c: CopyNo) -> Result<(), AllocError>
    ensures { OnOk result (out.new.items ≡ out.old.items ++ voter_text_at head.now digits.now c) }
{
    out.extend_from_slice(head)?;
    out.extend_from_slice(digits)?;
    out.extend_from_slice(rows(c))?;
    Ok(())
}

/// Puts the lines of the three voters for partition p.
fn put_three(out: &mut Vec<u8>, head: &[u8], p: u32) -> Result<(), AllocError>
    ensures { OnOk result (out.new.items ≡ out.old.items ++ voters_at head.now p) }
{
    let mut digits = Buffer::new();
    let digits = digits.format(p).as_bytes();
    put_voter(out, head, digits, CopyNo::First)?;
    put_voter(out, head, digits, CopyNo::Second)?;
    put_voter(out, head, digits, CopyNo::Third)?;
    Ok(())
}

/// Puts the lines of the voters for each of these partitions.
fn put_each(out: &mut Vec<u8>, head: &[u8], row: &[u32]) -> Result<(), AllocError>
    ensures { OnOk result (out.new.items ≡ out.old.items ++ flat_map (voters_at head.now) row.now) }
{
    for p in row {
        put_three(out, head, *p)?;
    }
    Ok(())
}

/// Puts the lines of the voters of the net with this name for these partitions. `head` is room for a part of a line.
pub fn put_voters(
    out: &mut Vec<u8>,
    name: &[u8],
    row: &[u32],
    head: &mut Vec<u8>,
) -> Result<(), AllocError>
    ensures { OnOk result (out.new.items ≡ out.old.items ++ flat_map (voters_at (voter_head name.now)) row.now) }
{
    if row.is_empty() {
        return Ok(());
    }
    head.clear();
    put_head(head, name)?;
    put_each(out, head, row)?;
    Ok(())
}
