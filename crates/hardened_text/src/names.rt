//! The names of copies and voters, put into a text.
ghost use Rattle.std.specs.Prelude.{◌≡◌, ◌+◌, ◌++◌, ◌∷◌, [], OnOk};
ghost use Rattle.tmr_base.specs.Copies.{copy_number};
ghost use Rattle.tmr_base.specs.Names.{copy_text};
ghost use Rattle.hardened_text.specs.Private.Spelled.{voter_spelled, three_spelled};

use std::alloc::AllocError;
use tmr_base::CopyNo;

/// What stands behind a net's name in the name of its copy.
fn copy_ending(c: CopyNo) -> &'static [u8]
    ensures { result.now ≡ 126 ∷ (48 + copy_number c) ∷ [] }
{
    match c {
        CopyNo::First => b"~0",
        CopyNo::Second => b"~1",
        CopyNo::Third => b"~2",
    }
}

/// How the name of a voter ends: with the letter `a`, `b` or `c`.
fn voter_ending(c: CopyNo) -> &'static [u8]
    ensures { result.now ≡ 126 ∷ (97 + copy_number c) ∷ [] }
{
    match c {
        CopyNo::First => b"~a",
        CopyNo::Second => b"~b",
        CopyNo::Third => b"~c",
    }
}

/// Puts a blank and the name of copy c of the net with this name.
pub fn put_copy_name(out: &mut Vec<u8>, name: &[u8], c: CopyNo) -> Result<(), AllocError>
    ensures { OnOk result (out.new.items ≡ out.old.items ++ 32 ∷ copy_text name.now c) }
{
    out.push(b' ')?;
    out.extend_from_slice(name)?;
    out.extend_from_slice(copy_ending(c))?;
    Ok(())
}

/// Puts the names of the three copies of the net with this name, a blank before each.
pub fn put_three_names(out: &mut Vec<u8>, name: &[u8]) -> Result<(), AllocError>
    ensures { OnOk result (out.new.items ≡ out.old.items ++ three_spelled name.now) }
{
    put_copy_name(out, name, CopyNo::First)?;
    put_copy_name(out, name, CopyNo::Second)?;
    put_copy_name(out, name, CopyNo::Third)?;
    Ok(())
}

/// Puts a blank and the name of the voter of the net with this name that gives copy c. `digits` are those of the
/// partition that it is for.
pub fn put_voter_name(
    out: &mut Vec<u8>,
    name: &[u8],
    digits: &[u8],
    c: CopyNo,
) -> Result<(), AllocError>
    ensures { OnOk result (out.new.items ≡ out.old.items ++ 32 ∷ voter_spelled name.now digits.now c) }
{
    out.push(b' ')?;
    out.extend_from_slice(name)?;
    out.push(b'~')?;
    out.extend_from_slice(digits)?;
    out.extend_from_slice(voter_ending(c))?;
    Ok(())
}
