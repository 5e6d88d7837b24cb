//! Reading a file up to a limit.
ghost use Rattle.std.specs.Prelude.{◌+◌, ◌≡◌, ◌≢◌, ◌<◌, ◌≤◌, length, take, IfOk, OnOk, OnErr, IsOk, IfSome, IsErrOf};
ghost use Rattle.std.specs.Io.KnownBytes.{Keeps, Consumes, IsAtEnd};
ghost use Rattle.tmr_outside.specs.Counts.{Rose};
ghost use Rattle.tmr_outside.specs.Reading.{ReadsUpTo, MovesBytes, MovesFirst, TellsFailures};

use crate::{LONGEST_PIECE, LoadFault, Source, Taker};

/// One read of at most `most` bytes into the buffer.
fn read_at_most<F: Source>(file: &mut F, buffer: &mut [u8], most: u64) -> Result<usize, LoadFault>
    ensures bound { IfOk result (λ count. count ≤ length buffer.new) }
    ensures most { IfOk result (λ count. count ≤ most) }
    ensures ok { IfOk result (λ count. Consumes (F.unread file.old) (F.unread file.new) (take count buffer.new)) }
    ensures end { IfOk result (λ count. count ≡ 0 → 0 < length buffer.old → 0 < most
        → IsAtEnd (F.unread file.new)) }
    ensures ended { IfOk result (λ count. count ≡ 0 → 0 < length buffer.old → 0 < most → F.ended file.new) }
    ensures err { OnErr result (Keeps (F.unread file.old) (F.unread file.new)) }
    ensures kinds { result ≢ Err LoadFault.TooLong }
    ensures failures { TellsFailures result (F.failed file.old) (F.failed file.new) (F.starved file.old) (F.starved file.new) }
{
    if most < buffer.len() as u64 {
        file.read_some(&mut buffer[..most as usize])
    } else {
        file.read_some(buffer)
    }
}

/// Hands out the next piece, if it has at most `left` bytes, and gives its length: 0 at the end alone. At
/// most one byte more is read.
fn hand_out_next<F: Source, T: Taker>(
    file: &mut F,
    buffer: &mut [u8],
    left: u64,
    to: &mut T,
) -> Result<u64, LoadFault>
    requires room { left ≤ T.room to.old }
    requires some { 0 < length buffer.old }
    requires short { length buffer.old ≤ LONGEST_PIECE }
    ensures handed { IfOk result (MovesBytes (F.unread file.old) (F.unread file.new)
        (T.stands to.old) (T.stands to.new) (T.room to.old) (T.room to.new)) }
    ensures within { IfOk result (λ count. count ≤ left) }
    ensures end { IfOk result (λ count. count ≡ 0 → IsAtEnd (F.unread file.new)) }
    ensures ended { IfOk result (λ count. count ≡ 0 → F.ended file.new) }
    ensures too_long { IsErrOf result LoadFault.TooLong → IfSome (F.unread file.old) (λ rest. left < length rest) }
    ensures read { OnErr result (ReadsUpTo (F.unread file.old) (F.unread file.new) (left + 1)) }
    ensures err { OnErr result (to.new ≡ to.old) }
    ensures failures { TellsFailures result (F.failed file.old) (F.failed file.new) (F.starved file.old) (F.starved file.new) }
{
    let count = read_at_most(file, buffer, left.saturating_add(1))?;
    if count as u64 > left {
        return Err(LoadFault::TooLong);
    }
    to.take(&buffer[..count]);
    Ok(count as u64)
}

/// Hands out a file in pieces, if it has at most `limit` bytes. At most one byte more is read. The answer is `Ok` only where a read came
/// to the end, `Failed` and `Memory` only where a read failed so, and neither where none did.
pub fn hand_out_within<F: Source, T: Taker>(
    file: &mut F,
    limit: u64,
    to: &mut T,
) -> Result<(), LoadFault>
    requires { limit ≤ T.room to.old }
    ensures handed { MovesFirst (F.unread file.old) (T.stands to.old) (T.stands to.new) (T.room to.old) (T.room to.new)
        limit (IsOk result) }
    ensures ended { OnOk result (F.ended file.new) }
    ensures too_long { IsErrOf result LoadFault.TooLong → IfSome (F.unread file.old) (λ all. limit < length all) }
    ensures read { ReadsUpTo (F.unread file.old) (F.unread file.new) (limit + 1) }
    ensures failures { TellsFailures result (F.failed file.old) (F.failed file.new) (F.starved file.old) (F.starved file.new) }
{
    let mut buffer = [0u8; LONGEST_PIECE];
    let mut left = limit;
    while left > 0 {
        match hand_out_next(file, &mut buffer, left, to) {
            Ok(0) => return Ok(()),
            Ok(count) => left -= count,
            Err(fault) => return Err(fault),
        }
    }
    match hand_out_next(file, &mut buffer, 0, to) {
        Ok(_) => Ok(()),
        Err(fault) => Err(fault),
    }
}
