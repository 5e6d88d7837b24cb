//! Parts of a text: its front, and the pieces in which it is handed out.
ghost use Rattle.std.specs.Prelude.{◌≡◌, ◌≤◌, take, length};
ghost use Rattle.tmr_outside.specs.Pieces.{Takes};

use crate::{LONGEST_PIECE, Taker};

/// The first `keep` bytes, or all where there are no more.
pub fn front(bytes: &[u8], keep: u64) -> &[u8]
    ensures { result.now ≡ take keep bytes.now }
{
    if keep < bytes.len() as u64 {
        &bytes[..keep as usize]
    } else {
        bytes
    }
}

/// Hands out the bytes in pieces.
pub fn hand_out<T: Taker>(bytes: &[u8], to: &mut T)
    requires { length bytes.now ≤ T.room to.old }
    ensures { Takes (T.stands to.old) (T.stands to.new) (T.room to.old) (T.room to.new) bytes.now }
{
    let mut start = 0;
    while start < bytes.len() {
        let end = bytes.len().min(start.saturating_add(LONGEST_PIECE));
        to.take(&bytes[start..end]);
        start = end;
    }
}
