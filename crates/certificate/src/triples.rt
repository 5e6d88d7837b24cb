//! One of three copies in a list of triples.
ghost use Rattle.std.specs.Prelude.{◌≡◌, ◌<◌, length, [], slice_index_or};
ghost use Rattle.tmr_base.specs.Copies.{of_copy};
ghost use Rattle.certificate.specs.Threes.{three_of, three_ids};

use tmr_base::{CopyNo, NetId};

/// The net of copy c in triple i.
pub fn id_at(copies: &[[NetId; 3]], i: usize, c: CopyNo) -> NetId
    requires { i < length copies.now }
    ensures { result.0 ≡ of_copy (three_ids (slice_index_or copies.now i [])) c }
{
    let three = &copies[i];
    match c {
        CopyNo::First => three[0],
        CopyNo::Second => three[1],
        CopyNo::Third => three[2],
    }
}

/// The label of copy c in triple i.
pub fn label_at(labels: &[[u32; 3]], i: usize, c: CopyNo) -> u32
    requires { i < length labels.now }
    ensures { result ≡ of_copy (three_of (slice_index_or labels.now i [])) c }
{
    let three = &labels[i];
    match c {
        CopyNo::First => three[0],
        CopyNo::Second => three[1],
        CopyNo::Third => three[2],
    }
}
