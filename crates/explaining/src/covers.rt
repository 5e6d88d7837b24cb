//! How two covers differ.
ghost use Rattle.std.specs.Prelude.{◌≡◌, length, IfSome, IfNone};
ghost use Rattle.flat_net.specs.Net.{Net};
ghost use Rattle.explaining.specs.Reasons.{CoversDiffer};
ghost use Rattle.explaining.specs.Private.Pieces.{HasNets};

use crate::reason::Reason;
use table_cover::Cover;

/// The first row that differs. The covers have as many rows of one width.
fn first_row<'a>(is: &'a Cover, wanted: &'a Cover) -> Option<Reason<'a>>
    requires width { is.now.width ≡ wanted.now.width }
    requires polarity { is.now.is_on ≡ wanted.now.is_on }
    requires rows { length is.now.rows ≡ length wanted.now.rows }
    ensures none { IfNone result (is.entry.now ≡ wanted.entry.now) }
    ensures some { IfSome result (CoversDiffer is.entry.now wanted.entry.now) }
    ensures nets { (n h : Net) → IfSome result (HasNets n h) }
{
    for row in 0..is.row_count() {
        if is.row(row) != wanted.row(row) {
            return Some(Reason::Row {
                row,
                is: is.row(row),
                wanted: wanted.row(row),
            });
        }
    }
    None
}

/// How the first cover differs from the second.
pub fn cover_reason<'a>(is: &'a Cover, wanted: &'a Cover) -> Option<Reason<'a>>
    ensures none { IfNone result (is.entry.now ≡ wanted.entry.now) }
    ensures some { IfSome result (CoversDiffer is.entry.now wanted.entry.now) }
    ensures nets { (n h : Net) → IfSome result (HasNets n h) }
{
    if is.width() != wanted.width() {
        return Some(Reason::PinCount {
            is: is.width(),
            wanted: wanted.width(),
        });
    }
    if is.is_on() != wanted.is_on() {
        return Some(Reason::Polarity);
    }
    if is.row_count() != wanted.row_count() {
        return Some(Reason::RowCount {
            is: is.row_count(),
            wanted: wanted.row_count(),
        });
    }
    first_row(is, wanted)
}
