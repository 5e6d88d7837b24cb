//! Rows of one width in one buffer.
ghost use Rattle.std.specs.Prelude.{◌≡◌, ◌<◌, ◌*◌, ◌↔◌, ℕ, Some, length, slice_get, IsTrue};
ghost use Rattle.table_cover.specs.Cover.{mark_fits, row_matches, some_row_matches};
ghost use Rattle.table_cover.specs.Rows.{cut_rows};
ghost use Rattle.table_cover.specs.Words.{word_bit, bits_of};

/// The mark takes the bit.
fn fits(mark: u8, bit: bool) -> bool
    ensures { result ≡ mark_fits mark bit }
{
    match mark {
        b'0' => !bit,
        b'1' => bit,
        _ => true,
    }
}

/// Each mark of the row takes the bit at its place.
fn row_fits(row: &[u8], bits: &[bool]) -> bool
    ensures { result ≡ row_matches row.now bits.now }
{
    row.iter().zip(bits).all(|(mark, bit)| fits(*mark, *bit))
}

/// Some of the rows takes the bits.
#[tactic(auto, using(crate::proofs::RowLaws::next_rows))]
pub fn some_row_fits(marks: &[u8], width: usize, count: u32, bits: &[bool]) -> bool
    requires { length marks.now ≡ count * width }
    ensures { result ≡ some_row_matches (cut_rows width count marks.now) bits.now }
{
    let mut rest = marks;
    for _row in 0..count {
        let (row, after) = rest.split_at(width);
        if row_fits(row, bits) {
            return true;
        }
        rest = after;
    }
    false
}

/// Row i.
#[tactic(auto, using(crate::proofs::RowLaws::rows_by_number))]
pub fn row_at(marks: &[u8], width: usize, count: u32, i: u32) -> &[u8]
    requires long { length marks.now ≡ count * width }
    requires i { i < count }
    ensures { slice_get (cut_rows width count marks.now) i ≡ Some result.now }
{
    let start = i as usize * width;
    &marks[start..start + width]
}

/// The same rows.
#[tactic(auto, using(crate::proofs::RowLaws::cut_rows_same))]
pub fn same_rows(width: usize, count: u32, a: &[u8], b: &[u8]) -> bool
    requires a { length a.now ≡ count * width }
    requires b { length b.now ≡ count * width }
    ensures { IsTrue result ↔ (cut_rows width count a.now ≡ cut_rows width count b.now) }
{
    a == b
}

/// In which runs the mark takes the bit.
#[tactic(auto, using(crate::proofs::WordLaws::word_bits))]
fn wide_fits(mark: u8, word: u64) -> u64
    ensures { (j : ℕ) → j < 64 → word_bit j result ≡ mark_fits mark (word_bit j word) }
{
    match mark {
        b'0' => !word,
        b'1' => word,
        _ => u64::MAX,
    }
}

/// In which runs each mark of the row takes the bit at its place.
fn wide_row(row: &[u8], words: &[u64]) -> u64
    requires { length row.now ≡ length words.now }
    ensures { (j : ℕ) → j < 64 → word_bit j result ≡ row_matches row.now (bits_of j words.now) }
{
    let mut all = u64::MAX;
    for i in 0..row.len() {
        all &= wide_fits(row[i], words[i]);
    }
    all
}

/// In which runs some of the rows takes the bits.
pub fn wide_some_row(marks: &[u8], width: usize, count: u32, words: &[u64]) -> u64
    requires long { length marks.now ≡ count * width }
    requires words { length words.now ≡ width }
    ensures { (j : ℕ) → j < 64 → word_bit j result ≡ some_row_matches (cut_rows width count marks.now) (bits_of j words.now) }
{
    let mut rest = marks;
    let mut any = 0;
    for _next in 0..count {
        let (row, others) = rest.split_at(width);
        any |= wide_row(row, words);
        rest = others;
    }
    any
}
