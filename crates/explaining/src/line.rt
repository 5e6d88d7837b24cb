//! A line of a text.
ghost use Rattle.std.specs.Prelude.{◌≡◌, slice_get};
ghost use Rattle.std.specs.Option.{option_copied};
ghost use Rattle.text_lines.specs.Lines.{lines_of};
ghost use Rattle.explaining.specs.Lines.{shown_line};

/// How many bytes of a line are shown.
const SHOWN: usize = 200;

/// The line with this index, counted from 0, if there is one.
fn line_at(bytes: &[u8], index: usize) -> Option<&[u8]>
    ensures { option_copied result ≡ slice_get (lines_of bytes.now) index }
{
    bytes.split(|b| *b == b'\n').nth(index)
}

/// The line with this number, counted from 1, as it stands between line feeds, cut at 200 bytes. There is nothing at number 0 and
/// past the last line. One pass over the bytes up to that line.
#[tactic(auto, using(crate::proofs::Shown::lines_shown))]
pub fn line_of(bytes: &[u8], number: u64) -> &[u8]
    ensures { result.now ≡ shown_line bytes.now number }
{
    if number == 0 {
        return &[];
    }
    match line_at(bytes, number as usize - 1) {
        Some(line) => &line[..line.len().min(SHOWN)],
        None => &[],
    }
}
