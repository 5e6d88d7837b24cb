//! The next line of a file.
ghost use Rattle.std.specs.Prelude.{◌≡◌, ◌+◌, ◌<◌, ◌∷◌, [], length, IfSome, IsNone};
ghost use Rattle.aag_text.specs.Lines.{without_return, lines_of};

use text_lines::Lines;

/// The line without the carriage return at its end, if there is one.
#[tactic(auto, using(crate::proofs::LineLaws::returns))]
fn without_return(line: &[u8]) -> &[u8]
    ensures { result.now ≡ without_return line.now }
{
    if line.is_empty() {
        return line;
    }
    let last = line.len() - 1;
    if line[last] == b'\r' {
        let (before, _) = line.split_at(last);
        return before;
    }
    line
}

/// The next line, if there is one.
#[tactic(auto, using(crate::proofs::LineLaws::lines))]
pub fn next_line<'a>(lines: &mut Lines<'a>) -> Option<&'a [u8]>
    ensures line { IfSome result (λ line. lines_of lines.old.bytes ≡ line.now ∷ lines_of lines.new.bytes) }
    ensures number { IfSome result (λ line. lines.new.line ≡ lines.old.line + 1) }
    ensures shorter { IfSome result (λ line. length lines.new.bytes < length lines.old.bytes) }
    ensures end { IsNone result → lines_of lines.old.bytes ≡ [] }
{
    match lines.next() {
        Some(line) => {
            if line.is_ended {
                return Some(without_return(line.bytes));
            }
            Some(line.bytes)
        }
        None => None,
    }
}
