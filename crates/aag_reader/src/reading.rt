//! Reading a file, section by section.
ghost use Rattle.std.specs.Prelude.{◌≡◌, ◌<◌, length, true, OnOk, IfOk, IfErr};
ghost use Rattle.aag_text.specs.Aig.{plain_aig};
ghost use Rattle.aag_reader.specs.Private.Words.{texts};
ghost use Rattle.aag_text.specs.Lines.{header_of, IsFile};
ghost use Rattle.aag_reader.specs.Private.Sections.{HasWords, HasNoWords, HasNext, HasNoNext, HasSection, StopsIn, NextSymbol, HasNoSymbol, HasSymbols, StopsInSymbols, IsLineFault};

use crate::GraphFault;
use crate::entry::Entry;
use crate::forms::{header_of, is_symbol, words_of};
use crate::lines::next_line;
use aag_text::{Aig, Header};
use std::alloc::Global;
use text_lines::Lines;

/// The words of the next line, which is due.
#[tactic(auto, using(crate::proofs::SectionLaws::has_words))]
fn next_words<'a>(alloc: Global, lines: &mut Lines<'a>) -> Result<Vec<&'a [u8]>, GraphFault>
    ensures words { IfOk result (λ words. HasWords lines.old lines.new (texts words.items)) }
    ensures none { IfErr result (HasNoWords lines.old) }
{
    let number = lines.number();
    match next_line(lines) {
        Some(line) => Ok(words_of(alloc, line)?),
        None => Err(GraphFault::Line(number)),
    }
}

fn next_header(alloc: Global, lines: &mut Lines<'_>) -> Result<Header, GraphFault>
    ensures next { IfOk result (HasNext header_of lines.old lines.new) }
    ensures none { IfErr result (HasNoNext header_of lines.old) }
{
    let number = lines.number();
    let words = next_words(alloc, lines)?;
    match header_of(&words) {
        Some(header) => Ok(header),
        None => Err(GraphFault::Line(number)),
    }
}

/// The entry on the next line, which is due.
fn next_entry<E: Entry>(alloc: Global, lines: &mut Lines<'_>, most: u32) -> Result<E, GraphFault>
    ensures next { IfOk result (HasNext (E.form most) lines.old lines.new) }
    ensures none { IfErr result (HasNoNext (E.form most) lines.old) }
{
    let number = lines.number();
    let words = next_words(alloc, lines)?;
    match E::of_words(most, &words) {
        Some(entry) => Ok(entry),
        None => Err(GraphFault::Line(number)),
    }
}

/// A section of so many entries, each on a line of its own.
#[tactic(auto, using(crate::proofs::SectionLaws::sections))]
fn read_section<E: Entry>(
    alloc: Global,
    lines: &mut Lines<'_>,
    most: u32,
    count: u32,
) -> Result<Vec<E>, GraphFault>
    ensures section { IfOk result (λ entries. HasSection (E.form most) count lines.old lines.new entries.items) }
    ensures stops { IfErr result (StopsIn (E.form most) count lines.old) }
{
    let mut entries = Vec::new(alloc);
    for _ in 0..count {
        let entry = next_entry(alloc, lines, most)?;
        entries.push(entry)?;
    }
    Ok(entries)
}

/// Whether a symbol is next. Else a comment is, or the file ends.
fn next_symbol(alloc: Global, lines: &mut Lines<'_>, h: &Header) -> Result<bool, GraphFault>
    ensures next { IfOk result (NextSymbol h.now lines.old lines.new) }
    ensures none { IfErr result (HasNoSymbol h.now lines.old) }
    ensures shorter { IfOk result (λ more. more ≡ true → length lines.new.bytes < length lines.old.bytes) }
{
    let number = lines.number();
    match next_line(lines) {
        None => Ok(false),
        Some(line) => {
            if line == b"c".as_slice() {
                return Ok(false);
            }
            let words = words_of(alloc, line)?;
            if !is_symbol(h, &words) {
                return Err(GraphFault::Line(number));
            }
            Ok(true)
        }
    }
}

/// The symbols, up to a line `c` or the end.
#[tactic(auto, using(crate::proofs::SymbolLaws::symbols))]
fn check_symbols(alloc: Global, lines: &mut Lines<'_>, h: &Header) -> Result<(), GraphFault>
    ensures symbols { OnOk result (HasSymbols h.now lines.old) }
    ensures stops { IfErr result (StopsInSymbols h.now lines.old) }
{
    loop {
        if !next_symbol(alloc, lines, h)? {
            return Ok(());
        }
    }
}

/// The graph of a file, or its first bad line.
#[tactic(auto, using(crate::proofs::FileLaws::faults))]
pub fn aig_of_text(alloc: Global, bytes: &[u8]) -> Result<Aig, GraphFault>
    ensures file { IfOk result (λ a. IsFile bytes.now (plain_aig a)) }
    ensures fault { IfErr result (IsLineFault bytes.now) }
{
    let mut lines = Lines::new(bytes);
    let header = next_header(alloc, &mut lines)?;
    let inputs = read_section(alloc, &mut lines, header.most, header.inputs)?;
    let latches = read_section(alloc, &mut lines, header.most, header.latches)?;
    let outputs = read_section(alloc, &mut lines, header.most, header.outputs)?;
    let gates = read_section(alloc, &mut lines, header.most, header.gates)?;
    check_symbols(alloc, &mut lines, &header)?;
    Ok(Aig {
        inputs,
        latches,
        outputs,
        gates,
    })
}
