//! The tables of a design as one list of literals, in an order of evaluation, and its registers.
//!
//! A row of marks without its dashes is a list of literals. The rows of all tables stand side by side, so that a
//! cycle reads them from front to back, without a branch for a mark or a row. No node's kind is asked in a cycle.
ghost use Rattle.std.specs.Prelude.{◌≡◌, ◌<◌, ◌≤◌, ◌++◌, ◌&&◌, ◌||◌, not, ℕ, List, Bool, true, false, Option, Some, None, length, map, take, slice_index, slice_get, OnOk, IfOk, IsTrue, nat_le, if◌then◌else◌};
ghost use Rattle.table_cover.specs.Words.{word_bit, bits_of};
ghost use Rattle.flat_net.specs.Net.{net_count, node_of, pins_at, IsTable};
ghost use Rattle.net_meaning.specs.Meaning.{bit};
ghost use Rattle.net_simulator.specs.Tables.{wanted, is_wanting, mark_literals, row_literals, has_literal, rows_literals, some_always, node_literals, entry_of, AreTables, literal_fits, some_fits, entry_value};
ghost use Rattle.net_simulator.specs.declared.tables.Literal.{Literal};

use crate::marks::{merged, word_of};
use crate::registers::{Held, registers_of};
use flat_net::{FlatNet, Kind};
use std::alloc::Global;
use table_cover::Cover;
use tmr_base::{NetId, OutOfMemory};

/// The value that a row wants of a net.
#[derive(Clone, Copy, Drop)]
pub struct Literal {
    /// The net.
    pub net: NetId,
    /// It is to be 1.
    pub is_on: bool,
    /// It is the first of its row.
    pub is_first: bool,
}

/// What stands beside the literals of a table.
#[derive(Clone, Copy, Drop)]
pub struct Entry {
    /// The table.
    pub net: NetId,
    /// The rows tell where the value is 1, and not where it is 0.
    pub is_on: bool,
    /// Some row has no literal.
    pub always: bool,
    /// A word tells its values, since its pins are at most six.
    pub is_short: bool,
    /// How many pins it has, where a word tells its values.
    pub pins: u8,
    /// How many literals are the table's.
    pub count: usize,
}

/// The nodes of a design.
#[derive(Drop)]
pub struct Tables {
    /// One entry for each table, behind those of the tables that it reads.
    pub entries: Vec<Entry>,
    /// Their literals, side by side.
    pub literals: Vec<Literal>,
    /// The registers.
    pub registers: Vec<Held>,
}

/// The value that the mark wants of its pin.
fn wanted(mark: u8) -> Option<bool>
    ensures { result ≡ wanted mark }
{
    match mark {
        b'0' => Some(false),
        b'1' => Some(true),
        _ => None,
    }
}

/// Adds the literal of a mark, where it wants a value. The result is whether the row has one by now.
fn push_mark(
    literals: &mut Vec<Literal>,
    begun: bool,
    value: Option<bool>,
    net: NetId,
) -> Result<bool, OutOfMemory>
    ensures literals { OnOk result (literals.new.items ≡ literals.old.items ++ mark_literals value net.0 begun) }
    ensures some { IfOk result (λ some. some ≡ (begun || is_wanting value)) }
{
    match value {
        Some(is_on) => {
            literals.push(Literal {
                net,
                is_on,
                is_first: !begun,
            })?;
            Ok(true)
        }
        None => Ok(begun),
    }
}

/// Adds the literals of a row of table x. The result is whether there is one.
fn push_row(
    literals: &mut Vec<Literal>,
    net: &FlatNet,
    x: NetId,
    row: &[u8],
) -> Result<bool, OutOfMemory>
    requires range { x.0 < net_count net.now.net }
    requires node { length net.now.net.inputs ≤ x.0 }
    requires width { length row.now ≡ length (pins_at (node_of net.now.net x.0)) }
    ensures literals { OnOk result (literals.new.items ≡ literals.old.items ++ row_literals false row.now (pins_at (node_of net.now.net x.0))) }
    ensures some { IfOk result (λ some. some ≡ has_literal false row.now (pins_at (node_of net.now.net x.0))) }
{
    let mut begun = false;
    for i in 0..net.pin_count(x) {
        begun = push_mark(literals, begun, wanted(row[i as usize]), net.pin(x, i))?;
    }
    Ok(begun)
}

/// Adds the literals of all rows of table x. The result is whether some row has none.
fn push_rows(
    literals: &mut Vec<Literal>,
    net: &FlatNet,
    x: NetId,
    cover: &Cover,
) -> Result<bool, OutOfMemory>
    requires range { x.0 < net_count net.now.net }
    requires node { length net.now.net.inputs ≤ x.0 }
    requires width { length (pins_at (node_of net.now.net x.0)) ≡ cover.now.width }
    ensures literals { OnOk result (literals.new.items ≡ literals.old.items ++ rows_literals cover.now.rows (pins_at (node_of net.now.net x.0))) }
    ensures always { IfOk result (λ always. always ≡ some_always cover.now.rows (pins_at (node_of net.now.net x.0))) }
{
    let mut always = false;
    for i in 0..cover.row_count() {
        let some = push_row(literals, net, x, cover.row(i))?;
        always = always || !some;
    }
    Ok(always)
}

/// How many pins a word stands for: all, if they are at most six.
pub fn pins_in_word(pins: u32) -> u8
    ensures { result ≡ (if nat_le pins 6 then pins else 0) }
{
    if pins <= 6 { pins as u8 } else { 0 }
}

/// Adds the literals of table x. The result is its entry.
fn push_table(literals: &mut Vec<Literal>, net: &FlatNet, x: NetId) -> Result<Entry, OutOfMemory>
    requires range { x.0 < net_count net.now.net }
    requires node { length net.now.net.inputs ≤ x.0 }
    requires table { IsTable (node_of net.now.net x.0) }
    ensures literals { OnOk result (literals.new.items ≡ literals.old.items ++ node_literals (node_of net.now.net x.0)) }
    ensures entry { IfOk result (λ entry. entry ≡ entry_of (node_of net.now.net x.0) x.0) }
{
    let before = literals.len();
    let cover = net.cover(x);
    let always = push_rows(literals, net, x, cover)?;
    let pins = net.pin_count(x);
    Ok(Entry {
        net: x,
        is_on: cover.is_on(),
        always,
        is_short: pins <= 6,
        pins: pins_in_word(pins),
        count: literals.len() - before,
    })
}

/// Net x is a table.
#[tactic(auto, using(crate::proofs::Lanes::kinds))]
fn is_table(net: &FlatNet, x: NetId) -> bool
    requires { x.0 < net_count net.now.net }
    ensures yes { IsTrue result → IsTable (node_of net.now.net x.0) }
    ensures no { IsTable (node_of net.now.net x.0) → IsTrue result }
{
    match net.kind(x) {
        Kind::Table => true,
        Kind::Input => false,
        Kind::Register => false,
    }
}

/// The nodes of the design.
pub fn tables_of(alloc: Global, net: &FlatNet) -> Result<Tables, OutOfMemory>
    ensures { IfOk result (λ t. AreTables net.now.net t) }
{
    let _inputs = net.input_count();
    let registers = registers_of(alloc, net)?;
    let mut entries = Vec::with_capacity(alloc, net.node_count() as usize)?;
    let mut literals = Vec::new(alloc);
    for i in 0..net.node_count() {
        let x = net.ordered(i);
        if is_table(net, x) {
            let entry = push_table(&mut literals, net, x)?;
            entries.push(entry)?;
        }
    }
    Ok(Tables {
        entries,
        literals,
        registers,
    })
}

/// The word of net x.
pub fn word_at(now: &[u64], x: NetId) -> u64
    ensures { result ≡ slice_index now.now x.0 }
{
    match now.get(x.0 as usize) {
        Some(word) => *word,
        None => 0,
    }
}

/// In which runs the literal fits.
fn literal_word(literal: Literal, now: &[u64]) -> u64
    ensures { (j : ℕ) → j < 64 → word_bit j result ≡ literal_fits (bit (bits_of j now.now)) literal }
{
    let word = word_at(now, literal.net);
    merged(!word, word_of(literal.is_on), word)
}

/// Literal i.
pub fn literal_at(literals: &[Literal], i: usize) -> Literal
    requires { i < length literals.now }
    ensures { slice_get literals.now i ≡ Some result }
{
    literals[i]
}

/// Entry i.
pub fn entry_at(net: &FlatNet, tables: &Tables, i: usize) -> Entry
    requires tables { AreTables net.now.net tables.now }
    requires i { i < length tables.now.entries.items }
    ensures there { slice_get tables.now.entries.items i ≡ Some result }
    ensures table { IsTable (node_of net.now.net result.net.0) }
    ensures low { length net.now.net.inputs ≤ result.net.0 }
    ensures high { result.net.0 < net_count net.now.net }
{
    tables.entries[i]
}

/// In which runs some row of the literals fits, or in all.
fn some_row(literals: &[Literal], always: bool, now: &[u64]) -> u64
    ensures { (j : ℕ) → j < 64 → word_bit j result ≡ some_fits (bit (bits_of j now.now)) always false literals.now }
{
    let mut earlier = word_of(always);
    let mut present = 0;
    for i in 0..literals.len() {
        let literal = literal_at(literals, i);
        let first = word_of(literal.is_first);
        earlier |= present & first;
        present = (present | first) & literal_word(literal, now);
    }
    earlier | present
}

/// The word of a table with these literals.
pub fn rows_word(entry: Entry, literals: &[Literal], now: &[u64]) -> u64
    ensures { (j : ℕ) → j < 64 → word_bit j result ≡ entry_value entry (bit (bits_of j now.now)) literals.now }
{
    let some = some_row(literals, entry.always, now);
    merged(!some, word_of(entry.is_on), some)
}
