//! One cycle of a design beside that of another one, in 64 runs at once.
//!
//! At first each net gets the word of the net that it stands for. Where it becomes another one, the tables that read the
//! net are due, and only these are evaluated. So a cycle costs little where the two designs have the same values.
ghost use Rattle.std.specs.Prelude.{◌≡◌, ◌≢◌, ◌+◌, ◌<◌, ◌≤◌, ℕ, List, Bool, false, true, length, map, slice_index, slice_set};
ghost use Rattle.std.specs.Option.{unwrap_or};
ghost use Rattle.table_cover.specs.Words.{word_bit, bits_of};
ghost use Rattle.flat_net.specs.Net.{Net, net_count, node_of, IsTable};
ghost use Rattle.flat_net.specs.Nodes.{number_of};
ghost use Rattle.net_meaning.specs.Meaning.{bit};
ghost use Rattle.net_simulator.specs.Beside.{AreOwn, AreReadersOf, AreTablesOwn, AreTwins, IsBeside, IsRoom};
ghost use Rattle.net_simulator.specs.Registers.{AreRegisters};
ghost use Rattle.net_simulator.specs.Settled.{AreMarks, IsAnyNet, IsInput, IsNoTable, IsSettled, marked, number_of_cycle};
ghost use Rattle.net_simulator.specs.Tables.{AreTables, entry_nets};
ghost use Rattle.net_simulator.specs.Truth.{AreTruths, short_value};
ghost use Rattle.net_simulator.specs.Twins.{AreTablesMet};

use crate::changes::{Changes, put};
use crate::cycle::{Given, register_word, table_word};
use crate::marks::Marks;
use crate::registers::{Held, held_at};
use crate::tables::{Entry, Literal, Tables, entry_at, word_at};
use crate::truth::{Truths, word_at_place};
use crate::twins::{Twins, origin_at};
use flat_net::FlatNet;
use tmr_base::NetId;

/// Gives each net the word of the net that it stands for.
pub fn follow(origins: &[NetId], own: &[u64], now: &mut [u64])
    requires { length origins.now ≡ length now.old }
    ensures own { (y : ℕ) → y < length now.new → slice_index now.new y ≡ slice_index own.now (slice_index (map number_of origins.now) y) }
    ensures long { length now.new ≡ length now.old }
{
    for i in 0..origins.len() {
        now[i] = word_at(own, origin_at(origins, i));
    }
}

/// Gives the inputs their values.
pub fn set_inputs_beside(
    ins: &[u64],
    marks: &Marks,
    twins: &Twins,
    changes: &mut Changes,
    now: &mut [u64],
)
    requires ins { length ins.now ≤ length now.old }
    requires marks { AreMarks (length now.old) marks.now }
    requires few { length ins.now < 4294967296 }
    requires room { IsRoom (length now.old) twins.now changes.old }
    ensures room { IsRoom (length now.new) twins.now changes.new }
    ensures sized { length changes.new.differing.items ≡ length changes.old.differing.items }
    ensures long { length now.new ≡ length now.old }
    ensures set { (j x : ℕ) → j < 64 → x < length ins.now → word_bit j (slice_index now.new x) ≡ unwrap_or (marked marks.now j x) (word_bit j (slice_index ins.now x)) }
    ensures others { (x : ℕ) → length ins.now ≤ x → slice_index now.new x ≡ slice_index now.old x }
    ensures beside { (h : Net) (own : List ℕ) → AreReadersOf h twins.now.readers →
        IsBeside h twins.now marks.now own now.old changes.old → IsBeside h twins.now marks.now own now.new changes.new }
{
    for i in 0..ins.len() {
        let x = NetId(i as u32);
        put(twins, x, marks.word(ins[i], x), changes, now);
    }
}

/// Gives all registers their values.
pub fn set_registers_beside(
    net: &FlatNet,
    registers: &[Held],
    given: &Given,
    marks: &Marks,
    twins: &Twins,
    changes: &mut Changes,
    now: &mut [u64],
)
    requires registers { AreRegisters net.now.net registers.now }
    requires marks { AreMarks (net_count net.now.net) marks.now }
    requires now { length now.old ≡ net_count net.now.net }
    requires room { IsRoom (length now.old) twins.now changes.old }
    ensures room { IsRoom (length now.new) twins.now changes.new }
    ensures sized { length changes.new.differing.items ≡ length changes.old.differing.items }
    ensures long { length now.new ≡ length now.old }
    ensures settled { (j : ℕ) (ins : List Bool) → j < 64 →
        IsSettled net.now.net (number_of_cycle given.now.started) ins (bits_of j given.now.before.now) (marked marks.now j) (IsInput net.now.net) (bits_of j now.old) →
        IsSettled net.now.net (number_of_cycle given.now.started) ins (bits_of j given.now.before.now) (marked marks.now j) (IsNoTable net.now.net) (bits_of j now.new) }
    ensures tables { (x : ℕ) → IsTable (node_of net.now.net x) → slice_index now.new x ≡ slice_index now.old x }
    ensures beside { (own : List ℕ) → AreReadersOf net.now.net twins.now.readers →
        IsBeside net.now.net twins.now marks.now own now.old changes.old → IsBeside net.now.net twins.now marks.now own now.new changes.new }
{
    let _inputs = net.input_count();
    for i in 0..registers.len() {
        let register = held_at(net, registers, i);
        let own = register_word(register, given.started, given.before);
        put(
            twins,
            register.net,
            marks.word(own, register.net),
            changes,
            now,
        );
    }
}

/// A table, the word that tells it if it is short, its pins if so, and its literals if not.
#[derive(Drop)]
struct TableReads<'a> {
    entry: Entry,
    word: u64,
    pins: &'a [NetId],
    literals: &'a [Literal],
}

/// Gives a table its value, if it is due.
fn visit_table(
    table: &TableReads,
    marks: &Marks,
    twins: &Twins,
    changes: &mut Changes,
    now: &mut [u64],
)
    requires short { length table.now.pins.now ≤ 6 }
    requires marks { AreMarks (length now.old) marks.now }
    requires net { table.now.entry.net.0 < length now.old }
    requires room { IsRoom (length now.old) twins.now changes.old }
    ensures room { IsRoom (length now.new) twins.now changes.new }
    ensures sized { length changes.new.differing.items ≡ length changes.old.differing.items }
    ensures long { length now.new ≡ length now.old }
    ensures written { bit changes.old.due.items table.now.entry.net.0 ≡ true → now.new ≡ slice_set now.old table.now.entry.net.0 (slice_index now.new table.now.entry.net.0) }
    ensures value { bit changes.old.due.items table.now.entry.net.0 ≡ true → (j : ℕ) → j < 64 →
        word_bit j (slice_index now.new table.now.entry.net.0) ≡ unwrap_or (marked marks.now j table.now.entry.net.0) (short_value table.now.entry table.now.word table.now.pins.now table.now.literals.now (bit (bits_of j now.old))) }
    ensures left { bit changes.old.due.items table.now.entry.net.0 ≡ false → now.new ≡ now.old }
    ensures beside { (h : Net) (own : List ℕ) → AreReadersOf h twins.now.readers →
        IsBeside h twins.now marks.now own now.old changes.old → IsBeside h twins.now marks.now own now.new changes.new }
{
    let entry = table.entry;
    if changes.due[entry.net.0 as usize] {
        let own = table_word(entry, table.word, table.pins, table.literals, now);
        put(twins, entry.net, marks.word(own, entry.net), changes, now);
    }
}

/// Gives all tables their values, each after the tables that it reads.
pub fn set_tables_beside(
    net: &FlatNet,
    tables: &Tables,
    truths: &Truths,
    marks: &Marks,
    twins: &Twins,
    changes: &mut Changes,
    now: &mut [u64],
)
    requires tables { AreTables net.now.net tables.now }
    requires truths { AreTruths net.now.net (entry_nets tables.now.entries.items) truths.now }
    requires marks { AreMarks (net_count net.now.net) marks.now }
    requires now { length now.old ≡ net_count net.now.net }
    requires room { IsRoom (length now.old) twins.now changes.old }
    ensures room { IsRoom (length now.new) twins.now changes.new }
    ensures sized { length changes.new.differing.items ≡ length changes.old.differing.items }
    ensures long { length now.new ≡ length now.old }
    ensures beside { (own : List ℕ) → AreReadersOf net.now.net twins.now.readers →
        IsBeside net.now.net twins.now marks.now own now.old changes.old → IsBeside net.now.net twins.now marks.now own now.new changes.new }
    ensures settled { (j t : ℕ) (ins before : List Bool) (n : Net) (own : List ℕ) → j < 64 →
        AreTwins n net.now.net twins.now → AreTablesMet n (bits_of j own) → AreTablesOwn net.now.net twins.now own now.old →
        IsBeside net.now.net twins.now marks.now own now.old changes.old →
        IsSettled net.now.net t ins before (marked marks.now j) (IsNoTable net.now.net) (bits_of j now.old) →
        IsSettled net.now.net t ins before (marked marks.now j) IsAnyNet (bits_of j now.new) }
{
    let _inputs = net.input_count();
    let mut rest = tables.literals.as_slice();
    let mut rest_pins = truths.pins.as_slice();
    for i in 0..tables.entries.len() {
        let entry = entry_at(net, tables, i);
        let (literals, others) = rest.split_at(entry.count);
        let (pins, other_pins) = rest_pins.split_at(entry.pins as usize);
        let word = word_at_place(&truths.words, i);
        let table = TableReads {
            entry,
            word,
            pins,
            literals,
        };
        visit_table(&table, marks, twins, changes, now);
        rest = others;
        rest_pins = other_pins;
    }
}
