//! One cycle of a design, in 64 runs at once.
ghost use Rattle.std.specs.Prelude.{◌≡◌, ◌+◌, ◌<◌, ◌≤◌, ℕ, List, Bool, length, slice_index, if◌then◌else◌};
ghost use Rattle.table_cover.specs.Words.{word_bit, bits_of};
ghost use Rattle.flat_net.specs.Net.{net_count};
ghost use Rattle.std.specs.Option.{unwrap_or};
ghost use Rattle.net_simulator.specs.Settled.{IsSettled, IsInput, IsNoTable, IsAnyNet, marked, AreMarks, number_of_cycle, last_of};
ghost use Rattle.net_simulator.specs.Registers.{AreRegisters};
ghost use Rattle.net_meaning.specs.Meaning.{bit};
ghost use Rattle.net_simulator.specs.Tables.{AreTables, entry_nets};
ghost use Rattle.net_simulator.specs.Truth.{AreTruths, short_value};
ghost use Rattle.net_simulator.specs.Cycle.{IsCycle};

use crate::marks::{Marks, word_of};
use crate::registers::{Held, held_at};
use crate::short::short_word;
use crate::tables::{Entry, Literal, Tables, entry_at, rows_word, word_at};
use crate::truth::{Truths, word_at_place};
use flat_net::FlatNet;
use tmr_base::NetId;

/// What is given in a cycle.
#[derive(Drop)]
pub struct Given<'a> {
    /// Whether there was a cycle before it.
    pub started: bool,
    /// The words of all nets in that.
    pub before: &'a [u64],
    /// The words of the inputs.
    pub ins: &'a [u64],
}

/// What its own equation gives a register.
pub fn register_word(register: Held, started: bool, before: &[u64]) -> u64
    ensures { (j : ℕ) → j < 64 → word_bit j result ≡ (if started then word_bit j (slice_index before.now register.pin.0) else register.init) }
{
    if started {
        word_at(before, register.pin)
    } else {
        word_of(register.init)
    }
}

/// Gives all registers their values.
fn set_registers(
    net: &FlatNet,
    registers: &[Held],
    started: bool,
    before: &[u64],
    marks: &Marks,
    now: &mut [u64],
)
    requires registers { AreRegisters net.now.net registers.now }
    requires marks { AreMarks (net_count net.now.net) marks.now }
    requires now { length now.old ≡ net_count net.now.net }
    ensures { (j : ℕ) (ins : List Bool) → j < 64 →
        IsSettled net.now.net (number_of_cycle started) ins (bits_of j before.now) (marked marks.now j) (IsInput net.now.net) (bits_of j now.old) →
        IsSettled net.now.net (number_of_cycle started) ins (bits_of j before.now) (marked marks.now j) (IsNoTable net.now.net) (bits_of j now.new) }
{
    let _inputs = net.input_count();
    for i in 0..registers.len() {
        let register = held_at(net, registers, i);
        let own = register_word(register, started, before);
        now[register.net.0 as usize] = marks.word(own, register.net);
    }
}

/// The word of a table, by the word that tells it if it is short, or else by its literals.
pub fn table_word(entry: Entry, word: u64, pins: &[NetId], literals: &[Literal], now: &[u64]) -> u64
    requires { length pins.now ≤ 6 }
    ensures { (j : ℕ) → j < 64 → word_bit j result ≡ short_value entry word pins.now literals.now (bit (bits_of j now.now)) }
{
    if entry.is_short {
        short_word(word, pins, now)
    } else {
        rows_word(entry, literals, now)
    }
}

/// Gives all tables their values, each after the tables that it reads.
fn set_tables(
    net: &FlatNet,
    tables: &Tables,
    truths: &Truths,
    started: bool,
    before: &[u64],
    marks: &Marks,
    now: &mut [u64],
)
    requires tables { AreTables net.now.net tables.now }
    requires truths { AreTruths net.now.net (entry_nets tables.now.entries.items) truths.now }
    requires marks { AreMarks (net_count net.now.net) marks.now }
    requires now { length now.old ≡ net_count net.now.net }
    ensures { (j : ℕ) (ins : List Bool) → j < 64 →
        IsSettled net.now.net (number_of_cycle started) ins (bits_of j before.now) (marked marks.now j) (IsNoTable net.now.net) (bits_of j now.old) →
        IsSettled net.now.net (number_of_cycle started) ins (bits_of j before.now) (marked marks.now j) IsAnyNet (bits_of j now.new) }
{
    let _inputs = net.input_count();
    let mut rest = tables.literals.as_slice();
    let mut rest_pins = truths.pins.as_slice();
    for i in 0..tables.entries.len() {
        let entry = entry_at(net, tables, i);
        let (literals, others) = rest.split_at(entry.count);
        let (pins, other_pins) = rest_pins.split_at(entry.pins as usize);
        let word = word_at_place(&truths.words, i);
        let own = table_word(entry, word, pins, literals, now);
        now[entry.net.0 as usize] = marks.word(own, entry.net);
        rest = others;
        rest_pins = other_pins;
    }
}

/// Gives the inputs their values.
fn set_inputs(ins: &[u64], marks: &Marks, now: &mut [u64])
    requires room { length ins.now ≤ length now.old }
    requires marks { AreMarks (length now.old) marks.now }
    requires few { length ins.now < 4294967296 }
    ensures { (j x : ℕ) → j < 64 → x < length ins.now → word_bit j (slice_index now.new x) ≡ unwrap_or (marked marks.now j x) (word_bit j (slice_index ins.now x)) }
{
    for i in 0..ins.len() {
        now[i] = marks.word(ins[i], NetId(i as u32));
    }
}

/// Gives all nets their values.
pub fn run_cycle(
    net: &FlatNet,
    tables: &Tables,
    truths: &Truths,
    given: &Given,
    marks: &Marks,
    now: &mut [u64],
)
    requires ins { length given.now.ins.now ≡ length net.now.net.inputs }
    requires marks { AreMarks (net_count net.now.net) marks.now }
    requires now { length now.old ≡ net_count net.now.net }
    requires tables { AreTables net.now.net tables.now }
    requires truths { AreTruths net.now.net (entry_nets tables.now.entries.items) truths.now }
    ensures { (j : ℕ) → j < 64 → IsCycle net.now.net (last_of given.now.started (bits_of j given.now.before.now)) (bits_of j given.now.ins.now) (marked marks.now j) (bits_of j now.new) }
{
    let _inputs = net.input_count();
    set_inputs(given.ins, marks, now);
    set_registers(
        net,
        &tables.registers,
        given.started,
        given.before,
        marks,
        now,
    );
    set_tables(net, tables, truths, given.started, given.before, marks, now);
}
