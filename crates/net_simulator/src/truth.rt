//! Tables of at most six pins, each as one word that tells its values.
//!
//! A step then reads a value of each pin and the word, however many rows the table has.
ghost use Rattle.std.specs.Prelude.{◌≡◌, ◌<◌, ◌≤◌, ◌++◌, length, slice_index, OnOk, IfOk};
ghost use Rattle.flat_net.specs.Net.{net_count, node_of, IsTable};
ghost use Rattle.net_simulator.specs.Tables.{AreTables, entry_nets};
ghost use Rattle.net_simulator.specs.Truth.{Tells, TellsNode, short_pins, AreTruths};

use crate::tables::{Tables, entry_at, pins_in_word};
use flat_net::FlatNet;
use std::alloc::Global;
use table_cover::Cover;
use tmr_base::{NetId, OutOfMemory};

/// Bit k of these words are the six binary digits of k, the highest first.
const PLACES: [u64; 6] = [
    0xFFFF_FFFF_0000_0000,
    0xFFFF_0000_FFFF_0000,
    0xFF00_FF00_FF00_FF00,
    0xF0F0_F0F0_F0F0_F0F0,
    0xCCCC_CCCC_CCCC_CCCC,
    0xAAAA_AAAA_AAAA_AAAA,
];

/// The values of short tables.
#[derive(Drop)]
pub struct Truths {
    /// A word for each table: its values, if it is short.
    pub words: Vec<u64>,
    /// The pins of the short tables, side by side.
    pub pins: Vec<NetId>,
}

/// The values of a cover of so many pins.
fn word_of_cover(cover: &Cover, pins: usize) -> u64
    requires few { pins ≤ 6 }
    requires width { pins ≡ cover.now.width }
    ensures { Tells cover.now pins result }
{
    let (_, places) = PLACES.split_at(6 - pins);
    cover.wide_value(places)
}

/// The word of table x.
fn word_of_table(net: &FlatNet, x: NetId) -> u64
    requires range { x.0 < net_count net.now.net }
    requires node { length net.now.net.inputs ≤ x.0 }
    requires table { IsTable (node_of net.now.net x.0) }
    ensures { TellsNode (node_of net.now.net x.0) result }
{
    let pins = net.pin_count(x);
    if pins <= 6 {
        word_of_cover(net.cover(x), pins as usize)
    } else {
        0
    }
}

/// Adds the pins of table x, if it is short.
fn push_pins(pins: &mut Vec<NetId>, net: &FlatNet, x: NetId) -> Result<(), OutOfMemory>
    requires range { x.0 < net_count net.now.net }
    requires node { length net.now.net.inputs ≤ x.0 }
    requires table { IsTable (node_of net.now.net x.0) }
    ensures { OnOk result (pins.new.items ≡ pins.old.items ++ short_pins (node_of net.now.net x.0)) }
{
    for i in 0..pins_in_word(net.pin_count(x)) {
        pins.push(net.pin(x, u32::from(i)))?;
    }
    Ok(())
}

/// The words of these tables.
pub fn truths_of(alloc: Global, net: &FlatNet, tables: &Tables) -> Result<Truths, OutOfMemory>
    requires tables { AreTables net.now.net tables.now }
    ensures { IfOk result (λ t. AreTruths net.now.net (entry_nets tables.now.entries.items) t) }
{
    let _inputs = net.input_count();
    let mut words = Vec::with_capacity(alloc, tables.entries.len())?;
    let mut pins = Vec::new(alloc);
    for i in 0..tables.entries.len() {
        let entry = entry_at(net, tables, i);
        words.push(word_of_table(net, entry.net))?;
        push_pins(&mut pins, net, entry.net)?;
    }
    Ok(Truths { words, pins })
}

/// The word at place i.
pub fn word_at_place(words: &[u64], i: usize) -> u64
    ensures { result ≡ slice_index words.now i }
{
    match words.get(i) {
        Some(word) => *word,
        None => 0,
    }
}
