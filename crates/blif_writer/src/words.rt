//! Words and rows, put one after the other.
ghost use Rattle.std.specs.Prelude.{◌≡◌, ◌<◌, ◌≤◌, ◌++◌, ◌∷◌, [], length, OnOk};
ghost use Rattle.flat_net.specs.Net.{node_of, net_count, pins_at};
ghost use Rattle.blif_writer.specs.Text.{bit, init_word, start_of, edge_word, row_line, row_lines, line_text, lines_text, net_words, clock_words, control_words};
ghost use Rattle.blif_writer.specs.Left.{spaced};

use flat_net::FlatNet;
use std::alloc::AllocError;
use table_cover::Cover;
use tmr_base::{Edge, NetId};

/// Puts a blank and the word.
pub fn put_word(out: &mut Vec<u8>, word: &[u8]) -> Result<(), AllocError>
    ensures { OnOk result (out.new.items ≡ out.old.items ++ 32 ∷ word.now) }
{
    out.push(b' ')?;
    out.extend_from_slice(word)?;
    Ok(())
}

fn bit_byte(value: bool) -> u8
    ensures { result ∷ [] ≡ bit value }
{
    if value { b'1' } else { b'0' }
}

fn start_byte(init: bool, free: bool) -> u8
    ensures { result ∷ [] ≡ init_word (start_of free init) }
{
    if free {
        return b'3';
    }
    if init { b'1' } else { b'0' }
}

/// Puts a blank and `3` where the value in cycle 0 is free, else `1` or `0`.
pub fn put_start(out: &mut Vec<u8>, init: bool, free: bool) -> Result<(), AllocError>
    ensures { OnOk result (out.new.items ≡ out.old.items ++ 32 ∷ init_word (start_of free init)) }
{
    out.push(b' ')?;
    out.push(start_byte(init, free))?;
    Ok(())
}

/// Puts the names of the inputs.
pub fn put_inputs(out: &mut Vec<u8>, net: &FlatNet) -> Result<(), AllocError>
    ensures { OnOk result (out.new.items ≡ out.old.items ++ spaced net.now.net.inputs) }
{
    for x in 0..net.input_count() {
        put_word(out, net.name(NetId(x)).bytes())?;
    }
    Ok(())
}

/// Puts the names of the outputs.
pub fn put_outputs(out: &mut Vec<u8>, net: &FlatNet) -> Result<(), AllocError>
    ensures { OnOk result (out.new.items ≡ out.old.items ++ spaced (net_words net.now.net net.now.net.outputs)) }
{
    for k in 0..net.output_count() {
        put_word(out, net.name(net.output(k)).bytes())?;
    }
    Ok(())
}

/// Puts the names of the pins of node x.
pub fn put_pins(out: &mut Vec<u8>, net: &FlatNet, x: NetId) -> Result<(), AllocError>
    requires range { x.0 < net_count net.now.net }
    requires node { length net.now.net.inputs ≤ x.0 }
    ensures { OnOk result (out.new.items ≡ out.old.items ++ spaced (net_words net.now.net (pins_at (node_of net.now.net x.0)))) }
{
    for j in 0..net.pin_count(x) {
        put_word(out, net.name(net.pin(x, j)).bytes())?;
    }
    Ok(())
}

fn edge_text(edge: Edge) -> &'static [u8]
    ensures { result.now ≡ edge_word edge }
{
    match edge {
        Edge::Rising => b"re",
        Edge::Falling => b"fe",
    }
}

/// Puts the clock's name, where there is a clock.
pub fn put_clock(out: &mut Vec<u8>, net: &FlatNet) -> Result<(), AllocError>
    ensures { OnOk result (out.new.items ≡ out.old.items ++ spaced (clock_words net.now.net.clock)) }
{
    match net.clock() {
        Some((_, clock)) => put_word(out, clock.bytes()),
        None => Ok(()),
    }
}

/// Puts the clock's edge and name, where there is a clock.
pub fn put_control(out: &mut Vec<u8>, net: &FlatNet) -> Result<(), AllocError>
    ensures { OnOk result (out.new.items ≡ out.old.items ++ spaced (control_words net.now.net.clock)) }
{
    match net.clock() {
        Some((edge, clock)) => {
            put_word(out, edge_text(edge))?;
            put_word(out, clock.bytes())
        }
        None => Ok(()),
    }
}

/// Puts the line of a row.
fn put_row(out: &mut Vec<u8>, marks: &[u8], is_on: bool) -> Result<(), AllocError>
    ensures { OnOk result (out.new.items ≡ out.old.items ++ line_text (row_line is_on marks.now)) }
{
    if !marks.is_empty() {
        out.extend_from_slice(marks)?;
        out.push(b' ')?;
    }
    out.push(bit_byte(is_on))?;
    out.push(b'\n')?;
    Ok(())
}

/// Puts the lines of a cover's rows.
pub fn put_rows(out: &mut Vec<u8>, cover: &Cover) -> Result<(), AllocError>
    ensures { OnOk result (out.new.items ≡ out.old.items ++ lines_text (row_lines cover.now)) }
{
    for i in 0..cover.row_count() {
        put_row(out, cover.row(i), cover.is_on())?;
    }
    Ok(())
}
