//! The text of a graph.
ghost use Rattle.std.specs.Prelude.{◌≡◌, ◌+◌, ◌<◌, ◌≤◌, ◌++◌, ◌∷◌, [], ℕ, map, length, codes, OnOk, IfOk};
ghost use Rattle.std.specs.Fmt.{decimal};
ghost use Rattle.flat_net.specs.Net.{net_count, node_of, name_of};
ghost use Rattle.blif_writer.specs.Text.{line_text, lines_text};
ghost use Rattle.aag_text.specs.Text.{variable_word, literal_word, start_words, header, header_line, latch_line, gate_line, aig_lines, symbol_lines, design_symbols, aag_text};
ghost use Rattle.aag_text.specs.Aig.{plain_aig};
ghost use Rattle.aag_text.specs.Same.{registers};
ghost use Rattle.aag_text.specs.Private.Puts.{symbol_line, register_symbols, next_symbol, spaced};

use crate::aig::literal_number;
use crate::nets::is_register;
use crate::{Aig, Gate, Header, Latch, Literal, Start};
use flat_net::FlatNet;
use itoa::Buffer;
use std::alloc::{AllocError, Global};
use tmr_base::NetId;

fn put_number(out: &mut Vec<u8>, number: u64) -> Result<(), AllocError>
    ensures { OnOk result (out.new.items ≡ out.old.items ++ decimal number) }
{
    let mut digits = Buffer::new();
    out.extend_from_slice(digits.format(number).as_bytes())?;
    Ok(())
}

fn put_variable(out: &mut Vec<u8>, variable: u32) -> Result<(), AllocError>
    ensures { OnOk result (out.new.items ≡ out.old.items ++ variable_word variable) }
{
    put_number(out, 2 * variable as u64)
}

fn put_literal(out: &mut Vec<u8>, l: Literal) -> Result<(), AllocError>
    ensures { OnOk result (out.new.items ≡ out.old.items ++ literal_word l) }
{
    put_number(out, literal_number(l))
}

/// Puts a blank and the number.
fn put_count(out: &mut Vec<u8>, number: u32) -> Result<(), AllocError>
    ensures { OnOk result (out.new.items ≡ out.old.items ++ 32 ∷ decimal number) }
{
    out.push(b' ')?;
    put_number(out, number as u64)
}

/// Puts `aag M I L O A`.
fn put_header(out: &mut Vec<u8>, h: Header) -> Result<(), AllocError>
    ensures { OnOk result (out.new.items ≡ out.old.items ++ line_text (header_line h)) }
{
    out.extend_from_slice(b"aag")?;
    put_count(out, h.most)?;
    put_count(out, h.inputs)?;
    put_count(out, h.latches)?;
    put_count(out, h.outputs)?;
    put_count(out, h.gates)?;
    out.push(b'\n')?;
    Ok(())
}

/// The header of a graph whose variables are those that are defined.
fn header(a: &Aig) -> Header
    requires few { length a.now.inputs.items + length a.now.latches.items + length a.now.gates.items < 4294967296 }
    requires outputs { length a.now.outputs.items < 4294967296 }
    ensures { result ≡ header (length a.now.inputs.items + length a.now.latches.items + length a.now.gates.items) (plain_aig a.now) }
{
    let inputs = a.inputs.len() as u32;
    let latches = a.latches.len() as u32;
    let gates = a.gates.len() as u32;
    Header {
        most: inputs + latches + gates,
        inputs,
        latches,
        outputs: a.outputs.len() as u32,
        gates,
    }
}

fn put_start(out: &mut Vec<u8>, latch: &Latch) -> Result<(), AllocError>
    ensures { OnOk result (out.new.items ≡ out.old.items ++ spaced (start_words latch.now.variable latch.now.start)) }
{
    match latch.start {
        Start::Zero => Ok(()),
        Start::One => out.extend_from_slice(b" 1"),
        Start::Free => {
            out.push(b' ')?;
            put_variable(out, latch.variable)
        }
    }
}

fn put_latch(out: &mut Vec<u8>, latch: &Latch) -> Result<(), AllocError>
    ensures { OnOk result (out.new.items ≡ out.old.items ++ line_text (latch_line latch.now)) }
{
    put_variable(out, latch.variable)?;
    out.push(b' ')?;
    put_literal(out, latch.next)?;
    put_start(out, latch)?;
    out.push(b'\n')?;
    Ok(())
}

fn put_gate(out: &mut Vec<u8>, gate: &Gate) -> Result<(), AllocError>
    ensures { OnOk result (out.new.items ≡ out.old.items ++ line_text (gate_line gate.now)) }
{
    put_variable(out, gate.variable)?;
    out.push(b' ')?;
    put_literal(out, gate.left)?;
    out.push(b' ')?;
    put_literal(out, gate.right)?;
    out.push(b'\n')?;
    Ok(())
}

fn put_inputs(out: &mut Vec<u8>, inputs: &[u32]) -> Result<(), AllocError>
    ensures { OnOk result (out.new.items ≡ out.old.items ++ lines_text (map (λ v. variable_word v ∷ []) inputs.now)) }
{
    for input in inputs {
        put_variable(out, *input)?;
        out.push(b'\n')?;
    }
    Ok(())
}

fn put_latches(out: &mut Vec<u8>, latches: &[Latch]) -> Result<(), AllocError>
    ensures { OnOk result (out.new.items ≡ out.old.items ++ lines_text (map latch_line latches.now)) }
{
    for latch in latches {
        put_latch(out, latch)?;
    }
    Ok(())
}

fn put_outputs(out: &mut Vec<u8>, outputs: &[Literal]) -> Result<(), AllocError>
    ensures { OnOk result (out.new.items ≡ out.old.items ++ lines_text (map (λ l. literal_word l ∷ []) outputs.now)) }
{
    for output in outputs {
        put_literal(out, *output)?;
        out.push(b'\n')?;
    }
    Ok(())
}

fn put_gates(out: &mut Vec<u8>, gates: &[Gate]) -> Result<(), AllocError>
    ensures { OnOk result (out.new.items ≡ out.old.items ++ lines_text (map gate_line gates.now)) }
{
    for gate in gates {
        put_gate(out, gate)?;
    }
    Ok(())
}

/// Puts the lines of a graph.
#[tactic(auto, using(crate::proofs::Puts::graph_put))]
fn put_graph(out: &mut Vec<u8>, a: &Aig) -> Result<(), AllocError>
    requires few { length a.now.inputs.items + length a.now.latches.items + length a.now.gates.items < 4294967296 }
    requires outputs { length a.now.outputs.items < 4294967296 }
    ensures { OnOk result (out.new.items ≡ out.old.items ++ lines_text (aig_lines (length a.now.inputs.items + length a.now.latches.items + length a.now.gates.items) (plain_aig a.now))) }
{
    put_header(out, header(a))?;
    put_inputs(out, &a.inputs)?;
    put_latches(out, &a.latches)?;
    put_outputs(out, &a.outputs)?;
    put_gates(out, &a.gates)?;
    Ok(())
}

/// Puts the line of a symbol: its letter and number, and the name of net x.
fn put_symbol(out: &mut Vec<u8>, letter: u8, k: u32, name: &[u8]) -> Result<(), AllocError>
    ensures { OnOk result (out.new.items ≡ out.old.items ++ line_text (symbol_line letter k name.now)) }
{
    out.push(letter)?;
    put_number(out, k as u64)?;
    out.push(b' ')?;
    out.extend_from_slice(name)?;
    out.push(b'\n')?;
    Ok(())
}

/// Puts the names of the inputs.
fn put_input_symbols(out: &mut Vec<u8>, n: &FlatNet) -> Result<(), AllocError>
    ensures { OnOk result (out.new.items ≡ out.old.items ++ lines_text (symbol_lines 105 0 n.now.net.inputs)) }
{
    for i in 0..n.input_count() {
        put_symbol(out, b'i', i, n.name(NetId(i)).bytes())?;
    }
    Ok(())
}

/// Puts the name of net x, where it is a register, and gives the number of the next one.
fn put_register_symbol(out: &mut Vec<u8>, n: &FlatNet, j: u32, x: NetId) -> Result<u32, AllocError>
    requires range { x.0 < net_count n.now.net }
    requires few { j < 4294967295 }
    ensures symbols { OnOk result (out.new.items ≡ out.old.items ++ lines_text (register_symbols n.now.net j x.0)) }
    ensures next { IfOk result (λ next. next ≡ next_symbol n.now.net j x.0) }
{
    if is_register(n, x) {
        put_symbol(out, b'l', j, n.name(x).bytes())?;
        Ok(j + 1)
    } else {
        Ok(j)
    }
}

/// Puts the names of the registers.
fn put_register_symbols(out: &mut Vec<u8>, n: &FlatNet) -> Result<(), AllocError>
    ensures { OnOk result (out.new.items ≡ out.old.items ++ lines_text (symbol_lines 108 0 (map (name_of n.now.net) (registers n.now.net)))) }
{
    let inputs = n.input_count();
    let mut j = 0;
    for i in 0..n.node_count() {
        j = put_register_symbol(out, n, j, NetId(inputs + i))?;
    }
    Ok(())
}

/// Puts the names of the outputs.
fn put_output_symbols(out: &mut Vec<u8>, n: &FlatNet) -> Result<(), AllocError>
    ensures { OnOk result (out.new.items ≡ out.old.items ++ lines_text (symbol_lines 111 0 (map (name_of n.now.net) n.now.net.outputs))) }
{
    for k in 0..n.output_count() {
        put_symbol(out, b'o', k, n.name(n.output(k)).bytes())?;
    }
    Ok(())
}

/// The file of a graph, with the names of a design.
pub fn text_of(alloc: Global, a: &Aig, n: &FlatNet) -> Result<Vec<u8>, AllocError>
    requires few { length a.now.inputs.items + length a.now.latches.items + length a.now.gates.items < 4294967296 }
    requires outputs { length a.now.outputs.items < 4294967296 }
    ensures { IfOk result (λ bytes. bytes.items ≡ aag_text (length a.now.inputs.items + length a.now.latches.items + length a.now.gates.items) (plain_aig a.now) n.now.net) }
{
    let mut out = Vec::new(alloc);
    put_graph(&mut out, a)?;
    put_input_symbols(&mut out, n)?;
    put_register_symbols(&mut out, n)?;
    put_output_symbols(&mut out, n)?;
    Ok(out)
}
