//! The graph of a design: the literal of each net, table by table in an order of evaluation.
ghost use Rattle.std.specs.Prelude.{◌≡◌, ◌↔◌, ◌+◌, ◌<◌, ◌≤◌, ℕ, Some, map, length, slice_get, OnOk, IfOk, IsTrue};
ghost use Rattle.std.specs.Prelude.{◌++◌, if◌then◌else◌};
ghost use Rattle.std.specs.List.{range_with_len};
ghost use Rattle.limits.specs.Most.{widest_nets};
ghost use Rattle.flat_net.specs.Net.{net_count, node_of, pins_at, IsTable, IsRegister};
ghost use Rattle.flat_net.specs.Free.{node_bit};
ghost use Rattle.aag_text.specs.Same.{registers, register_start};
ghost use Rattle.hierarchy.specs.Sizes.{row_total};
ghost use Rattle.aag_text.specs.Private.Gates.{next_of, AreBelow, Grows, rows_at, gates_at};
ghost use Rattle.aag_text.specs.Taken.{gate_total};
ghost use Rattle.aag_text.specs.Private.Nets.{literal_at, is_register_at, input_literals, first_literals, IsMadeAt, AreRight, OnlyTables, latch_at, latches_at, HasLiterals, IsMadeGraph};
ghost use Rattle.aag_text.specs.Aig.{plain_aig};

use crate::gates::{Gates, table_literal};
use crate::{Aig, Latch, Literal, Start};
use flat_net::{FlatNet, FreeNet, Kind};
use std::alloc::{AllocError, Global};
use tmr_base::{NetId, OutOfMemory};

/// Whether net x is a register.
pub fn is_register(n: &FlatNet, x: NetId) -> bool
    requires { x.0 < net_count n.now.net }
    ensures { result ≡ is_register_at (node_of n.now.net x.0) }
{
    match n.kind(x) {
        Kind::Register => true,
        _ => false,
    }
}

/// The literals of the inputs: variables 1, 2 and so on.
fn input_literals(alloc: Global, count: u32) -> Result<Vec<Literal>, AllocError>
    requires { count < 4294967295 }
    ensures { IfOk result (λ literals. literals.items ≡ input_literals count) }
{
    let mut literals = Vec::new(alloc);
    for i in 0..count {
        literals.push(Literal {
            variable: i + 1,
            negated: false,
        })?;
    }
    Ok(literals)
}

fn chosen(b: bool, x: u32, y: u32) -> u32
    ensures { result ≡ (if b then x else y) }
{
    if b { x } else { y }
}

/// The literals of the inputs and the registers, in this order from variable 1 on. That of a table is 0 as yet.
fn first_literals(alloc: Global, n: &FlatNet) -> Result<Vec<Literal>, AllocError>
    ensures { IfOk result (λ literals. literals.items ≡ first_literals n.now.net) }
{
    let inputs = n.input_count();
    let mut literals = input_literals(alloc, inputs)?;
    let mut next = inputs + 1;
    for i in 0..n.node_count() {
        let is_register = is_register(n, NetId(inputs + i));
        literals.push(Literal {
            variable: chosen(is_register, next, 0),
            negated: false,
        })?;
        next = chosen(is_register, next + 1, next);
    }
    Ok(literals)
}

/// The literals of the pins of node x.
fn pin_literals(
    alloc: Global,
    n: &FlatNet,
    literals: &[Literal],
    x: NetId,
) -> Result<Vec<Literal>, AllocError>
    requires range { x.0 < net_count n.now.net }
    requires node { length n.now.net.inputs ≤ x.0 }
    requires long { length literals.now ≡ net_count n.now.net }
    ensures pins { IfOk result (λ pins. pins.items ≡ map (literal_at literals.now) (pins_at (node_of n.now.net x.0))) }
    ensures below { IfOk result (λ pins. (next : ℕ) → AreBelow next literals.now → AreBelow next pins.items) }
{
    let mut pins = Vec::with_capacity(alloc, n.pin_count(x) as usize)?;
    for j in 0..n.pin_count(x) {
        pins.push(literals[n.pin(x, j).0 as usize])?;
    }
    Ok(pins)
}

/// Gives table x its literal, where its pins have theirs.
fn make_table(
    alloc: Global,
    n: &FlatNet,
    literals: &mut [Literal],
    gates: &mut Gates,
    x: NetId,
) -> Result<(), OutOfMemory>
    requires range { x.0 < net_count n.now.net }
    requires node { length n.now.net.inputs ≤ x.0 }
    requires table { IsTable (node_of n.now.net x.0) }
    requires long { length literals.old ≡ net_count n.now.net }
    requires zero { 0 < next_of gates.old }
    requires below { AreBelow (next_of gates.old) literals.old }
    requires room { next_of gates.old + rows_at (node_of n.now.net x.0) ≤ 2147483648 }
    ensures made { OnOk result (IsMadeAt n.now.net x.0 literals.old literals.new gates.new) }
    ensures count { OnOk result (length gates.new.list ≡ length gates.old.list + gates_at (node_of n.now.net x.0)) }
    ensures below { OnOk result (AreBelow (next_of gates.new) literals.new) }
    ensures grows { OnOk result (Grows (rows_at (node_of n.now.net x.0)) gates.old gates.new) }
{
    let pins = pin_literals(alloc, n, literals, x)?;
    let cover = n.cover(x);
    let own = table_literal(gates, cover, &pins)?;
    literals[x.0 as usize] = own;
    Ok(())
}

fn is_table(n: &FlatNet, x: NetId) -> bool
    requires { x.0 < net_count n.now.net }
    ensures { IsTrue result ↔ IsTable (node_of n.now.net x.0) }
{
    match n.kind(x) {
        Kind::Table => true,
        _ => false,
    }
}

/// Gives node x its literal where it is a table.
#[tactic(auto, using(crate::proofs::Making::unmade, crate::proofs::Stacks::grows_none, crate::proofs::Rows::takes_none))]
fn make_node(
    alloc: Global,
    n: &FlatNet,
    literals: &mut [Literal],
    gates: &mut Gates,
    x: NetId,
) -> Result<(), OutOfMemory>
    requires range { x.0 < net_count n.now.net }
    requires node { length n.now.net.inputs ≤ x.0 }
    requires long { length literals.old ≡ net_count n.now.net }
    requires zero { 0 < next_of gates.old }
    requires below { AreBelow (next_of gates.old) literals.old }
    requires room { next_of gates.old + rows_at (node_of n.now.net x.0) ≤ 2147483648 }
    ensures made { OnOk result (IsMadeAt n.now.net x.0 literals.old literals.new gates.new) }
    ensures count { OnOk result (length gates.new.list ≡ length gates.old.list + gates_at (node_of n.now.net x.0)) }
    ensures below { OnOk result (AreBelow (next_of gates.new) literals.new) }
    ensures grows { OnOk result (Grows (rows_at (node_of n.now.net x.0)) gates.old gates.new) }
{
    if is_table(n, x) {
        make_table(alloc, n, literals, gates, x)
    } else {
        Ok(())
    }
}

/// Gives all tables their literals.
fn make_tables(
    alloc: Global,
    n: &FlatNet,
    literals: &mut [Literal],
    gates: &mut Gates,
) -> Result<(), OutOfMemory>
    requires long { length literals.old ≡ net_count n.now.net }
    requires zero { 0 < next_of gates.old }
    requires below { AreBelow (next_of gates.old) literals.old }
    requires room { next_of gates.old + row_total n.now.net ≤ 2147483648 }
    ensures right { OnOk result (AreRight n.now.net n.now.order (length n.now.net.nodes) literals.old literals.new gates.new) }
    ensures others { OnOk result (OnlyTables n.now.net literals.old literals.new) }
    ensures count { OnOk result (length gates.new.list ≡ length gates.old.list + gate_total n.now.net) }
    ensures below { OnOk result (AreBelow (next_of gates.new) literals.new) }
    ensures long { OnOk result (length literals.new ≡ length literals.old) }
    ensures grows { OnOk result (Grows (row_total n.now.net) gates.old gates.new) }
{
    n.input_count();
    for i in 0..n.node_count() {
        let x = n.ordered(i);
        make_node(alloc, n, literals, gates, x)?;
    }
    Ok(())
}

/// The start of register x.
#[tactic(auto, using(crate::proofs::Latches::init_is))]
fn start_of(n: &FreeNet, x: NetId) -> Start
    requires range { x.0 < net_count n.now.design.net }
    requires node { length n.now.design.net.inputs ≤ x.0 }
    requires register { IsRegister (node_of n.now.design.net x.0) }
    ensures { result ≡ register_start (node_bit (length n.now.design.net.inputs) n.now.free x.0) (node_of n.now.design.net x.0) }
{
    let net = n.net();
    if n.is_free(x) {
        Start::Free
    } else if net.init(x) {
        Start::One
    } else {
        Start::Zero
    }
}

/// The latch of register x.
#[tactic(auto, using(crate::proofs::Latches::one_pin, crate::proofs::Latches::pin_is))]
fn latch_of(n: &FreeNet, literals: &[Literal], x: NetId) -> Latch
    requires range { x.0 < net_count n.now.design.net }
    requires node { length n.now.design.net.inputs ≤ x.0 }
    requires register { IsRegister (node_of n.now.design.net x.0) }
    requires long { length literals.now ≡ net_count n.now.design.net }
    ensures { result ≡ latch_at n.now.design.net n.now.free literals.now x.0 }
{
    let net = n.net();
    Latch {
        variable: literals[x.0 as usize].variable,
        next: literals[net.pin(x, 0).0 as usize],
        start: start_of(n, x),
    }
}

/// Adds the latch of node x, where it is a register.
#[tactic(auto, using(crate::proofs::Latches::register_is, crate::proofs::Latches::no_latch))]
fn push_latch(
    n: &FreeNet,
    literals: &[Literal],
    latches: &mut Vec<Latch>,
    x: NetId,
) -> Result<(), AllocError>
    requires range { x.0 < net_count n.now.design.net }
    requires node { length n.now.design.net.inputs ≤ x.0 }
    requires long { length literals.now ≡ net_count n.now.design.net }
    ensures { OnOk result (latches.new.items ≡ latches.old.items ++ latches_at n.now.design.net n.now.free literals.now x.0) }
{
    let net = n.net();
    if is_register(net, x) {
        latches.push(latch_of(n, literals, x))?;
    }
    Ok(())
}

/// The latches of the registers.
fn latches_of(alloc: Global, n: &FreeNet, literals: &[Literal]) -> Result<Vec<Latch>, AllocError>
    requires { length literals.now ≡ net_count n.now.design.net }
    ensures { IfOk result (λ latches. latches.items ≡ map (latch_at n.now.design.net n.now.free literals.now) (registers n.now.design.net)) }
{
    let net = n.net();
    let inputs = net.input_count();
    let mut latches = Vec::new(alloc);
    for i in 0..net.node_count() {
        push_latch(n, literals, &mut latches, NetId(inputs + i))?;
    }
    Ok(latches)
}

/// The literals of the outputs.
fn outputs_of(alloc: Global, n: &FlatNet, literals: &[Literal]) -> Result<Vec<Literal>, AllocError>
    requires { length literals.now ≡ net_count n.now.net }
    ensures { IfOk result (λ outputs. outputs.items ≡ map (literal_at literals.now) n.now.net.outputs) }
{
    let mut outputs = Vec::new(alloc);
    for k in 0..n.output_count() {
        outputs.push(literals[n.output(k).0 as usize])?;
    }
    Ok(outputs)
}

/// The variables of the inputs: 1, 2 and so on.
fn inputs_of(alloc: Global, count: u32) -> Result<Vec<u32>, AllocError>
    requires { count < 4294967295 }
    ensures { IfOk result (λ inputs. inputs.items ≡ map (λ i. i + 1) (range_with_len 0 count)) }
{
    let mut inputs = Vec::new(alloc);
    for i in 0..count {
        inputs.push(i + 1)?;
    }
    Ok(inputs)
}

/// The literals of all nets, and the gates that they take.
fn all_literals(alloc: Global, n: &FlatNet) -> Result<(Vec<Literal>, Gates), OutOfMemory>
    requires few { net_count n.now.net ≤ widest_nets }
    requires small { row_total n.now.net ≤ widest_nets }
    ensures { IfOk result (λ r. HasLiterals n.now r.0.items r.1) }
{
    let inputs = n.input_count();
    let mut literals = first_literals(alloc, n)?;
    let mut gates = Gates::new(alloc, inputs + n.register_count() + 1);
    make_tables(alloc, n, &mut literals, &mut gates)?;
    Ok((literals, gates))
}

/// The graph of a design.
pub fn aig_of(alloc: Global, n: &FreeNet) -> Result<Aig, OutOfMemory>
    requires few { net_count n.now.design.net ≤ widest_nets }
    requires small { row_total n.now.design.net ≤ widest_nets }
    ensures { IfOk result (λ a. IsMadeGraph n.now (plain_aig a)) }
{
    let net = n.net();
    let (literals, gates) = all_literals(alloc, net)?;
    let latches = latches_of(alloc, n, &literals)?;
    let outputs = outputs_of(alloc, net, &literals)?;
    let inputs = inputs_of(alloc, net.input_count())?;
    let gates = gates.into_list();
    Ok(Aig {
        inputs,
        latches,
        outputs,
        gates,
    })
}
