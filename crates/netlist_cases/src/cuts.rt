//! Components, cuts and depths of designs in partitions.

ghost use Rattle.std.specs.Prelude.{◌≡◌, ◌<◌, length, IfOk};
ghost use Rattle.feedback_cut.specs.Components.{AreComponents};
ghost use Rattle.feedback_cut.specs.Cut.{CutsLoops};
ghost use Rattle.graph.specs.Rows.{row};

use crate::designs::{free_of, node_id};
use crate::keeping::Texts;
use crate::stop::{Stop, bad_case};
use crate::words::{first_word, number};
use feedback_cut::{CutPins, LoopGroups, components, cut, cut_registers};
use flat_net::FlatNet;
use recovery_depth::{Extra, bound};
use std::alloc::{AllocError, Global};
use tmr_base::{PartId, Parts};

/// The partition of node i: its digit, or 0 where there is none.
fn part_of(digits: &[u8], i: u32, count: u32) -> u32
    requires { 0 < count }
    ensures { result < count }
{
    match digits.get(i as usize) {
        Some(digit) => u32::from(digit.wrapping_sub(b'0')) % count,
        None => 0,
    }
}

/// So many nodes in these partitions, of which each digit names one.
fn parts_of(alloc: Global, count: u32, digits: &[u8], nodes: u32) -> Result<Parts, Stop>
    requires { 0 < count }
    ensures count { IfOk result (λ parts. parts.count ≡ count) }
    ensures nodes { IfOk result (λ parts. length parts.of ≡ nodes) }
{
    if nodes > 1_000_000 {
        return Err(bad_case(alloc));
    }
    let mut of = Vec::new(alloc);
    for i in 0..nodes {
        of.push(part_of(digits, i, count))?;
    }
    Ok(Parts::make(count, of))
}

/// The components inside these partitions.
fn groups_of(alloc: Global, n: &FlatNet, parts: &Parts) -> Result<LoopGroups, Stop>
    requires { length parts.now.of ≡ length n.now.net.nodes }
    ensures { IfOk result (λ groups. AreComponents n.now.net parts.now groups) }
{
    Ok(components(alloc, n, parts)?)
}

/// The pins that are cut.
fn cut_pins(alloc: Global, n: &FlatNet, parts: &Parts) -> Result<CutPins, Stop>
    requires { length parts.now.of ≡ length n.now.net.nodes }
    ensures { IfOk result (λ pins. CutsLoops n.now.net parts.now pins) }
{
    Ok(cut(alloc, n, parts)?)
}

/// The pins that are cut at registers.
fn register_pins(alloc: Global, n: &FlatNet, parts: &Parts) -> Result<CutPins, Stop>
    requires { length parts.now.of ≡ length n.now.net.nodes }
    ensures { IfOk result (λ pins. CutsLoops n.now.net parts.now pins) }
{
    let found = cut_registers(alloc, n, parts)?;
    Ok(found.cut)
}

/// The component of each node.
fn numbers_of(alloc: Global, groups: &LoopGroups, nodes: u32) -> Result<Vec<u32>, AllocError>
    requires { length groups.now.of ≡ nodes }
{
    let mut numbers = Vec::new(alloc);
    for i in 0..nodes {
        numbers.push(groups.of(i))?;
    }
    Ok(numbers)
}

/// The first node of a component.
fn first_of(numbers: &[u32], component: u32) -> Option<usize> {
    numbers.iter().position(|number| *number == component)
}

/// Puts the first node of a component, with `*` where that has a loop.
fn put_component(
    text: &mut String,
    groups: &LoopGroups,
    numbers: &[u32],
    k: u32,
) -> Result<(), AllocError>
    requires { k < length groups.now.loops }
{
    let first = first_of(numbers, k).unwrap_or(0);
    write!(text, " {first}")?;
    text.push_str(if groups.has_loop(k) { "*" } else { "" })
}

/// Puts `x` for each pin of node i that is cut, else `-`.
fn put_pins(text: &mut String, pins: &CutPins, i: u32, count: u32) -> Result<(), AllocError>
    requires node { i < length pins.now }
    requires pins { count ≡ length (row pins.now i) }
{
    for j in 0..count {
        text.push(if pins.is_cut(i, j) { 'x' } else { '-' })?;
    }
    Ok(())
}

/// For each node the first node of its component, with `*` where that has a loop, and for each of its pins `x` where
/// it is cut, else `-`.
fn put_loops(
    text: &mut String,
    n: &FlatNet,
    groups: &LoopGroups,
    numbers: &[u32],
    pins: &CutPins,
    parts: &Parts,
) -> Result<(), AllocError>
    requires groups { AreComponents n.now.net parts.now groups.now }
    requires pins { CutsLoops n.now.net parts.now pins.now }
{
    for i in 0..n.node_count() {
        put_component(text, groups, numbers, groups.of(i))?;
        put_pins(text, pins, i, n.pin_count(node_id(n, i)))?;
    }
    Ok(())
}

/// The number of components, and what is told of each node.
fn loops_of(
    alloc: Global,
    n: &FlatNet,
    groups: &LoopGroups,
    pins: &CutPins,
    parts: &Parts,
) -> Result<String, AllocError>
    requires groups { AreComponents n.now.net parts.now groups.now }
    requires pins { CutsLoops n.now.net parts.now pins.now }
{
    let numbers = numbers_of(alloc, groups, n.node_count())?;
    let mut text = format!(in alloc; "{}:", groups.count())?;
    put_loops(&mut text, n, groups, numbers.as_slice(), pins, parts)?;
    Ok(text)
}

/// The same with the components counted anew.
fn loops_text(alloc: Global, n: &FlatNet, parts: &Parts, pins: &CutPins) -> Result<String, Stop>
    requires parts { length parts.now.of ≡ length n.now.net.nodes }
    requires pins { CutsLoops n.now.net parts.now pins.now }
{
    let groups = groups_of(alloc, n, parts)?;
    Ok(loops_of(alloc, n, &groups, pins, parts)?)
}

fn cut_text(alloc: Global, n: &FlatNet, parts: &Parts) -> Result<String, Stop>
    requires { length parts.now.of ≡ length n.now.net.nodes }
{
    let pins = cut_pins(alloc, n, parts)?;
    loops_text(alloc, n, parts, &pins)
}

fn registers_text(alloc: Global, n: &FlatNet, parts: &Parts) -> Result<String, Stop>
    requires { length parts.now.of ≡ length n.now.net.nodes }
{
    let pins = register_pins(alloc, n, parts)?;
    loops_text(alloc, n, parts, &pins)
}

/// The labels, depths and further pins where no label is above a bound.
fn extra_of(alloc: Global, n: &FlatNet, parts: &Parts, most: u32) -> Result<Extra, Stop>
    requires nodes { length parts.now.of ≡ length n.now.net.nodes }
    requires most { 0 < most }
    ensures labels { IfOk result (λ extra. length extra.table.labels ≡ length n.now.net.nodes) }
    ensures marks { IfOk result (λ extra. length extra.marks ≡ length n.now.net.nodes) }
    ensures depths { IfOk result (λ extra. length extra.table.depths ≡ parts.now.count) }
{
    let pins = cut_pins(alloc, n, parts)?;
    Ok(bound(alloc, n, parts, &pins, most)?)
}

fn put_extra_labels(text: &mut String, extra: &Extra, nodes: u32) -> Result<(), AllocError>
    requires labels { length extra.now.table.labels ≡ nodes }
    requires marks { length extra.now.marks ≡ nodes }
{
    text.push_str("labels")?;
    for i in 0..nodes {
        write!(text, " {}", extra.label(i))?;
        text.push_str(if extra.is_extra(i, 0) { "*" } else { "" })?;
    }
    Ok(())
}

fn put_extra_depths(text: &mut String, extra: &Extra, count: u32) -> Result<(), AllocError>
    requires { length extra.now.table.depths ≡ count }
{
    text.push_str(" depths")?;
    for p in 0..count {
        write!(text, " {}", extra.depth(PartId(p)))?;
    }
    Ok(())
}

/// The label of each node and the depth of each partition where no label is above a bound, with `*` behind the label of a register whose pin is voted for this.
fn bound_text(alloc: Global, n: &FlatNet, parts: &Parts, most: u32) -> Result<String, Stop>
    requires nodes { length parts.now.of ≡ length n.now.net.nodes }
    requires most { 0 < most }
{
    let extra = extra_of(alloc, n, parts, most)?;
    let mut text = String::new(alloc);
    put_extra_labels(&mut text, &extra, n.node_count())?;
    put_extra_depths(&mut text, &extra, parts.count())?;
    Ok(text)
}

/// The nodes of a text's design in these partitions, by the verb.
fn answer_of(
    alloc: Global,
    n: &FlatNet,
    verb: &str,
    count: u32,
    digits: &[u8],
) -> Result<String, Stop>
    requires { 0 < count }
{
    let parts = parts_of(alloc, count, digits, n.node_count())?;
    match verb {
        "loops" => cut_text(alloc, n, &parts),
        _ => registers_text(alloc, n, &parts),
    }
}

/// The design of a text in these partitions, by the verb.
fn design_answer(
    alloc: Global,
    bytes: &[u8],
    verb: &str,
    count: u32,
    digits: &[u8],
) -> Result<String, Stop> {
    if count == 0 {
        return Err(bad_case(alloc));
    }
    let n = free_of(alloc, bytes)?;
    answer_of(alloc, n.net(), verb, count, digits)
}

/// `COUNT DIGITS TEXT`.
fn partitioned(alloc: Global, texts: &Texts, verb: &str, rest: &str) -> Result<String, Stop> {
    let (count, rest) = first_word(rest);
    let (digits, text) = first_word(rest);
    let count = number(alloc, count)?;
    let bytes = texts.bytes_of(text)?;
    design_answer(alloc, bytes.as_slice(), verb, count, digits.as_bytes())
}

/// The design in these partitions where no label is above a bound.
fn bound_answer_of(
    alloc: Global,
    n: &FlatNet,
    most: u32,
    count: u32,
    digits: &[u8],
) -> Result<String, Stop>
    requires most { 0 < most }
    requires count { 0 < count }
{
    let parts = parts_of(alloc, count, digits, n.node_count())?;
    bound_text(alloc, n, &parts, most)
}

/// The same of the design of a text.
fn bound_answer(
    alloc: Global,
    bytes: &[u8],
    most: u32,
    count: u32,
    digits: &[u8],
) -> Result<String, Stop> {
    if most == 0 || count == 0 {
        return Err(bad_case(alloc));
    }
    let n = free_of(alloc, bytes)?;
    bound_answer_of(alloc, n.net(), most, count, digits)
}

/// `MOST COUNT DIGITS TEXT`.
fn bounded(alloc: Global, texts: &Texts, rest: &str) -> Result<String, Stop> {
    let (most, rest) = first_word(rest);
    let (count, rest) = first_word(rest);
    let (digits, text) = first_word(rest);
    let most = number(alloc, most)?;
    let count = number(alloc, count)?;
    let bytes = texts.bytes_of(text)?;
    bound_answer(alloc, bytes.as_slice(), most, count, digits.as_bytes())
}

/// `loops COUNT DIGITS TEXT`, `registers COUNT DIGITS TEXT` and `bound MOST COUNT DIGITS TEXT`.
pub fn answer(alloc: Global, texts: &Texts, verb: &str, rest: &str) -> Result<String, Stop> {
    match verb {
        "bound" => bounded(alloc, texts, rest),
        _ => partitioned(alloc, texts, verb, rest),
    }
}
