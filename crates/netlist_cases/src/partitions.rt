//! Partitions by size, and what passes of moves make of them.

ghost use Rattle.std.specs.Prelude.{◌≡◌, ◌<◌, length, IfOk};
ghost use Rattle.partitioner.specs.Sizes.{KeepsSize};

use crate::designs::free_of;
use crate::keeping::Texts;
use crate::stop::{Stop, bad_case};
use crate::words::{first_word, number};
use clustering::clusters;
use flat_net::FlatNet;
use partitioner::{cost, is_minimal, plain, refine};
use std::alloc::{AllocError, Global};
use tmr_base::Parts;

fn put_parts(text: &mut String, parts: &Parts) -> Result<(), AllocError> {
    for i in 0..parts.len() {
        write!(text, " {}", parts.of(i))?;
    }
    Ok(())
}

/// The partitions that so many passes make of the plain cut.
fn refined(alloc: Global, n: &FlatNet, size: u32, passes: u32) -> Result<Parts, Stop>
    requires { 0 < size }
    ensures { IfOk result (λ parts. KeepsSize n.now.net size parts) }
{
    let start = plain(alloc, n, size)?;
    Ok(refine(alloc, n, start, size, passes)?)
}

fn cost_of(alloc: Global, n: &FlatNet, parts: &Parts) -> Result<u64, Stop>
    requires { length parts.now.of ≡ length n.now.net.nodes }
{
    Ok(cost(alloc, n, parts)?)
}

fn is_least(alloc: Global, n: &FlatNet, parts: &Parts, size: u32) -> Result<bool, Stop>
    requires size { 0 < size }
    requires parts { KeepsSize n.now.net size parts.now }
{
    Ok(is_minimal(alloc, n, parts, size)?)
}

/// Puts how many partitions there are, the partition of each node, the cost, and whether no move lowers it.
fn put_judged(
    alloc: Global,
    text: &mut String,
    n: &FlatNet,
    parts: &Parts,
    size: u32,
) -> Result<(), Stop>
    requires size { 0 < size }
    requires parts { KeepsSize n.now.net size parts.now }
{
    let cost = cost_of(alloc, n, parts)?;
    let is_least = is_least(alloc, n, parts, size)?;
    write!(text, "{} of", parts.count())?;
    put_parts(text, parts)?;
    write!(text, " cost {cost}")?;
    text.push_str(if is_least { " minimal;" } else { ";" })?;
    Ok(())
}

/// Puts what so many passes make of the plain cut.
fn put_refined(
    alloc: Global,
    text: &mut String,
    n: &FlatNet,
    size: u32,
    passes: u32,
) -> Result<(), Stop>
    requires { 0 < size }
{
    let parts = refined(alloc, n, size, passes)?;
    write!(text, " passes {passes}: ")?;
    put_judged(alloc, text, n, &parts, size)
}

fn put_size(
    alloc: Global,
    text: &mut String,
    n: &FlatNet,
    size: u32,
    passes: &str,
) -> Result<(), Stop>
    requires { 0 < size }
{
    write!(text, "size {size}")?;
    for pass in passes.split(',') {
        let pass = number(alloc, pass)?;
        put_refined(alloc, text, n, size, pass)?;
    }
    text.push('\n')?;
    Ok(())
}

/// Puts the line of a size.
fn put_line(
    alloc: Global,
    text: &mut String,
    n: &FlatNet,
    size: &str,
    passes: &str,
) -> Result<(), Stop> {
    let size = number(alloc, size)?;
    if size == 0 {
        return Err(bad_case(alloc));
    }
    put_size(alloc, text, n, size, passes)
}

fn lines_of(alloc: Global, n: &FlatNet, sizes: &str, passes: &str) -> Result<String, Stop> {
    let mut text = String::new(alloc);
    for size in sizes.split(',') {
        put_line(alloc, &mut text, n, size, passes)?;
    }
    Ok(text)
}

/// The lines of a text's design.
fn answer_of(alloc: Global, bytes: &[u8], sizes: &str, passes: &str) -> Result<String, Stop> {
    let n = free_of(alloc, bytes)?;
    lines_of(alloc, n.net(), sizes, passes)
}

/// `SIZE,.. PASSES,.. TEXT`: a line for each size.
pub fn answer(alloc: Global, texts: &Texts, rest: &str) -> Result<String, Stop> {
    let (sizes, rest) = first_word(rest);
    let (passes, net) = first_word(rest);
    let bytes = texts.bytes_of(net)?;
    answer_of(alloc, bytes.as_slice(), sizes, passes)
}

/// Partitions made of clusters.
fn clustered(alloc: Global, n: &FlatNet, size: u32) -> Result<Parts, Stop>
    requires { 0 < size }
    ensures { IfOk result (λ parts. KeepsSize n.now.net size parts) }
{
    Ok(clusters(alloc, n, size)?)
}

fn put_clustered(alloc: Global, text: &mut String, n: &FlatNet, size: u32) -> Result<(), Stop>
    requires { 0 < size }
{
    let parts = clustered(alloc, n, size)?;
    write!(text, "size {size}: ")?;
    put_judged(alloc, text, n, &parts, size)?;
    text.push('\n')?;
    Ok(())
}

/// Puts the line of a size.
fn put_clusters(alloc: Global, text: &mut String, n: &FlatNet, size: &str) -> Result<(), Stop> {
    let size = number(alloc, size)?;
    if size == 0 {
        return Err(bad_case(alloc));
    }
    put_clustered(alloc, text, n, size)
}

fn cluster_lines(alloc: Global, n: &FlatNet, sizes: &str) -> Result<String, Stop> {
    let mut text = String::new(alloc);
    for size in sizes.split(',') {
        put_clusters(alloc, &mut text, n, size)?;
    }
    Ok(text)
}

/// `SIZE,.. TEXT`: a line for each size, of partitions made of clusters.
pub fn cluster_answer(alloc: Global, texts: &Texts, rest: &str) -> Result<String, Stop> {
    let (sizes, net) = first_word(rest);
    let bytes = texts.bytes_of(net)?;
    let n = free_of(alloc, bytes.as_slice())?;
    cluster_lines(alloc, n.net(), sizes)
}
