//! `from-aag AAG FLAT`: the flat text of the design of an AIGER file is saved.
ghost use Rattle.std.specs.Prelude.{◌≤◌, ◌∷◌, [], length, IfOk};
ghost use Rattle.limits.specs.Most.{widest_original};
ghost use Rattle.tmr_words.specs.Line.{ReadGraph};
ghost use Rattle.tmr_words.specs.FileWords.{graph_reading_in};
ghost use Rattle.tmr_top.specs.Loads.{graph_file};
ghost use Rattle.tmr_top.specs.Private.GraphCounted.{HoldsCounted, IsRefusedGraph, RefusesGraph};
ghost use Rattle.tmr_top.specs.Private.Opened.{HoldsBytes, Gives, Opens};
ghost use Rattle.tmr_top.specs.Private.Rooms.{Performed};
ghost use Rattle.tmr_top.specs.Private.Works.{IsWorkOver};

use crate::conclusion::conclude;
use crate::decision::{Decision, Work, saving};
use crate::designs::refuse_for;
use crate::loads::{Stop, keep_original, stopped};
use aag_design::{AagFault, CountedDesign, read_counted};
use blif_writer::write_free;
use limits::Limits;
use std::alloc::Global;
use tmr_base::OutOfMemory;
use tmr_outside::Files;
use tmr_texts::{aag_reason, graph_told};
use tmr_words::GraphReadWords;

/// The refusal of an AIGER file for this fault, which is freed.
fn refuse_graph<'a>(alloc: Global, name: &str, fault: AagFault) -> Stop<'a>
    ensures { RefusesGraph name.now fault result }
{
    let reason = aag_reason(alloc, &fault);
    drop(fault);
    refuse_for(alloc, name, reason)
}

/// The design that the bytes of an AIGER file give, with the counts of its graph.
fn read_graph<'a>(
    alloc: Global,
    name: &str,
    bytes: &[u8],
    limits: Limits,
) -> Result<CountedDesign, Stop<'a>>
    requires { length bytes.now ≤ widest_original }
    ensures { Gives (λ held. HoldsBytes held (graph_file limits name.now) bytes.now)
        (λ read held. HoldsCounted held (graph_file limits name.now) read) (IsRefusedGraph limits name.now) result }
{
    match read_counted(alloc, bytes, limits.original()) {
        Ok(read) => Ok(read),
        Err(fault) => Err(refuse_graph(alloc, name, fault)),
    }
}

/// Loads and reads an AIGER file.
fn open_graph<'a, F: Files>(
    alloc: Global,
    name: &'a str,
    limits: Limits,
    files: &mut F,
) -> Result<CountedDesign, Stop<'a>>
    ensures { Opens (graph_file limits name.now ∷ [])
        (λ read held. HoldsCounted held (graph_file limits name.now) read) (IsRefusedGraph limits name.now)
        (F.seen files.old) (F.seen files.new) (F.steady files.old) (F.steady files.new) result }
{
    match keep_original(alloc, name, limits, files) {
        Ok(bytes) => read_graph(alloc, name, &bytes, limits),
        Err(stop) => Err(stop),
    }
}

/// The flat text of a graph's design, and what is told of the graph.
fn tell<'a>(
    alloc: Global,
    words: &GraphReadWords<'a>,
    read: &CountedDesign,
) -> Result<Work<'a, 'a>, OutOfMemory>
    ensures { IfOk result (IsWorkOver (ReadGraph (graph_reading_in words.now))
        (λ held. HoldsCounted held (graph_file words.now.limits words.now.graph.now) read.now)) }
{
    let bytes = write_free(alloc, &read.net)?;
    let text = graph_told(alloc, &read.counts)?;
    saving(alloc, words.flat, bytes, text)
}

/// The room of `from-aag`.
pub fn perform<F: Files>(
    alloc: Global,
    words: &GraphReadWords,
    files: &mut F,
) -> Result<Decision, OutOfMemory>
    ensures { Performed (ReadGraph (graph_reading_in words.now)) (F.seen files.old) (F.seen files.new)
        (F.steady files.old) (F.steady files.new) result }
{
    match open_graph(alloc, words.graph, words.limits, files) {
        Ok(read) => conclude(alloc, tell(alloc, words, &read), files),
        Err(stop) => stopped(alloc, stop),
    }
}
