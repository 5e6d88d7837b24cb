//! Rows that grow in any order, kept as one list of all that is noted in them.
ghost use Rattle.std.specs.Prelude.{◌≡◌, ◌<◌, ◌≤◌, ◌+◌, ◌/◌, ◌==◌, ◌++◌, ◌∷◌, [], length, replicate, slice_index, slice_index_or, slice_set, slice_range, IfOk, OnOk, OnErr, if◌then◌else◌};
ghost use Rattle.node_reads.specs.Noting.{noted};
ghost use Rattle.node_reads.specs.Private.Dealt.{logs_of, AreDealt};
ghost use Rattle.node_reads.specs.Private.Logged.{row_of, rows_of, tally_at, is_last, tallied, AreIn, AreTallies, AreStarts, AreEnds, AreLaid};

use crate::dealing::{block_tallies, dealt, is_one_block};
use graph::Graph;
use std::alloc::Global;
use std::marker::Model;
use tmr_base::OutOfMemory;

/// What was noted: a number, in a row.
#[derive(Clone, Copy, Debug, PartialEq, Eq, Drop)]
pub struct Note {
    pub row: u32,
    pub number: u32,
}

/// How many numbers a row has, as far as 32 bits count them, and the last of them.
#[derive(Clone, Copy, Debug, PartialEq, Eq, Drop)]
pub struct Tally {
    pub count: u32,
    pub last: u32,
}

/// Rows of numbers, which grow in any order. What is noted is kept in one list, in the order in which it comes, and is put into its
/// rows together in the end. So one small place of each row is looked up while they grow, where rows of their own would take four times
/// as much memory, and their numbers more. A row of more numbers than 32 bits count is counted anew where that is asked, so that no
/// number of them is refused.
#[derive(Drop)]
pub struct Notes {
    tallies: Vec<Tally>,
    log: Vec<Note>,
}

impl Model for Notes {
    ghost use Rattle.std.specs.Prelude.{ℕ, List, length};
    ghost use Rattle.node_reads.specs.Private.Logged.{rows_of, AreTallies};

    ghost Value = { List (List ℕ) };

    ghost view = { λ notes. rows_of (length notes.tallies.items) notes.log.items };

    ghost invariant = { λ notes. AreTallies notes.tallies.items notes.log.items };
}

/// The last number of the row with this tally is k.
fn is_last(tally: Tally, k: u32) -> bool
    ensures { result ≡ is_last tally k }
{
    tally.count > 0 && tally.last == k
}

/// Row x is one longer, and ends in k.
fn count_note(tallies: &mut Vec<Tally>, x: u32, k: u32)
    requires { x < length tallies.old.items }
    ensures { tallies.new.items ≡ slice_set tallies.old.items x (tallied (tally_at tallies.old.items x) k) }
{
    let tally = tallies[x as usize];
    tallies[x as usize] = Tally {
        count: tally.count.saturating_add(1),
        last: k,
    };
}

/// Puts k behind row x.
fn add_note(
    tallies: &mut Vec<Tally>,
    log: &mut Vec<Note>,
    x: u32,
    k: u32,
) -> Result<(), OutOfMemory>
    requires tallies { AreTallies tallies.old.items log.old.items }
    requires row { x < length tallies.old.items }
    ensures tallies { AreTallies tallies.new.items log.new.items }
    ensures long { length tallies.new.items ≡ length tallies.old.items }
    ensures rows { OnOk result (rows_of (length tallies.old.items) log.new.items ≡ slice_set (rows_of (length tallies.old.items) log.old.items) x (row_of log.old.items x ++ k ∷ [])) }
    ensures kept { OnErr result (log.new.items ≡ log.old.items) }
{
    log.push(Note { row: x, number: k })?;
    let _long = log.len();
    count_note(tallies, x, k);
    Ok(())
}

/// Puts k behind row x, unless it is the last number of that row.
fn note_once(
    tallies: &mut Vec<Tally>,
    log: &mut Vec<Note>,
    x: u32,
    k: u32,
) -> Result<(), OutOfMemory>
    requires tallies { AreTallies tallies.old.items log.old.items }
    requires row { x < length tallies.old.items }
    ensures tallies { AreTallies tallies.new.items log.new.items }
    ensures long { length tallies.new.items ≡ length tallies.old.items }
    ensures rows { OnOk result (rows_of (length tallies.old.items) log.new.items ≡ noted (rows_of (length tallies.old.items) log.old.items) x k) }
    ensures kept { OnErr result (log.new.items ≡ log.old.items) }
{
    if is_last(tallies[x as usize], k) {
        return Ok(());
    }
    add_note(tallies, log, x, k)?;
    Ok(())
}

/// 1 for a note in row x, and 0 for any other.
fn count_one(note: Note, x: usize) -> usize
    ensures { result ≡ (if note.row == x then 1 else 0) }
{
    if note.row as usize == x { 1 } else { 0 }
}

/// How many numbers were noted in row x.
fn counted(log: &[Note], x: usize) -> usize
    requires { length log.now < 18446744073709551616 }
    ensures { result ≡ length (row_of log.now x) }
{
    let mut count: usize = 0;
    for k in 0..log.len() {
        count += count_one(log[k], x);
    }
    count
}

/// How many numbers row x has.
fn count_at(tallies: &[Tally], log: &[Note], x: usize) -> usize
    requires tallies { AreTallies tallies.now log.now }
    requires row { x < length tallies.now }
    ensures { result ≡ length (row_of log.now x) }
{
    let count = tallies[x].count;
    if count < u32::MAX {
        return count as usize;
    }
    counted(log, x)
}

/// Where each row begins.
fn starts(alloc: Global, tallies: &[Tally], log: &[Note]) -> Result<Vec<usize>, OutOfMemory>
    requires { AreTallies tallies.now log.now }
    ensures { IfOk result (λ starts. AreStarts (length tallies.now) log.now starts.items) }
{
    let mut starts = Vec::with_capacity(alloc, tallies.len())?;
    let mut next: usize = 0;
    for x in 0..tallies.len() {
        starts.push(next)?;
        next += count_at(tallies, log, x);
    }
    Ok(starts)
}

/// Puts all that was noted where it stands, and makes of where each row begins where it ends.
fn put_notes(log: &[Note], places: &mut Vec<usize>, flat: &mut Vec<u32>)
    requires few { length log.now < 18446744073709551616 }
    requires rows { AreIn (length places.old.items) log.now }
    requires starts { AreStarts (length places.old.items) log.now places.old.items }
    requires long { length flat.old.items ≡ length log.now }
    ensures ends { AreEnds (length places.old.items) log.now places.new.items }
    ensures laid { AreLaid (length places.old.items) log.now flat.new.items }
{
    for k in 0..log.len() {
        let note = log[k];
        let at = places[note.row as usize];
        flat[at] = note.number;
        places[note.row as usize] = at + 1;
    }
}

/// The part of the list that stands there.
fn part(flat: &[u32], from: usize, to: usize) -> &[u32]
    requires order { from ≤ to }
    requires end { to ≤ length flat.now }
    ensures { result.now ≡ slice_range flat.now from to }
{
    &flat[from..to]
}

/// Puts the rows behind others, each in a place of its own. `log` is read by the clauses alone.
fn cut_rows(rows: &mut Graph, log: &[Note], ends: &[usize], flat: &[u32]) -> Result<(), OutOfMemory>
    requires rows { AreIn (length ends.now) log.now }
    requires ends { AreEnds (length ends.now) log.now ends.now }
    requires laid { AreLaid (length ends.now) log.now flat.now }
    ensures { OnOk result (rows.new ≡ rows.old ++ rows_of (length ends.now) log.now) }
{
    let mut from: usize = 0;
    for x in 0..ends.len() {
        let to = ends[x];
        rows.push(part(flat, from, to))?;
        from = to;
    }
    Ok(())
}

/// Puts the rows of all that was noted behind others.
fn push_rows(
    alloc: Global,
    rows: &mut Graph,
    tallies: &[Tally],
    log: &[Note],
) -> Result<(), OutOfMemory>
    requires { AreTallies tallies.now log.now }
    ensures { OnOk result (rows.new ≡ rows.old ++ rows_of (length tallies.now) log.now) }
{
    let mut places = starts(alloc, tallies, log)?;
    let mut flat = vec![in alloc; 0u32; log.len()]?;
    put_notes(log, &mut places, &mut flat);
    cut_rows(rows, log, places.as_slice(), flat.as_slice())?;
    Ok(())
}

/// The rows of all that was noted, one block of them behind the other. `log` is read by the clauses alone.
fn packed_blocks(
    alloc: Global,
    tallies: &[Tally],
    log: &[Note],
    blocks: &[Vec<Note>],
) -> Result<Graph, OutOfMemory>
    requires tallies { AreTallies tallies.now log.now }
    requires blocks { AreDealt 16384 (length tallies.now / 16384 + 1) log.now (logs_of blocks.now) }
    ensures { IfOk result (λ g. g ≡ rows_of (length tallies.now) log.now) }
{
    let mut rows = Graph::with_room(alloc, tallies.len(), log.len())?;
    for b in 0..blocks.len() {
        push_rows(alloc, &mut rows, block_tallies(tallies, b), &blocks[b])?;
    }
    Ok(rows)
}

/// The rows of all that was noted, put all at once.
fn packed_at_once(alloc: Global, tallies: &[Tally], log: &[Note]) -> Result<Graph, OutOfMemory>
    requires { AreTallies tallies.now log.now }
    ensures { IfOk result (λ g. g ≡ rows_of (length tallies.now) log.now) }
{
    let mut rows = Graph::with_room(alloc, tallies.len(), log.len())?;
    push_rows(alloc, &mut rows, tallies, log)?;
    Ok(rows)
}

/// The rows of all that was noted.
fn packed(alloc: Global, tallies: &[Tally], log: &[Note]) -> Result<Graph, OutOfMemory>
    requires { AreTallies tallies.now log.now }
    ensures { IfOk result (λ g. g ≡ rows_of (length tallies.now) log.now) }
{
    if is_one_block(tallies.len()) {
        return packed_at_once(alloc, tallies, log);
    }
    let blocks = dealt(alloc, tallies, log)?;
    packed_blocks(alloc, tallies, log, &blocks)
}

/// How many numbers row x has.
fn count_in(tallies: &[Tally], log: &[Note], x: u32) -> usize
    requires tallies { AreTallies tallies.now log.now }
    requires row { x < length tallies.now }
    ensures { result ≡ length (row_of log.now x) }
{
    count_at(tallies, log, x as usize)
}

/// No tallies of rows in which something was noted.
fn no_tallies(alloc: Global, count: u32) -> Result<Vec<Tally>, OutOfMemory>
    ensures long { IfOk result (λ tallies. length tallies.items ≡ count) }
    ensures none { IfOk result (λ tallies. AreTallies tallies.items []) }
{
    let tallies = vec![in alloc; Tally { count: 0, last: 0 }; count as usize]?;
    Ok(tallies)
}

impl Notes {
    /// So many empty rows, with room for so many numbers.
    pub fn empty(alloc: Global, count: u32, room: usize) -> Result<Notes, OutOfMemory>
        ensures { IfOk result (λ notes. notes ≡ replicate count []) }
    {
        let tallies = no_tallies(alloc, count)?;
        let log = Vec::with_capacity(alloc, room)?;
        Ok(Notes { tallies, log })
    }

    /// How many numbers row x has.
    pub fn count(&self, x: u32) -> usize
        requires { x < length self.now }
        ensures { result ≡ length (slice_index_or self.now x []) }
    {
        count_in(&self.tallies, &self.log, x)
    }

    /// Puts k behind row x, unless it is the last number of that row. After want of memory nothing is put.
    pub fn note(&mut self, x: u32, k: u32) -> Result<(), OutOfMemory>
        requires { x < length self.old }
        ensures rows { OnOk result (self.new ≡ noted self.old x k) }
        ensures kept { OnErr result (self.new ≡ self.old) }
    {
        note_once(&mut self.tallies, &mut self.log, x, k)
    }

    /// The rows, one behind the other.
    pub fn packed(&self, alloc: Global) -> Result<Graph, OutOfMemory>
        ensures { IfOk result (λ g. g ≡ self.now) }
    {
        packed(alloc, &self.tallies, &self.log)
    }
}
