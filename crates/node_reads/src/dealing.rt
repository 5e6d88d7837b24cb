//! Notes, dealt to blocks of rows.
ghost use Rattle.std.specs.Prelude.{◌≡◌, ◌+◌, ◌*◌, ◌/◌, ◌<◌, ◌≤◌, [], length, take, drop, replicate, IfOk, OnOk};
ghost use Rattle.node_reads.specs.Private.Dealt.{dealt_to, logs_of, AreDealt};
ghost use Rattle.node_reads.specs.Private.Logged.{AreIn};

use crate::notes::{Note, Tally};
use std::alloc::Global;
use tmr_base::OutOfMemory;

/// How many rows a block has. What so many rows need while they are put lies in the caches of a processor, where the next note of a row
/// would else be far from the last one.
const ROWS: usize = 16_384;

/// So many rows stand in one block.
pub fn is_one_block(count: usize) -> bool {
    count <= ROWS
}

/// The tallies of block b.
pub fn block_tallies(tallies: &[Tally], b: usize) -> &[Tally]
    requires { b * 16384 ≤ length tallies.now }
    ensures { result.now ≡ take 16384 (drop (b * 16384) tallies.now) }
{
    let from = b * ROWS;
    let count = ROWS.min(tallies.len() - from);
    &tallies[from..from + count]
}

/// How many numbers the rows with these tallies have.
fn together(tallies: &[Tally]) -> usize {
    tallies.iter().fold(
        0usize,
        |sum, tally| sum.saturating_add(tally.count as usize),
    )
}

/// So many blocks of nothing, each with room for what will be dealt to it.
fn empty_blocks(alloc: Global, tallies: &[Tally]) -> Result<Vec<Vec<Note>>, OutOfMemory>
    ensures { IfOk result (λ blocks. logs_of blocks.items ≡ replicate (length tallies.now / 16384 + 1) []) }
{
    let count = tallies.len() / ROWS + 1;
    let mut blocks = Vec::with_capacity(alloc, count)?;
    for b in 0..count {
        let room = together(block_tallies(tallies, b));
        blocks.push(Vec::with_capacity(alloc, room)?)?;
    }
    Ok(blocks)
}

/// Deals a note to the block of its row, where rows are numbered from the first of the block.
fn deal(blocks: &mut Vec<Vec<Note>>, note: Note) -> Result<(), OutOfMemory>
    requires { note.row / 16384 < length blocks.old.items }
    ensures { OnOk result (logs_of blocks.new.items ≡ dealt_to 16384 note (logs_of blocks.old.items)) }
{
    let row = note.row as usize;
    blocks[row / ROWS].push(Note {
        row: (row % ROWS) as u32,
        number: note.number,
    })?;
    Ok(())
}

/// What was noted in rows with these tallies, dealt to blocks of rows. In each block it stands in the order in which it was noted.
pub fn dealt(alloc: Global, tallies: &[Tally], log: &[Note]) -> Result<Vec<Vec<Note>>, OutOfMemory>
    requires { AreIn (length tallies.now) log.now }
    ensures { IfOk result (λ blocks. AreDealt 16384 (length tallies.now / 16384 + 1) log.now (logs_of blocks.items)) }
{
    let mut blocks = empty_blocks(alloc, tallies)?;
    for k in 0..log.len() {
        deal(&mut blocks, log[k])?;
    }
    Ok(blocks)
}
