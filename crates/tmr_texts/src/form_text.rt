//! What is told of a hardened design.
ghost use Rattle.std.specs.Prelude.{◌≡◌, IfOk};
ghost use Rattle.tmr_texts.specs.Texts.{counted_text, open_word};
ghost use Rattle.tmr_texts.specs.FormText.{yes_or_no, nodes_line, partitions_line, form_lines, hardened_lines};

use crate::texts::{counted, join, open_word};
use std::alloc::Global;
use tmr_base::OutOfMemory;

/// How many nodes there are before and after, how many partitions, what they and the plain cut cost,
/// whether no single move of a node lowers the cost, how many voters there are, and the greatest
/// certified depth.
#[derive(Clone, Copy, Drop)]
pub struct FormNumbers {
    pub nodes: u32,
    pub hardened_nodes: u32,
    pub partitions: u32,
    pub cost: u64,
    pub plain: u64,
    pub minimal: bool,
    pub voters: u32,
    pub depth: u32,
}

/// `yes` or `no`.
pub fn yes_or_no(is: bool) -> &'static [u8]
    ensures { result.now ≡ yes_or_no is }
{
    if is {
        b"yes".as_slice()
    } else {
        b"no".as_slice()
    }
}

/// The line on nodes.
#[tactic(auto, unfolding(crate::specs::FormText::nodes_line))]
fn nodes_line(alloc: Global, f: &FormNumbers) -> Result<Vec<u8>, OutOfMemory>
    ensures { IfOk result (λ text. text.items ≡ nodes_line f.now) }
{
    let nodes = counted(alloc, b"nodes ", f.nodes as u64)?;
    let hardened = counted(alloc, b" to ", f.hardened_nodes as u64)?;
    join(
        alloc,
        &[nodes.as_slice(), hardened.as_slice(), b"\n".as_slice()],
    )
}

/// The line on partitions.
#[tactic(auto, unfolding(crate::specs::FormText::partitions_line))]
fn partitions_line(alloc: Global, f: &FormNumbers) -> Result<Vec<u8>, OutOfMemory>
    ensures { IfOk result (λ text. text.items ≡ partitions_line f.now) }
{
    let partitions = counted(alloc, b"partitions ", f.partitions as u64)?;
    let cost = counted(alloc, b" cost ", f.cost)?;
    let plain = counted(alloc, b" plain ", f.plain)?;
    join(
        alloc,
        &[
            partitions.as_slice(),
            cost.as_slice(),
            plain.as_slice(),
            b" minimal ".as_slice(),
            yes_or_no(f.minimal),
            b"\n".as_slice(),
        ],
    )
}

/// The lines on nodes, partitions, voters and depth.
#[tactic(auto, unfolding(crate::specs::FormText::form_lines))]
pub fn form_lines(alloc: Global, f: &FormNumbers) -> Result<Vec<u8>, OutOfMemory>
    ensures { IfOk result (λ text. text.items ≡ form_lines f.now) }
{
    let nodes = nodes_line(alloc, f)?;
    let partitions = partitions_line(alloc, f)?;
    let voters = counted(alloc, b"voters ", f.voters as u64)?;
    let depth = counted(alloc, b"\ndepth ", f.depth as u64)?;
    join(
        alloc,
        &[
            nodes.as_slice(),
            partitions.as_slice(),
            voters.as_slice(),
            depth.as_slice(),
            b"\n".as_slice(),
        ],
    )
}

/// These lines, and that on the initial values that the original leaves open.
#[tactic(auto, unfolding(crate::specs::FormText::hardened_lines))]
pub fn hardened_lines(
    alloc: Global,
    f: &FormNumbers,
    version: u8,
    count: u32,
) -> Result<Vec<u8>, OutOfMemory>
    ensures { IfOk result (λ text. text.items ≡ hardened_lines f.now version count) }
{
    let lines = form_lines(alloc, f)?;
    let open_values = counted(alloc, open_word(version), count as u64)?;
    join(
        alloc,
        &[lines.as_slice(), open_values.as_slice(), b"\n".as_slice()],
    )
}
