//! The marks of a graph's design.
ghost use Rattle.std.specs.Prelude.{◌≡◌, ◌++◌, false, map, replicate, IfOk, OnOk};
ghost use Rattle.aag_text.specs.Aig.{plain_aig};
ghost use Rattle.aag_design.specs.Draft.{starts_free, aig_marks};

use aag_text::{Aig, Latch, Start};
use std::alloc::{AllocError, Global};
use tmr_base::OutOfMemory;

/// Whether the value in cycle 0 is free.
pub fn starts_free(start: Start) -> bool
    ensures { result ≡ starts_free start }
{
    match start {
        Start::Free => true,
        Start::Zero => false,
        Start::One => false,
    }
}

/// Adds a mark for each latch: whether its value in cycle 0 is free.
fn push_latches(marks: &mut Vec<bool>, latches: &[Latch]) -> Result<(), AllocError>
    ensures { OnOk result (marks.new.items ≡ marks.old.items ++ map (λ l. starts_free l.start) latches.now) }
{
    for latch in latches {
        marks.push(starts_free(latch.start))?;
    }
    Ok(())
}

/// Adds so many marks of nodes that are no registers.
fn push_tables(marks: &mut Vec<bool>, count: usize) -> Result<(), AllocError>
    ensures { OnOk result (marks.new.items ≡ marks.old.items ++ replicate count false) }
{
    for _ in 0..count {
        marks.push(false)?;
    }
    Ok(())
}

/// A mark for each node: true at the latches whose value in cycle 0 is free.
pub fn marks_of(alloc: Global, a: &Aig) -> Result<Vec<bool>, OutOfMemory>
    ensures { IfOk result (λ marks. marks.items ≡ aig_marks (plain_aig a.now)) }
{
    let mut marks = Vec::new(alloc);
    marks.push(false)?;
    push_latches(&mut marks, &a.latches)?;
    push_tables(&mut marks, a.gates.as_slice().len())?;
    push_tables(&mut marks, a.latches.as_slice().len())?;
    push_tables(&mut marks, a.outputs.as_slice().len())?;
    Ok(marks)
}
