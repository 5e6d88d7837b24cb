//! Where a cycle of a design departs from that of another one.
ghost use Rattle.std.specs.Prelude.{◌≡◌, ◌<◌, ℕ, All, IfOk, IsTrue, List, None, false, true, length, map, slice_index, slice_set};
ghost use Rattle.flat_net.specs.Net.{Net};
ghost use Rattle.flat_net.specs.Nodes.{number_of};
ghost use Rattle.graph.specs.Rows.{row, Stands};
ghost use Rattle.net_meaning.specs.Meaning.{bit};
ghost use Rattle.net_simulator.specs.Beside.{AreReadersOf, IsBeside, IsRoom};
ghost use Rattle.net_simulator.specs.Cycle.{forced_in};
ghost use Rattle.net_simulator.specs.declared.marks.Marks.{Marks as TheMarks};

use crate::twins::{Twins, origin_at};
use std::alloc::Global;
use tmr_base::{NetId, OutOfMemory};

/// What a cycle has found so far.
#[derive(Drop)]
pub struct Changes {
    /// For each net whether it is to be evaluated, if it is a table. The other tables have the words of the nets that they
    /// stand for.
    pub due: Vec<bool>,
    /// For each net of the other design whether some net that stands for it may have another word.
    pub differing: Vec<bool>,
}

/// Room for so many nets, beside so many of another design.
pub fn no_changes(alloc: Global, nets: usize, others: usize) -> Result<Changes, OutOfMemory>
    ensures due { IfOk result (λ c. length c.due.items ≡ nets) }
    ensures differing { IfOk result (λ c. length c.differing.items ≡ others) }
{
    let due = Vec::from_elem(alloc, false, nets)?;
    let differing = Vec::from_elem(alloc, false, others)?;
    Ok(Changes { due, differing })
}

/// These are to be evaluated.
fn make_due(readers: &[u32], due: &mut [bool])
    ensures due { (y : ℕ) → y < length due.new → Stands readers.now y → bit due.new y ≡ true }
    ensures kept { (y : ℕ) → bit due.new y ≡ false → bit due.old y ≡ false }
    ensures long { length due.new ≡ length due.old }
{
    for i in 0..readers.len() {
        let y = readers[i] as usize;
        if y < due.len() {
            due[y] = true;
        }
    }
}

/// If the word of net x has become another one, its readers are to be evaluated.
fn note_change(twins: &Twins, x: NetId, is_changed: bool, changes: &mut Changes)
    requires room { IsRoom (length changes.old.due.items) twins.now changes.old }
    requires x { x.0 < length changes.old.due.items }
    ensures room { IsRoom (length changes.old.due.items) twins.now changes.new }
    ensures sized { length changes.new.differing.items ≡ length changes.old.differing.items }
    ensures differing { IsTrue is_changed → bit changes.new.differing.items (slice_index (map number_of twins.now.origins.items) x.0) ≡ true }
    ensures due { IsTrue is_changed → (y : ℕ) → y < length changes.old.due.items → Stands (row twins.now.readers x.0) y → bit changes.new.due.items y ≡ true }
    ensures kept_due { (y : ℕ) → bit changes.new.due.items y ≡ false → bit changes.old.due.items y ≡ false }
    ensures kept_differing { (y : ℕ) → bit changes.new.differing.items y ≡ false → bit changes.old.differing.items y ≡ false }
{
    if is_changed {
        let origin = origin_at(&twins.origins, x.0 as usize);
        changes.differing[origin.0 as usize] = true;
        make_due(twins.readers.row(x.0), &mut changes.due);
    }
}

/// Gives net x its word.
pub fn put(twins: &Twins, x: NetId, word: u64, changes: &mut Changes, now: &mut [u64])
    requires room { IsRoom (length now.old) twins.now changes.old }
    requires x { x.0 < length now.old }
    ensures room { IsRoom (length now.new) twins.now changes.new }
    ensures sized { length changes.new.differing.items ≡ length changes.old.differing.items }
    ensures now { now.new ≡ slice_set now.old x.0 word }
    ensures beside { (h : Net) (m : TheMarks) (own : List ℕ) → AreReadersOf h twins.now.readers →
        IsBeside h twins.now m own now.old changes.old → IsBeside h twins.now m own now.new changes.new }
{
    let old = now[x.0 as usize];
    now[x.0 as usize] = word;
    note_change(twins, x, old != word, changes);
}

/// The nets of these triples are to be evaluated.
fn make_forced_due(triples: &[(NetId, u64, u64)], due: &mut [bool])
    requires { All (λ f. f.0.0 < length due.old) triples.now }
    ensures free { (j y : ℕ) → bit due.new y ≡ false → forced_in j triples.now y ≡ None }
    ensures kept { (y : ℕ) → bit due.new y ≡ false → bit due.old y ≡ false }
    ensures long { length due.new ≡ length due.old }
{
    for i in 0..triples.len() {
        let (x, _, _) = triples[i];
        due[x.0 as usize] = true;
    }
}

/// These nets are to be evaluated, and those of these triples.
fn begin_due(unlike: &[bool], triples: &[(NetId, u64, u64)], due: &mut [bool])
    requires unlike { length unlike.now ≡ length due.old }
    requires nets { All (λ f. f.0.0 < length due.old) triples.now }
    ensures unlike { (y : ℕ) → bit due.new y ≡ false → bit unlike.now y ≡ false }
    ensures free { (j y : ℕ) → bit due.new y ≡ false → forced_in j triples.now y ≡ None }
    ensures long { length due.new ≡ length due.old }
{
    due.copy_from_slice(unlike);
    make_forced_due(triples, due);
}

/// Begins a cycle in which all nets have the words of those that they stand for, and these triples are forced.
pub fn begin(twins: &Twins, triples: &[(NetId, u64, u64)], changes: &mut Changes)
    requires room { IsRoom (length changes.old.due.items) twins.now changes.old }
    requires unlike { length twins.now.unlike.items ≡ length changes.old.due.items }
    requires forced { All (λ f. f.0.0 < length changes.old.due.items) triples.now }
    ensures room { IsRoom (length changes.old.due.items) twins.now changes.new }
    ensures sized { length changes.new.differing.items ≡ length changes.old.differing.items }
    ensures unlike { (y : ℕ) → bit changes.new.due.items y ≡ false → bit twins.now.unlike.items y ≡ false }
    ensures free { (j y : ℕ) → bit changes.new.due.items y ≡ false → forced_in j triples.now y ≡ None }
{
    begin_due(&twins.unlike, triples, &mut changes.due);
    changes.differing.fill(false);
}
