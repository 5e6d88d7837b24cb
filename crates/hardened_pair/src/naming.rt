//! The names of the hardened design's inputs and clock, and how names come into the set.
ghost use Rattle.std.specs.Prelude.{◌≡◌, ◌+◌, ◌*◌, ◌<◌, ◌≤◌, ◌++◌, [], length, take, IfOk, OnOk};
ghost use Rattle.tmr_base.specs.Copies.{copy_number};
ghost use Rattle.flat_net.specs.Draft.{AreDistinct};
ghost use Rattle.triplicate.specs.Blocks.{hardened_inputs, hardened_clock};

use flat_net::{FlatNet, nodes_of};
use indexmap::IndexSet;
use std::alloc::Global;
use std::mem::replace;
use tmr_base::{CopyNo, Edge, Name, NetId, OutOfMemory, clock_name, copy_name};

/// Adds the name of copy c of input i.
fn push_input_name(
    alloc: Global,
    n: &FlatNet,
    i: u32,
    c: CopyNo,
    names: &mut IndexSet<Name>,
) -> Result<(), OutOfMemory>
    requires input { i < length n.now.net.inputs }
    requires distinct { AreDistinct (hardened_inputs n.now.net) }
    requires names { names.old.keys ≡ take (3 * i + copy_number c) (hardened_inputs n.now.net) }
    ensures { OnOk result (names.new.keys ≡ take (3 * i + copy_number c + 1) (hardened_inputs n.now.net)) }
{
    let _nodes = nodes_of(n);
    let name = copy_name(alloc, n.name(NetId(i)), c)?;
    names.insert(name)?;
    Ok(())
}

/// The names of the copies of all inputs, with room for so many names.
pub fn input_names(alloc: Global, n: &FlatNet, room: usize) -> Result<IndexSet<Name>, OutOfMemory>
    requires { AreDistinct (hardened_inputs n.now.net) }
    ensures { IfOk result (λ names. names.keys ≡ hardened_inputs n.now.net) }
{
    let mut names = IndexSet::with_capacity(alloc, room)?;
    let count = n.input_count();
    for i in 0..count {
        push_input_name(alloc, n, i, CopyNo::First, &mut names)?;
        push_input_name(alloc, n, i, CopyNo::Second, &mut names)?;
        push_input_name(alloc, n, i, CopyNo::Third, &mut names)?;
    }
    Ok(names)
}

/// How many of every third of these names the set has.
///
/// The names of three copies stand side by side in the table, and so do those of three voters. One of each three is looked
/// up, with nothing else between, so that many places of the table are fetched from memory at once. Fetched one behind the other
/// they would take a quarter of the time of hardening.
fn known_among(names: &IndexSet<Name>, waiting: &[Name]) -> usize
    ensures { result ≤ length waiting.now }
{
    let mut known: usize = 0;
    for k in 0..waiting.len() / 3 {
        if names.contains(&waiting[3 * k]) {
            known += 1;
        }
    }
    known
}

/// Puts these names into the set.
fn insert_all(names: &mut IndexSet<Name>, waiting: Vec<Name>) -> Result<(), OutOfMemory>
    requires { AreDistinct (names.old.keys ++ waiting.items) }
    ensures { OnOk result (names.new.keys ≡ names.old.keys ++ waiting.items) }
{
    for name in waiting {
        names.insert(name)?;
    }
    Ok(())
}

/// Puts the names that wait into the set, behind those that are there: those that the set has not are counted first, and room is
/// made for so many.
pub fn put_names(
    alloc: Global,
    names: &mut IndexSet<Name>,
    waiting: &mut Vec<Name>,
) -> Result<(), OutOfMemory>
    requires { AreDistinct (names.old.keys ++ waiting.old.items) }
    ensures names { OnOk result (names.new.keys ≡ names.old.keys ++ waiting.old.items) }
    ensures waiting { OnOk result (waiting.new.items ≡ []) }
{
    let known = known_among(names, waiting.as_slice());
    names.reserve(waiting.len() - known)?;
    let room = Vec::with_capacity(alloc, waiting.len())?;
    let full = replace(waiting, room);
    insert_all(names, full)?;
    Ok(())
}

/// The hardened clock.
pub fn hardened_clock(alloc: Global, n: &FlatNet) -> Result<Option<(Edge, Name)>, OutOfMemory>
    ensures { IfOk result (λ clock. clock ≡ hardened_clock n.now.net.clock) }
{
    match n.clock() {
        None => Ok(None),
        Some((edge, name)) => {
            let hardened = clock_name(alloc, name)?;
            Ok(Some((edge, hardened)))
        }
    }
}
