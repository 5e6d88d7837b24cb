//! The names of the guarded design.
ghost use Rattle.std.specs.Prelude.{◌≡◌, ◌+◌, ◌*◌, ◌<◌, ◌∷◌, [], ◌++◌, true, length, take, IfOk, OnOk};
ghost use Rattle.std.specs.Option.{option_map};
ghost use Rattle.tmr_base.specs.Names.{is_name, clock_text};
ghost use Rattle.flat_net.specs.Draft.{AreDistinct};
ghost use Rattle.dwc.specs.Guard.{twin_text, guard_net};

use flat_net::FlatNet;
use indexmap::IndexSet;
use std::alloc::Global;
use tmr_base::{CopyNo, Edge, Name, NameFault, NetId, OutOfMemory, clock_name, copy_name};

/// The name with these bytes, which are one.
pub fn name_of_bytes(alloc: Global, bytes: &[u8]) -> Result<Name, OutOfMemory>
    requires { is_name bytes.now ≡ true }
    ensures { IfOk result (λ name. name ≡ bytes.now) }
{
    match Name::read(alloc, bytes) {
        Ok(name) => Ok(name),
        Err(_) => Err(OutOfMemory),
    }
}

/// A name, and then these bytes.
#[tactic(auto, using(tmr_base::proofs::NameLaws::name_append))]
pub fn suffixed(alloc: Global, x: &Name, suffix: &[u8]) -> Result<Name, OutOfMemory>
    requires { is_name suffix.now ≡ true }
    ensures { IfOk result (λ name. name ≡ x.now ++ suffix.now) }
{
    let mut bytes = Vec::new(alloc);
    bytes.extend_from_slice(x.bytes())?;
    bytes.extend_from_slice(suffix)?;
    name_of_bytes(alloc, &bytes)
}

/// The name of copy c of the net with this name.
pub fn twin_name(alloc: Global, x: &Name, c: u32) -> Result<Name, OutOfMemory>
    requires { c < 2 }
    ensures { IfOk result (λ name. name ≡ twin_text x.now c) }
{
    if c == 0 {
        return copy_name(alloc, x, CopyNo::First);
    }
    copy_name(alloc, x, CopyNo::Second)
}

/// Adds the name of copy c of input i.
fn push_input_name(
    alloc: Global,
    n: &FlatNet,
    i: u32,
    c: u32,
    names: &mut IndexSet<Name>,
) -> Result<(), OutOfMemory>
    requires input { i < length n.now.net.inputs }
    requires copy { c < 2 }
    requires distinct { AreDistinct (guard_net n.now.net).inputs }
    requires names { names.old.keys ≡ take (2 * i + c) (guard_net n.now.net).inputs }
    ensures { OnOk result (names.new.keys ≡ take (2 * i + c + 1) (guard_net n.now.net).inputs) }
{
    let _inputs = n.input_count();
    let name = twin_name(alloc, n.name(NetId(i)), c)?;
    names.insert(name)?;
    Ok(())
}

/// The names of the copies of all inputs, with room for so many names.
pub fn input_names(alloc: Global, n: &FlatNet, room: usize) -> Result<IndexSet<Name>, OutOfMemory>
    requires { AreDistinct (guard_net n.now.net).inputs }
    ensures { IfOk result (λ names. names.keys ≡ (guard_net n.now.net).inputs) }
{
    let mut names = IndexSet::with_capacity(alloc, room)?;
    let count = n.input_count();
    for i in 0..count {
        push_input_name(alloc, n, i, 0, &mut names)?;
        push_input_name(alloc, n, i, 1, &mut names)?;
    }
    Ok(names)
}

/// The clock of the guarded design.
pub fn guarded_clock(alloc: Global, n: &FlatNet) -> Result<Option<(Edge, Name)>, OutOfMemory>
    ensures { IfOk result (λ clock. clock ≡ option_map (λ c. (c.0, clock_text c.1)) n.now.net.clock) }
{
    match n.clock() {
        None => Ok(None),
        Some((edge, name)) => {
            let guarded = clock_name(alloc, name)?;
            Ok(Some((edge, guarded)))
        }
    }
}
