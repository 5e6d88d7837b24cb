//! The names of a design.
ghost use Rattle.std.specs.Prelude.{◌≡◌, ◌≤◌, ◌++◌, map, IfOk, OnOk, true};
ghost use Rattle.std.specs.List.{range_with_len};
ghost use Rattle.std.specs.Fmt.{decimal};
ghost use Rattle.std.specs.Str.{bytes_eq};
ghost use Rattle.indexmap.specs.IndexSet.{insert_key};
ghost use Rattle.tmr_base.specs.Names.{is_name};
ghost use Rattle.tmr_trial.specs.Designs.{input_text, node_text};

use indexmap::IndexSet;
use std::alloc::Global;
use tmr_base::{Name, NameFault, OutOfMemory};

/// The name with these bytes.
pub fn named(alloc: Global, bytes: &[u8]) -> Result<Name, OutOfMemory>
    requires { is_name bytes.now ≡ true }
    ensures { IfOk result (λ name. name ≡ bytes.now) }
{
    match Name::read(alloc, bytes) {
        Ok(name) => Ok(name),
        Err(NameFault::Bad) => unreachable!(),
        Err(NameFault::Memory) => Err(OutOfMemory),
    }
}

/// A letter and a number.
fn numbered(alloc: Global, letter: &[u8], i: u32) -> Result<Vec<u8>, OutOfMemory>
    ensures { IfOk result (λ bytes. bytes.items ≡ letter.now ++ decimal i) }
{
    let mut bytes = Vec::new(alloc);
    bytes.extend_from_slice(letter)?;
    let number = i.to_string(alloc)?;
    bytes.extend_from_slice(number.as_bytes())?;
    Ok(bytes)
}

/// Adds the name of a letter and a number.
fn push_name(
    alloc: Global,
    letter: &[u8],
    i: u32,
    names: &mut IndexSet<Name>,
) -> Result<(), OutOfMemory>
    requires { is_name (letter.now ++ decimal i) ≡ true }
    ensures { OnOk result (names.new.keys ≡ insert_key bytes_eq names.old.keys (letter.now ++ decimal i)) }
{
    let text = numbered(alloc, letter, i)?;
    let name = named(alloc, &text)?;
    names.insert(name)?;
    Ok(())
}

/// The names of the inputs, and behind them those of so many nodes.
pub fn trial_names(alloc: Global, count: u32) -> Result<IndexSet<Name>, OutOfMemory>
    requires { count ≤ 100000 }
    ensures { IfOk result (λ names. names.keys ≡ map input_text (range_with_len 0 8) ++ map node_text (range_with_len 0 count)) }
{
    let mut names = IndexSet::new(alloc);
    for x in 0..8 {
        push_name(alloc, b"i", x, &mut names)?;
    }
    for i in 0..count {
        push_name(alloc, b"n", i, &mut names)?;
    }
    Ok(names)
}
