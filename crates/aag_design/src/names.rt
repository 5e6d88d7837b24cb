//! The names of nets, by position.
ghost use Rattle.std.specs.Prelude.{◌≡◌, ◌+◌, ◌<◌, ◌≤◌, ℕ, true, length, position, nat_eq, IfOk};
ghost use Rattle.std.specs.Option.{unwrap_or};
ghost use Rattle.tmr_base.specs.Names.{is_name, is_name_byte};
ghost use Rattle.aag_text.specs.Aig.{plain_aig};
ghost use Rattle.aag_text.specs.Variables.{defined};
ghost use Rattle.aag_design.specs.Draft.{numbered, placed_name, net_name};

use aag_reader::Graph;
use aag_text::Aig;
use indexmap::IndexSet;
use std::alloc::Global;
use tmr_base::{Name, NameFault, OutOfMemory};

/// The name with these bytes, which are one.
pub fn name_of(alloc: Global, bytes: &[u8]) -> Result<Name, OutOfMemory>
    requires { is_name bytes.now ≡ true }
    ensures { IfOk result (λ name. name ≡ bytes.now) }
{
    match Name::read(alloc, bytes) {
        Ok(name) => Ok(name),
        Err(NameFault::Bad) => unreachable!(),
        Err(NameFault::Memory) => Err(OutOfMemory),
    }
}

/// A letter and a number.
#[tactic(auto, using(crate::proofs::NameLaws::numbered_name))]
pub fn numbered(alloc: Global, letter: u8, k: u32) -> Result<Name, OutOfMemory>
    requires { is_name_byte letter ≡ true }
    ensures { IfOk result (λ name. name ≡ numbered letter k) }
{
    let digits = k.to_string(alloc)?;
    let mut bytes = Vec::new(alloc);
    bytes.push(letter)?;
    bytes.extend_from_slice(digits.as_bytes())?;
    name_of(alloc, &bytes)
}

/// Where a variable is defined, which it is.
fn place_of(variables: &IndexSet<u32>, variable: u32) -> usize
    ensures { result ≡ unwrap_or (position (nat_eq variable) variables.now.keys) 0 }
{
    match variables.get_index_of(&variable) {
        Some(place) => place,
        None => 0,
    }
}

/// The name of the net of a variable that is defined in this place.
fn placed_name(alloc: Global, a: &Aig, variable: u32, place: usize) -> Result<Name, OutOfMemory>
    requires inputs { length a.now.inputs.items < 4294967296 }
    requires latches { length a.now.latches.items < 4294967296 }
    ensures { IfOk result (λ name. name ≡ placed_name (plain_aig a.now) variable place) }
{
    let inputs = a.inputs.len();
    if place < inputs {
        return numbered(alloc, b'i', place as u32);
    }
    if place - inputs < a.latches.len() {
        return numbered(alloc, b'l', (place - inputs) as u32);
    }
    numbered(alloc, b'n', variable)
}

/// The name of the net of a variable, which is 0 or defined.
#[tactic(auto, unfolding(crate::specs::Draft::net_name))]
pub fn net_name(alloc: Global, g: &Graph, variable: u32) -> Result<Name, OutOfMemory>
    requires inputs { length g.now.aig.inputs.items < 4294967296 }
    requires latches { length g.now.aig.latches.items < 4294967296 }
    requires variables { g.now.variables.keys ≡ defined (plain_aig g.now.aig) }
    ensures { IfOk result (λ name. name ≡ net_name (plain_aig g.now.aig) variable) }
{
    if variable == 0 {
        return name_of(alloc, b"f");
    }
    let place = place_of(&g.variables, variable);
    placed_name(alloc, &g.aig, variable, place)
}
