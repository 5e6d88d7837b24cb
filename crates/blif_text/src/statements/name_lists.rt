//! Names and lists of names.
ghost use Rattle.tmr_base.specs.Names.{is_name};
ghost use Rattle.std.specs.Prelude.{not, if◌then◌else◌, ◌≡◌, ◌++◌, ◌∷◌, []};
ghost use Rattle.blif_text.specs.Models.{appearing};
ghost use Rattle.blif_text.specs.Private.Answers.{Answers, plain};
ghost use Rattle.blif_text.specs.Kind.{when, name_kind, names_kind, port_kind, ports_kind, is_among};

use crate::fault::{Refusal, TextKind};
use indexmap::IndexSet;
use std::alloc::Global;
use tmr_base::{Name, NameFault};

/// The name that the bytes are. Where they are none, they are refused with this kind.
pub(crate) fn read_name_or(alloc: Global, bytes: &[u8], kind: TextKind) -> Result<Name, Refusal>
    ensures { Answers result (when (not (is_name bytes.now)) kind) (λ name. name ≡ bytes.now) }
{
    match Name::read(alloc, bytes) {
        Ok(name) => Ok(name),
        Err(NameFault::Bad) => Err(Refusal::Bad(kind)),
        Err(NameFault::Memory) => Err(Refusal::Memory),
    }
}

#[tactic(auto, unfolding(crate::specs::Kind::name_kind))]
pub(crate) fn read_name(alloc: Global, token: &[u8]) -> Result<Name, Refusal>
    ensures { Answers result (name_kind token.now) (λ name. name ≡ token.now) }
{
    read_name_or(alloc, token, TextKind::BadName)
}

#[tactic(auto, unfolding(crate::specs::Kind::names_kind))]
pub(crate) fn read_names(alloc: Global, tokens: &[&[u8]]) -> Result<Vec<Name>, Refusal>
    ensures { Answers result (names_kind (plain tokens.now)) (λ names. names.items ≡ plain tokens.now) }
{
    let mut names = Vec::with_capacity(alloc, tokens.len())?;
    for token in tokens {
        let name = read_name(alloc, token)?;
        names.push(name)?;
    }
    Ok(names)
}

/// Adds a name to those that a list has, unless it is there.
#[tactic(auto, unfolding(crate::specs::Kind::port_kind))]
fn list_name(alloc: Global, listed: &mut IndexSet<Name>, token: &[u8]) -> Result<(), Refusal>
    ensures { Answers result (port_kind listed.old.keys token.now)
        (λ _. listed.new.keys ≡ listed.old.keys ++ token.now ∷ []) }
{
    let name = read_name(alloc, token)?;
    if listed.insert(name)? {
        Ok(())
    } else {
        Err(Refusal::Bad(TextKind::DuplicatePort))
    }
}

/// Adds the names of `.outputs`.
#[tactic(auto, unfolding(crate::specs::Kind::ports_kind))]
pub(crate) fn list_names(
    alloc: Global,
    listed: &mut IndexSet<Name>,
    tokens: &[&[u8]],
) -> Result<(), Refusal>
    ensures { Answers result (ports_kind listed.old.keys (plain tokens.now)) (λ _. listed.new.keys ≡ listed.old.keys ++ plain tokens.now) }
{
    for token in tokens {
        list_name(alloc, listed, token)?;
    }
    Ok(())
}

/// Adds the names of `.inputs` or `.clock`, and to `ports` those that it does not have.
#[tactic(auto, unfolding(crate::specs::Kind::ports_kind, crate::specs::Models::appearing))]
pub(crate) fn list_inputs(
    alloc: Global,
    listed: &mut IndexSet<Name>,
    ports: &mut IndexSet<Name>,
    tokens: &[&[u8]],
) -> Result<(), Refusal>
    ensures { Answers result (ports_kind listed.old.keys (plain tokens.now))
        (λ _. (listed.new.keys ≡ listed.old.keys ++ plain tokens.now) × (ports.new.keys ≡ appearing ports.old.keys (plain tokens.now))) }
{
    for token in tokens {
        list_input(alloc, listed, ports, token)?;
    }
    Ok(())
}

#[tactic(auto, unfolding(crate::specs::Kind::port_kind))]
fn list_input(
    alloc: Global,
    listed: &mut IndexSet<Name>,
    ports: &mut IndexSet<Name>,
    token: &[u8],
) -> Result<(), Refusal>
    ensures { Answers result (port_kind listed.old.keys token.now)
        (λ _. (listed.new.keys ≡ listed.old.keys ++ token.now ∷ [])
        × (ports.new.keys ≡ (if is_among ports.old.keys token.now then ports.old.keys else ports.old.keys ++ token.now ∷ []))) }
{
    let name = read_name(alloc, token)?;
    let port = name.copy(alloc)?;
    if !listed.insert(name)? {
        return Err(Refusal::Bad(TextKind::DuplicatePort));
    }
    ports.insert(port)?;
    Ok(())
}
