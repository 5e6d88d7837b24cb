//! Names of flat nets, and texts that two nets share.
ghost use Rattle.std.specs.Prelude.{◌≡◌, ◌≤◌, ◌++◌, ◌∷◌, [], List, false, length, map, take, IfOk, OnOk, IfErr};
ghost use Rattle.std.specs.Str.{bytes_eq};
ghost use Rattle.indexmap.specs.IndexMap.{get};
ghost use Rattle.library_faults.specs.Flat.{PlacedNet, step, path_text, net_text, named_control, resolved_control};
ghost use Rattle.hierarchy.specs.Clash.{control_nets, is_taken};
ghost use Rattle.hierarchy.specs.Private.Naming.{AreSmall, IsNamed, AreNamed, IsNamingFault};
ghost use Rattle.hierarchy.specs.Private.Walk.{IsPlace, levels_at, net_at};
ghost use Rattle.hierarchy.specs.declared.walking.naming.NamingFault.TheVariants.{Memory};

use crate::walking::resolve::resolve;
use crate::walking::walk::Place;
use indexmap::IndexMap;
use itoa::Buffer;
use std::alloc::{AllocError, AllocFailed, Global};
use tmr_base::{Edge, Name, NameFault, OutOfMemory};

/// Why nets are not named.
#[derive(Drop)]
pub enum NamingFault {
    /// An earlier different net has this text.
    Clash(Name),
    /// There was no memory.
    Memory,
}

impl From<OutOfMemory> for NamingFault {
    ghost from_gives = { λ _ fault. fault ≡ Memory };

    fn from(_error: OutOfMemory) -> NamingFault {
        NamingFault::Memory
    }
}

impl From<AllocError> for NamingFault {
    ghost from_gives = { λ _ fault. fault ≡ Memory };

    fn from(_error: AllocError) -> NamingFault {
        NamingFault::Memory
    }
}

impl<T: Drop> From<AllocFailed<T>> for NamingFault {
    ghost from_gives = { λ _ fault. fault ≡ Memory };

    fn from(_error: AllocFailed<T>) -> NamingFault {
        NamingFault::Memory
    }
}

/// Puts the text of a number on a path.
#[tactic(auto, unfolding(library_faults::specs::Flat::step))]
fn put_step(out: &mut Vec<u8>, number: usize) -> Result<(), AllocError>
    ensures { OnOk result (out.new.items ≡ out.old.items ++ step number) }
{
    let mut digits = Buffer::new();
    out.push(b'u')?;
    out.extend_from_slice(digits.format(number).as_bytes())?;
    out.push(b'/')?;
    Ok(())
}

/// Puts the text of a path.
fn put_path(out: &mut Vec<u8>, path: &[usize]) -> Result<(), AllocError>
    ensures { OnOk result (out.new.items ≡ out.old.items ++ path_text path.now) }
{
    for number in path {
        put_step(out, *number)?;
    }
    Ok(())
}

/// The text of a net whose path ends there.
#[tactic(auto, using(crate::proofs::PathTexts::text_laws))]
fn net_name(alloc: Global, path: &[usize], end: usize, name: &Name) -> Result<Name, OutOfMemory>
    requires end { end ≤ length path.now }
    requires small { AreSmall path.now }
    ensures { IfOk result (λ text. text ≡ path_text (take end path.now) ++ name.now) }
{
    let bytes = name.bytes();
    let mut text = Vec::new(alloc);
    put_path(&mut text, &path[..end])?;
    text.extend_from_slice(bytes)?;
    match Name::read(alloc, &text) {
        Ok(name) => Ok(name),
        Err(NameFault::Memory) => Err(OutOfMemory),
        Err(NameFault::Bad) => unreachable!(),
    }
}

/// Names a net, and tells whether another net has its text.
fn add_net(
    alloc: Global,
    texts: &mut IndexMap<Name, usize>,
    path: &[usize],
    end: usize,
    name: &Name,
) -> Result<(Name, bool), OutOfMemory>
    requires end { end ≤ length path.now }
    requires small { AreSmall path.now }
    ensures text { IfOk result (λ found. found.0 ≡ path_text (take end path.now) ++ name.now) }
    ensures taken { IfOk result (λ found. (seen : List PlacedNet) → IsNamed (get bytes_eq texts.old) seen → found.1 ≡ is_taken seen (record { path = take end path.now; name = name.now })) }
    ensures named { IfOk result (λ found. (seen : List PlacedNet) → IsNamed (get bytes_eq texts.old) seen → found.1 ≡ false → IsNamed (get bytes_eq texts.new) (seen ++ record { path = take end path.now; name = name.now } ∷ [])) }
{
    let text = net_name(alloc, path, end, name)?;
    let before = texts.get(&text).copied();
    match before {
        Some(before) => Ok((text, before != end)),
        None => {
            texts.insert(text.copy(alloc)?, end)?;
            Ok((text, false))
        }
    }
}

/// Names the net of a name in the innermost placed model of the walk.
pub(crate) fn name_net(
    alloc: Global,
    texts: &mut IndexMap<Name, usize>,
    place: &Place<'_>,
    name: &Name,
) -> Result<Name, NamingFault>
    requires { IsPlace place.now }
    ensures text { IfOk result (λ text. text ≡ net_text (net_at place.now name.now)) }
    ensures named { OnOk result (AreNamed (get bytes_eq texts.old) (get bytes_eq texts.new) (net_at place.now name.now ∷ [])) }
    ensures fault { IfErr result (λ fault. IsNamingFault (get bytes_eq texts.old) (net_at place.now name.now ∷ []) fault) }
{
    let (end, found) = resolve(place, name);
    let (text, taken) = add_net(alloc, texts, &place.walk.path, end, found)?;
    if taken {
        return Err(NamingFault::Clash(text));
    }
    Ok(text)
}

/// Names the nets of names.
pub(crate) fn name_nets(
    alloc: Global,
    texts: &mut IndexMap<Name, usize>,
    place: &Place<'_>,
    names: &[Name],
) -> Result<Vec<Name>, NamingFault>
    requires { IsPlace place.now }
    ensures text { IfOk result (λ found. found.items ≡ map net_text (map (net_at place.now) names.now)) }
    ensures named { OnOk result (AreNamed (get bytes_eq texts.old) (get bytes_eq texts.new) (map (net_at place.now) names.now)) }
    ensures fault { IfErr result (λ fault. IsNamingFault (get bytes_eq texts.old) (map (net_at place.now) names.now) fault) }
{
    let mut found = Vec::with_capacity(alloc, names.len())?;
    for name in names {
        let text = name_net(alloc, texts, place, name)?;
        found.push(text)?;
    }
    Ok(found)
}

/// Names the net of a control.
#[tactic(auto, using(crate::proofs::NetNames::named_nil))]
pub(crate) fn name_control(
    alloc: Global,
    texts: &mut IndexMap<Name, usize>,
    place: &Place<'_>,
    control: &Option<(Edge, Name)>,
) -> Result<Option<(Edge, Name)>, NamingFault>
    requires { IsPlace place.now }
    ensures text { IfOk result (λ found. found ≡ named_control (resolved_control (levels_at place.now) control.now)) }
    ensures named { OnOk result (AreNamed (get bytes_eq texts.old) (get bytes_eq texts.new) (control_nets (resolved_control (levels_at place.now) control.now))) }
    ensures fault { IfErr result (λ fault. IsNamingFault (get bytes_eq texts.old) (control_nets (resolved_control (levels_at place.now) control.now)) fault) }
{
    match control {
        Some((edge, clock)) => {
            let text = name_net(alloc, texts, place, clock)?;
            Ok(Some((*edge, text)))
        }
        None => Ok(None),
    }
}
