//! The main model with the flat elements.
ghost use Rattle.std.specs.Prelude.{◌≡◌, ◌<◌, map, flat_map, length, IfOk, IfErr, OnOk, None};
ghost use Rattle.std.specs.Str.{bytes_eq};
ghost use Rattle.indexmap.specs.IndexMap.{get};
ghost use Rattle.blif_text.specs.Views.{plain_model, plain_element};
ghost use Rattle.library_faults.specs.Flat.{flat_model, flat_elements, named};
ghost use Rattle.hierarchy.specs.Clash.{main_net, nets_of, name_clash};
ghost use Rattle.hierarchy.specs.Private.Naming.{IsClash, AreNamed, IsNamingFault};
ghost use Rattle.hierarchy.specs.Private.Walk.{library_of, IsReady};

use crate::walking::bindings::Ready;
use crate::walking::named_element::name_elements;
use crate::walking::naming::{NamingFault, name_nets};
use crate::walking::walk::{Place, begin_walk};
use blif_text::{BlifModel, Element};
use indexmap::IndexMap;
use std::alloc::Global;
use tmr_base::Name;

/// Names ports of the main model, which keep their names.
#[tactic(auto, using(crate::proofs::WholeModel::port_laws))]
fn name_ports(
    alloc: Global,
    texts: &mut IndexMap<Name, usize>,
    ready: &Ready<'_>,
    names: &[Name],
) -> Result<Vec<Name>, NamingFault>
    requires ready { IsReady ready.now }
    requires some { 0 < length ready.now.models.now }
    ensures text { IfOk result (λ found. found.items ≡ names.now) }
    ensures named { OnOk result (AreNamed (get bytes_eq texts.old) (get bytes_eq texts.new) (map main_net names.now)) }
    ensures fault { IfErr result (λ fault. IsNamingFault (get bytes_eq texts.old) (map main_net names.now) fault) }
{
    let walk = begin_walk(alloc)?;
    let place = Place {
        ready: *ready,
        walk: &walk,
    };
    name_nets(alloc, texts, &place, names)
}

/// Names all flat elements.
fn name_flat(
    alloc: Global,
    texts: &mut IndexMap<Name, usize>,
    ready: &Ready<'_>,
) -> Result<Vec<Element>, NamingFault>
    requires ready { IsReady ready.now }
    requires some { 0 < length ready.now.models.now }
    ensures elements { IfOk result (λ found. map plain_element found.items ≡ map named (flat_elements (library_of ready.now))) }
    ensures named { OnOk result (AreNamed (get bytes_eq texts.old) (get bytes_eq texts.new) (flat_map nets_of (flat_elements (library_of ready.now)))) }
    ensures fault { IfErr result (λ fault. IsNamingFault (get bytes_eq texts.old) (flat_map nets_of (flat_elements (library_of ready.now))) fault) }
{
    let mut walk = begin_walk(alloc)?;
    name_elements(alloc, texts, ready, &mut walk)
}

/// The main model with the flat elements, whose nets have their texts as names, unless two nets share a
/// text.
pub(crate) fn named_model(alloc: Global, ready: &Ready<'_>) -> Result<BlifModel, NamingFault>
    requires ready { IsReady ready.now }
    requires some { 0 < length ready.now.models.now }
    ensures model { IfOk result (λ flat. plain_model flat ≡ flat_model (library_of ready.now)) }
    ensures clear { OnOk result (name_clash (library_of ready.now) ≡ None) }
    ensures fault { IfErr result (λ fault. IsClash (library_of ready.now) fault) }
{
    let main = &ready.models[0];
    let name = main.name.copy(alloc)?;
    let mut texts = IndexMap::new(alloc);
    let inputs = name_ports(alloc, &mut texts, ready, &main.inputs)?;
    let elements = name_flat(alloc, &mut texts, ready)?;
    let outputs = name_ports(alloc, &mut texts, ready, &main.outputs)?;
    Ok(BlifModel {
        name,
        inputs,
        outputs,
        elements,
    })
}
