//! The names of a draft's nets, each driven once.
ghost use Rattle.std.specs.Prelude.{◌≡◌, ◌≢◌, ◌++◌, [], ◌∷◌, true, false, map, OnOk, IfOk, IfErr};
ghost use Rattle.flat_net.specs.Draft.{AreDistinct, Element, out_of};
ghost use Rattle.flat_net.specs.DraftView.{plain_element};
ghost use Rattle.flat_net.specs.First.{HasNone, IsFirst};
ghost use Rattle.flat_net.specs.Faults.{is_among, is_driven_before, IsDrivenOnce, IsFaultOf};

use crate::draft::{Draft, DraftElement};
use crate::fault::NetFault;
use indexmap::IndexSet;
use std::alloc::Global;
use tmr_base::{Name, OutOfMemory};

/// The output of an element.
pub fn out_name(element: &DraftElement) -> &Name
    ensures { result.now ≡ out_of (plain_element element.now) }
{
    match element {
        DraftElement::TableElement { out, .. } => out,
        DraftElement::LatchElement { out, .. } => out,
    }
}

/// The names of the inputs, with room for so many names.
fn input_names(alloc: Global, inputs: &[Name], room: usize) -> Result<IndexSet<Name>, OutOfMemory>
    requires { AreDistinct inputs.now }
    ensures { IfOk result (λ names. names.keys ≡ inputs.now) }
{
    let mut names = IndexSet::with_capacity(alloc, room)?;
    for input in inputs {
        names.insert(input.copy(alloc)?)?;
    }
    Ok(names)
}

/// Adds the output of an element, which no net has yet.
fn push_out(alloc: Global, names: &mut IndexSet<Name>, out: &Name) -> Result<(), NetFault>
    ensures ok { OnOk result (names.new.keys ≡ names.old.keys ++ out.now ∷ []) }
    ensures new { OnOk result (is_among names.old.keys out.now ≡ false) }
    ensures fault { IfErr result (λ fault. fault ≢ NetFault.Memory → (fault ≡ NetFault.DoubleDriven out.now) × (is_among names.old.keys out.now ≡ true)) }
{
    match names.insert(out.copy(alloc)?) {
        Ok(true) => Ok(()),
        Ok(false) => Err(NetFault::DoubleDriven(out.copy(alloc)?)),
        Err(_) => Err(NetFault::Memory),
    }
}

/// Adds the outputs of all elements.
fn push_outs(
    alloc: Global,
    names: &mut IndexSet<Name>,
    elements: &[DraftElement],
) -> Result<(), NetFault>
    ensures names { OnOk result (names.new.keys ≡ names.old.keys ++ map out_of (map plain_element elements.now)) }
    ensures once { OnOk result (HasNone (is_driven_before names.old.keys) (map plain_element elements.now)) }
    ensures fault { IfErr result (λ fault. fault ≢ NetFault.Memory → (element : Element) × IsFirst (is_driven_before names.old.keys) (map plain_element elements.now) element × (fault ≡ NetFault.DoubleDriven (out_of element))) }
{
    for element in elements {
        push_out(alloc, names, out_name(element))?;
    }
    Ok(())
}

/// The names of all inputs, and then of all elements' outputs. `DoubleDriven` comes exactly where one of
/// these outputs is a main input or the output of an earlier element.
pub fn driven_names(alloc: Global, draft: &Draft) -> Result<IndexSet<Name>, NetFault>
    requires { AreDistinct draft.now.inputs }
    ensures names { IfOk result (λ names. names.keys ≡ draft.now.inputs ++ map out_of draft.now.elements) }
    ensures once { OnOk result (IsDrivenOnce draft.now) }
    ensures fault { IfErr result (λ fault. IsFaultOf draft.now fault) }
{
    // A table that grows is made anew each time. No draft names more nets than these.
    let room = draft.inputs.len().saturating_add(draft.elements.len());
    let mut names = input_names(alloc, &draft.inputs, room)?;
    push_outs(alloc, &mut names, &draft.elements)?;
    Ok(names)
}
