//! A certificate found from two designs.
ghost use Rattle.std.specs.Prelude.{◌≡◌, ◌⊎◌, ◌↔◌, ◌*◌, length, IfOk, IfErr, IsTrue};
ghost use Rattle.flat_net.specs.Net.{Net};
ghost use Rattle.role_search.specs.Misfits.{IsThere};
ghost use Rattle.validator.specs.Masking.{FreeMasks};
ghost use Rattle.certifying.specs.Causes.{IsPlaced};
ghost use Rattle.certifying.specs.Certified.{IsAccepted};
ghost use Rattle.certifying.specs.Finest.{IsFinest};
ghost use Rattle.certifying.specs.Least.{AreLeastLabels};
ghost use Rattle.certifying.specs.Private.Bare.{IsBare};
ghost use Rattle.certifying.specs.Private.Refined.{IsProposed};

use crate::NoCertificate;
use crate::bare::bare;
use crate::draft::refined;
use certificate::Certificate;
use flat_net::{FlatNet, FreeNet};
use role_search::{Designs, FoundRoles, Misfit, first_bad_output, first_misfit, search_roles};
use std::alloc::Global;
use validator::check_free;
use validator::clocks::same_edge;

/// The cause that a misfit is.
fn cause_of(misfit: Misfit) -> NoCertificate
    ensures { (n h : Net) → IsThere h misfit → IsPlaced n h result }
{
    match misfit {
        Misfit::Pin { node, pin } => NoCertificate::Pin { node, pin },
        Misfit::TwoRoles(node) => NoCertificate::TwoRoles(node),
    }
}

/// The roles that were found, or the first place that fits nothing.
fn judged(
    alloc: Global,
    version: u8,
    designs: &Designs,
    found: &FoundRoles,
) -> Result<Certificate, NoCertificate>
    requires { (version ≡ 1) ⊎ (version ≡ 2) }
    ensures bare { IfOk result (IsBare designs.now.original.now.net designs.now.hardened.now.net version) }
    ensures place { IfErr result (IsPlaced designs.now.original.now.net designs.now.hardened.now.net) }
{
    if let Some(k) = first_bad_output(designs, found) {
        return Err(NoCertificate::Output(k));
    }
    if let Some(misfit) = first_misfit(designs, found) {
        return Err(cause_of(misfit));
    }
    bare(alloc, version, designs.original, designs.hardened, found)
}

/// The roles that the search finds.
fn searched(
    alloc: Global,
    version: u8,
    n: &FreeNet,
    h: &FreeNet,
) -> Result<Certificate, NoCertificate>
    requires { (version ≡ 1) ⊎ (version ≡ 2) }
    ensures bare { IfOk result (IsBare n.now.design.net h.now.design.net version) }
    ensures place { IfErr result (IsPlaced n.now.design.net h.now.design.net) }
{
    let designs = Designs::of(alloc, n, h, version)?;
    let found = search_roles(alloc, &designs)?;
    judged(alloc, version, &designs, &found)
}

/// The hardened design has three inputs for each original one.
fn has_three_inputs(n: &FlatNet, h: &FlatNet) -> bool
    ensures { IsTrue result ↔ (length h.now.net.inputs ≡ 3 * length n.now.net.inputs) }
{
    u64::from(h.input_count()) == 3 * u64::from(n.input_count())
}

/// The certificate that is found, before the rules are tried.
fn proposed(
    alloc: Global,
    version: u8,
    n: &FreeNet,
    h: &FreeNet,
) -> Result<Certificate, NoCertificate>
    requires { (version ≡ 1) ⊎ (version ≡ 2) }
    ensures proposed { IfOk result (IsProposed n.now.design.net h.now.design.net version) }
    ensures place { IfErr result (IsPlaced n.now.design.net h.now.design.net) }
{
    if !has_three_inputs(n.net(), h.net()) {
        return Err(NoCertificate::Inputs);
    }
    if !same_edge(n.net(), h.net()) {
        return Err(NoCertificate::Clock);
    }
    let bare = searched(alloc, version, n, h)?;
    match refined(alloc, version, n.net(), h.net(), &bare) {
        Ok(found) => Ok(found),
        Err(why) => Err(why),
    }
}

/// A certificate of version 1 or 2 for the original n and the hardened design h, found without a look at the names of h
/// (but for nodes that no output depends on and that are told by nothing else).
///
/// What is found is accepted by the eight rules: `certify` ends with them. Its partitions are the finest, and its labels
/// and depths the least, of all certificates of this version that are accepted and give the same roles. The causes come
/// in the order of `NoCertificate`, and of each the least place is told. That one is found wherever one exists is not
/// promised. Time and memory are linear in pins and rows.
pub fn certify(
    alloc: Global,
    n: &FreeNet,
    h: &FreeNet,
    version: u8,
) -> Result<Certificate, NoCertificate>
    requires { (version ≡ 1) ⊎ (version ≡ 2) }
    ensures accepted { IfOk result (IsAccepted n.now.design.net n.now.free h.now.design.net h.now.free version) }
    ensures finest { IfOk result (IsFinest n.now.design.net n.now.free h.now.design.net h.now.free) }
    ensures least { IfOk result (AreLeastLabels h.now.design.net) }
    ensures masks { IfOk result (FreeMasks n.now.design.net n.now.free h.now.design.net h.now.free) }
    ensures place { IfErr result (IsPlaced n.now.design.net h.now.design.net) }
{
    // What the two designs keep.
    let _ = (n.net().input_count(), h.net().input_count());
    let found = proposed(alloc, version, n, h)?;
    match check_free(n, h, &found) {
        Ok(()) => Ok(found),
        Err(refusal) => Err(NoCertificate::Rule(refusal)),
    }
}
