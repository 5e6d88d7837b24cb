//! The check of a pair of designs against a certificate.
ghost use Rattle.std.specs.Prelude.{◌≡◌, Bool, List, IfOk, IfErr, MatchResult};
ghost use Rattle.flat_net.specs.Net.{Net, IsValid};
ghost use Rattle.flat_net.specs.Free.{AreMarks};
ghost use Rattle.net_meaning.specs.Meaning.{TracesAreUnique, FreeTracesAreUnique};
ghost use Rattle.certificate.specs.Cert.{PlainCert, IsCert, Fits};
ghost use Rattle.certificate.specs.Rules.{AllHold, FailsFirst, Corresponds, FreeCorresponds, IsFirstFailure, IsFirstFreeFailure};
ghost use Rattle.certificate.specs.Starts.{counted};
ghost use Rattle.validator.specs.Masking.{Masks, FreeMasks};
ghost use Rattle.validator.specs.Place.{IsPlace};
ghost use Rattle.validator.specs.Sides.{net_in, marks_in};

use crate::Refusal;
use crate::clocks::same_edge;
use crate::node_rules::{NodeRule, first_bad_node};
use crate::outputs::first_bad_output;
use crate::side::Side;
use certificate::Certificate;
use flat_net::{FlatNet, FreeNet};
use net_meaning::{free_traces_are_unique, traces_are_unique};

/// The law: where the eight rules hold of two valid designs, the second masks.
#[tactic(auto, using(crate::proofs::Laws::masks))]
fn rules_are_enough()
    ensures { (n h : Net) (k : PlainCert) → IsValid n → IsValid h → Fits n h k → IsCert k → Corresponds n h k → Masks n h k }
{}

/// The same with marks.
#[tactic(auto, using(crate::proofs::Laws::masks_too))]
fn free_rules_are_enough()
    ensures free { (n : Net) (f : List Bool) (h : Net) (g : List Bool) (k : PlainCert) → IsValid n → IsValid h → Fits n h k → IsCert k → FreeCorresponds n f h g k → FreeMasks n f h g k }
    ensures plain { (n : Net) (f : List Bool) (h : Net) (g : List Bool) (k : PlainCert) → IsValid n → IsValid h → AreMarks n f → AreMarks h g → Fits n h k → IsCert k → FreeCorresponds n f h g k → Masks n h k }
{}

/// The first rule that fails, and the first place.
fn first_failure(n: Side<'_>, h: Side<'_>, c: &Certificate) -> Result<(), Refusal>
    requires { Fits (net_in n) (net_in h) c.now }
    ensures exact { MatchResult result (λ _. AllHold (net_in n.entry) (marks_in n.entry) (net_in h.entry) (marks_in h.entry) c.now) (λ e. FailsFirst (net_in n.entry) (marks_in n.entry) (net_in h.entry) (marks_in h.entry) c.now e.rule e.at) }
    ensures place { IfErr result (λ e. IsPlace (net_in h.entry) e.rule e.at) }
{
    if u64::from(h.net().input_count()) != 3 * u64::from(n.net().input_count()) {
        return Err(Refusal { rule: 1, at: 0 });
    }
    if !same_edge(n.net(), h.net()) {
        return Err(Refusal { rule: 2, at: 0 });
    }
    if let Some(at) = first_bad_node(NodeRule::Tables, n, h, c) {
        return Err(Refusal { rule: 3, at });
    }
    if let Some(at) = first_bad_node(NodeRule::Registers, n, h, c) {
        return Err(Refusal { rule: 4, at });
    }
    if let Some(at) = first_bad_node(NodeRule::Voters, n, h, c) {
        return Err(Refusal { rule: 5, at });
    }
    if let Some(at) = first_bad_node(NodeRule::Labels, n, h, c) {
        return Err(Refusal { rule: 6, at });
    }
    if let Some(at) = first_bad_node(NodeRule::Depths, n, h, c) {
        return Err(Refusal { rule: 7, at });
    }
    if let Some(at) = first_bad_output(n.net(), h.net(), c) {
        return Err(Refusal { rule: 8, at });
    }
    Ok(())
}

/// The same where the marks are those that the certificate counts.
fn first_free_failure(n: &FreeNet, h: &FreeNet, c: &Certificate) -> Result<(), Refusal>
    requires { Fits n.now.design.net h.now.design.net c.now }
    ensures exact { MatchResult result (λ _. FreeCorresponds n.now.design.net n.now.free h.now.design.net h.now.free c.now) (λ e. IsFirstFreeFailure n.now.design.net n.now.free h.now.design.net h.now.free c.now e.rule e.at) }
    ensures place { IfErr result (λ e. IsPlace h.now.design.net e.rule e.at) }
{
    match first_failure(Side::counted(n, c), Side::counted(h, c), c) {
        Ok(()) => Ok(()),
        Err(refusal) => Err(refusal),
    }
}

/// Whether h, by certificate c of version 1, is n with every allowed schedule of upsets masked.
///
/// `Ok` comes exactly where the eight rules hold, and then in every run at least two copies of each
/// output are right in every cycle, and all copies of a partition's nets are after its depth in cycles
/// without upset there. Otherwise the least rule that fails, and for it the least place, is answered.
/// It sees no input sequence and takes no memory.
pub fn check(n: &FlatNet, h: &FlatNet, c: &Certificate) -> Result<(), Refusal>
    requires fits { Fits n.now.net h.now.net c.now }
    requires version { c.now.version ≡ 1 }
    ensures exact { MatchResult result (λ _. Corresponds n.now.net h.now.net c.now) (λ e. IsFirstFailure n.now.net h.now.net c.now e.rule e.at) }
    ensures place { IfErr result (λ e. IsPlace h.now.net e.rule e.at) }
    ensures masks { IfOk result (λ _. Masks n.now.net h.now.net c.now) }
    ensures original_runs { TracesAreUnique n.now.net }
    ensures hardened_runs { TracesAreUnique h.now.net }
{
    // What the two designs and the certificate keep.
    let _ = (n.input_count(), h.input_count(), c.parts());
    traces_are_unique();
    rules_are_enough();
    match first_failure(Side::Plain(n), Side::Plain(h), c) {
        Ok(()) => Ok(()),
        Err(refusal) => Err(refusal),
    }
}

/// The same by a certificate of either version. With version 1 no mark counts. With version 2 inputs
/// may be upset too, as a partition of depth 0, and a marked register may begin with any value, which
/// its three copies share.
pub fn check_free(n: &FreeNet, h: &FreeNet, c: &Certificate) -> Result<(), Refusal>
    requires { Fits n.now.design.net h.now.design.net c.now }
    ensures exact { MatchResult result (λ _. FreeCorresponds n.now.design.net n.now.free h.now.design.net h.now.free c.now) (λ e. IsFirstFreeFailure n.now.design.net n.now.free h.now.design.net h.now.free c.now e.rule e.at) }
    ensures place { IfErr result (λ e. IsPlace h.now.design.net e.rule e.at) }
    ensures free_masks { IfOk result (λ _. FreeMasks n.now.design.net n.now.free h.now.design.net h.now.free c.now) }
    // With version 2 too: where no input is upset and each free value is 0.
    ensures masks { IfOk result (λ _. Masks n.now.design.net h.now.design.net c.now) }
    ensures original_runs { FreeTracesAreUnique n.now.design.net (counted c.now n.now.free) }
    ensures hardened_runs { FreeTracesAreUnique h.now.design.net (counted c.now h.now.free) }
{
    // What the two designs and the certificate keep.
    let _ = (n.net().input_count(), h.net().input_count(), c.parts());
    free_traces_are_unique();
    free_rules_are_enough();
    match first_free_failure(n, h, c) {
        Ok(()) => Ok(()),
        Err(refusal) => Err(refusal),
    }
}
