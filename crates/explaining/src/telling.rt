//! Failures that are told one after the other.
ghost use Rattle.std.specs.Prelude.{◌≡◌, ◌+◌, ◌<◌, ◌++◌, OnOk, IfOk};
ghost use Rattle.std.specs.List.{concat};
ghost use Rattle.certificate.specs.Cert.{Fits};
ghost use Rattle.certificate.specs.Starts.{counted};
ghost use Rattle.explaining.specs.Reasons.{number, Explains};
ghost use Rattle.explaining.specs.Explained.{failure_line};
ghost use Rattle.explaining.specs.Private.Pieces.{HasNets};
ghost use Rattle.explaining.specs.Private.Found.{shown, place_count, IsToldBefore};

use crate::finding::{place_count, reason_at};
use crate::joining::join;
use crate::reason::Reason;
use crate::rule::{Rule, number};
use crate::saying::{place_text, reason_text};
use certificate::Certificate;
use flat_net::{FlatNet, FreeNet};
use std::alloc::{AllocError, Global};

/// How many failures have a line.
pub const LINES: u64 = 100;

/// What is told: the lines of the first 100 failures, and how many failures there are.
#[derive(Drop)]
pub struct Told {
    pub text: Vec<u8>,
    pub count: u64,
}

/// A rule, a place at which it fails, and why.
#[derive(Clone, Copy, Drop)]
struct Failure<'a> {
    rule: Rule,
    place: u64,
    reason: Reason<'a>,
}

/// The line of a failure.
fn failure_line(
    alloc: Global,
    n: &FlatNet,
    h: &FlatNet,
    c: &Certificate,
    failure: Failure<'_>,
) -> Result<Vec<u8>, AllocError>
    requires fits { Fits n.now.net h.now.net c.now }
    requires place { failure.place < place_count n.now.net h.now.net failure.rule }
    requires nets { HasNets n.now.net h.now.net failure.reason }
    ensures { IfOk result (λ line. line.items ≡ failure_line n.now.net h.now.net c.now (record { rule = failure.entry.rule; place = failure.entry.place; reason = failure.entry.reason })) }
{
    let rule_number = number(failure.rule).to_string(alloc)?;
    let at = place_text(alloc, n, h, failure.rule, failure.place)?;
    let why = reason_text(alloc, n, h, c, failure.place, failure.reason)?;
    join(
        alloc,
        &[
            b"rule ".as_slice(),
            rule_number.as_bytes(),
            b" at ".as_slice(),
            at.as_slice(),
            b": ".as_slice(),
            why.as_slice(),
            b"\n".as_slice(),
        ],
    )
}

/// Puts the line of a failure, where fewer than 100 failures were told before it.
#[tactic(auto, using(crate::proofs::Shown::puts))]
fn put_failure(
    alloc: Global,
    n: &FlatNet,
    h: &FlatNet,
    c: &Certificate,
    failure: Failure<'_>,
    before: u64,
    text: &mut Vec<u8>,
) -> Result<(), AllocError>
    requires fits { Fits n.now.net h.now.net c.now }
    requires place { failure.place < place_count n.now.net h.now.net failure.rule }
    requires nets { HasNets n.now.net h.now.net failure.reason }
    ensures { OnOk result (text.new.items ≡ text.old.items ++ shown before (failure_line n.now.net h.now.net c.now (record { rule = failure.entry.rule; place = failure.entry.place; reason = failure.entry.reason }))) }
{
    if before >= LINES {
        return Ok(());
    }
    let line = failure_line(alloc, n, h, c, failure)?;
    text.extend_from_slice(&line)?;
    Ok(())
}

/// Tells of the rule at the place, if it fails there.
#[tactic(auto, using(crate::proofs::Told::holds_told, crate::proofs::Told::failure_told, crate::proofs::Told::few_told))]
fn tell_place(
    alloc: Global,
    n: &FreeNet,
    h: &FreeNet,
    c: &Certificate,
    rule: Rule,
    place: u64,
    told: &mut Told,
) -> Result<(), AllocError>
    requires fits { Fits n.now.design.net h.now.design.net c.now }
    requires place { place < place_count n.now.design.net h.now.design.net rule }
    requires few { place < 17179869184 }
    requires told { IsToldBefore n.now.design.net (counted c.now n.now.free) h.now.design.net (counted c.now h.now.free) c.now (number rule) place told.old }
    ensures { OnOk result (IsToldBefore n.now.design.net (counted c.now n.now.free) h.now.design.net (counted c.now h.now.free) c.now (number rule) (place + 1) told.new) }
{
    match reason_at(n, h, c, rule, place) {
        None => Ok(()),
        Some(reason) => {
            let before = told.count;
            let failure = Failure {
                rule,
                place,
                reason,
            };
            put_failure(alloc, n.net(), h.net(), c, failure, before, &mut told.text)?;
            told.count = before + 1;
            Ok(())
        }
    }
}

/// Tells of the rule at all its places.
#[tactic(auto, using(crate::proofs::Told::rule_told))]
pub fn tell_rule(
    alloc: Global,
    n: &FreeNet,
    h: &FreeNet,
    c: &Certificate,
    rule: Rule,
    told: &mut Told,
) -> Result<(), AllocError>
    requires fits { Fits n.now.design.net h.now.design.net c.now }
    requires told { IsToldBefore n.now.design.net (counted c.now n.now.free) h.now.design.net (counted c.now h.now.free) c.now (number rule) 0 told.old }
    ensures { OnOk result (IsToldBefore n.now.design.net (counted c.now n.now.free) h.now.design.net (counted c.now h.now.free) c.now (number rule + 1) 0 told.new) }
{
    for place in 0..place_count(n.net(), h.net(), rule) {
        tell_place(alloc, n, h, c, rule, place, told)?;
    }
    Ok(())
}
