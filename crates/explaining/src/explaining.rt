//! All places at which a rule fails, and why.
ghost use Rattle.std.specs.Prelude.{◌≡◌, ◌-◌, ◌++◌, ℕ, Bool, List, length, IfOk, OnOk};
ghost use Rattle.flat_net.specs.Net.{Net};
ghost use Rattle.certificate.specs.Cert.{PlainCert};
ghost use Rattle.explaining.specs.declared.rule.Rule.{Rule};
ghost use Rattle.explaining.specs.declared.reason.Reason.{Reason};
ghost use Rattle.explaining.specs.Reasons.{Explains};
ghost use Rattle.explaining.specs.Words.{reason_text};
ghost use Rattle.std.specs.List.{concat};
ghost use Rattle.certificate.specs.Cert.{Fits};
ghost use Rattle.certificate.specs.Starts.{counted};
ghost use Rattle.explaining.specs.Explained.{IsExplanation, more_line};
ghost use Rattle.explaining.specs.Private.Found.{IsToldBefore};

use crate::joining::join;
use crate::rule::Rule;
use crate::telling::{LINES, Told, tell_rule};
use certificate::Certificate;
use flat_net::FreeNet;
use std::alloc::{AllocError, Global};
use tmr_base::OutOfMemory;

/// What is told of all rules.
#[tactic(auto, using(crate::proofs::Told::nothing_told))]
fn all_told(alloc: Global, n: &FreeNet, h: &FreeNet, c: &Certificate) -> Result<Told, AllocError>
    requires { Fits n.now.design.net h.now.design.net c.now }
    ensures { IfOk result (IsToldBefore n.now.design.net (counted c.now n.now.free) h.now.design.net (counted c.now h.now.free) c.now 9 0) }
{
    let mut told = Told {
        text: Vec::new(alloc),
        count: 0,
    };
    tell_rule(alloc, n, h, c, Rule::Inputs, &mut told)?;
    tell_rule(alloc, n, h, c, Rule::Clocks, &mut told)?;
    tell_rule(alloc, n, h, c, Rule::Tables, &mut told)?;
    tell_rule(alloc, n, h, c, Rule::Registers, &mut told)?;
    tell_rule(alloc, n, h, c, Rule::Voters, &mut told)?;
    tell_rule(alloc, n, h, c, Rule::Labels, &mut told)?;
    tell_rule(alloc, n, h, c, Rule::Depths, &mut told)?;
    tell_rule(alloc, n, h, c, Rule::Outputs, &mut told)?;
    Ok(told)
}

/// Puts how many failures there are beyond those that have a line, if there are any.
#[tactic(auto, using(crate::proofs::Shown::no_more))]
fn put_more(alloc: Global, count: u64, text: &mut Vec<u8>) -> Result<(), AllocError>
    ensures { OnOk result (text.new.items ≡ text.old.items ++ more_line (count - 100)) }
{
    if count <= LINES {
        return Ok(());
    }
    let more = (count - LINES).to_string(alloc)?;
    let line = join(
        alloc,
        &[b"and ".as_slice(), more.as_bytes(), b" more\n".as_slice()],
    )?;
    text.extend_from_slice(&line)?;
    Ok(())
}

/// The law: two reasons of one place say the same. So the text of a pair is one.
#[tactic(auto, using(crate::proofs::One::reasons_say_one))]
fn reasons_say_one()
    ensures { (n : Net) (f : List Bool) (h : Net) (g : List Bool) (k : PlainCert) (rule : Rule) (place : ℕ) (a b : Reason) → Explains n f h g k rule place a → Explains n f h g k rule place b → reason_text n h k place a ≡ reason_text n h k place b }
{}

/// All places at which a rule fails, and why: a line `rule R at PLACE: WHY` for each of the first 100 places, in the order of rules
/// and then of places, and then how many more there are. Where the eight rules hold, the text is empty. The first line is of
/// the rule and the place that `validator::check_free` answers.
///
/// Each place is looked at once for each rule, and no more than the text is kept.
#[tactic(auto, using(crate::proofs::Told::all_told))]
pub fn explain(
    alloc: Global,
    n: &FreeNet,
    h: &FreeNet,
    c: &Certificate,
) -> Result<Vec<u8>, OutOfMemory>
    requires { Fits n.now.design.net h.now.design.net c.now }
    ensures explained { IfOk result (λ text. IsExplanation n.now.design.net (counted c.now n.now.free) h.now.design.net (counted c.now h.now.free) c.now text.items) }
    // Two reasons of one place say the same, so that there is one such text.
    ensures one { (a b : Reason) (rule : Rule) (place : ℕ)
        → Explains n.now.design.net (counted c.now n.now.free) h.now.design.net (counted c.now h.now.free) c.now rule place a
        → Explains n.now.design.net (counted c.now n.now.free) h.now.design.net (counted c.now h.now.free) c.now rule place b
        → reason_text n.now.design.net h.now.design.net c.now place a ≡ reason_text n.now.design.net h.now.design.net c.now place b }
{
    reasons_say_one();
    let told = all_told(alloc, n, h, c)?;
    let Told { mut text, count } = told;
    put_more(alloc, count, &mut text)?;
    Ok(text)
}
