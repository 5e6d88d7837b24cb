//! The line that tells why no certificate is found.
ghost use Rattle.std.specs.Prelude.{◌≡◌, ◌<◌, ◌++◌, ◌∷◌, [], codes, length, All, IfOk, OnOk};
ghost use Rattle.std.specs.Fmt.{decimal};
ghost use Rattle.std.specs.List.{flat_map};
ghost use Rattle.tmr_base.specs.Copies.{copy_number};
ghost use Rattle.flat_net.specs.Net.{net_count, name_of};
ghost use Rattle.validator.specs.Place.{IsPlace};
ghost use Rattle.certifying.specs.Causes.{IsPlaced};
ghost use Rattle.certifying.specs.Lines.{loop_name, rule_place, cause_text, no_certificate_text};

use crate::NoCertificate;
use flat_net::{FlatNet, nodes_of};
use std::alloc::Global;
use tmr_base::{NetId, OutOfMemory};
use validator::Refusal;

/// Puts some bytes.
fn put(out: &mut Vec<u8>, piece: &[u8]) -> Result<(), OutOfMemory>
    ensures { OnOk result (out.new.items ≡ out.old.items ++ piece.now) }
{
    out.extend_from_slice(piece)?;
    Ok(())
}

/// Puts some bytes and a number.
fn put_number(
    alloc: Global,
    out: &mut Vec<u8>,
    piece: &[u8],
    number: u32,
) -> Result<(), OutOfMemory>
    ensures { OnOk result (out.new.items ≡ out.old.items ++ (piece.now ++ decimal number)) }
{
    let digits = number.to_string(alloc)?;
    put(out, piece)?;
    put(out, digits.as_bytes())
}

/// Puts some bytes and the name of net x.
fn put_name(out: &mut Vec<u8>, piece: &[u8], n: &FlatNet, x: NetId) -> Result<(), OutOfMemory>
    requires { x.0 < net_count n.now.net }
    ensures { OnOk result (out.new.items ≡ out.old.items ++ (piece.now ++ name_of n.now.net x.0)) }
{
    put(out, piece)?;
    put(out, n.name(x).bytes())
}

/// Puts the names of the nodes of a loop, each behind a blank.
fn put_loop(out: &mut Vec<u8>, h: &FlatNet, nodes: &[u32]) -> Result<(), OutOfMemory>
    requires { All (λ g. g < length h.now.net.nodes) nodes.now }
    ensures { OnOk result (out.new.items ≡ out.old.items ++ flat_map (loop_name h.now.net) nodes.now) }
{
    let _nodes = nodes_of(h);
    let inputs = h.input_count();
    for g in nodes {
        put_name(out, b" ", h, NetId(inputs + *g))?;
    }
    Ok(())
}

/// Puts where a rule fails.
fn put_place(
    alloc: Global,
    out: &mut Vec<u8>,
    h: &FlatNet,
    refusal: Refusal,
) -> Result<(), OutOfMemory>
    requires { IsPlace h.now.net refusal.rule refusal.at }
    ensures { OnOk result (out.new.items ≡ out.old.items ++ rule_place h.now.net refusal.rule refusal.at) }
{
    if refusal.rule == 1 {
        return put(out, b"inputs");
    }
    if refusal.rule == 2 {
        return put(out, b"clock");
    }
    if refusal.rule == 8 {
        return put_number(alloc, out, b"output ", refusal.at);
    }
    let _nodes = nodes_of(h);
    put(out, h.name(NetId(h.input_count() + refusal.at)).bytes())
}

/// Puts the rule that fails, and where.
fn put_rule(
    alloc: Global,
    out: &mut Vec<u8>,
    h: &FlatNet,
    refusal: Refusal,
) -> Result<(), OutOfMemory>
    requires { IsPlace h.now.net refusal.rule refusal.at }
    ensures { OnOk result (out.new.items ≡ out.old.items ++ (codes "rule " ++ (decimal refusal.rule ++ (codes " at " ++ rule_place h.now.net refusal.rule refusal.at)))) }
{
    put_number(alloc, out, b"rule ", u32::from(refusal.rule))?;
    put(out, b" at ")?;
    put_place(alloc, out, h, refusal)
}

/// Puts what is told of a cause.
fn put_cause(
    alloc: Global,
    out: &mut Vec<u8>,
    n: &FlatNet,
    h: &FlatNet,
    why: &NoCertificate,
) -> Result<(), OutOfMemory>
    requires { IsPlaced n.now.net h.now.net why.now }
    ensures { OnOk result (out.new.items ≡ out.old.items ++ cause_text n.now.net h.now.net why.now) }
{
    match why {
        NoCertificate::Inputs => put(out, b"inputs"),
        NoCertificate::Clock => put(out, b"clock"),
        NoCertificate::Output(k) => put_number(alloc, out, b"output ", *k),
        NoCertificate::Pin { node, pin } => {
            put_number(alloc, out, b"pin ", *pin)?;
            put_name(out, b" of ", h, *node)
        }
        NoCertificate::TwoRoles(g) => put_name(out, b"two roles ", h, *g),
        NoCertificate::NoRole(g) => put_name(out, b"no role ", h, *g),
        NoCertificate::NoCopy { node, copy } => {
            put_name(out, b"no copy ", n, *node)?;
            put_number(alloc, out, b" ", copy.number())
        }
        NoCertificate::Loop(nodes) => {
            put(out, b"loop")?;
            put_loop(out, h, nodes)
        }
        NoCertificate::Rule(refusal) => put_rule(alloc, out, h, *refusal),
        NoCertificate::Memory => put(out, b"memory"),
    }
}

/// The line that tells why no certificate is found, with its line feed.
pub fn no_certificate_line(
    alloc: Global,
    n: &FlatNet,
    h: &FlatNet,
    why: &NoCertificate,
) -> Result<Vec<u8>, OutOfMemory>
    requires { IsPlaced n.now.net h.now.net why.now }
    ensures { IfOk result (λ text. text.items ≡ no_certificate_text n.now.net h.now.net why.now) }
{
    let mut out = Vec::new(alloc);
    put(&mut out, b"no certificate: ")?;
    put_cause(alloc, &mut out, n, h, why)?;
    put(&mut out, b"\n")?;
    Ok(out)
}
