//! What is said of a reason.
ghost use Rattle.std.specs.Prelude.{◌≡◌, ◌<◌, ◌+◌, ◌∷◌, [], ℕ, codes, length, IfOk};
ghost use Rattle.std.specs.List.{concat};
ghost use Rattle.std.specs.Fmt.{decimal};
ghost use Rattle.tmr_base.specs.Copies.{copy_number};
ghost use Rattle.flat_net.specs.Net.{Net, net_count};
ghost use Rattle.certificate.specs.Cert.{PlainCert, Fits, role_of, part_of};
ghost use Rattle.explaining.specs.Words.{count_text, edge_text, initial_text, bit_text, copy_text, purpose_text, voter_text, role_text, reads_text, reader_text, reason_text, place_text};
ghost use Rattle.explaining.specs.Private.Pieces.{HasNets, IsOfShape, IsOfPins};
ghost use Rattle.explaining.specs.Private.Found.{place_count};

use crate::finding::net_at;
use crate::joining::join;
use crate::reason::Reason;
use crate::rule::Rule;
use certificate::{Certificate, Role};
use flat_net::FlatNet;
use std::alloc::{AllocError, Global};
use tmr_base::{CopyNo, Edge, NetId, PartId};

/// What is counted, and how much there is and was to be.
fn count_text(alloc: Global, what: &[u8], is: u64, wanted: u64) -> Result<Vec<u8>, AllocError>
    ensures { IfOk result (λ text. text.items ≡ count_text what.now is wanted) }
{
    let is = is.to_string(alloc)?;
    let wanted = wanted.to_string(alloc)?;
    join(
        alloc,
        &[
            what,
            b" ".as_slice(),
            is.as_bytes(),
            b", not ".as_slice(),
            wanted.as_bytes(),
        ],
    )
}

fn edge_text(edge: Edge) -> &'static [u8]
    ensures { result.now ≡ edge_text edge }
{
    match edge {
        Edge::Rising => b"rising".as_slice(),
        Edge::Falling => b"falling".as_slice(),
    }
}

fn initial_text(free: bool, bit: bool) -> &'static [u8]
    ensures { result.now ≡ initial_text free bit }
{
    if free {
        b"free".as_slice()
    } else {
        bit_text(bit)
    }
}

fn bit_text(bit: bool) -> &'static [u8]
    ensures { result.now ≡ bit_text bit }
{
    if bit {
        b"1".as_slice()
    } else {
        b"0".as_slice()
    }
}

/// Which copy of which node.
fn copy_text(alloc: Global, n: &FlatNet, x: NetId, d: CopyNo) -> Result<Vec<u8>, AllocError>
    requires { x.0 < net_count n.now.net }
    ensures { IfOk result (λ text. text.items ≡ copy_text n.now.net x.0 d) }
{
    let copy = d.number().to_string(alloc)?;
    join(
        alloc,
        &[
            b"copy ".as_slice(),
            copy.as_bytes(),
            b" of ".as_slice(),
            n.name(x).bytes(),
        ],
    )
}

/// For which partition and copy.
fn purpose_text(alloc: Global, p: PartId, d: CopyNo) -> Result<Vec<u8>, AllocError>
    ensures { IfOk result (λ text. text.items ≡ purpose_text p.0 d) }
{
    let part = p.0.to_string(alloc)?;
    let copy = d.number().to_string(alloc)?;
    join(
        alloc,
        &[
            b" for partition ".as_slice(),
            part.as_bytes(),
            b" and copy ".as_slice(),
            copy.as_bytes(),
        ],
    )
}

fn voter_text(
    alloc: Global,
    n: &FlatNet,
    x: NetId,
    p: PartId,
    d: CopyNo,
) -> Result<Vec<u8>, AllocError>
    requires { x.0 < net_count n.now.net }
    ensures { IfOk result (λ text. text.items ≡ voter_text n.now.net x.0 p.0 d) }
{
    let purpose = purpose_text(alloc, p, d)?;
    join(
        alloc,
        &[
            b"a voter of ".as_slice(),
            n.name(x).bytes(),
            purpose.as_slice(),
        ],
    )
}

/// A copy of a node, and its partition.
fn own_text(
    alloc: Global,
    n: &FlatNet,
    x: NetId,
    d: CopyNo,
    p: PartId,
) -> Result<Vec<u8>, AllocError>
    requires { x.0 < net_count n.now.net }
    ensures { IfOk result (λ text. text.items ≡ concat (copy_text n.now.net x.0 d ∷ codes " in partition " ∷ decimal p.0 ∷ [])) }
{
    let copy = copy_text(alloc, n, x, d)?;
    let part = p.0.to_string(alloc)?;
    join(
        alloc,
        &[
            copy.as_slice(),
            b" in partition ".as_slice(),
            part.as_bytes(),
        ],
    )
}

/// What hardened net g is for.
#[tactic(auto, using(flat_net::proofs::Slots::slot_below))]
fn role_text(
    alloc: Global,
    n: &FlatNet,
    h: &FlatNet,
    c: &Certificate,
    g: NetId,
) -> Result<Vec<u8>, AllocError>
    requires fits { Fits n.now.net h.now.net c.now }
    requires g { g.0 < net_count h.now.net }
    ensures { IfOk result (λ text. text.items ≡ role_text n.now.net c.now (role_of c.now g.0)) }
{
    if g.0 < c.hardened_inputs() {
        return join(alloc, &[b"an input".as_slice()]);
    }
    match c.role(g) {
        Role::Copy { node, copy } => own_text(alloc, n, node, copy, c.part(node)),
        Role::Voter { node, part, copy } => voter_text(alloc, n, node, part, copy),
    }
}

/// What the pin reads, and what that is for.
fn reads_text(
    alloc: Global,
    n: &FlatNet,
    h: &FlatNet,
    c: &Certificate,
    pin: u32,
    g: NetId,
) -> Result<Vec<u8>, AllocError>
    requires fits { Fits n.now.net h.now.net c.now }
    requires g { g.0 < net_count h.now.net }
    ensures { IfOk result (λ text. text.items ≡ reads_text n.now.net h.now.net c.now pin g.0) }
{
    let pin = pin.to_string(alloc)?;
    let role = role_text(alloc, n, h, c, g)?;
    join(
        alloc,
        &[
            b"pin ".as_slice(),
            pin.as_bytes(),
            b" reads ".as_slice(),
            h.name(g).bytes(),
            b", ".as_slice(),
            role.as_slice(),
        ],
    )
}

/// A copy of a node, or its voter for its own partition.
fn either_text(
    alloc: Global,
    n: &FlatNet,
    x: NetId,
    p: PartId,
    d: CopyNo,
) -> Result<Vec<u8>, AllocError>
    requires { x.0 < net_count n.now.net }
    ensures { IfOk result (λ text. text.items ≡ concat (copy_text n.now.net x.0 d ∷ codes ", or its voter" ∷ purpose_text p.0 d ∷ [])) }
{
    let copy = copy_text(alloc, n, x, d)?;
    let purpose = purpose_text(alloc, p, d)?;
    join(
        alloc,
        &[
            copy.as_slice(),
            b", or its voter".as_slice(),
            purpose.as_slice(),
        ],
    )
}

/// What would read x for that partition and copy.
#[tactic(auto, using(flat_net::proofs::Slots::slot_below))]
fn reader_text(
    alloc: Global,
    n: &FlatNet,
    c: &Certificate,
    x: NetId,
    p: PartId,
    d: CopyNo,
) -> Result<Vec<u8>, AllocError>
    requires inputs { c.now.original_inputs ≡ length n.now.net.inputs }
    requires nodes { length c.now.part ≡ length n.now.net.nodes }
    requires x { x.0 < net_count n.now.net }
    ensures { IfOk result (λ text. text.items ≡ reader_text n.now.net c.now (part_of c.now x.0) x.0 p.0 d) }
{
    if x.0 < n.input_count() {
        return if c.version() == 1 {
            copy_text(alloc, n, x, d)
        } else {
            voter_text(alloc, n, x, p, d)
        };
    }
    if c.part(x) == p {
        either_text(alloc, n, x, p, d)
    } else {
        voter_text(alloc, n, x, p, d)
    }
}

/// Two values, one of which was to be there.
fn value_text(alloc: Global, what: &[u8], is: &[u8], wanted: &[u8]) -> Result<Vec<u8>, AllocError>
    ensures { IfOk result (λ text. text.items ≡ concat (what.now ∷ is.now ∷ codes ", not " ∷ wanted.now ∷ [])) }
{
    join(alloc, &[what, is, b", not ".as_slice(), wanted])
}

/// A pin that reads what it must not.
fn pin_text(
    alloc: Global,
    n: &FlatNet,
    h: &FlatNet,
    c: &Certificate,
    pin: u32,
    g: NetId,
    wanted: &[u8],
) -> Result<Vec<u8>, AllocError>
    requires fits { Fits n.now.net h.now.net c.now }
    requires g { g.0 < net_count h.now.net }
    ensures { IfOk result (λ text. text.items ≡ concat (reads_text n.now.net h.now.net c.now pin g.0 ∷ codes "; wanted " ∷ wanted.now ∷ [])) }
{
    let reads = reads_text(alloc, n, h, c, pin, g)?;
    join(alloc, &[reads.as_slice(), b"; wanted ".as_slice(), wanted])
}

/// A row that differs.
fn row_text(alloc: Global, row: u32, is: &[u8], wanted: &[u8]) -> Result<Vec<u8>, AllocError>
    ensures { IfOk result (λ text. text.items ≡ concat (codes "row " ∷ decimal row ∷ codes " is " ∷ is.now ∷ codes ", not " ∷ wanted.now ∷ [])) }
{
    let row = row.to_string(alloc)?;
    join(
        alloc,
        &[
            b"row ".as_slice(),
            row.as_bytes(),
            b" is ".as_slice(),
            is,
            b", not ".as_slice(),
            wanted,
        ],
    )
}

/// A label that is too low.
fn label_text(
    alloc: Global,
    label: u32,
    wants: u64,
    name: &[u8],
    count: u32,
) -> Result<Vec<u8>, AllocError>
    ensures { IfOk result (λ text. text.items ≡ concat (codes "label " ∷ decimal label ∷ codes ", wants " ∷ decimal wants ∷ codes " (reads " ∷ name.now ∷ codes " with label " ∷ decimal count ∷ codes ")" ∷ [])) }
{
    let label = label.to_string(alloc)?;
    let wants = wants.to_string(alloc)?;
    let count = count.to_string(alloc)?;
    join(
        alloc,
        &[
            b"label ".as_slice(),
            label.as_bytes(),
            b", wants ".as_slice(),
            wants.as_bytes(),
            b" (reads ".as_slice(),
            name,
            b" with label ".as_slice(),
            count.as_bytes(),
            b")".as_slice(),
        ],
    )
}

/// A label above a depth.
fn depth_text(alloc: Global, label: u32, depth: u32, p: PartId) -> Result<Vec<u8>, AllocError>
    ensures { IfOk result (λ text. text.items ≡ concat (codes "label " ∷ decimal label ∷ codes " above depth " ∷ decimal depth ∷ codes " of partition " ∷ decimal p.0 ∷ [])) }
{
    let label = label.to_string(alloc)?;
    let depth = depth.to_string(alloc)?;
    let part = p.0.to_string(alloc)?;
    join(
        alloc,
        &[
            b"label ".as_slice(),
            label.as_bytes(),
            b" above depth ".as_slice(),
            depth.as_bytes(),
            b" of partition ".as_slice(),
            part.as_bytes(),
        ],
    )
}

/// An output that is another net than the copy which it is to be.
fn wrong_output_text(
    alloc: Global,
    place: u64,
    name: &[u8],
    n: &FlatNet,
    x: NetId,
    d: CopyNo,
) -> Result<Vec<u8>, AllocError>
    requires { x.0 < net_count n.now.net }
    ensures { IfOk result (λ text. text.items ≡ concat (codes "output " ∷ decimal place ∷ codes " is " ∷ name.now ∷ codes ", not " ∷ copy_text n.now.net x.0 d ∷ [])) }
{
    let place = place.to_string(alloc)?;
    let copy = copy_text(alloc, n, x, d)?;
    join(
        alloc,
        &[
            b"output ".as_slice(),
            place.as_bytes(),
            b" is ".as_slice(),
            name,
            b", not ".as_slice(),
            copy.as_slice(),
        ],
    )
}

/// An output, and what is said of it in two parts.
fn output_text(alloc: Global, place: u64, first: &[u8], last: &[u8]) -> Result<Vec<u8>, AllocError>
    ensures { IfOk result (λ text. text.items ≡ concat (codes "output " ∷ decimal place ∷ first.now ∷ last.now ∷ [])) }
{
    let place = place.to_string(alloc)?;
    join(
        alloc,
        &[b"output ".as_slice(), place.as_bytes(), first, last],
    )
}

/// An output that is missing.
fn no_output_text(
    alloc: Global,
    place: u64,
    n: &FlatNet,
    x: NetId,
    d: CopyNo,
) -> Result<Vec<u8>, AllocError>
    requires { x.0 < net_count n.now.net }
    ensures { IfOk result (λ text. text.items ≡ concat (codes "output " ∷ decimal place ∷ codes " is missing, wanted " ∷ copy_text n.now.net x.0 d ∷ [])) }
{
    let copy = copy_text(alloc, n, x, d)?;
    output_text(alloc, place, b" is missing, wanted ", copy.as_slice())
}

/// An output of which the original has none.
fn new_output_text(alloc: Global, place: u64, name: &[u8]) -> Result<Vec<u8>, AllocError>
    ensures { IfOk result (λ text. text.items ≡ concat (codes "output " ∷ decimal place ∷ codes " is " ∷ name.now ∷ codes ", wanted none" ∷ [])) }
{
    let place = place.to_string(alloc)?;
    join(
        alloc,
        &[
            b"output ".as_slice(),
            place.as_bytes(),
            b" is ".as_slice(),
            name,
            b", wanted none".as_slice(),
        ],
    )
}

/// What is to be read at a pin: an original net, for a partition and a copy.
#[derive(Clone, Copy, Drop)]
struct Read {
    node: NetId,
    part: PartId,
    copy: CopyNo,
}

/// A pin that does not read what it is to.
fn wrong_pin_text(
    alloc: Global,
    n: &FlatNet,
    h: &FlatNet,
    c: &Certificate,
    pin: u32,
    g: NetId,
    read: Read,
) -> Result<Vec<u8>, AllocError>
    requires fits { Fits n.now.net h.now.net c.now }
    requires g { g.0 < net_count h.now.net }
    requires node { read.node.0 < net_count n.now.net }
    ensures { IfOk result (λ text. text.items ≡ concat (reads_text n.now.net h.now.net c.now pin g.0 ∷ codes "; wanted " ∷ reader_text n.now.net c.now (part_of c.now read.node.0) read.node.0 read.part.0 read.copy ∷ [])) }
{
    let wanted = reader_text(alloc, n, c, read.node, read.part, read.copy)?;
    pin_text(alloc, n, h, c, pin, g, wanted.as_slice())
}

/// A pin of a voter that does not read its copy of x.
fn voter_pin_text(
    alloc: Global,
    n: &FlatNet,
    h: &FlatNet,
    c: &Certificate,
    g: NetId,
    x: NetId,
    d: CopyNo,
) -> Result<Vec<u8>, AllocError>
    requires fits { Fits n.now.net h.now.net c.now }
    requires g { g.0 < net_count h.now.net }
    requires x { x.0 < net_count n.now.net }
    ensures { IfOk result (λ text. text.items ≡ concat (reads_text n.now.net h.now.net c.now (copy_number d) g.0 ∷ codes "; wanted " ∷ copy_text n.now.net x.0 d ∷ [])) }
{
    let wanted = copy_text(alloc, n, x, d)?;
    pin_text(alloc, n, h, c, d.number(), g, wanted.as_slice())
}

/// Three bits of which a voter does not give the majority.
fn minority_text(alloc: Global, a: bool, b: bool, c: bool) -> Result<Vec<u8>, AllocError>
    ensures { IfOk result (λ text. text.items ≡ concat (codes "not the majority at " ∷ bit_text a ∷ bit_text b ∷ bit_text c ∷ [])) }
{
    join(
        alloc,
        &[
            b"not the majority at ".as_slice(),
            bit_text(a),
            bit_text(b),
            bit_text(c),
        ],
    )
}

/// Why a node is not what it is to copy or to vote as, whatever its pins read.
fn shape_text(alloc: Global, reason: Reason<'_>) -> Result<Vec<u8>, AllocError>
    requires { IsOfShape reason }
    ensures { (n h : Net) (k : PlainCert) (place : ℕ) → IfOk result (λ text. text.items ≡ reason_text n h k place reason.entry) }
{
    match reason {
        Reason::IsTable => join(alloc, &[b"kind table, not register".as_slice()]),
        Reason::IsRegister => join(alloc, &[b"kind register, not table".as_slice()]),
        Reason::PinCount { is, wanted } => {
            count_text(alloc, b"pins", u64::from(is), u64::from(wanted))
        }
        Reason::Polarity => join(alloc, &[b"polarity".as_slice()]),
        Reason::RowCount { is, wanted } => {
            count_text(alloc, b"rows", u64::from(is), u64::from(wanted))
        }
        Reason::Row { row, is, wanted } => row_text(alloc, row, is, wanted),
        Reason::Initial {
            is,
            is_free,
            wanted,
            wanted_free,
        } => value_text(
            alloc,
            b"initial value ",
            initial_text(is_free, is),
            initial_text(wanted_free, wanted),
        ),
        _ => unreachable!(),
    }
}

/// Why a node's pins are not what they are to be, or a voter's value not the majority of them.
fn pins_text(
    alloc: Global,
    n: &FlatNet,
    h: &FlatNet,
    c: &Certificate,
    reason: Reason<'_>,
) -> Result<Vec<u8>, AllocError>
    requires fits { Fits n.now.net h.now.net c.now }
    requires nets { HasNets n.now.net h.now.net reason }
    requires pins { IsOfPins reason }
    ensures { (place : ℕ) → IfOk result (λ text. text.items ≡ reason_text n.now.net h.now.net c.now place reason.entry) }
{
    match reason {
        Reason::Pin {
            pin,
            net,
            node,
            part,
            copy,
        } => wrong_pin_text(alloc, n, h, c, pin, net, Read { node, part, copy }),
        Reason::VoterPin { net, node, copy } => voter_pin_text(alloc, n, h, c, net, node, copy),
        Reason::Minority {
            first,
            second,
            third,
        } => minority_text(alloc, first, second, third),
        _ => unreachable!(),
    }
}

/// Why a rule fails at a place.
pub fn reason_text(
    alloc: Global,
    n: &FlatNet,
    h: &FlatNet,
    c: &Certificate,
    place: u64,
    reason: Reason<'_>,
) -> Result<Vec<u8>, AllocError>
    requires fits { Fits n.now.net h.now.net c.now }
    requires nets { HasNets n.now.net h.now.net reason }
    ensures { IfOk result (λ text. text.items ≡ reason_text n.now.net h.now.net c.now place reason.entry) }
{
    match reason {
        Reason::InputCount { is, wanted } => count_text(alloc, b"inputs", u64::from(is), wanted),
        Reason::NoClock => join(alloc, &[b"no clock, original has one".as_slice()]),
        Reason::NewClock => join(alloc, &[b"a clock, original has none".as_slice()]),
        Reason::WrongEdge { is, wanted } => {
            value_text(alloc, b"edge ", edge_text(is), edge_text(wanted))
        }
        Reason::Pin { .. } | Reason::VoterPin { .. } | Reason::Minority { .. } => {
            pins_text(alloc, n, h, c, reason)
        }
        Reason::LowLabel {
            label,
            wants,
            net,
            count,
        } => { label_text(alloc, label, wants, h.name(net).bytes(), count) }
        Reason::DeepLabel { label, depth, part } => depth_text(alloc, label, depth, part),
        Reason::WrongOutput { net, node, copy } => {
            wrong_output_text(alloc, place, h.name(net).bytes(), n, node, copy)
        }
        Reason::NoOutput { node, copy } => no_output_text(alloc, place, n, node, copy),
        Reason::NewOutput { net } => new_output_text(alloc, place, h.name(net).bytes()),
        _ => shape_text(alloc, reason),
    }
}

/// Where a rule fails.
pub fn place_text(
    alloc: Global,
    n: &FlatNet,
    h: &FlatNet,
    rule: Rule,
    place: u64,
) -> Result<Vec<u8>, AllocError>
    requires { place < place_count n.now.net h.now.net rule }
    ensures { IfOk result (λ text. text.items ≡ place_text h.now.net rule place) }
{
    match rule {
        Rule::Inputs => join(alloc, &[b"inputs".as_slice()]),
        Rule::Clocks => join(alloc, &[b"clock".as_slice()]),
        Rule::Outputs => {
            let place = place.to_string(alloc)?;
            join(alloc, &[b"output ".as_slice(), place.as_bytes()])
        }
        _ => join(alloc, &[h.name(net_at(h, place)).bytes()]),
    }
}
