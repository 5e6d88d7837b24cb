//! The kinds of lines: their first and last, partitions, nodes and voters.
ghost use Rattle.std.specs.Prelude.{◌≡◌, ◌+◌, ◌<◌, ◌≤◌, Some, None, length, codes, IfOk, IsTrue};
ghost use Rattle.flat_net.specs.Net.{net_count, name_of, IsDesign};
ghost use Rattle.flat_net.specs.Nodes.{number_of};
ghost use Rattle.certificate.specs.Gives.{Gives};
ghost use Rattle.certificate.specs.Plain.{texts, plain_line, IsNode, AreNodes, IsVoted};
ghost use Rattle.certificate.specs.Threes.{three_of, three_ids};
ghost use Rattle.certificate.specs.Folding.{version_named, read_parts, read_part, known, voted, known_three, three_numbers, node_numbers, read_node, copy_named, voter_numbers, read_voter};
ghost use Rattle.certificate.specs.Lines.{want, hold};
ghost use Rattle.certificate.specs.declared.fault.CertFault.TheVariants.{Line};
ghost use Rattle.std.specs.Str.{bytes_eq};

use crate::forms::form_words;
use crate::numbers::number;
use crate::{CertFault, Role};
use flat_net::FlatNet;
use std::alloc::Global;
use tmr_base::{CopyNo, Name, NameFault, NetId, PartId};

/// What the lines of nodes and voters are read by: the text's version, the two designs, and how many partitions there are.
#[derive(Drop)]
pub struct Scope<'a> {
    pub version: u8,
    pub original: &'a FlatNet,
    pub hardened: &'a FlatNet,
    pub parts: u32,
}

/// What a node's line says.
#[derive(Clone, Copy, Debug, Drop)]
pub struct NodeLine {
    pub part: u32,
    pub copies: [NetId; 3],
    pub labels: [u32; 3],
}

/// The version that a first line names.
fn version_named(line: &[u8]) -> Option<u8>
    ensures { result ≡ version_named line.now }
{
    if line == b"tmr-cert 1".as_slice() {
        return Some(1);
    }
    if line == b"tmr-cert 2".as_slice() {
        return Some(2);
    }
    None
}

/// The line with which each text begins: its version.
pub fn read_version(text: &[u8], line: u64) -> Result<u8, CertFault>
    ensures { Gives (λ version. version) result (want (version_named text.now) (Line line)) }
{
    match version_named(text) {
        Some(version) => Ok(version),
        None => Err(CertFault::Line(line)),
    }
}

/// The line with which each text ends.
pub fn read_end(text: &[u8], line: u64) -> Result<(), CertFault>
    ensures { Gives (λ _. tt) result (hold (bytes_eq text.now (codes "end")) (Line line)) }
{
    if text != b"end".as_slice() {
        return Err(CertFault::Line(line));
    }
    Ok(())
}

/// How many partitions there are.
#[tactic(auto, unfolding(crate::specs::Folding::read_parts))]
pub fn read_parts(alloc: Global, text: &[u8], line: u64) -> Result<u32, CertFault>
    ensures { Gives (λ n. n) result (read_parts text.now line) }
{
    let words = form_words(alloc, text, 2, b"parts", line)?;
    number(words[1], line)
}

/// The depth of partition p.
#[tactic(auto, unfolding(crate::specs::Folding::read_part))]
pub fn read_part(alloc: Global, p: u32, text: &[u8], line: u64) -> Result<u32, CertFault>
    ensures { Gives (λ n. n) result (read_part p text.now line) }
{
    let words = form_words(alloc, text, 4, b"part", line)?;
    if words[2] != b"depth".as_slice() {
        return Err(CertFault::Line(line));
    }
    let q = number(words[1], line)?;
    let depth = number(words[3], line)?;
    if q != p {
        return Err(CertFault::Line(line));
    }
    Ok(depth)
}

/// Whether net x is a node and has this name.
fn is_node_called(net: &FlatNet, x: NetId, name: &[u8]) -> bool
    ensures node { IsTrue result → IsNode net.now.net x.0 }
    ensures named { IsTrue result → name.now ≡ name_of net.now.net x.0 }
    ensures design { IsDesign net.now }
{
    let inputs = net.input_count();
    if x.0 < inputs || x.0 - inputs >= net.node_count() {
        return false;
    }
    net.name(x).bytes() == name
}

/// The node with this name, by the table of names.
#[tactic(auto, using(crate::proofs::Names::names), unfolding(crate::specs::Folding::known))]
fn looked_up(alloc: Global, net: &FlatNet, name: &[u8], line: u64) -> Result<NetId, CertFault>
    ensures node { Gives number_of result (known net.now.net name.now line) }
    ensures range { IfOk result (λ x. IsNode net.now.net x.0) }
{
    let inputs = net.input_count();
    match Name::read(alloc, name) {
        Ok(name) => match net.find(&name) {
            Some(x) => {
                if x.0 < inputs {
                    return Err(CertFault::UnknownNet(line));
                }
                Ok(x)
            }
            None => Err(CertFault::UnknownNet(line)),
        },
        Err(NameFault::Bad) => Err(CertFault::UnknownNet(line)),
        Err(NameFault::Memory) => Err(CertFault::Memory),
    }
}

/// The node with this name. It is looked at first whether the guessed net is that node: lines name nodes in the order of the
/// design nearly always, so the table of names is seldom needed.
fn known(
    alloc: Global,
    net: &FlatNet,
    guess: NetId,
    name: &[u8],
    line: u64,
) -> Result<NetId, CertFault>
    ensures node { Gives number_of result (known net.now.net name.now line) }
    ensures range { IfOk result (λ x. IsNode net.now.net x.0) }
{
    if is_node_called(net, guess, name) {
        return Ok(guess);
    }
    looked_up(alloc, net, name, line)
}

/// The net with this name, if there may be voters of it: in version 1 it is a node. This is by the table of names.
#[tactic(auto, using(crate::proofs::Names::names), unfolding(crate::specs::Folding::voted))]
fn looked_up_voted(
    alloc: Global,
    version: u8,
    net: &FlatNet,
    name: &[u8],
    line: u64,
) -> Result<NetId, CertFault>
    ensures net { Gives number_of result (voted version net.now.net name.now line) }
    ensures range { IfOk result (λ x. IsVoted version net.now.net x.0) }
{
    if version == 1 {
        return looked_up(alloc, net, name, line);
    }
    net.input_count();
    match Name::read(alloc, name) {
        Ok(name) => match net.find(&name) {
            Some(x) => Ok(x),
            None => Err(CertFault::UnknownNet(line)),
        },
        Err(NameFault::Bad) => Err(CertFault::UnknownNet(line)),
        Err(NameFault::Memory) => Err(CertFault::Memory),
    }
}

/// The same. It is looked at first whether the guessed net is a node of this name.
fn voted(
    alloc: Global,
    version: u8,
    net: &FlatNet,
    guess: NetId,
    name: &[u8],
    line: u64,
) -> Result<NetId, CertFault>
    ensures net { Gives number_of result (voted version net.now.net name.now line) }
    ensures range { IfOk result (λ x. IsVoted version net.now.net x.0) }
{
    if is_node_called(net, guess, name) {
        return Ok(guess);
    }
    looked_up_voted(alloc, version, net, name, line)
}

/// The net with the next number, as a guess.
pub fn next_net(x: NetId) -> NetId {
    NetId(x.0.saturating_add(1))
}

/// Three nodes with these names. The first is guessed, and of the others that they are next to it.
#[tactic(auto, unfolding(crate::specs::Folding::known_three))]
fn known_three(
    alloc: Global,
    net: &FlatNet,
    guess: NetId,
    a: &[u8],
    b: &[u8],
    c: &[u8],
    line: u64,
) -> Result<[NetId; 3], CertFault>
    ensures nodes { Gives three_ids result (known_three net.now.net a.now b.now c.now line) }
    ensures range { IfOk result (λ t. AreNodes net.now.net (three_ids t)) }
{
    let first = known(alloc, net, guess, a, line)?;
    let second = known(alloc, net, next_net(first), b, line)?;
    let third = known(alloc, net, next_net(second), c, line)?;
    Ok([first, second, third])
}

#[tactic(auto, unfolding(crate::specs::Folding::three_numbers))]
fn three_numbers(a: &[u8], b: &[u8], c: &[u8], line: u64) -> Result<[u32; 3], CertFault>
    ensures { Gives three_of result (three_numbers a.now b.now c.now line) }
{
    let first = number(a, line)?;
    let second = number(b, line)?;
    let third = number(c, line)?;
    Ok([first, second, third])
}

/// The partition and the labels of a node's line.
#[tactic(auto, unfolding(crate::specs::Folding::node_numbers))]
fn node_numbers(words: &[&[u8]], line: u64) -> Result<(u32, [u32; 3]), CertFault>
    requires { length words.now ≡ 9 }
    ensures { Gives (λ x. (x.0, three_of x.1)) result (node_numbers (texts words.now) line) }
{
    let part = number(words[2], line)?;
    let labels = three_numbers(words[6], words[7], words[8], line)?;
    Ok((part, labels))
}

/// The line of original node x. Its first copy is guessed.
#[tactic(auto, unfolding(crate::specs::Folding::read_node))]
pub fn read_node(
    alloc: Global,
    scope: &Scope<'_>,
    x: NetId,
    guess: NetId,
    text: &[u8],
    line: u64,
) -> Result<NodeLine, CertFault>
    ensures node { Gives plain_line result (read_node scope.now.original.now.net scope.now.hardened.now.net x.0 scope.now.parts text.now line) }
    ensures range { IfOk result (λ l. AreNodes scope.now.hardened.now.net (three_ids l.copies)) }
{
    let words = form_words(alloc, text, 9, b"node", line)?;
    let (part, labels) = node_numbers(&words, line)?;
    let named = known(alloc, scope.original, x, words[1], line)?;
    let h = scope.hardened;
    let copies = known_three(alloc, h, guess, words[3], words[4], words[5], line)?;
    if named.0 != x.0 {
        return Err(CertFault::Order(line));
    }
    if part >= scope.parts {
        return Err(CertFault::Range(line));
    }
    Ok(NodeLine {
        part,
        copies,
        labels,
    })
}

/// The copy with this number.
fn copy_named(word: &[u8]) -> Option<CopyNo>
    ensures { result ≡ copy_named word.now }
{
    if word == b"0".as_slice() {
        return Some(CopyNo::First);
    }
    if word == b"1".as_slice() {
        return Some(CopyNo::Second);
    }
    if word == b"2".as_slice() {
        return Some(CopyNo::Third);
    }
    None
}

/// The partition and the copy of a voter's line.
#[tactic(auto, unfolding(crate::specs::Folding::voter_numbers))]
fn voter_numbers(words: &[&[u8]], line: u64) -> Result<(u32, CopyNo), CertFault>
    requires { length words.now ≡ 5 }
    ensures { Gives (λ x. x) result (voter_numbers (texts words.now) line) }
{
    let part = number(words[3], line)?;
    match copy_named(words[4]) {
        Some(copy) => Ok((part, copy)),
        None => Err(CertFault::Line(line)),
    }
}

/// The line of the voter at hardened node g. The net that it votes on is guessed.
#[tactic(auto, unfolding(crate::specs::Folding::read_voter))]
pub fn read_voter(
    alloc: Global,
    scope: &Scope<'_>,
    g: NetId,
    guess: NetId,
    text: &[u8],
    line: u64,
) -> Result<Role, CertFault>
    ensures { Gives (λ role. role) result (read_voter scope.now.version scope.now.original.now.net scope.now.hardened.now.net g.0 scope.now.parts text.now line) }
{
    let words = form_words(alloc, text, 5, b"voter", line)?;
    let (part, copy) = voter_numbers(&words, line)?;
    let named = known(alloc, scope.hardened, g, words[1], line)?;
    let node = voted(alloc, scope.version, scope.original, guess, words[2], line)?;
    if named.0 != g.0 {
        return Err(CertFault::Order(line));
    }
    if part >= scope.parts {
        return Err(CertFault::Range(line));
    }
    Ok(Role::Voter {
        node,
        part: PartId(part),
        copy,
    })
}
