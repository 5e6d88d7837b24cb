//! The lines of a certificate's text.
ghost use Rattle.std.specs.Prelude.{◌≡◌, ◌<◌, ◌+◌, [], ◌∷◌, ◌++◌, length, codes, OnOk};
ghost use Rattle.std.specs.Fmt.{decimal};
ghost use Rattle.flat_net.specs.Net.{net_count};
ghost use Rattle.tmr_base.specs.Copies.{copy_number};
ghost use Rattle.certificate.specs.Plain.{texts};
ghost use Rattle.certificate.specs.Cert.{Fits, IsCert};
ghost use Rattle.certificate.specs.Left.{parts_left, nodes_left, voters_left};
ghost use Rattle.certificate.specs.Threes.{three_of, three_ids};
ghost use Rattle.certificate.specs.Text.{line_text, part_line, node_line, voter_line};
ghost use Rattle.std.specs.List.{flat_map};
ghost use Rattle.certificate.specs.declared.role.Role.TheVariants.{Voter};

use crate::{Certificate, Role};
use flat_net::FlatNet;
use itoa::Buffer;
use std::alloc::AllocError;
use tmr_base::{CopyNo, NetId, PartId};

/// Puts a line: its words, with a blank between each two, and a line feed.
pub fn put_line(out: &mut Vec<u8>, first: &[u8], rest: &[&[u8]]) -> Result<(), AllocError>
    ensures { OnOk result (out.new.items ≡ out.old.items ++ line_text (first.now ∷ texts rest.now)) }
{
    out.extend_from_slice(first)?;
    for word in rest {
        out.push(b' ')?;
        out.extend_from_slice(word)?;
    }
    out.push(b'\n')?;
    Ok(())
}

/// Puts the line of partition p.
fn put_part(out: &mut Vec<u8>, p: u32, depth: u32) -> Result<(), AllocError>
    ensures { OnOk result (out.new.items ≡ out.old.items ++ line_text (part_line p depth)) }
{
    let mut number_digits = Buffer::new();
    let mut depth_digits = Buffer::new();
    let number = number_digits.format(p);
    let depth = depth_digits.format(depth);
    put_line(
        out,
        b"part",
        &[number.as_bytes(), b"depth".as_slice(), depth.as_bytes()],
    )
}

/// Puts the line of original node x.
fn put_node(
    out: &mut Vec<u8>,
    n: &FlatNet,
    h: &FlatNet,
    x: NetId,
    part: PartId,
    copies: [NetId; 3],
    labels: [u32; 3],
) -> Result<(), AllocError>
    requires node { x.0 < net_count n.now.net }
    requires first { (three_ids copies).first < net_count h.now.net }
    requires second { (three_ids copies).second < net_count h.now.net }
    requires third { (three_ids copies).third < net_count h.now.net }
    ensures { OnOk result (out.new.items ≡ out.old.items ++ line_text (node_line n.now.net h.now.net x.0 part.0 (three_ids copies) (three_of labels))) }
{
    let mut part_digits = Buffer::new();
    let mut first_digits = Buffer::new();
    let mut second_digits = Buffer::new();
    let mut third_digits = Buffer::new();
    let part = part_digits.format(part.0);
    let first = first_digits.format(labels[0]);
    let second = second_digits.format(labels[1]);
    let third = third_digits.format(labels[2]);
    put_line(
        out,
        b"node",
        &[
            n.name(x).bytes(),
            part.as_bytes(),
            h.name(copies[0]).bytes(),
            h.name(copies[1]).bytes(),
            h.name(copies[2]).bytes(),
            first.as_bytes(),
            second.as_bytes(),
            third.as_bytes(),
        ],
    )
}

/// Puts the line of the voter at hardened node g.
fn put_voter(
    out: &mut Vec<u8>,
    n: &FlatNet,
    h: &FlatNet,
    g: NetId,
    x: NetId,
    part: PartId,
    copy: CopyNo,
) -> Result<(), AllocError>
    requires voter { g.0 < net_count h.now.net }
    requires node { x.0 < net_count n.now.net }
    ensures { OnOk result (out.new.items ≡ out.old.items ++ flat_map line_text (voter_line n.now.net h.now.net g.0 (Voter x part copy))) }
{
    let mut part_digits = Buffer::new();
    let mut copy_digits = Buffer::new();
    let part = part_digits.format(part.0);
    let copy = copy_digits.format(copy.number());
    put_line(
        out,
        b"voter",
        &[
            h.name(g).bytes(),
            n.name(x).bytes(),
            part.as_bytes(),
            copy.as_bytes(),
        ],
    )
}

/// Puts the line of partition p, counted from 0.
pub fn put_part_at(out: &mut Vec<u8>, k: &Certificate, p: u32) -> Result<(), AllocError>
    requires { p < length k.now.depth }
    ensures { OnOk result (out.new.items ++ parts_left k.now (p + 1) ≡ out.old.items ++ parts_left k.now p) }
{
    put_part(out, p, k.depth(PartId(p)))?;
    Ok(())
}

/// Puts the line of original node i, counted from 0.
pub fn put_node_at(
    out: &mut Vec<u8>,
    n: &FlatNet,
    h: &FlatNet,
    k: &Certificate,
    i: u32,
) -> Result<(), AllocError>
    requires fits { Fits n.now.net h.now.net k.now }
    requires cert { IsCert k.now }
    requires place { i < length k.now.part }
    ensures { OnOk result (out.new.items ++ nodes_left n.now.net h.now.net k.now (i + 1) ≡ out.old.items ++ nodes_left n.now.net h.now.net k.now i) }
{
    let x = NetId(n.input_count() + i);
    let copies = [
        k.copy(x, CopyNo::First),
        k.copy(x, CopyNo::Second),
        k.copy(x, CopyNo::Third),
    ];
    let labels = [
        k.label(x, CopyNo::First),
        k.label(x, CopyNo::Second),
        k.label(x, CopyNo::Third),
    ];
    put_node(out, n, h, x, k.part(x), copies, labels)?;
    Ok(())
}

/// Puts the line of hardened node j, counted from 0, where it is a voter.
pub fn put_role_at(
    out: &mut Vec<u8>,
    n: &FlatNet,
    h: &FlatNet,
    k: &Certificate,
    j: u32,
) -> Result<(), AllocError>
    requires fits { Fits n.now.net h.now.net k.now }
    requires place { j < length k.now.roles }
    ensures { OnOk result (out.new.items ++ voters_left n.now.net h.now.net k.now (j + 1)
        ≡ out.old.items ++ voters_left n.now.net h.now.net k.now j) }
{
    let g = NetId(h.input_count() + j);
    match k.role(g) {
        Role::Copy { .. } => Ok(()),
        Role::Voter { node, part, copy } => {
            put_voter(out, n, h, g, node, part, copy)?;
            Ok(())
        }
    }
}

/// Puts the first two lines.
pub fn put_head(out: &mut Vec<u8>, version: u8, parts: u32) -> Result<(), AllocError>
    ensures { OnOk result (out.new.items ≡ (out.old.items ++ line_text (codes "tmr-cert" ∷ decimal version ∷ []))
        ++ line_text (codes "parts" ∷ decimal parts ∷ [])) }
{
    let mut version_digits = Buffer::new();
    let mut parts_digits = Buffer::new();
    let version = version_digits.format(version);
    let parts = parts_digits.format(parts);
    put_line(out, b"tmr-cert", &[version.as_bytes()])?;
    put_line(out, b"parts", &[parts.as_bytes()])?;
    Ok(())
}
