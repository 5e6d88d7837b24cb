//! The lines of an exposure.
ghost use Rattle.std.specs.Prelude.{◌≡◌, ◌+◌, ◌<◌, ◌++◌, ◌∷◌, [], nat_lt, codes, length, OnOk};
ghost use Rattle.std.specs.List.{flat_map};
ghost use Rattle.std.specs.Fmt.{decimal};
ghost use Rattle.certificate.specs.Plain.{texts};
ghost use Rattle.certificate.specs.Text.{line_text};
ghost use Rattle.exposure.specs.Text.{count_words, input_lines, part_lines};
ghost use Rattle.exposure.specs.Private.Left.{AreCounted, lines_left};

use crate::counting::CopyCounts;
use crate::nearness::near;
use certificate::Certificate;
use flat_net::FlatNet;
use itoa::Buffer;
use std::alloc::AllocError;
use tmr_base::PartId;

/// Puts a line: its words, with a blank between each two, and a line feed.
fn put_line(out: &mut Vec<u8>, first: &[u8], rest: &[&[u8]]) -> Result<(), AllocError>
    ensures { OnOk result (out.new.items ≡ out.old.items ++ line_text (first.now ∷ texts rest.now)) }
{
    out.extend_from_slice(first)?;
    for word in rest {
        out.push(b' ')?;
        out.extend_from_slice(word)?;
    }
    out.push(b'\n')?;
    Ok(())
}

/// Puts the line of partition p, of which the copies have so many nodes.
fn put_counts(
    out: &mut Vec<u8>,
    p: u32,
    first: u32,
    second: u32,
    third: u32,
    depth: u32,
) -> Result<(), AllocError>
    ensures { OnOk result (out.new.items ≡ out.old.items ++ line_text (codes "part" ∷ decimal p ∷ count_words first second third depth)) }
{
    let mut part_digits = Buffer::new();
    let mut first_digits = Buffer::new();
    let mut second_digits = Buffer::new();
    let mut third_digits = Buffer::new();
    let mut depth_digits = Buffer::new();
    let mut near_digits = Buffer::new();
    let near = near(first, second, third, depth);
    let part = part_digits.format(p);
    let first = first_digits.format(first);
    let second = second_digits.format(second);
    let third = third_digits.format(third);
    let depth = depth_digits.format(depth);
    let near = near_digits.format(near);
    put_line(
        out,
        b"part",
        &[
            part.as_bytes(),
            b"copies".as_slice(),
            first.as_bytes(),
            second.as_bytes(),
            third.as_bytes(),
            b"depth".as_slice(),
            depth.as_bytes(),
            b"near".as_slice(),
            near.as_bytes(),
        ],
    )
}

/// Some copy has nodes.
fn has_nodes(first: u32, second: u32, third: u32) -> bool
    ensures { result ≡ nat_lt 0 (first + second + third) }
{
    first > 0 || second > 0 || third > 0
}

/// Puts the line of partition p, if it has nodes.
fn put_part(
    out: &mut Vec<u8>,
    c: &Certificate,
    counts: &CopyCounts,
    p: u32,
) -> Result<(), AllocError>
    requires part { p < length c.now.depth }
    requires counts { AreCounted c.now counts.now }
    ensures { OnOk result (out.new.items ≡ out.old.items ++ flat_map line_text (part_lines c.now p)) }
{
    let first = counts.first[p as usize];
    let second = counts.second[p as usize];
    let third = counts.third[p as usize];
    if !has_nodes(first, second, third) {
        return Ok(());
    }
    put_counts(out, p, first, second, third, c.depth(PartId(p)))?;
    Ok(())
}

/// Puts the lines of all partitions that have nodes.
pub fn put_parts(out: &mut Vec<u8>, c: &Certificate, counts: &CopyCounts) -> Result<(), AllocError>
    requires { AreCounted c.now counts.now }
    ensures { OnOk result (out.new.items ≡ out.old.items ++ lines_left c.now 0) }
{
    for p in 0..c.parts() {
        put_part(out, c, counts, p)?;
    }
    Ok(())
}

/// Puts the line of so many inputs.
fn put_input_counts(out: &mut Vec<u8>, inputs: u32) -> Result<(), AllocError>
    ensures { OnOk result (out.new.items ≡ out.old.items ++ line_text (codes "inputs" ∷ count_words inputs inputs inputs 0)) }
{
    let mut inputs_digits = Buffer::new();
    let mut depth_digits = Buffer::new();
    let mut near_digits = Buffer::new();
    let near = near(inputs, inputs, inputs, 0);
    let inputs = inputs_digits.format(inputs);
    let depth = depth_digits.format(0u32);
    let near = near_digits.format(near);
    put_line(
        out,
        b"inputs",
        &[
            b"copies".as_slice(),
            inputs.as_bytes(),
            inputs.as_bytes(),
            inputs.as_bytes(),
            b"depth".as_slice(),
            depth.as_bytes(),
            b"near".as_slice(),
            near.as_bytes(),
        ],
    )
}

/// Puts the line of the inputs in version 2.
pub fn put_inputs(out: &mut Vec<u8>, n: &FlatNet, c: &Certificate) -> Result<(), AllocError>
    requires { c.now.original_inputs ≡ length n.now.net.inputs }
    ensures { OnOk result (out.new.items ≡ out.old.items ++ flat_map line_text (input_lines c.now)) }
{
    if c.version() == 1 {
        return Ok(());
    }
    put_input_counts(out, n.input_count())?;
    Ok(())
}

/// Puts the line of the sum.
pub fn put_total(out: &mut Vec<u8>, near: u128) -> Result<(), AllocError>
    ensures { OnOk result (out.new.items ≡ out.old.items ++ line_text (codes "near" ∷ decimal near ∷ [])) }
{
    let mut digits = Buffer::new();
    let near = digits.format(near);
    put_line(out, b"near", &[near.as_bytes()])
}
