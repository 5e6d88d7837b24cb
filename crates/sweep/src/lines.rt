//! The lines of a sweep.
ghost use Rattle.std.specs.Prelude.{◌≡◌, ◌++◌, ◌∷◌, [], ◌<◌, ◌≤◌, ◌+◌, codes, length, slice_get, Some, OnOk};
ghost use Rattle.std.specs.Fmt.{decimal};
ghost use Rattle.flat_net.specs.Net.{register_count};
ghost use Rattle.certificate.specs.Plain.{texts};
ghost use Rattle.certificate.specs.Text.{line_text};
ghost use Rattle.sweep.specs.Sweep.{percent, original_line, swept_line};
ghost use Rattle.sweep.specs.Private.Written.{lines_left};

use crate::swept::Swept;
use flat_net::{FlatNet, nodes_of};
use itoa::Buffer;
use std::alloc::AllocError;

/// Puts a line: its words, with a blank between each two, and a line feed.
fn put_line(out: &mut Vec<u8>, first: &[u8], rest: &[&[u8]]) -> Result<(), AllocError>
    ensures { OnOk result (out.new.items ≡ out.old.items ++ line_text (first.now ∷ texts rest.now)) }
{
    out.extend_from_slice(first)?;
    for word in rest {
        out.push(b' ')?;
        out.extend_from_slice(word)?;
    }
    out.push(b'\n')?;
    Ok(())
}

/// Puts the line of the original.
pub fn put_original(out: &mut Vec<u8>, n: &FlatNet, levels: u32) -> Result<(), AllocError>
    ensures { OnOk result (out.new.items ≡ out.old.items ++ line_text (original_line n.now.net levels)) }
{
    let mut nodes_digits = Buffer::new();
    let mut registers_digits = Buffer::new();
    let mut levels_digits = Buffer::new();
    let nodes = nodes_digits.format(n.node_count());
    let registers = registers_digits.format(n.register_count());
    let levels = levels_digits.format(levels);
    put_line(
        out,
        b"nodes",
        &[
            nodes.as_bytes(),
            b"registers".as_slice(),
            registers.as_bytes(),
            b"levels".as_slice(),
            levels.as_bytes(),
        ],
    )
}

/// So many voters in per cent of the three copies of so many nodes, rounded down.
fn percent(voters: u32, nodes: u32) -> u64
    ensures { result ≡ percent voters nodes }
{
    if nodes == 0 {
        return 0;
    }
    100 * u64::from(voters) / (3 * u64::from(nodes))
}

/// Puts the line of one size.
fn put_size(out: &mut Vec<u8>, n: &FlatNet, s: &Swept) -> Result<(), AllocError>
    ensures { OnOk result (out.new.items ≡ out.old.items ++ line_text (swept_line n.now.net s.now)) }
{
    let mut size_digits = Buffer::new();
    let mut partitions_digits = Buffer::new();
    let mut voters_digits = Buffer::new();
    let mut percent_digits = Buffer::new();
    let mut depth_digits = Buffer::new();
    let mut levels_digits = Buffer::new();
    let mut near_digits = Buffer::new();
    let percent = percent(s.voters, n.node_count());
    let size = size_digits.format(s.size);
    let partitions = partitions_digits.format(s.partitions);
    let voters = voters_digits.format(s.voters);
    let percent = percent_digits.format(percent);
    let depth = depth_digits.format(s.depth);
    let levels = levels_digits.format(s.levels);
    let near = near_digits.format(s.near);
    put_line(
        out,
        b"size",
        &[
            size.as_bytes(),
            b"partitions".as_slice(),
            partitions.as_bytes(),
            b"voters".as_slice(),
            voters.as_bytes(),
            b"percent".as_slice(),
            percent.as_bytes(),
            b"depth".as_slice(),
            depth.as_bytes(),
            b"levels".as_slice(),
            levels.as_bytes(),
            b"near".as_slice(),
            near.as_bytes(),
        ],
    )
}

/// Line i.
fn line_at(lines: &[Swept], i: usize) -> &Swept
    requires { i < length lines.now }
    ensures { slice_get lines.now i ≡ Some result.now }
{
    &lines[i]
}

/// Puts the lines of all sizes.
pub fn put_swept(out: &mut Vec<u8>, n: &FlatNet, lines: &[Swept]) -> Result<(), AllocError>
    ensures { OnOk result (out.new.items ≡ out.old.items ++ lines_left n.now.net lines.now 0) }
{
    for i in 0..lines.len() {
        put_size(out, n, line_at(lines, i))?;
    }
    Ok(())
}
