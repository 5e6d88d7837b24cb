//! The lines of the two copies of a node.
ghost use Rattle.std.specs.Prelude.{◌≡◌, ◌<◌, ◌≤◌, ◌++◌, length, OnOk};
ghost use Rattle.flat_net.specs.Net.{net_count, node_of, pins_at, IsTable, IsRegister};
ghost use Rattle.blif_writer.specs.Left.{spaced};
ghost use Rattle.blif_writer.specs.Text.{control_words};
ghost use Rattle.guarded_text.specs.Private.Lines.{guarded_clock, all_tailed, copy_text, AreRowsOf};

use crate::names::put_tailed;
use blif_writer::{put_rows, put_start};
use flat_net::{FlatNet, Kind};
use std::alloc::AllocError;
use tmr_base::NetId;

/// Puts what the copy of node x reads whose names end in this byte.
fn put_pins(out: &mut Vec<u8>, n: &FlatNet, x: NetId, byte: u8) -> Result<(), AllocError>
    requires range { x.0 < net_count n.now.net }
    requires node { length n.now.net.inputs ≤ x.0 }
    ensures { OnOk result (out.new.items ≡ out.old.items ++ spaced (all_tailed n.now.net byte (pins_at (node_of n.now.net x.0)))) }
{
    for j in 0..n.pin_count(x) {
        put_tailed(out, n.name(n.pin(x, j)).bytes(), byte)?;
    }
    Ok(())
}

/// Puts the lines of the copy of table x whose names end in this byte. `rows` are those of its rows.
fn put_table(
    out: &mut Vec<u8>,
    n: &FlatNet,
    x: NetId,
    rows: &[u8],
    byte: u8,
) -> Result<(), AllocError>
    requires range { x.0 < net_count n.now.net }
    requires node { length n.now.net.inputs ≤ x.0 }
    requires table { IsTable (node_of n.now.net x.0) }
    requires rows { AreRowsOf (node_of n.now.net x.0) rows.now }
    ensures { OnOk result (out.new.items ≡ out.old.items ++ copy_text n.now.net byte (node_of n.now.net x.0)) }
{
    out.extend_from_slice(b".names")?;
    put_pins(out, n, x, byte)?;
    put_tailed(out, n.name(x).bytes(), byte)?;
    out.push(b'\n')?;
    out.extend_from_slice(rows)?;
    Ok(())
}

/// Puts the line of the copy of register x whose names end in this byte. `control` is how its clock is told.
fn put_register(
    out: &mut Vec<u8>,
    n: &FlatNet,
    x: NetId,
    control: &[u8],
    byte: u8,
) -> Result<(), AllocError>
    requires range { x.0 < net_count n.now.net }
    requires node { length n.now.net.inputs ≤ x.0 }
    requires register { IsRegister (node_of n.now.net x.0) }
    requires control { control.now ≡ spaced (control_words (guarded_clock n.now.net.clock)) }
    ensures { OnOk result (out.new.items ≡ out.old.items ++ copy_text n.now.net byte (node_of n.now.net x.0)) }
{
    out.extend_from_slice(b".latch")?;
    put_pins(out, n, x, byte)?;
    put_tailed(out, n.name(x).bytes(), byte)?;
    out.extend_from_slice(control)?;
    put_start(out, n.init(x), false)?;
    out.push(b'\n')?;
    Ok(())
}

/// Puts the lines of both copies of table x. `rows` is room for those of its rows.
fn put_two_tables(
    out: &mut Vec<u8>,
    n: &FlatNet,
    x: NetId,
    rows: &mut Vec<u8>,
) -> Result<(), AllocError>
    requires range { x.0 < net_count n.now.net }
    requires node { length n.now.net.inputs ≤ x.0 }
    requires table { IsTable (node_of n.now.net x.0) }
    ensures { OnOk result (out.new.items ≡ (out.old.items ++ copy_text n.now.net 48 (node_of n.now.net x.0)) ++ copy_text n.now.net 49 (node_of n.now.net x.0)) }
{
    rows.clear();
    put_rows(rows, n.cover(x))?;
    put_table(out, n, x, rows, b'0')?;
    put_table(out, n, x, rows, b'1')?;
    Ok(())
}

/// Puts the lines of both copies of node x. `control` is how a register's clock is told, and `rows` is room.
#[tactic(auto, using(flat_net::proofs::Bodies::from_kind))]
pub fn put_twins(
    out: &mut Vec<u8>,
    n: &FlatNet,
    x: NetId,
    control: &[u8],
    rows: &mut Vec<u8>,
) -> Result<(), AllocError>
    requires range { x.0 < net_count n.now.net }
    requires node { length n.now.net.inputs ≤ x.0 }
    requires control { control.now ≡ spaced (control_words (guarded_clock n.now.net.clock)) }
    ensures { OnOk result (out.new.items ≡ (out.old.items ++ copy_text n.now.net 48 (node_of n.now.net x.0)) ++ copy_text n.now.net 49 (node_of n.now.net x.0)) }
{
    match n.kind(x) {
        Kind::Input => Ok(()),
        Kind::Table => put_two_tables(out, n, x, rows),
        Kind::Register => {
            put_register(out, n, x, control, b'0')?;
            put_register(out, n, x, control, b'1')
        }
    }
}
