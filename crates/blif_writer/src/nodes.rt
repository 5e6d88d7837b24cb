//! The lines of nodes.
ghost use Rattle.std.specs.Prelude.{◌≡◌, ◌<◌, ◌≤◌, ◌+◌, ◌++◌, length, OnOk};
ghost use Rattle.flat_net.specs.Net.{node_of, net_count, IsTable, IsRegister};
ghost use Rattle.blif_writer.specs.Text.{lines_text};
ghost use Rattle.blif_writer.specs.Left.{lines_at, nodes_left};
ghost use Rattle.blif_writer.specs.Marks.{net_in, marks_in};

use crate::ahead::make_room;
use crate::marked::Marked;
use crate::words::{put_control, put_pins, put_rows, put_start, put_word};
use flat_net::{FlatNet, Kind};
use std::alloc::AllocError;
use tmr_base::NetId;

/// Puts the lines of table x.
fn put_table(out: &mut Vec<u8>, net: &FlatNet, x: NetId, free: bool) -> Result<(), AllocError>
    requires range { x.0 < net_count net.now.net }
    requires node { length net.now.net.inputs ≤ x.0 }
    requires table { IsTable (node_of net.now.net x.0) }
    ensures { OnOk result (out.new.items ≡ out.old.items ++ lines_text (lines_at net.now.net (node_of net.now.net x.0) free)) }
{
    out.extend_from_slice(b".names")?;
    put_pins(out, net, x)?;
    put_word(out, net.name(x).bytes())?;
    out.push(b'\n')?;
    put_rows(out, net.cover(x))?;
    Ok(())
}

/// Puts the line of register x, whose value in cycle 0 may be free.
fn put_register(out: &mut Vec<u8>, net: &FlatNet, x: NetId, free: bool) -> Result<(), AllocError>
    requires range { x.0 < net_count net.now.net }
    requires node { length net.now.net.inputs ≤ x.0 }
    requires register { IsRegister (node_of net.now.net x.0) }
    ensures { OnOk result (out.new.items ≡ out.old.items ++ lines_text (lines_at net.now.net (node_of net.now.net x.0) free)) }
{
    out.extend_from_slice(b".latch")?;
    put_pins(out, net, x)?;
    put_word(out, net.name(x).bytes())?;
    put_control(out, net)?;
    put_start(out, net.init(x), free)?;
    out.push(b'\n')?;
    Ok(())
}

/// Puts the lines of net x. An input has none.
#[tactic(auto, using(flat_net::proofs::Bodies::from_kind, crate::proofs::NodeLines::input_put))]
fn put_net(out: &mut Vec<u8>, net: &FlatNet, x: NetId, free: bool) -> Result<(), AllocError>
    requires { x.0 < net_count net.now.net }
    ensures { OnOk result (out.new.items ≡ out.old.items ++ lines_text (lines_at net.now.net (node_of net.now.net x.0) free)) }
{
    match net.kind(x) {
        Kind::Input => Ok(()),
        Kind::Table => put_table(out, net, x, free),
        Kind::Register => put_register(out, net, x, free),
    }
}

/// Puts the lines of all nodes, in order.
pub fn put_nodes(out: &mut Vec<u8>, design: Marked<'_>) -> Result<(), AllocError>
    ensures { OnOk result (out.new.items ≡ out.old.items ++ nodes_left (net_in design.entry) (marks_in design.entry) 0) }
{
    let net = design.net();
    for i in 0..net.node_count() {
        let x = NetId(net.input_count() + i);
        make_room(out, net, i)?;
        put_net(out, net, x, design.is_free(x))?;
    }
    Ok(())
}
