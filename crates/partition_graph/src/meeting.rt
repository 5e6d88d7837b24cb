//! Where the nets of a hardened design lead.
ghost use Rattle.std.specs.Prelude.{◌≡◌, ◌==◌, ◌&&◌, ◌||◌, ◌<◌, ◌+◌, ℕ, List, length, IfOk, OnOk, nat_lt};
ghost use Rattle.std.specs.List.{list_any};
ghost use Rattle.flat_net.specs.Net.{net_count, node_of, pins_at};
ghost use Rattle.certificate.specs.Cert.{Fits, RoleIsInRange};
ghost use Rattle.partition_graph.specs.Edges.{votes_for, is_voted_for, is_read_at, reads_input, is_put_out, leads_to, AreEdges};
ghost use Rattle.partition_graph.specs.Private.Counting.{ArePlaces, AreHomes};
ghost use Rattle.partition_graph.specs.Private.Meeting.{is_met, AreCounted};

use crate::edges::{Edges, no_edges, note};
use certificate::{Certificate, Role};
use flat_net::FlatNet;
use std::alloc::Global;
use std::collections::BTreeMap;
use tmr_base::{NetId, OutOfMemory};

/// Notes what a hardened node of this role votes on, and for which place.
fn note_role(
    edges: &mut Edges,
    homes: &[usize],
    places: &[usize],
    inputs: u32,
    c: &Certificate,
    role: Role,
) -> Result<(), OutOfMemory>
    requires inputs { inputs ≡ c.now.original_inputs }
    requires range { RoleIsInRange c.now role }
    requires places { ArePlaces c.now places.now }
    requires homes { AreHomes c.now homes.now }
    requires few { length homes.now < 4294967296 }
    requires counted { AreCounted homes.now edges.old }
    ensures counted { OnOk result (AreCounted homes.now edges.new) }
    ensures met { OnOk result ((y a : ℕ) → is_met edges.new y a ≡ (is_met edges.old y a || votes_for c.now y a role)) }
{
    match role {
        Role::Copy { .. } => Ok(()),
        Role::Voter { node, part, .. } => {
            if node.0 < inputs {
                return Ok(());
            }
            note(edges, homes, node.0 as usize, places[part.0 as usize])
        }
    }
}

/// Notes what all voters vote on, and for which places.
fn note_voters(
    edges: &mut Edges,
    homes: &[usize],
    places: &[usize],
    n: &FlatNet,
    h: &FlatNet,
    c: &Certificate,
) -> Result<(), OutOfMemory>
    requires fits { Fits n.now.net h.now.net c.now }
    requires places { ArePlaces c.now places.now }
    requires homes { AreHomes c.now homes.now }
    requires few { length homes.now < 4294967296 }
    requires counted { AreCounted homes.now edges.old }
    ensures counted { OnOk result (AreCounted homes.now edges.new) }
    ensures met { OnOk result ((y a : ℕ) → is_met edges.new y a ≡ (is_met edges.old y a || is_voted_for c.now y a)) }
{
    let inputs = n.input_count();
    let first = c.hardened_inputs();
    for g in 0..h.node_count() {
        let role = c.role(NetId(first + g));
        note_role(edges, homes, places, inputs, c, role)?;
    }
    Ok(())
}

/// Notes which inputs net y reads.
fn note_pins(
    edges: &mut Edges,
    homes: &[usize],
    n: &FlatNet,
    c: &Certificate,
    y: u32,
) -> Result<(), OutOfMemory>
    requires inputs { c.now.original_inputs ≡ length n.now.net.inputs }
    requires nodes { length c.now.part ≡ length n.now.net.nodes }
    requires range { y < net_count n.now.net }
    requires homes { AreHomes c.now homes.now }
    requires few { length homes.now < 4294967296 }
    requires counted { AreCounted homes.now edges.old }
    ensures counted { OnOk result (AreCounted homes.now edges.new) }
    ensures met { OnOk result ((x a : ℕ) → is_met edges.new x a ≡ (is_met edges.old x a || reads_input n.now.net c.now x a y)) }
{
    let inputs = n.input_count();
    let b = homes[y as usize];
    for j in 0..n.pin_count(NetId(y)) {
        let pin = n.pin(NetId(y), j);
        if pin.0 < inputs {
            note(edges, homes, pin.0 as usize, b)?;
        }
    }
    Ok(())
}

/// Notes which inputs all nodes read.
fn note_reads(
    edges: &mut Edges,
    homes: &[usize],
    n: &FlatNet,
    c: &Certificate,
) -> Result<(), OutOfMemory>
    requires inputs { c.now.original_inputs ≡ length n.now.net.inputs }
    requires nodes { length c.now.part ≡ length n.now.net.nodes }
    requires homes { AreHomes c.now homes.now }
    requires few { length homes.now < 4294967296 }
    requires counted { AreCounted homes.now edges.old }
    ensures counted { OnOk result (AreCounted homes.now edges.new) }
    ensures met { OnOk result ((x a : ℕ) → is_met edges.new x a ≡ (is_met edges.old x a || is_read_at n.now.net c.now x a)) }
{
    // What the design keeps.
    let inputs = n.input_count();
    for y in 0..inputs + n.node_count() {
        note_pins(edges, homes, n, c, y)?;
    }
    Ok(())
}

/// Notes which nets are outputs.
fn note_outputs(
    edges: &mut Edges,
    homes: &[usize],
    n: &FlatNet,
    c: &Certificate,
) -> Result<(), OutOfMemory>
    requires inputs { c.now.original_inputs ≡ length n.now.net.inputs }
    requires nodes { length c.now.part ≡ length n.now.net.nodes }
    requires homes { AreHomes c.now homes.now }
    requires few { length homes.now < 4294967296 }
    requires counted { AreCounted homes.now edges.old }
    ensures counted { OnOk result (AreCounted homes.now edges.new) }
    ensures met { OnOk result ((x a : ℕ) → is_met edges.new x a ≡ (is_met edges.old x a || is_put_out n.now.net c.now x a)) }
{
    let outputs = c.parts() as usize + 2;
    for i in 0..n.output_count() {
        note(edges, homes, n.output(i).0 as usize, outputs)?;
    }
    Ok(())
}

/// The edges, with how many nets lead along each. One pass over the roles, the pins and the outputs.
pub fn edges(
    alloc: Global,
    n: &FlatNet,
    h: &FlatNet,
    c: &Certificate,
    places: &[usize],
    homes: &[usize],
) -> Result<BTreeMap<(usize, usize), usize>, OutOfMemory>
    requires fits { Fits n.now.net h.now.net c.now }
    requires places { ArePlaces c.now places.now }
    requires homes { AreHomes c.now homes.now }
    requires few { length homes.now < 4294967296 }
    ensures { IfOk result (λ edges. AreEdges n.now.net c.now edges) }
{
    let mut edges = no_edges(alloc);
    note_voters(&mut edges, homes, places, n, h, c)?;
    note_reads(&mut edges, homes, n, c)?;
    note_outputs(&mut edges, homes, n, c)?;
    let Edges { met: _, counts } = edges;
    Ok(counts)
}
