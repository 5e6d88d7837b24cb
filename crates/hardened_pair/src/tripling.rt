//! The names, nodes and roles of the hardened design.
ghost use Rattle.std.specs.Prelude.{◌≡◌, ◌+◌, ◌*◌, ◌<◌, ◌≤◌, ◌-◌, ◌++◌, [], ◌∷◌, ℕ, List, All, map, length, false, IfOk, OnOk};
ghost use Rattle.std.specs.List.{flat_map};
ghost use Rattle.tmr_base.specs.Copies.{copy_number};
ghost use Rattle.tmr_base.specs.Names.{stem_text};
ghost use Rattle.flat_net.specs.Net.{Node, node_name, name_of, net_count, node_of, pins_at, IsTable, IsRegister};
ghost use Rattle.flat_net.specs.Nodes.{number_of};
ghost use Rattle.flat_net.specs.Packs.{Packs};
ghost use Rattle.certificate.specs.declared.role.Role.TheVariants.{Copy, Voter};
ghost use Rattle.table_cover.specs.Pushing.{with_row};
ghost use Rattle.triplicate.specs.Blocks.{copies_of, voters_for};
ghost use Rattle.triplicate.specs.Form.{majority_cover};
ghost use Rattle.hardened_pair.specs.Private.Layouts.{IsLayout, net_of, roles_of, first_pins_of, block_of};
ghost use Rattle.hardened_pair.specs.Private.Made.{IsMade, IsNext, IsVotedNet, shifted_node, PushesNode};

use crate::layout::{Layout, room_of};
use crate::naming::{input_names, put_names};
use crate::pins::{first_copy, first_pins};
use certificate::Role;
use flat_net::{FlatNet, Kind, PackedNodes, nodes_of, push_register, push_table};
use indexmap::IndexSet;
use std::alloc::Global;
use table_cover::Cover;
use tmr_base::{CopyNo, Name, NetId, OutOfMemory, PartId, copy_name, voter_on_stem, voter_stem};

/// So many names wait before they are put into the set. They come in threes.
const MANY: usize = 513;

/// The names, nodes and roles of a part of the hardened design, and room for what one copy reads. The last names wait
/// outside the set.
#[derive(Drop)]
pub struct Made {
    pub names: IndexSet<Name>,
    pub waiting: Vec<Name>,
    pub nodes: PackedNodes,
    pub roles: Vec<Role>,
    pub room: Vec<NetId>,
}

/// A net that is voted on: its number, that of its first copy, and the cover of each voter.
#[derive(Drop)]
struct VotedNet<'a> {
    net: NetId,
    copy: u32,
    majority: &'a Cover,
}

/// What copy c of a node reads, where the first copy reads these, put into `room`.
fn shift(room: &mut Vec<NetId>, pins: &[u32], c: CopyNo) -> Result<(), OutOfMemory>
    requires { All (λ p. p + 3 < 4294967296) pins.now }
    ensures { OnOk result (map number_of room.new.items ≡ map (λ p. p + copy_number c) pins.now) }
{
    room.clear();
    let behind = c.number();
    for pin in pins {
        room.push(NetId(*pin + behind))?;
    }
    Ok(())
}

/// Adds copy c of table x. `room` is for what it reads.
fn push_table_copy(
    alloc: Global,
    n: &FlatNet,
    x: NetId,
    c: CopyNo,
    pins: &[u32],
    room: &mut Vec<NetId>,
    nodes: &mut PackedNodes,
) -> Result<(), OutOfMemory>
    requires range { x.0 < net_count n.now.net }
    requires node { length n.now.net.inputs ≤ x.0 }
    requires table { IsTable (node_of n.now.net x.0) }
    requires few { All (λ p. p + 3 < 4294967296) pins.now }
    requires room { length nodes.old.pins.items + length pins.now < 4294967296 }
    ensures { OnOk result (PushesNode nodes.old nodes.new (shifted_node c pins.now (node_of n.now.net x.0))) }
{
    shift(room, pins, c)?;
    let cover = n.cover(x).copy(alloc)?;
    push_table(nodes, cover, room.as_slice())?;
    Ok(())
}

/// Adds copy c of register x.
fn push_register_copy(
    n: &FlatNet,
    x: NetId,
    c: CopyNo,
    pins: &[u32],
    nodes: &mut PackedNodes,
) -> Result<(), OutOfMemory>
    requires range { x.0 < net_count n.now.net }
    requires node { length n.now.net.inputs ≤ x.0 }
    requires register { IsRegister (node_of n.now.net x.0) }
    requires few { All (λ p. p + 3 < 4294967296) pins.now }
    requires pins { 0 < length pins.now }
    requires room { length nodes.old.pins.items + length pins.now < 4294967296 }
    requires registers { nodes.old.registers + 1 < 4294967296 }
    ensures { OnOk result (PushesNode nodes.old nodes.new (shifted_node c pins.now (node_of n.now.net x.0))) }
{
    let pin = pins[0] + c.number();
    push_register(nodes, n.init(x), NetId(pin))?;
    Ok(())
}

/// Adds copy c of node x. `room` is for what it reads.
fn push_node_copy(
    alloc: Global,
    n: &FlatNet,
    x: NetId,
    c: CopyNo,
    pins: &[u32],
    room: &mut Vec<NetId>,
    nodes: &mut PackedNodes,
) -> Result<(), OutOfMemory>
    requires range { x.0 < net_count n.now.net }
    requires node { length n.now.net.inputs ≤ x.0 }
    requires few { All (λ p. p + 3 < 4294967296) pins.now }
    requires pins { length pins.now ≡ length (pins_at (node_of n.now.net x.0)) }
    requires room { length nodes.old.pins.items + length pins.now < 4294967296 }
    requires registers { nodes.old.registers + 1 < 4294967296 }
    ensures { OnOk result (PushesNode nodes.old nodes.new (shifted_node c pins.now (node_of n.now.net x.0))) }
{
    match n.kind(x) {
        Kind::Input => Ok(()),
        Kind::Table => push_table_copy(alloc, n, x, c, pins, room, nodes),
        Kind::Register => push_register_copy(n, x, c, pins, nodes),
    }
}

/// Adds copy c of node x, of which the first copy reads these nets.
fn push_copy(
    alloc: Global,
    layout: &Layout,
    x: NetId,
    c: CopyNo,
    pins: &[u32],
    made: &mut Made,
) -> Result<(), OutOfMemory>
    requires layout { IsLayout layout.now }
    requires range { x.0 < net_count (net_of layout.now) }
    requires node { length (net_of layout.now).inputs ≤ x.0 }
    requires pins { pins.now ≡ first_pins_of layout.now (x.0 - length (net_of layout.now).inputs) }
    requires few { All (λ p. p + 3 < 4294967296) pins.now }
    requires made { IsMade layout.now made.old }
    requires next { IsNext layout.now made.old.roles.items (Copy x c ∷ []) }
    ensures made { OnOk result (IsMade layout.now made.new) }
    ensures roles { OnOk result (made.new.roles.items ≡ made.old.roles.items ++ Copy x c ∷ []) }
{
    let n = layout.net;
    let name = copy_name(alloc, n.name(x), c)?;
    made.waiting.push(name)?;
    push_node_copy(alloc, n, x, c, pins, &mut made.room, &mut made.nodes)?;
    made.roles.push(Role::Copy { node: x, copy: c })?;
    Ok(())
}

/// Adds the copies of node x.
fn push_copies(
    alloc: Global,
    layout: &Layout,
    x: NetId,
    pins: &[u32],
    made: &mut Made,
) -> Result<(), OutOfMemory>
    requires layout { IsLayout layout.now }
    requires range { x.0 < net_count (net_of layout.now) }
    requires node { length (net_of layout.now).inputs ≤ x.0 }
    requires pins { pins.now ≡ first_pins_of layout.now (x.0 - length (net_of layout.now).inputs) }
    requires few { All (λ p. p + 3 < 4294967296) pins.now }
    requires made { IsMade layout.now made.old }
    requires next { IsNext layout.now made.old.roles.items (copies_of (net_of layout.now) x.0) }
    ensures made { OnOk result (IsMade layout.now made.new) }
    ensures roles { OnOk result (made.new.roles.items ≡ made.old.roles.items ++ copies_of (net_of layout.now) x.0) }
{
    for c in [CopyNo::First, CopyNo::Second, CopyNo::Third] {
        push_copy(alloc, layout, x, c, pins, made)?;
    }
    Ok(())
}

/// Adds the voter of a net for partition p that gives copy c. `stem` begins its name.
fn push_voter(
    alloc: Global,
    layout: &Layout,
    voted: &VotedNet<'_>,
    p: PartId,
    c: CopyNo,
    stem: &Name,
    made: &mut Made,
) -> Result<(), OutOfMemory>
    requires layout { IsLayout layout.now }
    requires voted { IsVotedNet layout.now voted.now }
    requires stem { stem.now ≡ stem_text (name_of (net_of layout.now) voted.now.net.0) p.0 }
    requires made { IsMade layout.now made.old }
    requires next { IsNext layout.now made.old.roles.items (Voter voted.now.net p c ∷ []) }
    ensures made { OnOk result (IsMade layout.now made.new) }
    ensures roles { OnOk result (made.new.roles.items ≡ made.old.roles.items ++ Voter voted.now.net p c ∷ []) }
{
    let name = voter_on_stem(alloc, stem, c)?;
    made.waiting.push(name)?;
    let majority = voted.majority.copy(alloc)?;
    let copy = voted.copy;
    let pins = [NetId(copy), NetId(copy + 1), NetId(copy + 2)];
    push_table(&mut made.nodes, majority, &pins)?;
    made.roles.push(Role::Voter {
        node: voted.net,
        part: p,
        copy: c,
    })?;
    Ok(())
}

/// Adds the voters of a net for partition p.
fn push_three_voters(
    alloc: Global,
    layout: &Layout,
    voted: &VotedNet<'_>,
    p: PartId,
    made: &mut Made,
) -> Result<(), OutOfMemory>
    requires layout { IsLayout layout.now }
    requires voted { IsVotedNet layout.now voted.now }
    requires made { IsMade layout.now made.old }
    requires next { IsNext layout.now made.old.roles.items (voters_for voted.now.net.0 p.0) }
    ensures made { OnOk result (IsMade layout.now made.new) }
    ensures roles { OnOk result (made.new.roles.items ≡ made.old.roles.items ++ voters_for voted.now.net.0 p.0) }
{
    let stem = voter_stem(alloc, layout.net.name(voted.net), p)?;
    for c in [CopyNo::First, CopyNo::Second, CopyNo::Third] {
        push_voter(alloc, layout, voted, p, c, &stem, made)?;
    }
    Ok(())
}

/// Puts the names that wait into the set.
fn put_waiting(alloc: Global, layout: &Layout, made: &mut Made) -> Result<(), OutOfMemory>
    requires layout { IsLayout layout.now }
    requires made { IsMade layout.now made.old }
    requires next { IsNext layout.now made.old.roles.items [] }
    ensures made { OnOk result (IsMade layout.now made.new) }
    ensures roles { OnOk result (made.new.roles.items ≡ made.old.roles.items) }
    ensures waiting { OnOk result (made.new.waiting.items ≡ []) }
{
    let _net = layout.net;
    put_names(alloc, &mut made.names, &mut made.waiting)?;
    Ok(())
}

/// Puts the names that wait into the set, if there are many.
fn put_if_many(alloc: Global, layout: &Layout, made: &mut Made) -> Result<(), OutOfMemory>
    requires layout { IsLayout layout.now }
    requires made { IsMade layout.now made.old }
    requires next { IsNext layout.now made.old.roles.items [] }
    ensures made { OnOk result (IsMade layout.now made.new) }
    ensures roles { OnOk result (made.new.roles.items ≡ made.old.roles.items) }
{
    if made.waiting.len() < MANY {
        return Ok(());
    }
    put_waiting(alloc, layout, made)?;
    Ok(())
}

/// Adds the voters of a net for these partitions.
fn push_voters(
    alloc: Global,
    layout: &Layout,
    voted: &VotedNet<'_>,
    row: &[u32],
    made: &mut Made,
) -> Result<(), OutOfMemory>
    requires layout { IsLayout layout.now }
    requires voted { IsVotedNet layout.now voted.now }
    requires made { IsMade layout.now made.old }
    requires next { IsNext layout.now made.old.roles.items (flat_map (voters_for voted.now.net.0) row.now) }
    ensures made { OnOk result (IsMade layout.now made.new) }
    ensures roles { OnOk result (made.new.roles.items ≡ made.old.roles.items ++ flat_map (voters_for voted.now.net.0) row.now) }
{
    for p in row {
        push_three_voters(alloc, layout, voted, PartId(*p), made)?;
        put_if_many(alloc, layout, made)?;
    }
    Ok(())
}

/// Adds the copies of net x, if it is a node. `pins` is room for numbers of pins.
fn push_own_copies(
    alloc: Global,
    layout: &Layout,
    x: u32,
    pins: &mut Vec<u32>,
    made: &mut Made,
) -> Result<(), OutOfMemory>
    requires layout { IsLayout layout.now }
    requires range { x < net_count (net_of layout.now) }
    requires made { IsMade layout.now made.old }
    requires next { IsNext layout.now made.old.roles.items (copies_of (net_of layout.now) x) }
    ensures made { OnOk result (IsMade layout.now made.new) }
    ensures roles { OnOk result (made.new.roles.items ≡ made.old.roles.items ++ copies_of (net_of layout.now) x) }
{
    let n = layout.net;
    let _nodes = nodes_of(n);
    let inputs = n.input_count();
    if x < inputs {
        return Ok(());
    }
    let _part = layout.plan.parts.of(x - inputs);
    first_pins(layout, x - inputs, pins)?;
    push_copies(alloc, layout, NetId(x), pins, made)?;
    Ok(())
}

/// Adds what stands for net x.
fn push_block(
    alloc: Global,
    layout: &Layout,
    x: u32,
    cover: &Cover,
    pins: &mut Vec<u32>,
    made: &mut Made,
) -> Result<(), OutOfMemory>
    requires layout { IsLayout layout.now }
    requires range { x < net_count (net_of layout.now) }
    requires cover { cover.now ≡ majority_cover }
    requires made { IsMade layout.now made.old }
    requires next { IsNext layout.now made.old.roles.items (block_of layout.now x) }
    ensures made { OnOk result (IsMade layout.now made.new) }
    ensures roles { OnOk result (made.new.roles.items ≡ made.old.roles.items ++ block_of layout.now x) }
{
    push_own_copies(alloc, layout, x, pins, made)?;
    let copy = first_copy(layout, x);
    let voted = VotedNet {
        net: NetId(x),
        copy,
        majority: cover,
    };
    push_voters(alloc, layout, &voted, layout.plan.voters.row(x), made)?;
    Ok(())
}

/// Adds a row of marks at which the value is 1.
fn push_majority_row(cover: &mut Cover, row: &[u8]) -> Result<(), OutOfMemory>
    requires { length cover.old.rows < 4294967295 }
    ensures { OnOk result (cover.new ≡ with_row cover.old row.now 49) }
{
    match cover.push_row(row, b'1') {
        Ok(()) => Ok(()),
        Err(_) => Err(OutOfMemory),
    }
}

/// The majority of three.
fn majority(alloc: Global) -> Result<Cover, OutOfMemory>
    ensures { IfOk result (λ cover. cover ≡ majority_cover) }
{
    let mut cover = Cover::new(alloc, 3);
    push_majority_row(&mut cover, b"11-")?;
    push_majority_row(&mut cover, b"1-1")?;
    push_majority_row(&mut cover, b"-11")?;
    Ok(cover)
}

/// No nodes, with room for so many nodes and pins.
fn room_for_nodes(alloc: Global, nodes: usize, pins: usize) -> Result<PackedNodes, OutOfMemory>
    ensures { IfOk result (λ nodes. Packs [] nodes []) }
{
    let bodies = Vec::with_capacity(alloc, nodes)?;
    let ends = Vec::with_capacity(alloc, nodes)?;
    let pins = Vec::with_capacity(alloc, pins)?;
    Ok(PackedNodes {
        bodies,
        ends,
        pins,
        registers: 0,
    })
}

/// How many pins the hardened nodes have, where there are so many hardened nets.
fn pin_room(n: &FlatNet, nets: u32) -> usize {
    let copies = 3 * (n.input_count() as usize + nodes_of(n) as usize);
    3 * n.pin_total() as usize + 3 * (nets as usize).saturating_sub(copies)
}

/// Nothing made, but for the names of the copies of inputs, with room for so many nets.
fn nothing_made(alloc: Global, layout: &Layout) -> Result<Made, OutOfMemory>
    requires { IsLayout layout.now }
    ensures made { IfOk result (λ made. IsMade layout.now made) }
    ensures roles { IfOk result (λ made. made.roles.items ≡ []) }
{
    let n = layout.net;
    let room = room_of(layout);
    let names = input_names(alloc, n, room as usize)?;
    let nodes = room_for_nodes(alloc, room as usize, pin_room(n, room))?;
    let roles = Vec::with_capacity(alloc, room as usize)?;
    Ok(Made {
        names,
        waiting: Vec::with_capacity(alloc, MANY)?,
        nodes,
        roles,
        room: Vec::new(alloc),
    })
}

/// The names, nodes and roles of the hardened design.
pub fn make_tripled(alloc: Global, layout: &Layout) -> Result<Made, OutOfMemory>
    requires { IsLayout layout.now }
    ensures made { IfOk result (λ made. IsMade layout.now made) }
    ensures waiting { IfOk result (λ made. made.waiting.items ≡ []) }
    ensures roles { IfOk result (λ made. made.roles.items ≡ roles_of layout.now) }
{
    let n = layout.net;
    let mut made = nothing_made(alloc, layout)?;
    let cover = majority(alloc)?;
    let mut pins = Vec::new(alloc);
    let nets = n.input_count() + nodes_of(n);
    for x in 0..nets {
        push_block(alloc, layout, x, &cover, &mut pins, &mut made)?;
        put_if_many(alloc, layout, &mut made)?;
    }
    put_waiting(alloc, layout, &mut made)?;
    Ok(made)
}
