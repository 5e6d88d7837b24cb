//! The lines of the copies of nodes.
ghost use Rattle.std.specs.Prelude.{◌≡◌, ◌<◌, ◌+◌, ◌++◌, ◌∷◌, length, map, OnOk};
ghost use Rattle.std.specs.List.{range_with_len};
ghost use Rattle.flat_net.specs.Net.{net_count, node_of, pins_at};
ghost use Rattle.feedback_cut.specs.Inner.{node_pins};
ghost use Rattle.blif_writer.specs.Left.{spaced};
ghost use Rattle.blif_writer.specs.Text.{control_words, lines_text};
ghost use Rattle.triplicate.specs.Blocks.{hardened_clock};
ghost use Rattle.triplicate.specs.Planned.{votes_in, plan_votes};
ghost use Rattle.triplicate.specs.Pins.{AreVotesOf};
ghost use Rattle.triplicate.specs.Taps.{AreTaps};
ghost use Rattle.hardened_text.specs.Private.Spelled.{pin_spelled};
ghost use Rattle.hardened_text.specs.Private.Lines.{pin_names, copy_lines, first_word, ending_of};
ghost use Rattle.hardened_text.specs.Private.Pieces.{ArePieces, pins_of, copy_spelled};
ghost use Rattle.tmr_base.specs.declared.copies.CopyNo.TheVariants.{First, Second, Third};

use crate::names::{put_copy_name, put_voter_name};
use blif_writer::{put_rows, put_start};
use flat_net::{FlatNet, Kind, nodes_of};
use itoa::Buffer;
use std::alloc::{AllocError, Global};
use tmr_base::{CopyNo, NetId};
use triplicate::Plan;

/// What the lines of each copy of a node are made of: the digits of its partition, which of its pins are voted, the first
/// word, and all that stands behind the copy's name.
#[derive(Drop)]
struct Pieces<'a> {
    net: &'a FlatNet,
    node: NetId,
    digits: &'a [u8],
    votes: &'a [bool],
    word: &'static [u8],
    ending: &'a [u8],
}

/// Puts a blank and what copy c reads at pin j.
fn put_pin(out: &mut Vec<u8>, pieces: &Pieces<'_>, c: CopyNo, j: u32) -> Result<(), AllocError>
    requires pieces { ArePieces pieces.now }
    requires pin { j < length (pins_at (node_of pieces.now.net.now.net pieces.now.node.0)) }
    ensures { OnOk result (out.new.items ≡ out.old.items ++ 32 ∷ pin_spelled pieces.now.net.now.net pieces.now.digits.now pieces.now.votes.now pieces.now.node.0 c j) }
{
    let name = pieces.net.name(pieces.net.pin(pieces.node, j)).bytes();
    if pieces.votes[j as usize] {
        put_voter_name(out, name, pieces.digits, c)
    } else {
        put_copy_name(out, name, c)
    }
}

/// Puts what copy c reads.
fn put_pins(out: &mut Vec<u8>, pieces: &Pieces<'_>, c: CopyNo) -> Result<(), AllocError>
    requires { ArePieces pieces.now }
    ensures { OnOk result (out.new.items ≡ out.old.items ++ spaced (pins_of pieces.now c)) }
{
    for j in 0..pieces.net.pin_count(pieces.node) {
        put_pin(out, pieces, c, j)?;
    }
    Ok(())
}

/// Puts the lines of copy c.
fn put_copy(out: &mut Vec<u8>, pieces: &Pieces<'_>, c: CopyNo) -> Result<(), AllocError>
    requires { ArePieces pieces.now }
    ensures { OnOk result (out.new.items ≡ out.old.items ++ copy_spelled pieces.now c) }
{
    out.extend_from_slice(pieces.word)?;
    put_pins(out, pieces, c)?;
    put_copy_name(out, pieces.net.name(pieces.node).bytes(), c)?;
    out.extend_from_slice(pieces.ending)?;
    Ok(())
}

/// Puts the lines of the three copies.
fn put_three(out: &mut Vec<u8>, pieces: &Pieces<'_>) -> Result<(), AllocError>
    requires { ArePieces pieces.now }
    ensures { OnOk result (out.new.items ≡ ((out.old.items ++ copy_spelled pieces.now First) ++ copy_spelled pieces.now Second) ++ copy_spelled pieces.now Third) }
{
    put_copy(out, pieces, CopyNo::First)?;
    put_copy(out, pieces, CopyNo::Second)?;
    put_copy(out, pieces, CopyNo::Third)?;
    Ok(())
}

/// Which pins of node y are voted, put into `votes`.
fn note_votes(n: &FlatNet, plan: &Plan, y: u32, votes: &mut Vec<bool>) -> Result<(), AllocError>
    requires taps { AreTaps n.now.net plan.now.parts (plan_votes n.now.net plan.now) plan.now.taps }
    requires node { y < length n.now.net.nodes }
    ensures { OnOk result (votes.new.items ≡ map (plan_votes n.now.net plan.now y) (range_with_len 0 (length (node_pins n.now.net y)))) }
{
    votes.clear();
    let _nodes = nodes_of(n);
    let inputs = n.input_count();
    let count = n.pin_count(NetId(inputs + y));
    for j in 0..count {
        votes.push(plan.is_voted(n, y, j))?;
    }
    Ok(())
}

/// The first word of a net's lines. An input has no lines.
fn first_word(kind: Kind) -> &'static [u8]
    ensures { result.now ≡ first_word kind }
{
    match kind {
        Kind::Input => b"",
        Kind::Table => b".names",
        Kind::Register => b".latch",
    }
}

/// What stands behind the name of net x in its lines, put into `ending`: a table's rows, or a register's clock and the value
/// that it begins with. `control` is how the clock is told.
#[tactic(auto, using(flat_net::proofs::Bodies::from_kind, crate::proofs::CopyPuts::endings))]
fn note_ending(
    n: &FlatNet,
    x: NetId,
    control: &[u8],
    free: bool,
    ending: &mut Vec<u8>,
) -> Result<(), AllocError>
    requires range { x.0 < net_count n.now.net }
    requires control { control.now ≡ spaced (control_words (hardened_clock n.now.net.clock)) }
    ensures { OnOk result (ending.new.items ≡ ending_of (hardened_clock n.now.net.clock) free (node_of n.now.net x.0)) }
{
    ending.clear();
    match n.kind(x) {
        Kind::Input => Ok(()),
        Kind::Table => {
            ending.push(b'\n')?;
            put_rows(ending, n.cover(x))
        }
        Kind::Register => {
            ending.extend_from_slice(control)?;
            put_start(ending, n.init(x), free)?;
            ending.push(b'\n')?;
            Ok(())
        }
    }
}

/// Room for what is known of one net while what stands for it is written.
#[derive(Drop)]
pub struct Room {
    votes: Vec<bool>,
    ending: Vec<u8>,
    /// What the lines of its voters begin with.
    pub head: Vec<u8>,
}

impl Room {
    /// Room that is empty.
    pub fn new(alloc: Global) -> Room {
        Room {
            votes: Vec::new(alloc),
            ending: Vec::new(alloc),
            head: Vec::new(alloc),
        }
    }
}

/// Puts the lines of the copies of node y. `control` is how a register's clock is told.
pub fn put_copies(
    out: &mut Vec<u8>,
    n: &FlatNet,
    plan: &Plan,
    y: u32,
    control: &[u8],
    free: bool,
    room: &mut Room,
) -> Result<(), AllocError>
    requires planned { AreVotesOf n.now.net plan.now.parts (votes_in plan.now) }
    requires taps { AreTaps n.now.net plan.now.parts (plan_votes n.now.net plan.now) plan.now.taps }
    requires node { y < length n.now.net.nodes }
    requires control { control.now ≡ spaced (control_words (hardened_clock n.now.net.clock)) }
    ensures { OnOk result (out.new.items ≡ ((out.old.items ++ lines_text (copy_lines (hardened_clock n.now.net.clock) (pin_names n.now.net plan.now.parts (plan_votes n.now.net plan.now) y First) First free (node_of n.now.net (length n.now.net.inputs + y))))
        ++ lines_text (copy_lines (hardened_clock n.now.net.clock) (pin_names n.now.net plan.now.parts (plan_votes n.now.net plan.now) y Second) Second free (node_of n.now.net (length n.now.net.inputs + y))))
        ++ lines_text (copy_lines (hardened_clock n.now.net.clock) (pin_names n.now.net plan.now.parts (plan_votes n.now.net plan.now) y Third) Third free (node_of n.now.net (length n.now.net.inputs + y)))) }
{
    let _nodes = nodes_of(n);
    let x = NetId(n.input_count() + y);
    note_votes(n, plan, y, &mut room.votes)?;
    note_ending(n, x, control, free, &mut room.ending)?;
    let mut digits = Buffer::new();
    let pieces = Pieces {
        net: n,
        node: x,
        digits: digits.format(plan.parts.of(y)).as_bytes(),
        votes: &room.votes,
        word: first_word(n.kind(x)),
        ending: &room.ending,
    };
    put_three(out, &pieces)?;
    Ok(())
}
