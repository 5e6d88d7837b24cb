//! Parts of the flat text of the hardened design.
ghost use Rattle.std.specs.Prelude.{◌≡◌, ◌<◌, ◌+◌, ◌++◌, ◌∷◌, [], length, codes, IfOk, OnOk};
ghost use Rattle.std.specs.List.{flat_map};
ghost use Rattle.flat_net.specs.Net.{net_count, name_of};
ghost use Rattle.flat_net.specs.Free.{node_bit};
ghost use Rattle.blif_writer.specs.Left.{spaced, spaced_line};
ghost use Rattle.blif_writer.specs.Text.{edge_word, clock_words, control_words, lines_text};
ghost use Rattle.triplicate.specs.Blocks.{copies_of, hardened_clock};
ghost use Rattle.triplicate.specs.Planned.{votes_in, plan_votes};
ghost use Rattle.triplicate.specs.Pins.{AreVotesOf};
ghost use Rattle.triplicate.specs.Taps.{AreTaps};
ghost use Rattle.triplicate.specs.Starts.{AreVoterRows};
ghost use Rattle.hardened_text.specs.Private.Spelled.{three_spelled};
ghost use Rattle.hardened_text.specs.Private.Lines.{role_lines, block_text, marks_of};

use crate::copies::{Room, put_copies};
use crate::names::put_three_names;
use crate::voters::put_voters;
use blif_writer::make_room;
use flat_net::{FlatNet, FreeNet};
use std::alloc::{AllocError, Global};
use tmr_base::{Edge, NetId};
use triplicate::Plan;

/// Puts the line of the model's name.
fn put_model(out: &mut Vec<u8>, n: &FlatNet) -> Result<(), AllocError>
    ensures { OnOk result (out.new.items ≡ out.old.items ++ spaced_line (codes ".model") (n.now.net.model ∷ [])) }
{
    out.extend_from_slice(b".model ")?;
    out.extend_from_slice(n.model().bytes())?;
    out.push(b'\n')?;
    Ok(())
}

/// Puts the names of the copies of the inputs.
fn put_inputs(out: &mut Vec<u8>, n: &FlatNet) -> Result<(), AllocError>
    ensures { OnOk result (out.new.items ≡ out.old.items ++ flat_map three_spelled n.now.net.inputs) }
{
    for x in 0..n.input_count() {
        put_three_names(out, n.name(NetId(x)).bytes())?;
    }
    Ok(())
}

/// Puts the names of the copies of the outputs.
fn put_outputs(out: &mut Vec<u8>, n: &FlatNet) -> Result<(), AllocError>
    ensures { OnOk result (out.new.items ≡ out.old.items ++ flat_map (λ x. three_spelled (name_of n.now.net x)) n.now.net.outputs) }
{
    for k in 0..n.output_count() {
        put_three_names(out, n.name(n.output(k)).bytes())?;
    }
    Ok(())
}

/// Puts a blank and the name of the hardened clock.
fn put_clock_name(out: &mut Vec<u8>, name: &[u8]) -> Result<(), AllocError>
    ensures { OnOk result (out.new.items ≡ out.old.items ++ 32 ∷ (name.now ++ 126 ∷ 107 ∷ [])) }
{
    out.push(b' ')?;
    out.extend_from_slice(name)?;
    out.extend_from_slice(b"~k")?;
    Ok(())
}

/// Puts the hardened clock's name, where there is a clock.
fn put_clock(out: &mut Vec<u8>, n: &FlatNet) -> Result<(), AllocError>
    ensures { OnOk result (out.new.items ≡ out.old.items ++ spaced (clock_words (hardened_clock n.now.net.clock))) }
{
    match n.clock() {
        Some((_, clock)) => put_clock_name(out, clock.bytes()),
        None => Ok(()),
    }
}

/// A blank and the word for an edge.
fn edge_text(edge: Edge) -> &'static [u8]
    ensures { result.now ≡ 32 ∷ edge_word edge }
{
    match edge {
        Edge::Rising => b" re",
        Edge::Falling => b" fe",
    }
}

/// Puts the clock's edge and the hardened clock's name, where there is a clock.
fn put_control(out: &mut Vec<u8>, n: &FlatNet) -> Result<(), AllocError>
    ensures { OnOk result (out.new.items ≡ out.old.items ++ spaced (control_words (hardened_clock n.now.net.clock))) }
{
    match n.clock() {
        Some((edge, clock)) => {
            out.extend_from_slice(edge_text(edge))?;
            put_clock_name(out, clock.bytes())
        }
        None => Ok(()),
    }
}

/// The clock's edge and the hardened clock's name, as each register of the hardened design tells them.
pub fn control_text(alloc: Global, n: &FlatNet) -> Result<Vec<u8>, AllocError>
    ensures { IfOk result (λ control. control.items ≡ spaced (control_words (hardened_clock n.now.net.clock))) }
{
    let mut control = Vec::new(alloc);
    put_control(&mut control, n)?;
    Ok(control)
}

/// Puts the lines of the copies of net x, if it is a node.
fn put_own_copies(
    out: &mut Vec<u8>,
    n: &FlatNet,
    plan: &Plan,
    x: u32,
    free: bool,
    control: &[u8],
    room: &mut Room,
) -> Result<(), AllocError>
    requires planned { AreVotesOf n.now.net plan.now.parts (votes_in plan.now) }
    requires taps { AreTaps n.now.net plan.now.parts (plan_votes n.now.net plan.now) plan.now.taps }
    requires net { x < net_count n.now.net }
    requires control { control.now ≡ spaced (control_words (hardened_clock n.now.net.clock)) }
    ensures { OnOk result (out.new.items ≡ out.old.items ++ lines_text (flat_map (role_lines n.now.net plan.now.parts (plan_votes n.now.net plan.now) free) (copies_of n.now.net x))) }
{
    let inputs = n.input_count();
    if x < inputs {
        return Ok(());
    }
    make_room(out, n, x - inputs)?;
    put_copies(out, n, plan, x - inputs, control, free, room)?;
    Ok(())
}

/// Puts what stands for net x: the lines of its copies, if it is a node, and of its voters.
pub fn put_block(
    out: &mut Vec<u8>,
    n: &FlatNet,
    plan: &Plan,
    x: u32,
    free: bool,
    control: &[u8],
    room: &mut Room,
) -> Result<(), AllocError>
    requires planned { AreVotesOf n.now.net plan.now.parts (votes_in plan.now) }
    requires taps { AreTaps n.now.net plan.now.parts (plan_votes n.now.net plan.now) plan.now.taps }
    requires voters { AreVoterRows n.now.net plan.now.parts (plan_votes n.now.net plan.now) plan.now.voters }
    requires net { x < net_count n.now.net }
    requires control { control.now ≡ spaced (control_words (hardened_clock n.now.net.clock)) }
    ensures { OnOk result (out.new.items ≡ out.old.items ++ block_text n.now.net plan.now.parts (plan_votes n.now.net plan.now) free x) }
{
    put_own_copies(out, n, plan, x, free, control, room)?;
    put_voters(
        out,
        n.name(NetId(x)).bytes(),
        plan.voters.row(x),
        &mut room.head,
    )?;
    Ok(())
}

/// Whether the copies of net x are registers whose value in cycle 0 is free.
pub fn is_free(n: &FreeNet, inputs: bool, x: u32) -> bool
    requires { x < net_count n.now.design.net }
    ensures { result ≡ node_bit (length n.now.design.net.inputs) (marks_of inputs n.now.free) x }
{
    if inputs {
        return n.is_free(NetId(x));
    }
    false
}

/// Puts the lines in front of the nodes'.
pub fn put_ports(out: &mut Vec<u8>, n: &FlatNet) -> Result<(), AllocError>
    ensures { OnOk result (out.new.items ≡ ((out.old.items ++ spaced_line (codes ".model") (n.now.net.model ∷ []))
        ++ (codes ".inputs" ++ (flat_map three_spelled n.now.net.inputs ++ (spaced (clock_words (hardened_clock n.now.net.clock)) ++ 10 ∷ []))))
        ++ (codes ".outputs" ++ (flat_map (λ x. three_spelled (name_of n.now.net x)) n.now.net.outputs ++ 10 ∷ []))) }
{
    put_model(out, n)?;
    out.extend_from_slice(b".inputs")?;
    put_inputs(out, n)?;
    put_clock(out, n)?;
    out.extend_from_slice(b"\n.outputs")?;
    put_outputs(out, n)?;
    out.push(b'\n')?;
    Ok(())
}
