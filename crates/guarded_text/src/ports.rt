//! The lines in front of the nodes', and how a register's clock is told.
ghost use Rattle.std.specs.Prelude.{◌≡◌, ◌++◌, ◌∷◌, [], codes, IfOk, OnOk};
ghost use Rattle.std.specs.List.{flat_map};
ghost use Rattle.flat_net.specs.Net.{name_of};
ghost use Rattle.blif_writer.specs.Left.{spaced, spaced_line};
ghost use Rattle.blif_writer.specs.Text.{edge_word, clock_words, control_words};
ghost use Rattle.guarded_text.specs.Private.Spelled.{two_spelled};
ghost use Rattle.guarded_text.specs.Private.Lines.{guarded_clock};

use crate::names::{put_tailed, put_two_names};
use flat_net::FlatNet;
use std::alloc::{AllocError, Global};
use tmr_base::{Edge, NetId};

/// Puts the line of the model's name.
fn put_model(out: &mut Vec<u8>, n: &FlatNet) -> Result<(), AllocError>
    ensures { OnOk result (out.new.items ≡ out.old.items ++ spaced_line (codes ".model") (n.now.net.model ∷ [])) }
{
    out.extend_from_slice(b".model ")?;
    out.extend_from_slice(n.model().bytes())?;
    out.push(b'\n')?;
    Ok(())
}

/// Puts the names of the copies of the inputs.
fn put_inputs(out: &mut Vec<u8>, n: &FlatNet) -> Result<(), AllocError>
    ensures { OnOk result (out.new.items ≡ out.old.items ++ flat_map two_spelled n.now.net.inputs) }
{
    for x in 0..n.input_count() {
        put_two_names(out, n.name(NetId(x)).bytes())?;
    }
    Ok(())
}

/// Puts the names of the copies of the outputs.
fn put_outputs(out: &mut Vec<u8>, n: &FlatNet) -> Result<(), AllocError>
    ensures { OnOk result (out.new.items ≡ out.old.items ++ flat_map (λ y. two_spelled (name_of n.now.net y)) n.now.net.outputs) }
{
    for k in 0..n.output_count() {
        put_two_names(out, n.name(n.output(k)).bytes())?;
    }
    Ok(())
}

/// Puts the guarded clock's name, where there is a clock.
fn put_clock(out: &mut Vec<u8>, n: &FlatNet) -> Result<(), AllocError>
    ensures { OnOk result (out.new.items ≡ out.old.items ++ spaced (clock_words (guarded_clock n.now.net.clock))) }
{
    match n.clock() {
        Some((_, clock)) => put_tailed(out, clock.bytes(), b'k'),
        None => Ok(()),
    }
}

/// A blank and the word for an edge.
fn edge_text(edge: Edge) -> &'static [u8]
    ensures { result.now ≡ 32 ∷ edge_word edge }
{
    match edge {
        Edge::Rising => b" re",
        Edge::Falling => b" fe",
    }
}

/// Puts the clock's edge and the guarded clock's name, where there is a clock.
fn put_control(out: &mut Vec<u8>, n: &FlatNet) -> Result<(), AllocError>
    ensures { OnOk result (out.new.items ≡ out.old.items ++ spaced (control_words (guarded_clock n.now.net.clock))) }
{
    match n.clock() {
        Some((edge, clock)) => {
            out.extend_from_slice(edge_text(edge))?;
            put_tailed(out, clock.bytes(), b'k')
        }
        None => Ok(()),
    }
}

/// The clock's edge and the guarded clock's name, as each register of the guarded design tells them.
pub fn control_text(alloc: Global, n: &FlatNet) -> Result<Vec<u8>, AllocError>
    ensures { IfOk result (λ control. control.items ≡ spaced (control_words (guarded_clock n.now.net.clock))) }
{
    let mut control = Vec::new(alloc);
    put_control(&mut control, n)?;
    Ok(control)
}

/// Puts the lines in front of the nodes'.
pub fn put_ports(out: &mut Vec<u8>, n: &FlatNet) -> Result<(), AllocError>
    ensures { OnOk result (out.new.items ≡ ((out.old.items ++ spaced_line (codes ".model") (n.now.net.model ∷ []))
        ++ (codes ".inputs" ++ (flat_map two_spelled n.now.net.inputs ++ (spaced (clock_words (guarded_clock n.now.net.clock)) ++ 10 ∷ []))))
        ++ (codes ".outputs" ++ (flat_map (λ y. two_spelled (name_of n.now.net y)) n.now.net.outputs ++ codes " alarm~z\n"))) }
{
    put_model(out, n)?;
    out.extend_from_slice(b".inputs")?;
    put_inputs(out, n)?;
    put_clock(out, n)?;
    out.extend_from_slice(b"\n.outputs")?;
    put_outputs(out, n)?;
    out.extend_from_slice(b" alarm~z\n")?;
    Ok(())
}
