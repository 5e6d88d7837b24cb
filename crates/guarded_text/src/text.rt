//! The flat text of the guarded design, made step by step.
ghost use Rattle.std.specs.Prelude.{◌≡◌, ◌<◌, ◌≤◌, ◌+◌, ◌++◌, ℕ, length, IfOk, OnOk};
ghost use Rattle.limits.specs.Most.{widest_nets};
ghost use Rattle.flat_net.specs.Net.{Design, net_count, pin_total};
ghost use Rattle.blif_writer.specs.Left.{spaced};
ghost use Rattle.blif_writer.specs.Length.{flat_length};
ghost use Rattle.blif_writer.specs.NetOf.{IsNetOf};
ghost use Rattle.blif_writer.specs.Text.{control_words, flat_text};
ghost use Rattle.dwc.specs.Guard.{guard_net};
ghost use Rattle.dwc.specs.Tells.{Guards};
ghost use Rattle.guarded_text.specs.Private.Lines.{guarded_clock};
ghost use Rattle.guarded_text.specs.Private.Steps.{alarm_step, compared_step, guarded_step, guarded_steps, guarded_rest, twins_at};

use crate::comparing::{put_alarm_end, put_comparator_name_of, put_comparator_of};
use crate::copies::put_twins;
use crate::ports::{control_text, put_ports};
use blif_writer::make_room;
use dwc::guarded_designs_tell;
use flat_net::{FlatNet, nodes_of};
use std::alloc::{AllocError, Global};
use std::marker::Model;
use text_pieces::{Pieces, Steps};
use tmr_base::{NetId, OutOfMemory};

/// The flat text of a guarded design, made step by step: each input and node twice, a comparator for each output, and an
/// alarm, which is on exactly where the two copies of some output differ.
///
/// It is made in one pass over the original. What stands for one node is never cut.
#[derive(Drop)]
pub struct GuardedText<'a> {
    alloc: Global,
    n: &'a FlatNet,
    control: Vec<u8>,
    rows: Vec<u8>,
}

impl<'a> Model for GuardedText<'a> {
    ghost Value = { Design };

    ghost view = { λ t. t.n.now };

    // The clock is told as the guarded design has it.
    ghost invariant = { λ t. t.control.items ≡ spaced (control_words (guarded_clock t.n.now.net.clock)) };
}

/// How many nodes the guarded design has.
pub fn guarded_nodes(n: &FlatNet) -> u32
    requires { net_count n.now.net + pin_total n.now.net ≤ widest_nets }
    ensures { result ≡ length (guard_net n.now.net).nodes }
{
    let _inputs = n.input_count();
    2 * n.node_count() + n.output_count() + 1
}

/// Puts what comes at this step of the alarm: its first word, the names of the comparators, and the end of the text.
fn put_alarm_step(
    alloc: Global,
    out: &mut Vec<u8>,
    n: &FlatNet,
    step: u64,
) -> Result<(), AllocError>
    ensures { OnOk result (out.new.items ≡ out.old.items ++ alarm_step n.now.net step) }
{
    if step == 0 {
        out.extend_from_slice(b".names")?;
        return Ok(());
    }
    let k = step - 1;
    if k < u64::from(n.output_count()) {
        put_comparator_name_of(out, n, k as u32)?;
        return Ok(());
    }
    put_alarm_end(alloc, out, n)?;
    Ok(())
}

/// Puts what comes so many steps behind the nodes: the comparator of each output, and the alarm.
fn put_compared(alloc: Global, out: &mut Vec<u8>, n: &FlatNet, step: u64) -> Result<(), AllocError>
    ensures { OnOk result (out.new.items ≡ out.old.items ++ compared_step n.now.net step) }
{
    let outputs = u64::from(n.output_count());
    if step < outputs {
        put_comparator_of(out, n, step as u32)?;
        return Ok(());
    }
    put_alarm_step(alloc, out, n, step - outputs)?;
    Ok(())
}

/// Puts both copies of node i. Room is made first for the names that it and the nodes behind it read.
fn put_node(
    out: &mut Vec<u8>,
    n: &FlatNet,
    i: u32,
    control: &[u8],
    rows: &mut Vec<u8>,
) -> Result<(), AllocError>
    requires node { i < length n.now.net.nodes }
    requires control { control.now ≡ spaced (control_words (guarded_clock n.now.net.clock)) }
    ensures { OnOk result (out.new.items ≡ out.old.items ++ twins_at n.now.net i) }
{
    let _nodes = nodes_of(n);
    make_room(out, n, i)?;
    let x = NetId(n.input_count() + i);
    put_twins(out, n, x, control, rows)?;
    Ok(())
}

/// Puts what comes at this step: the ports first, then the two copies of each node, and what stands behind these.
fn put_step(
    alloc: Global,
    out: &mut Vec<u8>,
    n: &FlatNet,
    control: &[u8],
    rows: &mut Vec<u8>,
    step: u64,
) -> Result<(), AllocError>
    requires { control.now ≡ spaced (control_words (guarded_clock n.now.net.clock)) }
    ensures { OnOk result (out.new.items ≡ out.old.items ++ guarded_step n.now.net step) }
{
    if step == 0 {
        put_ports(out, n)?;
        return Ok(());
    }
    let i = step - 1;
    let nodes = nodes_of(n);
    if i < u64::from(nodes) {
        put_node(out, n, i as u32, control, rows)?;
        return Ok(());
    }
    put_compared(alloc, out, n, i - u64::from(nodes))?;
    Ok(())
}

impl<'a> GuardedText<'a> {
    /// The text of which nothing is given yet.
    pub fn in_pieces(alloc: Global, n: &'a FlatNet) -> Result<Pieces<GuardedText<'a>>, OutOfMemory>
        requires { net_count n.now.net + pin_total n.now.net ≤ widest_nets }
        ensures text { IfOk result (λ text. text.rest ≡ flat_text (guard_net n.now.net)) }
        // Its length, node by node and pin by pin.
        ensures length { length (flat_text (guard_net n.now.net)) ≡ flat_length (guard_net n.now.net) }
        // Reading and flattening it gives the guarded design, with no assumed initial value, for every limit that it keeps.
        ensures again { (limit : ℕ) → length (flat_text (guard_net n.now.net)) ≤ limit → IsNetOf (flat_text (guard_net n.now.net)) limit (guard_net n.now.net) 0 }
        // The alarm of that design tells.
        ensures guards { Guards n.now.net (guard_net n.now.net) }
    {
        let _inputs = n.input_count();
        guarded_designs_tell();
        let control = control_text(alloc, n)?;
        let text = GuardedText {
            alloc,
            n,
            control,
            rows: Vec::new(alloc),
        };
        Ok(Pieces::new(alloc, text))
    }
}

impl Steps for GuardedText<'_> {
    ghost in_steps = { λ d. record { rest = guarded_rest d.net; count = guarded_steps d.net } };

    #[tactic(auto, using(text_pieces::proofs::Stepping::steps_done))]
    fn count(&self) -> u64 {
        let outputs = u64::from(self.n.output_count());
        u64::from(self.n.node_count()) + outputs + outputs + 3
    }

    #[tactic(auto, using(text_pieces::proofs::Stepping::step_put))]
    fn put_step(&mut self, out: &mut Vec<u8>, step: u64) -> Result<(), AllocError> {
        put_step(self.alloc, out, self.n, &self.control, &mut self.rows, step)?;
        Ok(())
    }
}
