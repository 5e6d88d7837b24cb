//! The flat text of the hardened design, made step by step.
ghost use Rattle.std.specs.Prelude.{◌≡◌, ◌++◌, IfOk, OnOk};
ghost use Rattle.flat_net.specs.Free.{FreeDesign};
ghost use Rattle.blif_writer.specs.Left.{spaced};
ghost use Rattle.blif_writer.specs.Text.{control_words};
ghost use Rattle.triplicate.specs.Blocks.{hardened_clock};
ghost use Rattle.hardened_text.specs.declared.form.HardenedForm.{HardenedForm};
ghost use Rattle.hardened_text.specs.Texts.{IsFormed, design_text};
ghost use Rattle.hardened_text.specs.Private.Steps.{design_step, design_steps, design_rest};

use crate::copies::Room;
use crate::design::{control_text, is_free, put_block, put_ports};
use crate::form::HardenedForm;
use flat_net::{FreeNet, nodes_of};
use std::alloc::{AllocError, Global};
use std::marker::Model;
use text_pieces::{Pieces, Steps};
use tmr_base::OutOfMemory;

/// The flat text of a hardened design, made step by step.
///
/// What stands for one net is never cut, so that a net with many voters can make a piece long.
#[derive(Drop)]
pub struct DesignText<'a> {
    n: &'a FreeNet,
    form: &'a HardenedForm,
    control: Vec<u8>,
    room: Room,
}

impl<'a> Model for DesignText<'a> {
    ghost Value = { FreeDesign × HardenedForm };

    ghost view = { λ t. (t.n.now, t.form.now) };

    // The plan is one of the design, and the clock is told as the hardened design has it.
    ghost invariant = { λ t. IsFormed t.n.now t.form.now × (t.control.items ≡ spaced (control_words (hardened_clock t.n.now.design.net.clock))) };
}

/// Puts what comes at this step: the ports first, then what stands for each net, and last the end.
fn put_step(
    out: &mut Vec<u8>,
    n: &FreeNet,
    form: &HardenedForm,
    control: &[u8],
    room: &mut Room,
    step: u64,
) -> Result<(), AllocError>
    requires formed { IsFormed n.now form.now }
    requires control { control.now ≡ spaced (control_words (hardened_clock n.now.design.net.clock)) }
    ensures { OnOk result (out.new.items ≡ out.old.items ++ design_step n.now form.now.plan step) }
{
    let net = n.net();
    if step == 0 {
        put_ports(out, net)?;
        return Ok(());
    }
    let x = step - 1;
    let nets = net.input_count() + nodes_of(net);
    if x < u64::from(nets) {
        let x = x as u32;
        let free = is_free(n, form.plan.inputs, x);
        put_block(out, net, &form.plan, x, free, control, room)?;
        return Ok(());
    }
    out.extend_from_slice(b".end\n")?;
    Ok(())
}

impl<'a> DesignText<'a> {
    /// The text of which nothing is given yet.
    pub fn in_pieces(
        alloc: Global,
        n: &'a FreeNet,
        form: &'a HardenedForm,
    ) -> Result<Pieces<DesignText<'a>>, OutOfMemory>
        requires { IsFormed n.now form.now }
        ensures { IfOk result (λ text. text.rest ≡ design_text n.now form.now) }
    {
        let control = control_text(alloc, n.net())?;
        let text = DesignText {
            n,
            form,
            control,
            room: Room::new(alloc),
        };
        Ok(Pieces::new(alloc, text))
    }
}

impl Steps for DesignText<'_> {
    ghost in_steps = { λ t. record { rest = design_rest t.0 t.1; count = design_steps t.0 } };

    #[tactic(auto, using(text_pieces::proofs::Stepping::steps_done))]
    fn count(&self) -> u64 {
        let net = self.n.net();
        let nets = net.input_count() + nodes_of(net);
        u64::from(nets) + 2
    }

    #[tactic(auto, using(text_pieces::proofs::Stepping::step_put))]
    fn put_step(&mut self, out: &mut Vec<u8>, step: u64) -> Result<(), AllocError> {
        put_step(out, self.n, self.form, &self.control, &mut self.room, step)?;
        Ok(())
    }
}
