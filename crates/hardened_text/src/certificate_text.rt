//! The text of the hardened design's certificate, made step by step.
ghost use Rattle.std.specs.Prelude.{◌≡◌, ◌++◌, OnOk};
ghost use Rattle.flat_net.specs.Free.{FreeDesign};
ghost use Rattle.hardened_text.specs.declared.form.HardenedForm.{HardenedForm};
ghost use Rattle.hardened_text.specs.Texts.{IsFormed, certificate_text};
ghost use Rattle.hardened_text.specs.Private.Steps.{step_behind, certificate_step, certificate_steps, certificate_rest};

use crate::certificate_lines::{put_front, put_node_of, put_part, put_voters_of};
use crate::form::HardenedForm;
use flat_net::{FreeNet, nodes_of};
use std::alloc::{AllocError, Global};
use std::marker::Model;
use text_pieces::{Pieces, Steps};
use tmr_base::PartId;

/// The text of a hardened design's certificate, made step by step.
///
/// The lines of one net's voters are never cut, so that a net with many can make a piece long.
#[derive(Drop)]
pub struct CertificateText<'a> {
    n: &'a FreeNet,
    form: &'a HardenedForm,
    head: Vec<u8>,
}

impl<'a> Model for CertificateText<'a> {
    ghost Value = { FreeDesign × HardenedForm };

    ghost view = { λ t. (t.n.now, t.form.now) };

    // The plan is one of the design.
    ghost invariant = { λ t. IsFormed t.n.now t.form.now };
}

/// Puts what comes so many steps behind the partitions: the line of each node, the lines of each net's voters, and the end.
fn put_behind(
    out: &mut Vec<u8>,
    n: &FreeNet,
    form: &HardenedForm,
    head: &mut Vec<u8>,
    step: u64,
) -> Result<(), AllocError>
    requires { IsFormed n.now form.now }
    ensures { OnOk result (out.new.items ≡ out.old.items ++ step_behind n.now.design.net form.now.plan step) }
{
    let net = n.net();
    let nodes = nodes_of(net);
    if step < u64::from(nodes) {
        put_node_of(out, net, &form.plan, step as u32)?;
        return Ok(());
    }
    let x = step - u64::from(nodes);
    if x < u64::from(net.input_count() + nodes) {
        put_voters_of(out, net, &form.plan, x as u32, head)?;
        return Ok(());
    }
    out.extend_from_slice(b"end\n")?;
    Ok(())
}

/// Puts what comes at this step: the first lines, then the line of each partition, and what stands behind these.
fn put_step(
    out: &mut Vec<u8>,
    n: &FreeNet,
    form: &HardenedForm,
    head: &mut Vec<u8>,
    step: u64,
) -> Result<(), AllocError>
    requires { IsFormed n.now form.now }
    ensures { OnOk result (out.new.items ≡ out.old.items ++ certificate_step n.now.design.net form.now.plan step) }
{
    let plan = &form.plan;
    if step == 0 {
        put_front(out, plan)?;
        return Ok(());
    }
    let p = step - 1;
    let parts = u64::from(plan.parts.count());
    if p < parts {
        let p = p as u32;
        put_part(out, p, plan.extra.depth(PartId(p)))?;
        return Ok(());
    }
    put_behind(out, n, form, head, p - parts)?;
    Ok(())
}

impl<'a> CertificateText<'a> {
    /// The text of which nothing is given yet.
    pub fn in_pieces(
        alloc: Global,
        n: &'a FreeNet,
        form: &'a HardenedForm,
    ) -> Pieces<CertificateText<'a>>
        requires { IsFormed n.now form.now }
        ensures { result.rest ≡ certificate_text n.now form.now }
    {
        let text = CertificateText {
            n,
            form,
            head: Vec::new(alloc),
        };
        Pieces::new(alloc, text)
    }
}

impl Steps for CertificateText<'_> {
    ghost in_steps = { λ t. record { rest = certificate_rest t.0 t.1; count = certificate_steps t.0 t.1 } };

    #[tactic(auto, using(text_pieces::proofs::Stepping::steps_done))]
    fn count(&self) -> u64 {
        let net = self.n.net();
        let nodes = nodes_of(net);
        let nets = net.input_count() + nodes;
        u64::from(self.form.plan.parts.count()) + u64::from(nodes) + u64::from(nets) + 2
    }

    #[tactic(auto, using(text_pieces::proofs::Stepping::step_put))]
    fn put_step(&mut self, out: &mut Vec<u8>, step: u64) -> Result<(), AllocError> {
        put_step(out, self.n, self.form, &mut self.head, step)?;
        Ok(())
    }
}
