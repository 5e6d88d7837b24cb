//! A certificate's text, made step by step.
ghost use Rattle.std.specs.Prelude.{◌≡◌, ◌<◌, ◌≤◌, ◌+◌, ◌++◌, length, OnOk, Ok};
ghost use Rattle.flat_net.specs.Net.{Design};
ghost use Rattle.certificate.specs.Cert.{PlainCert, IsCert, Fits};
ghost use Rattle.certificate.specs.Length.{cert_length};
ghost use Rattle.certificate.specs.Reading.{cert_of_text};
ghost use Rattle.certificate.specs.Text.{cert_text};
ghost use Rattle.certificate.specs.Private.Steps.{behind_left, cert_left, cert_steps};

use crate::Certificate;
use crate::writing::{put_head, put_line, put_node_at, put_part_at, put_role_at};
use flat_net::FlatNet;
use std::alloc::{AllocError, Global};
use std::marker::Model;
use text_pieces::{Pieces, Steps};

/// The text of a certificate, made step by step.
///
/// It is made in one pass over the certificate. A line is never cut.
#[derive(Drop)]
pub struct CertText<'a> {
    n: &'a FlatNet,
    h: &'a FlatNet,
    k: &'a Certificate,
}

impl<'a> Model for CertText<'a> {
    ghost Value = { Design × Design × PlainCert };

    ghost view = { λ t. (t.n.now, t.h.now, t.k.now) };

    ghost invariant = { λ t. Fits t.n.now.net t.h.now.net t.k.now };
}

/// Puts what comes so many steps behind the partitions: the line of an original node, that of a hardened node where it is a voter, or
/// the last line.
fn put_behind(
    out: &mut Vec<u8>,
    n: &FlatNet,
    h: &FlatNet,
    k: &Certificate,
    step: u64,
) -> Result<(), AllocError>
    requires fits { Fits n.now.net h.now.net k.now }
    requires cert { IsCert k.now }
    requires step { step ≤ length k.now.part + length k.now.roles }
    ensures { OnOk result (out.new.items ++ behind_left n.now.net h.now.net k.now (step + 1) ≡ out.old.items ++ behind_left n.now.net h.now.net k.now step) }
{
    let nodes = u64::from(n.node_count());
    if step < nodes {
        put_node_at(out, n, h, k, step as u32)?;
        return Ok(());
    }
    let j = step - nodes;
    if j < u64::from(h.node_count()) {
        put_role_at(out, n, h, k, j as u32)?;
        return Ok(());
    }
    put_line(out, b"end", &[])?;
    Ok(())
}

/// Puts what comes at this step: the first two lines, then the line of each partition, and what stands behind these.
fn put_step(
    out: &mut Vec<u8>,
    n: &FlatNet,
    h: &FlatNet,
    k: &Certificate,
    step: u64,
) -> Result<(), AllocError>
    requires fits { Fits n.now.net h.now.net k.now }
    requires step { step < cert_steps k.now }
    ensures { OnOk result (out.new.items ++ cert_left n.now.net h.now.net k.now (step + 1) ≡ out.old.items ++ cert_left n.now.net h.now.net k.now step) }
{
    let parts = k.parts();
    if step == 0 {
        put_head(out, k.version(), parts)?;
        return Ok(());
    }
    let p = step - 1;
    let parts = u64::from(parts);
    if p < parts {
        put_part_at(out, k, p as u32)?;
        return Ok(());
    }
    put_behind(out, n, h, k, p - parts)?;
    Ok(())
}

impl<'a> CertText<'a> {
    /// The text of certificate k for the original n and the hardened design h, which it fits. Nothing of it is given yet.
    pub fn in_pieces(
        alloc: Global,
        n: &'a FlatNet,
        h: &'a FlatNet,
        k: &'a Certificate,
    ) -> Pieces<CertText<'a>>
        requires { Fits n.now.net h.now.net k.now }
        ensures text { result.rest ≡ cert_text n.now.net h.now.net k.now }
        // Reading it gives k.
        ensures read { cert_of_text n.now.net h.now.net (cert_text n.now.net h.now.net k.now) ≡ Ok k.now }
        // Its length, line by line.
        ensures length { length (cert_text n.now.net h.now.net k.now) ≡ cert_length n.now.net h.now.net k.now }
    {
        // Each says that its design is valid: its names can be read back.
        n.input_count();
        h.input_count();
        // This one says that the certificate is consistent.
        k.parts();
        Pieces::new(alloc, CertText { n, h, k })
    }
}

impl Steps for CertText<'_> {
    ghost in_steps = { λ t. record { rest = cert_left t.0.net t.1.net t.2; count = cert_steps t.2 } };

    #[tactic(auto, using(crate::proofs::Stepping::none_left))]
    fn count(&self) -> u64 {
        let nodes = u64::from(self.n.node_count()) + u64::from(self.h.node_count());
        u64::from(self.k.parts()) + nodes + 2
    }

    fn put_step(&mut self, out: &mut Vec<u8>, step: u64) -> Result<(), AllocError> {
        put_step(out, self.n, self.h, self.k, step)
    }
}
