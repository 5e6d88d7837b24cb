//! A reader that is given a certificate's text in pieces.
ghost use Rattle.std.specs.Prelude.{◌≡◌, ◌≤◌, ◌+◌, ◌++◌, [], List, ℕ, None, Ok, length, replicate, IfOk, IfSome};
ghost use Rattle.flat_net.specs.Net.{IsDesign};
ghost use Rattle.text_lines.specs.Pending.{IsOneLine};
ghost use Rattle.certificate.specs.Cert.{PlainCert, IsCert, Fits};
ghost use Rattle.certificate.specs.Carrying.{made};
ghost use Rattle.certificate.specs.Gives.{Gives};
ghost use Rattle.certificate.specs.Lines.{Rest};
ghost use Rattle.certificate.specs.Reader.{HasRead, IsReady, StandsFor, most_bytes};
ghost use Rattle.certificate.specs.Reading.{cert_of_text};
ghost use Rattle.certificate.specs.Tables.{nodes_read};
ghost use Rattle.certificate.specs.Text.{cert_text};
ghost use Rattle.certificate.specs.declared.fault.CertFault.TheVariants.{Memory};

use crate::pieces::{LineInHand, take_piece};
use crate::progress::{Progress, Stage};
use crate::reading::{NodeTable, no_roles};
use crate::{CertDraft, CertFault, Certificate, Role};
use flat_net::FlatNet;
use std::alloc::Global;
use std::marker::Model;

/// Reads a certificate for two designs piece by piece.
///
/// It keeps the tables of the certificate, and of the text the part of the line at hand alone. It stands for the bytes that it
/// was given, however they were cut: `StandsFor` is that relation. All pieces together have at most 2 ^ 63 bytes; `room` tells
/// how many more may come. From the first fault on, nothing more is kept, and `finish` answers that fault; so it does where
/// memory ran out.
#[derive(Drop)]
pub struct CertReader<'a> {
    alloc: Global,
    original: &'a FlatNet,
    hardened: &'a FlatNet,
    line: LineInHand,
    progress: Progress,
    refused: Option<CertFault>,
    room: u64,
}

impl<'a> Model for CertReader<'a> {
    ghost use Rattle.certificate.specs.Reader.{ReaderState, KeepsOn};

    ghost Value = { ReaderState };

    ghost view = { λ r. record { original = r.original.now.net; hardened = r.hardened.now.net; room = r.room; line = r.line; progress = r.progress; refused = r.refused } };

    ghost invariant = { λ r. KeepsOn (record { original = r.original.now.net; hardened = r.hardened.now.net; room = r.room; line = r.line; progress = r.progress; refused = r.refused }) };
}

/// The roles of the hardened nodes before any is given, or the want of memory for them.
fn roles_or_fault(alloc: Global, h: &FlatNet) -> (Vec<Option<Role>>, Option<CertFault>)
    ensures roles { result.1 ≡ None → result.0.items ≡ replicate (length h.now.net.nodes) None }
    ensures memory { IfSome result.1 (λ e. e ≡ Memory) }
{
    match no_roles(alloc, h.node_count()) {
        Ok(roles) => (roles, None),
        Err(fault) => (Vec::new(alloc), Some(fault)),
    }
}

impl<'a> CertReader<'a> {
    /// A reader that was given nothing, for the original n and the hardened design h.
    pub fn new(alloc: Global, n: &'a FlatNet, h: &'a FlatNet) -> CertReader<'a>
        ensures stands { StandsFor result [] }
        ensures room { result.room ≡ most_bytes }
        ensures original { result.original ≡ n.now.net }
        ensures hardened { result.hardened ≡ h.now.net }
    {
        let (roles, refused) = roles_or_fault(alloc, h);
        CertReader {
            alloc,
            original: n,
            hardened: h,
            line: LineInHand {
                number: 1,
                part: Vec::new(alloc),
            },
            progress: Progress {
                stage: Stage::Begun,
                depth: Vec::new(alloc),
                nodes: NodeTable {
                    part: Vec::new(alloc),
                    copies: Vec::new(alloc),
                    labels: Vec::new(alloc),
                    roles,
                },
                roles: Vec::new(alloc),
            },
            refused,
            room: 9_223_372_036_854_775_808,
        }
    }

    /// How many more bytes may come.
    pub fn room(&self) -> u64
        ensures { result ≡ self.now.room }
    {
        self.room
    }

    /// Takes the next piece of the text. Behind a fault it goes on taking, and `finish` answers the first.
    pub fn feed(&mut self, piece: &[u8])
        requires { length piece.now ≤ self.old.room }
        ensures stands { (given : List ℕ) → StandsFor self.old given → StandsFor self.new (given ++ piece.now) }
        ensures room { self.new.room + length piece.now ≡ self.old.room }
        ensures original { self.new.original ≡ self.old.original }
        ensures hardened { self.new.hardened ≡ self.old.hardened }
    {
        self.refused = take_piece(
            self.alloc,
            self.original,
            self.hardened,
            &mut self.line,
            &mut self.progress,
            self.refused,
            piece,
        );
        self.room -= piece.len() as u64;
    }

    /// Ends the text: the certificate that it gives, which fits both designs, or its first fault, as `read_cert` has it.
    pub fn finish(self) -> Result<Certificate, CertFault>
        // What is read fits the two designs.
        ensures fits { (given : List ℕ) → StandsFor self.entry given → IfOk result (λ k. Fits self.entry.original self.entry.hardened k) }
        // What is read is spelled so, each byte of it.
        ensures found { (given : List ℕ) → StandsFor self.entry given → IfOk result (λ k. given ≡ cert_text self.entry.original self.entry.hardened k) }
        // What is spelled so is read, unless memory runs out.
        ensures only { (given : List ℕ) → StandsFor self.entry given → (k : PlainCert) → IsCert k → Fits self.entry.original self.entry.hardened k → given ≡ cert_text self.entry.original self.entry.hardened k → Gives (λ k. k) result (Ok k) }
        // The certificate that the lines spell, or the fault of the first line that is not as it must be.
        ensures exact { (given : List ℕ) → StandsFor self.entry given → Gives (λ k. k) result (cert_of_text self.entry.original self.entry.hardened given) }
    {
        ended(
            self.original,
            self.hardened,
            self.line,
            self.progress,
            self.refused,
        )
    }
}

/// The certificate of a text all of whose lines were read.
fn certificate_of(
    n: &FlatNet,
    h: &FlatNet,
    version: u8,
    depth: Vec<u32>,
    nodes: NodeTable,
    roles: Vec<Role>,
) -> Certificate
    requires { (r : Rest) → IsCert (made version n.now.net h.now.net depth.items (nodes_read nodes r) roles.items) }
    ensures { (r : Rest) → result ≡ made version n.now.net h.now.net depth.items (nodes_read nodes r) roles.items }
{
    let draft = CertDraft {
        original_inputs: n.input_count(),
        hardened_inputs: h.input_count(),
        depth,
        part: nodes.part,
        copies: nodes.copies,
        labels: nodes.labels,
        roles,
    };
    Certificate::of_version(version, draft)
}

/// Ends a text without a fault so far: all its lines must have been read, and nothing behind them.
fn end_unrefused(
    n: &FlatNet,
    h: &FlatNet,
    line: LineInHand,
    progress: Progress,
) -> Result<Certificate, CertFault>
    requires original { IsDesign n.now }
    requires hardened { IsDesign h.now }
    requires one_line { IsOneLine line.part.items }
    requires given { (given : List ℕ) × HasRead n.now.net h.now.net None line progress given }
    ensures { (given : List ℕ) → HasRead n.now.net h.now.net None line progress given → Gives (λ k. k) result (cert_of_text n.now.net h.now.net given) }
{
    match progress.stage {
        Stage::Ended { version } => {
            if !line.part.is_empty() {
                return Err(CertFault::Line(line.number));
            }
            Ok(certificate_of(
                n,
                h,
                version,
                progress.depth,
                progress.nodes,
                progress.roles,
            ))
        }
        _ => Err(CertFault::Line(line.number)),
    }
}

/// Ends the text, unless a fault was met before.
fn ended(
    n: &FlatNet,
    h: &FlatNet,
    line: LineInHand,
    progress: Progress,
    refused: Option<CertFault>,
) -> Result<Certificate, CertFault>
    requires ready { refused ≡ None → IsReady h.now.net line progress }
    requires given { (given : List ℕ) × HasRead n.now.net h.now.net refused line progress given }
    ensures exact { (given : List ℕ) → HasRead n.now.net h.now.net refused line progress given → Gives (λ k. k) result (cert_of_text n.now.net h.now.net given) }
    ensures original { IsDesign n.now }
    ensures hardened { IsDesign h.now }
{
    // Each says that its design is valid.
    n.input_count();
    h.input_count();
    match refused {
        Some(fault) => Err(fault),
        None => end_unrefused(n, h, line, progress),
    }
}
