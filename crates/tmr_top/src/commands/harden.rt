//! `harden ORIG HARD CERT`: a hardened form of a design and its certificate are saved. Their texts are made while they are saved.
ghost use Rattle.std.specs.Prelude.{◌≡◌, IfOk, count_by};
ghost use Rattle.hardened_size.specs.Size.{AreShort, KeepLimits};
ghost use Rattle.hardened_text.specs.Texts.{IsFormOf};
ghost use Rattle.limits.specs.Most.{most_original};
ghost use Rattle.tmr_texts.specs.FormText.{form_numbers, hardened_lines};
ghost use Rattle.tmr_words.specs.Line.{Harden};
ghost use Rattle.tmr_words.specs.FileWords.{hardening_in};
ghost use Rattle.tmr_top.specs.Loads.{original_file};
ghost use Rattle.tmr_top.specs.Designs.{HoldsDesign};
ghost use Rattle.tmr_top.specs.Private.FlatWithin.{IsFlatWithin};
ghost use Rattle.tmr_top.specs.Private.Refused.{IsWithin};
ghost use Rattle.tmr_top.specs.Private.Rooms.{Performed};
ghost use Rattle.tmr_top.specs.Private.Works.{IsWorkOver};

use crate::conclusion::conclude;
use crate::decision::{Decision, Save, SavedText, Verdict, Work};
use crate::designs::{checked_nodes, open_original};
use crate::loads::stopped;
use flat_net::FreeNet;
use hardened_size::hardened_texts_are_short;
use hardened_text::{CertificateText, DesignText, HardenedForm, harden_form};
use std::alloc::Global;
use tmr_base::OutOfMemory;
use tmr_outside::Files;
use tmr_texts::{FormNumbers, greatest_of, hardened_lines};
use tmr_words::HardenWords;

/// A design, and the hardened form that was made of it.
#[derive(Drop)]
struct Made {
    design: FreeNet,
    form: Result<HardenedForm, OutOfMemory>,
}

/// What is told of a hardened form of a design.
fn form_text(
    alloc: Global,
    words: &HardenWords,
    n: &FreeNet,
    made: &HardenedForm,
) -> Result<Vec<u8>, OutOfMemory>
    ensures { (a : IsFormOf words.now.form n.now words.now.size words.now.version words.now.most made.now) → IfOk result (λ text. text.items ≡ hardened_lines
        (form_numbers n.now.design.net words.now.size a.pair.net.design.net a.pair.cert made.now.minimal)
        a.pair.cert.version (count_by (λ bit. bit) n.now.free)) }
{
    let numbers = FormNumbers {
        nodes: n.net().node_count(),
        hardened_nodes: made.nodes,
        partitions: made.partitions,
        cost: made.cost,
        plain: made.plain,
        minimal: made.minimal,
        voters: made.voters,
        depth: greatest_of(&made.depths),
    };
    hardened_lines(alloc, &numbers, words.version, n.free_count())
}

/// Both texts of a hardened form are short beside the flat text of its original, and keep the limits of their files where that keeps
/// its own.
fn texts_keep_limits(words: &HardenWords, n: &FreeNet, made: &HardenedForm)
    requires { IsFlatWithin (most_original words.now.limits) n.now.design.net n.now.free }
    ensures limits { (a : IsFormOf words.now.form n.now words.now.size words.now.version words.now.most made.now) → KeepLimits words.now.limits n.now.design.net a.pair.net.design.net a.pair.cert }
    ensures short { (a : IsFormOf words.now.form n.now words.now.size words.now.version words.now.most made.now) → AreShort n.now.design.net a.pair.net.design.net a.pair.cert }
{
    hardened_texts_are_short();
    let _original = checked_nodes(n);
}

/// The texts of a hardened form, of which nothing is made yet, and what is told of it.
fn tell_form<'n, 't>(
    alloc: Global,
    words: &HardenWords<'n>,
    n: &'t FreeNet,
    made: &'t HardenedForm,
) -> Result<Work<'n, 't>, OutOfMemory>
    requires made { IsFormOf words.now.form n.now words.now.size words.now.version words.now.most made.now }
    requires within { IsWithin (most_original words.now.limits) n.now }
    ensures { IfOk result (IsWorkOver (Harden (hardening_in words.now))
        (λ held. HoldsDesign held (original_file words.now.limits words.now.original.now) n.now.design.net n.now.free)) }
{
    texts_keep_limits(words, n, made);
    let text = form_text(alloc, words, n, made)?;
    let design = DesignText::in_pieces(alloc, n, made)?;
    let certificate = CertificateText::in_pieces(alloc, n, made);
    let mut saves = Vec::new(alloc);
    saves.push(Save {
        name: words.hardened,
        text: SavedText::Design(design),
    })?;
    saves.push(Save {
        name: words.certificate,
        text: SavedText::Certificate(certificate),
    })?;
    Ok(Work {
        verdict: Verdict::Done,
        saves,
        text,
    })
}

/// A hardened form of a design.
#[tactic(auto, using(crate::proofs::HardenLaws::versions, crate::proofs::LimitLaws::few))]
fn make_form(alloc: Global, words: &HardenWords, n: &FreeNet) -> Result<HardenedForm, OutOfMemory>
    requires { IsWithin (most_original words.now.limits) n.now }
    ensures { IfOk result (λ form. IsFormOf words.now.form n.now words.now.size words.now.version words.now.most form) }
{
    harden_form(alloc, n, words.form, words.size, words.version, words.most)
}

/// The design, and its hardened form.
fn make(alloc: Global, words: &HardenWords, design: FreeNet) -> Made
    requires { IsWithin (most_original words.now.limits) design }
    ensures design { result.design ≡ design }
    ensures form { IfOk result.form (λ form. IsFormOf words.now.form design words.now.size words.now.version words.now.most form) }
{
    let form = make_form(alloc, words, &design);
    Made { design, form }
}

/// The work of `harden`, where there was memory for the form.
fn tell<'n, 't>(
    alloc: Global,
    words: &HardenWords<'n>,
    made: &'t Made,
) -> Result<Work<'n, 't>, OutOfMemory>
    requires within { IsWithin (most_original words.now.limits) made.now.design }
    requires form { IfOk made.now.form (λ form. IsFormOf words.now.form made.now.design words.now.size words.now.version words.now.most form) }
    ensures { IfOk result (IsWorkOver (Harden (hardening_in words.now))
        (λ held. HoldsDesign held (original_file words.now.limits words.now.original.now) made.now.design.design.net made.now.design.free)) }
{
    match &made.form {
        Ok(form) => tell_form(alloc, words, &made.design, form),
        Err(_) => Err(OutOfMemory),
    }
}

/// The room of `harden`.
pub fn perform<F: Files>(
    alloc: Global,
    words: &HardenWords,
    files: &mut F,
) -> Result<Decision, OutOfMemory>
    ensures { Performed (Harden (hardening_in words.now)) (F.seen files.old) (F.seen files.new)
        (F.steady files.old) (F.steady files.new) result }
{
    match open_original(alloc, words.original, words.limits, files) {
        Ok(design) => {
            let made = make(alloc, words, design);
            conclude(alloc, tell(alloc, words, &made), files)
        }
        Err(stop) => stopped(alloc, stop),
    }
}
