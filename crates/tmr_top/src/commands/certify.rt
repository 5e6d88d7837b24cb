//! `certify ORIG HARD CERT`: a certificate that is found from the two designs is saved. Its text is made while it is saved.
ghost use Rattle.std.specs.Prelude.{◌≡◌, ◌≤◌, length, IfOk, IfErr};
ghost use Rattle.certificate.specs.Text.{cert_text};
ghost use Rattle.certifying.specs.Causes.{IsPlaced};
ghost use Rattle.limits.specs.Most.{most_hardened};
ghost use Rattle.tmr_words.specs.Line.{Certify};
ghost use Rattle.tmr_words.specs.FileWords.{certifying_in};
ghost use Rattle.tmr_top.specs.Private.PairFiles.{AreDesigns};
ghost use Rattle.tmr_top.specs.Private.Rooms.{Performed};
ghost use Rattle.tmr_top.specs.Private.Works.{IsWorkOver};
ghost use Rattle.tmr_top.specs.Private.Certifying.{IsFound};

use crate::conclusion::conclude;
use crate::decision::{Decision, SavedText, Work, denying, saving_made};
use crate::loads::stopped;
use crate::pair_files::Designs;
use crate::pairs::open_designs;
use certificate::{CertText, Certificate, cert_is_within};
use certifying::{NoCertificate, certify, no_certificate_line};
use std::alloc::Global;
use tmr_base::OutOfMemory;
use tmr_outside::Files;
use tmr_texts::{accepted, certificate_too_long};
use tmr_words::CertifyWords;

/// Two designs, and a certificate that was found of them, or why none was.
#[derive(Drop)]
struct Sought {
    designs: Designs,
    found: Result<Certificate, NoCertificate>,
}

/// The text of a certificate that is found, of which nothing is made yet, and what is told of it. That text is not too long.
fn tell_short<'n, 't>(
    alloc: Global,
    words: &CertifyWords<'n>,
    designs: &'t Designs,
    found: &'t Certificate,
) -> Result<Work<'n, 't>, OutOfMemory>
    requires found { IsFound words.now.version designs.now found.now }
    requires short { length (cert_text designs.now.original.design.net designs.now.hardened.design.net found.now) ≤ most_hardened words.now.limits }
    ensures { IfOk result (IsWorkOver (Certify (certifying_in words.now))
        (AreDesigns words.now.limits words.now.original.now words.now.hardened.now designs.now)) }
{
    let text = accepted(
        alloc,
        found,
        designs.original.free_count(),
        designs.hardened.free_count(),
    )?;
    let original = designs.original.net();
    let hardened = designs.hardened.net();
    let made = CertText::in_pieces(alloc, original, hardened, found);
    saving_made(alloc, words.certificate, SavedText::Found(made), text)
}

/// A certificate that is found, where its text is not too long.
fn tell_found<'n, 't>(
    alloc: Global,
    words: &CertifyWords<'n>,
    designs: &'t Designs,
    found: &'t Certificate,
) -> Result<Work<'n, 't>, OutOfMemory>
    requires { IsFound words.now.version designs.now found.now }
    ensures { IfOk result (IsWorkOver (Certify (certifying_in words.now))
        (AreDesigns words.now.limits words.now.original.now words.now.hardened.now designs.now)) }
{
    let original = designs.original.net();
    let hardened = designs.hardened.net();
    let most = words.limits.hardened();
    let within = cert_is_within(alloc, original, hardened, found, most)?;
    if within {
        return tell_short(alloc, words, designs, found);
    }
    let text = certificate_too_long(alloc)?;
    Ok(denying(alloc, text))
}

/// Why no certificate is found.
fn tell_none<'n, 't>(
    alloc: Global,
    words: &CertifyWords<'n>,
    designs: &Designs,
    why: &NoCertificate,
) -> Result<Work<'n, 't>, OutOfMemory>
    requires { IsPlaced designs.now.original.design.net designs.now.hardened.design.net why.now }
    ensures { IfOk result (IsWorkOver (Certify (certifying_in words.now))
        (AreDesigns words.now.limits words.now.original.now words.now.hardened.now designs.now)) }
{
    match why {
        NoCertificate::Memory => Err(OutOfMemory),
        _ => {
            let text = no_certificate_line(
                alloc,
                designs.original.net(),
                designs.hardened.net(),
                why,
            )?;
            Ok(denying(alloc, text))
        }
    }
}

/// A certificate of two designs, or why none is found.
fn find(
    alloc: Global,
    words: &CertifyWords,
    designs: &Designs,
) -> Result<Certificate, NoCertificate>
    ensures found { IfOk result (IsFound words.now.version designs.now) }
    ensures place { IfErr result (IsPlaced designs.now.original.design.net designs.now.hardened.design.net) }
{
    match certify(alloc, &designs.original, &designs.hardened, words.version) {
        Ok(found) => Ok(found),
        Err(why) => Err(why),
    }
}

/// Looks for a certificate of two designs.
fn seek(alloc: Global, words: &CertifyWords, designs: Designs) -> Sought
    ensures designs { result.designs ≡ designs }
    ensures found { IfOk result.found (IsFound words.now.version designs) }
    ensures place { IfErr result.found (IsPlaced designs.original.design.net designs.hardened.design.net) }
{
    let found = find(alloc, words, &designs);
    Sought { designs, found }
}

/// The work of `certify`, where both designs are read.
fn tell<'n, 't>(
    alloc: Global,
    words: &CertifyWords<'n>,
    sought: &'t Sought,
) -> Result<Work<'n, 't>, OutOfMemory>
    requires found { IfOk sought.now.found (IsFound words.now.version sought.now.designs) }
    requires place { IfErr sought.now.found (IsPlaced sought.now.designs.original.design.net sought.now.designs.hardened.design.net) }
    ensures { IfOk result (IsWorkOver (Certify (certifying_in words.now))
        (AreDesigns words.now.limits words.now.original.now words.now.hardened.now sought.now.designs)) }
{
    match &sought.found {
        Ok(found) => tell_found(alloc, words, &sought.designs, found),
        Err(why) => tell_none(alloc, words, &sought.designs, why),
    }
}

/// The room of `certify`.
pub fn perform<F: Files>(
    alloc: Global,
    words: &CertifyWords,
    files: &mut F,
) -> Result<Decision, OutOfMemory>
    ensures { Performed (Certify (certifying_in words.now)) (F.seen files.old) (F.seen files.new)
        (F.steady files.old) (F.steady files.new) result }
{
    match open_designs(alloc, words.original, words.hardened, words.limits, files) {
        Ok(designs) => {
            let sought = seek(alloc, words, designs);
            conclude(alloc, tell(alloc, words, &sought), files)
        }
        Err(stop) => stopped(alloc, stop),
    }
}
