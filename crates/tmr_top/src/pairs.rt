//! Pairs of designs: loaded, read in the order of the words, and checked.
ghost use Rattle.std.specs.Prelude.{◌≡◌, ◌∷◌, [], List, ℕ, count_by, IfOk, IfErr};
ghost use Rattle.limits.specs.declared.Limits.{Limits};
ghost use Rattle.limits.specs.Most.{most_original};
ghost use Rattle.tmr_texts.specs.Texts.{accepted_line, not_accepted_line};
ghost use Rattle.tmr_words.specs.FileWords.{pair_in};
ghost use Rattle.validator.specs.Place.{IsPlace};
ghost use Rattle.certificate.specs.Cert.{Fits};
ghost use Rattle.certificate.specs.Rules.{IsFirstFreeFailure};
ghost use Rattle.tmr_outside.specs.Contents.{Contents};
ghost use Rattle.tmr_top.specs.Loads.{original_file, hardened_file, certificate_file, pair_files};
ghost use Rattle.tmr_top.specs.Pairs.{HoldsPair, Accepts, IsMasking};
ghost use Rattle.tmr_top.specs.Validated.{IsPairUnread};
ghost use Rattle.tmr_top.specs.Private.Opened.{Never, Gives, Opens, Keeps};
ghost use Rattle.tmr_top.specs.Private.PairFiles.{AreDesigns, IsBeforePair, pair_of, IsFit};
ghost use Rattle.tmr_top.specs.Private.Refused.{AreRefused, KeepsDesign, IsWithin};
ghost use Rattle.tmr_top.specs.Private.Works.{IsDeniedWith};

use crate::decision::{Work, denying};
use crate::designs::{read_hardened, read_original, refuse_for};
use crate::loads::{
    CertRead, Kept, Stop, keep, load_certificate, load_hardened, load_original, pass_certificate,
    tell,
};
use crate::pair_files::{Designs, PairRead};
use certificate::Certificate;
use flat_net::FreeNet;
use limits::Limits;
use std::alloc::Global;
use tmr_base::OutOfMemory;
use tmr_outside::Files;
use tmr_texts::{accepted, cert_reason, not_accepted};
use tmr_words::PairWords;
use validator::{Refusal, check_free};

/// Loads an original design, and reads it at once.
fn kept_original<'a, F: Files>(
    alloc: Global,
    name: &'a str,
    limits: Limits,
    files: &mut F,
) -> Result<Kept<FreeNet>, Stop<'a>>
    ensures opens { Opens (original_file limits name.now ∷ []) (KeepsDesign (original_file limits name.now)) Never
        (F.seen files.old) (F.seen files.new) (F.steady files.old) (F.steady files.new) result }
    ensures within { IfOk result (λ kept. IfOk kept (IsWithin (most_original limits))) }
{
    match load_original(alloc, name, limits, files) {
        Ok(text) => keep(read_original(alloc, name, text, limits)),
        Err(stop) => Err(stop),
    }
}

/// Loads a design that was made of an original, and reads it at once.
fn kept_hardened<'a, F: Files>(
    alloc: Global,
    name: &'a str,
    limits: Limits,
    files: &mut F,
) -> Result<Kept<FreeNet>, Stop<'a>>
    ensures { Opens (hardened_file limits name.now ∷ []) (KeepsDesign (hardened_file limits name.now)) Never
        (F.seen files.old) (F.seen files.new) (F.steady files.old) (F.steady files.new) result }
{
    match load_hardened(alloc, name, limits, files) {
        Ok(text) => keep(read_hardened(alloc, name, text, limits)),
        Err(stop) => Err(stop),
    }
}

/// Two designs, or the refusal of the first one that is refused.
fn join_designs(original: Kept<FreeNet>, hardened: Kept<FreeNet>) -> Kept<Designs>
    ensures keeps { (l : Limits) (first second : List ℕ) (held : Contents)
        → KeepsDesign (original_file l first) original held → KeepsDesign (hardened_file l second) hardened held
        → Keeps (AreDesigns l first second) (AreRefused (original_file l first) (hardened_file l second)) result held }
    ensures within { (limit : ℕ) → IfOk original (IsWithin limit) → IfOk result (λ read. IsWithin limit read.original) }
{
    match original {
        Ok(original) => match hardened {
            Ok(hardened) => Ok(Designs { original, hardened }),
            Err(line) => Err(line),
        },
        Err(line) => Err(line),
    }
}

/// Loads an original design and one that was made of it, and reads each at once.
fn load_designs<'a, F: Files>(
    alloc: Global,
    original: &'a str,
    hardened: &'a str,
    limits: Limits,
    files: &mut F,
) -> Result<Kept<Designs>, Stop<'a>>
    ensures opens { Opens (original_file limits original.now ∷ hardened_file limits hardened.now ∷ [])
        (Keeps (AreDesigns limits original.now hardened.now)
        (AreRefused (original_file limits original.now) (hardened_file limits hardened.now))) Never
        (F.seen files.old) (F.seen files.new) (F.steady files.old) (F.steady files.new) result }
    ensures within { IfOk result (λ kept. IfOk kept (λ read. IsWithin (most_original limits) read.original)) }
{
    match kept_original(alloc, original, limits, files) {
        Ok(first) => match kept_hardened(alloc, hardened, limits, files) {
            Ok(second) => Ok(join_designs(first, second)),
            Err(stop) => Err(stop),
        },
        Err(stop) => Err(stop),
    }
}

/// Loads and reads an original design and one that was made of it.
pub fn open_designs<'a, F: Files>(
    alloc: Global,
    original: &'a str,
    hardened: &'a str,
    limits: Limits,
    files: &mut F,
) -> Result<Designs, Stop<'a>>
    ensures opens { Opens (original_file limits original.now ∷ hardened_file limits hardened.now ∷ [])
        (AreDesigns limits original.now hardened.now)
        (AreRefused (original_file limits original.now) (hardened_file limits hardened.now))
        (F.seen files.old) (F.seen files.new) (F.steady files.old) (F.steady files.new) result }
    ensures within { IfOk result (λ read. IsWithin (most_original limits) read.original) }
{
    match load_designs(alloc, original, hardened, limits, files) {
        Ok(kept) => tell(kept),
        Err(stop) => Err(stop),
    }
}

/// Two designs with their certificate.
pub fn join_pair(designs: Designs, certificate: Certificate) -> PairRead
    ensures original { result.original ≡ designs.original }
    ensures hardened { result.hardened ≡ designs.hardened }
    ensures certificate { result.certificate ≡ certificate }
{
    let Designs { original, hardened } = designs;
    PairRead {
        original,
        hardened,
        certificate,
    }
}

/// The pair of two designs, or the refusal of its certificate, which was read for them.
fn read_pair<'a>(
    alloc: Global,
    words: &PairWords,
    designs: Designs,
    read: CertRead,
) -> Result<PairRead, Stop<'a>>
    requires fits { IfOk read (Fits designs.original.design.net designs.hardened.design.net) }
    requires within { IsWithin (most_original words.now.limits) designs.original }
    ensures gives { Gives (IsBeforePair (pair_in words.now) designs read)
        (λ read held. HoldsPair held (pair_in words.now) (pair_of read))
        (λ line held. IsPairUnread (pair_in words.now) held line) result }
    ensures fit { IfOk result IsFit }
{
    match read {
        Ok(certificate) => Ok(join_pair(designs, certificate)),
        Err(fault) => Err(refuse_for(alloc, words.certificate, cert_reason(alloc, fault))),
    }
}

/// Loads the certificate of two designs that were read, and reads it for them meanwhile.
fn kept_pair<'a, F: Files>(
    alloc: Global,
    words: &PairWords<'a>,
    designs: Designs,
    files: &mut F,
) -> Result<Kept<PairRead>, Stop<'a>>
    requires { IsWithin (most_original words.now.limits) designs.original }
    ensures opens { Opens (certificate_file words.now.limits words.now.certificate.now ∷ [])
        (λ kept held. AreDesigns words.now.limits words.now.original.now words.now.hardened.now designs held
        → Keeps (λ read held. HoldsPair held (pair_in words.now) (pair_of read))
        (λ line held. IsPairUnread (pair_in words.now) held line) kept held) Never
        (F.seen files.old) (F.seen files.new) (F.steady files.old) (F.steady files.new) result }
    ensures fit { IfOk result (λ kept. IfOk kept IsFit) }
{
    let n = designs.original.net();
    let h = designs.hardened.net();
    match load_certificate(alloc, words, n, h, files) {
        Ok(read) => keep(read_pair(alloc, words, designs, read)),
        Err(stop) => Err(stop),
    }
}

/// Loads the certificate of a pair of which a design is refused in this line, which is kept.
fn kept_refusal<'a, F: Files>(
    alloc: Global,
    words: &PairWords<'a>,
    line: Vec<u8>,
    files: &mut F,
) -> Result<Kept<PairRead>, Stop<'a>>
    ensures opens { Opens (certificate_file words.now.limits words.now.certificate.now ∷ [])
        (λ kept held. AreRefused (original_file words.now.limits words.now.original.now)
        (hardened_file words.now.limits words.now.hardened.now) line.items held
        → Keeps (λ read held. HoldsPair held (pair_in words.now) (pair_of read))
        (λ line held. IsPairUnread (pair_in words.now) held line) kept held) Never
        (F.seen files.old) (F.seen files.new) (F.steady files.old) (F.steady files.new) result }
    ensures fit { IfOk result (λ kept. IfOk kept IsFit) }
{
    match pass_certificate(alloc, words, files) {
        Ok(()) => Ok(Err(line)),
        Err(stop) => Err(stop),
    }
}

/// Loads the three files of a pair, and reads each: the designs each at once, and the certificate for them while it is loaded. The
/// first refusal in the order of the words is kept.
pub fn load_pair<'a, F: Files>(
    alloc: Global,
    words: &PairWords<'a>,
    files: &mut F,
) -> Result<Kept<PairRead>, Stop<'a>>
    ensures opens { Opens (pair_files (pair_in words.now))
        (Keeps (λ read held. HoldsPair held (pair_in words.now) (pair_of read))
        (λ line held. IsPairUnread (pair_in words.now) held line)) Never
        (F.seen files.old) (F.seen files.new) (F.steady files.old) (F.steady files.new) result }
    ensures fit { IfOk result (λ kept. IfOk kept IsFit) }
{
    match load_designs(alloc, words.original, words.hardened, words.limits, files) {
        Ok(Ok(designs)) => kept_pair(alloc, words, designs, files),
        Ok(Err(line)) => kept_refusal(alloc, words, line, files),
        Err(stop) => Err(stop),
    }
}

/// Loads and reads the three files of a pair, which is not checked.
pub fn open_pair<'a, F: Files>(
    alloc: Global,
    words: &PairWords<'a>,
    files: &mut F,
) -> Result<PairRead, Stop<'a>>
    ensures opens { Opens (pair_files (pair_in words.now))
        (λ read held. HoldsPair held (pair_in words.now) (pair_of read))
        (λ line held. IsPairUnread (pair_in words.now) held line)
        (F.seen files.old) (F.seen files.new) (F.steady files.old) (F.steady files.new) result }
    ensures fit { IfOk result IsFit }
{
    match load_pair(alloc, words, files) {
        Ok(kept) => tell(kept),
        Err(stop) => Err(stop),
    }
}

/// Whether the eight rules hold of a pair, and then it masks.
pub fn check_pair(pair: &PairRead) -> Result<(), Refusal>
    requires { IsFit pair.now }
    ensures accepts { IfOk result (λ _. Accepts (pair_of pair.now)) }
    ensures masks { IfOk result (λ _. IsMasking (pair_of pair.now)) }
    ensures denies { IfErr result (λ e. IsFirstFreeFailure pair.now.original.design.net pair.now.original.free
        pair.now.hardened.design.net pair.now.hardened.free pair.now.certificate e.rule e.at) }
    ensures place { IfErr result (λ e. IsPlace pair.now.hardened.design.net e.rule e.at) }
{
    match check_free(&pair.original, &pair.hardened, &pair.certificate) {
        Ok(()) => Ok(()),
        Err(refusal) => Err(refusal),
    }
}

/// What is told of a pair that is accepted.
pub fn accepted_text(alloc: Global, pair: &PairRead) -> Result<Vec<u8>, OutOfMemory>
    ensures { IfOk result (λ text. text.items ≡ accepted_line pair.now.certificate
        (count_by (λ bit. bit) pair.now.original.free) (count_by (λ bit. bit) pair.now.hardened.free)) }
{
    accepted(
        alloc,
        &pair.certificate,
        pair.original.free_count(),
        pair.hardened.free_count(),
    )
}

/// The work where a pair is not accepted.
pub fn deny<'a>(
    alloc: Global,
    pair: &PairRead,
    refusal: Refusal,
) -> Result<Work<'a, 'a>, OutOfMemory>
    requires { IsPlace pair.now.hardened.design.net refusal.rule refusal.at }
    ensures { IfOk result (IsDeniedWith (not_accepted_line pair.now.hardened.design.net refusal.rule refusal.at)) }
{
    let text = not_accepted(alloc, pair.hardened.net(), refusal)?;
    Ok(denying(alloc, text))
}
