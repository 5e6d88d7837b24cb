//! Pairs of which each refusal shows the line that it names: the bytes of the three files are kept, each until it is read.
ghost use Rattle.std.specs.Prelude.{◌≡◌, ◌≤◌, ◌++◌, ◌∷◌, [], ℕ, length, IfOk};
ghost use Rattle.blif_text.specs.Reading.{reading, IsFaultOf};
ghost use Rattle.certificate.specs.Cert.{Fits};
ghost use Rattle.limits.specs.Most.{most_original, most_hardened, widest_text};
ghost use Rattle.tmr_texts.specs.Texts.{refused_line};
ghost use Rattle.tmr_words.specs.FileWords.{pair_in};
ghost use Rattle.tmr_top.specs.Designs.{HoldsDesign};
ghost use Rattle.tmr_top.specs.Explained.{line_shown, faulty_line, IsPairShown};
ghost use Rattle.tmr_top.specs.Loads.{original_file, hardened_file, certificate_file, kept_file, kept_pair_files};
ghost use Rattle.tmr_top.specs.Pairs.{HoldsPair, HoldsCertificate};
ghost use Rattle.tmr_top.specs.Private.Opened.{netlist_file, bytes_file, HoldsBytes, Never, IsRefusal, Gives, Opens};
ghost use Rattle.tmr_top.specs.Private.PairFiles.{AreDesigns, pair_of, IsFit};
ghost use Rattle.tmr_top.specs.Private.Refused.{IsWithin};
ghost use Rattle.tmr_top.specs.Private.Shown.{AreDesignBytes, ArePairBytes, ShowsFor, IsShownNetlist, AreShown, IsShownCertificate};

use crate::designs::design_of;
use crate::loads::{Stop, keep_hardened, keep_original};
use crate::pair_files::{DesignBytes, Designs, PairBytes, PairRead};
use crate::pairs::join_pair;
use blif_text::{TextFault, read_library};
use certificate::{CertFault, Certificate, read_cert};
use explaining::line_of;
use flat_net::FreeNet;
use limits::Limits;
use std::alloc::Global;
use tmr_base::OutOfMemory;
use tmr_outside::Files;
use tmr_texts::{bad_line, cert_reason, refused};
use tmr_words::PairWords;

/// Loads the bytes of an original design and of one that was made of it.
fn load_designs<'a, F: Files>(
    alloc: Global,
    original: &'a str,
    hardened: &'a str,
    limits: Limits,
    files: &mut F,
) -> Result<DesignBytes, Stop<'a>>
    ensures opens { Opens (kept_file (original_file limits original.now) ∷ kept_file (hardened_file limits hardened.now) ∷ [])
        (AreDesignBytes limits original.now hardened.now) Never
        (F.seen files.old) (F.seen files.new) (F.steady files.old) (F.steady files.new) result }
    ensures short_original { IfOk result (λ loaded. length loaded.original.items ≤ widest_text) }
    ensures short_hardened { IfOk result (λ loaded. length loaded.hardened.items ≤ widest_text) }
{
    match keep_original(alloc, original, limits, files) {
        Ok(first) => match keep_hardened(alloc, hardened, limits, files) {
            Ok(second) => Ok(DesignBytes {
                original: first,
                hardened: second,
            }),
            Err(stop) => Err(stop),
        },
        Err(stop) => Err(stop),
    }
}

/// Loads the bytes of the three files of a pair.
fn load_pair<'a, F: Files>(
    alloc: Global,
    words: &PairWords<'a>,
    files: &mut F,
) -> Result<PairBytes, Stop<'a>>
    ensures opens { Opens (kept_pair_files (pair_in words.now)) (ArePairBytes (pair_in words.now)) Never
        (F.seen files.old) (F.seen files.new) (F.steady files.old) (F.steady files.new) result }
    ensures short_original { IfOk result (λ loaded. length loaded.designs.original.items ≤ widest_text) }
    ensures short_hardened { IfOk result (λ loaded. length loaded.designs.hardened.items ≤ widest_text) }
    ensures short_certificate { IfOk result (λ loaded. length loaded.certificate.items ≤ widest_text) }
{
    let limits = words.limits;
    match load_designs(alloc, words.original, words.hardened, limits, files) {
        Ok(designs) => match keep_hardened(alloc, words.certificate, limits, files) {
            Ok(certificate) => Ok(PairBytes {
                designs,
                certificate,
            }),
            Err(stop) => Err(stop),
        },
        Err(stop) => Err(stop),
    }
}

/// The refusal of a file for this reason, and behind it the line of its bytes with this number.
fn shown_text(
    alloc: Global,
    name: &str,
    reason: &[u8],
    bytes: &[u8],
    number: u64,
) -> Result<Vec<u8>, OutOfMemory>
    ensures { IfOk result (λ text. text.items ≡ refused_line name.now reason.now ++ line_shown bytes.now number) }
{
    let mut text = refused(alloc, name, reason)?;
    text.extend_from_slice(line_of(bytes, number))?;
    text.push(b'\n')?;
    Ok(text)
}

/// The same, where there was memory for the reason.
fn refuse_showing<'a>(
    alloc: Global,
    name: &str,
    reason: Result<Vec<u8>, OutOfMemory>,
    bytes: &[u8],
    number: u64,
) -> Stop<'a>
    ensures { ShowsFor name.now reason bytes.now number result }
{
    match reason {
        Ok(reason) => match shown_text(alloc, name, &reason, bytes, number) {
            Ok(text) => Stop::Refused(text),
            Err(_) => Stop::Memory,
        },
        Err(_) => Stop::Memory,
    }
}

/// The refusal of a netlist of these bytes, which was read with this fault.
fn refuse_netlist<'a>(alloc: Global, name: &str, fault: TextFault, bytes: &[u8]) -> Stop<'a>
    requires { IsFaultOf (reading bytes.now) fault }
    ensures { (limit : ℕ) → IsRefusal (λ held. HoldsBytes held (bytes_file name.now limit) bytes.now)
        (IsShownNetlist (netlist_file name.now limit)) result }
{
    match fault {
        TextFault::Bad { line, kind } => {
            refuse_showing(alloc, name, bad_line(alloc, line, kind), bytes, line)
        }
        TextFault::Memory => Stop::Memory,
    }
}

/// The design that the bytes of a netlist give. They are freed once they are read.
fn read_netlist<'a>(
    alloc: Global,
    name: &str,
    bytes: Vec<u8>,
    limit: u64,
) -> Result<FreeNet, Stop<'a>>
    requires short { length bytes.items ≤ widest_text }
    requires limit { limit ≤ widest_text }
    ensures gives { Gives (λ held. HoldsBytes held (bytes_file name.now limit) bytes.items)
        (λ n held. HoldsDesign held (netlist_file name.now limit) n.design.net n.free)
        (IsShownNetlist (netlist_file name.now limit)) result }
    ensures within { IfOk result (IsWithin limit) }
{
    match read_library(alloc, &bytes) {
        Ok(library) => {
            drop(bytes);
            design_of(alloc, name, library, limit)
        }
        Err(fault) => Err(refuse_netlist(alloc, name, fault, &bytes)),
    }
}

/// The original design that the bytes of a netlist give.
fn read_original<'a>(
    alloc: Global,
    name: &str,
    bytes: Vec<u8>,
    limits: Limits,
) -> Result<FreeNet, Stop<'a>>
    requires { length bytes.items ≤ widest_text }
    ensures gives { Gives (λ held. HoldsBytes held (kept_file (original_file limits name.now)) bytes.items)
        (λ n held. HoldsDesign held (original_file limits name.now) n.design.net n.free)
        (IsShownNetlist (original_file limits name.now)) result }
    ensures within { IfOk result (IsWithin (most_original limits)) }
{
    read_netlist(alloc, name, bytes, limits.original())
}

/// The hardened design that the bytes of a netlist give.
fn read_hardened<'a>(
    alloc: Global,
    name: &str,
    bytes: Vec<u8>,
    limits: Limits,
) -> Result<FreeNet, Stop<'a>>
    requires { length bytes.items ≤ widest_text }
    ensures gives { Gives (λ held. HoldsBytes held (kept_file (hardened_file limits name.now)) bytes.items)
        (λ n held. HoldsDesign held (hardened_file limits name.now) n.design.net n.free)
        (IsShownNetlist (hardened_file limits name.now)) result }
    ensures within { IfOk result (IsWithin (most_hardened limits)) }
{
    read_netlist(alloc, name, bytes, limits.hardened())
}

/// Reads an original design, and then one that was made of it.
fn read_designs<'a>(
    alloc: Global,
    original: &str,
    hardened: &str,
    loaded: DesignBytes,
    limits: Limits,
) -> Result<Designs, Stop<'a>>
    requires short_original { length loaded.original.items ≤ widest_text }
    requires short_hardened { length loaded.hardened.items ≤ widest_text }
    ensures gives { Gives (AreDesignBytes limits original.now hardened.now loaded)
        (AreDesigns limits original.now hardened.now)
        (AreShown (original_file limits original.now) (hardened_file limits hardened.now)) result }
    ensures within { IfOk result (λ read. IsWithin (most_original limits) read.original) }
{
    match read_original(alloc, original, loaded.original, limits) {
        Ok(first) => match read_hardened(alloc, hardened, loaded.hardened, limits) {
            Ok(second) => Ok(Designs {
                original: first,
                hardened: second,
            }),
            Err(stop) => Err(stop),
        },
        Err(stop) => Err(stop),
    }
}

/// The number of the line that the fault of a certificate names.
fn faulty_line(fault: CertFault) -> u64
    ensures { result ≡ faulty_line fault }
{
    match fault {
        CertFault::Line(line)
        | CertFault::UnknownNet(line)
        | CertFault::Order(line)
        | CertFault::Range(line)
        | CertFault::Doubled(line) => line,
        CertFault::Memory => 0,
    }
}

/// Reads the certificate of two designs.
fn read_certificate<'a>(
    alloc: Global,
    name: &str,
    designs: &Designs,
    bytes: &[u8],
    limits: Limits,
) -> Result<Certificate, Stop<'a>>
    requires { length bytes.now ≤ widest_text }
    ensures gives { Gives (λ held. HoldsBytes held (certificate_file limits name.now) bytes.now)
        (λ c held. HoldsCertificate held (certificate_file limits name.now)
        designs.now.original.design.net designs.now.hardened.design.net c)
        (IsShownCertificate limits name.now designs.now.original.design.net designs.now.hardened.design.net) result }
    ensures fits { IfOk result
        (Fits designs.now.original.design.net designs.now.hardened.design.net) }
{
    match read_cert(alloc, bytes, designs.original.net(), designs.hardened.net()) {
        Ok(certificate) => Ok(certificate),
        Err(fault) => {
            let line = faulty_line(fault);
            Err(refuse_showing(alloc, name, cert_reason(alloc, fault), bytes, line))
        }
    }
}

/// Reads the three files of a pair, in the order of the words.
fn read_pair<'a>(alloc: Global, words: &PairWords, loaded: PairBytes) -> Result<PairRead, Stop<'a>>
    requires short_original { length loaded.designs.original.items ≤ widest_text }
    requires short_hardened { length loaded.designs.hardened.items ≤ widest_text }
    requires short_certificate { length loaded.certificate.items ≤ widest_text }
    ensures gives { Gives (ArePairBytes (pair_in words.now) loaded)
        (λ read held. HoldsPair held (pair_in words.now) (pair_of read))
        (λ text held. IsPairShown (pair_in words.now) held text) result }
    ensures fit { IfOk result IsFit }
{
    let limits = words.limits;
    match read_designs(
        alloc,
        words.original,
        words.hardened,
        loaded.designs,
        limits,
    ) {
        Ok(designs) => {
            match read_certificate(
                alloc,
                words.certificate,
                &designs,
                &loaded.certificate,
                limits,
            ) {
                Ok(certificate) => Ok(join_pair(designs, certificate)),
                Err(stop) => Err(stop),
            }
        }
        Err(stop) => Err(stop),
    }
}

/// Loads and reads the three files of a pair, which is not checked. A refusal shows the line that it names.
pub fn open_shown_pair<'a, F: Files>(
    alloc: Global,
    words: &PairWords<'a>,
    files: &mut F,
) -> Result<PairRead, Stop<'a>>
    ensures opens { Opens (kept_pair_files (pair_in words.now))
        (λ read held. HoldsPair held (pair_in words.now) (pair_of read))
        (λ text held. IsPairShown (pair_in words.now) held text)
        (F.seen files.old) (F.seen files.new) (F.steady files.old) (F.steady files.new) result }
    ensures fit { IfOk result IsFit }
{
    match load_pair(alloc, words, files) {
        Ok(loaded) => read_pair(alloc, words, loaded),
        Err(stop) => Err(stop),
    }
}
