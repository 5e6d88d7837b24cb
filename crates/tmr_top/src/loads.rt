//! Files, loaded each as its kind wants it.
ghost use Rattle.std.specs.Prelude.{◌≡◌, ◌≤◌, ◌∷◌, [], length, IfOk, IfErr, IfSome, OnOk, IsOk};
ghost use Rattle.blif_text.specs.Reader.{most_bytes};
ghost use Rattle.certificate.specs.Cert.{Fits};
ghost use Rattle.limits.specs.Most.{widest_original, widest_text};
ghost use Rattle.tmr_outside.specs.Counts.{NoneRose};
ghost use Rattle.tmr_outside.specs.Pieces.{TakesFile};
ghost use Rattle.tmr_outside.specs.Seen.{IsTold};
ghost use Rattle.tmr_top.specs.Changes.{ChangesOnly};
ghost use Rattle.tmr_top.specs.Files.{IsFine};
ghost use Rattle.tmr_top.specs.Loads.{FileKind, original_file, hardened_file, certificate_file, kept_file};
ghost use Rattle.tmr_top.specs.Private.Opened.{netlist_file, bytes_file, HoldsText, HoldsBytes, Never, Opens, IsStop, IsSteadyStop, IsStopped, keeping, telling};
ghost use Rattle.tmr_top.specs.Private.PairFiles.{ReadsCertificate};

use crate::Status;
use crate::decision::Decision;
use crate::taker::{CertTaker, OfDesigns, PassingTaker, TextTaker};
use blif_text::{Library, TextFault};
use certificate::{CertFault, Certificate};
use flat_net::FlatNet;
use limits::Limits;
use std::alloc::Global;
use std::marker::Brand;
use tmr_base::OutOfMemory;
use tmr_outside::{Files, LoadFault, Taker};
use tmr_texts::{load_fault, refused};
use tmr_words::PairWords;

/// The most bytes of a schedule, whatever the limits.
pub const SCHEDULE_LIMIT: u64 = 16_777_216;

/// What was read of a netlist while it was loaded: its library, or its first bad line.
pub type Netlist = Result<Library, TextFault>;

/// What was read of a certificate while it was loaded: the certificate, or the fault of its first bad line.
pub type CertRead = Result<Certificate, CertFault>;

/// What was read of files while they were loaded, or the line that refuses one of them. It is told once all files of a command are
/// loaded.
pub type Kept<T> = Result<T, Vec<u8>>;

/// Why the files of a command were not all loaded and read.
#[derive(Drop)]
pub enum Stop<'a> {
    /// The load of the file of this name failed.
    Failed(&'a str),
    /// The file of this name is too long.
    TooLong(&'a str),
    /// A file is refused, in this line.
    Refused(Vec<u8>),
    /// There was no memory.
    Memory,
}

/// Hands a file to a taker in pieces.
#[tactic(auto, using(crate::proofs::LoadLaws::one_load))]
fn take_pieces<'a, F: Files, T: Taker>(
    alloc: Global,
    name: &'a str,
    limit: u64,
    files: &mut F,
    taker: &mut T,
) -> Result<(), Stop<'a>>
    requires { limit ≤ T.room taker.old }
    ensures taken { TakesFile (T.stands taker.old) (T.stands taker.new) (T.room taker.old) (T.room taker.new) limit
        (F.seen files.old).contents name.now (IsOk result) }
    ensures quiet { OnOk result (IsTold (F.seen files.old)
        → NoneRose (F.seen files.old).load_count (F.seen files.new).load_count) }
    ensures stop { (kind : FileKind) → IfErr result (IsStop (record { name = name.now; limit = limit; kind = kind } ∷ []) Never
        (F.seen files.old) (F.seen files.new)) }
    ensures stays { (F.seen files.new).contents ≡ (F.seen files.old).contents }
    ensures changes { ChangesOnly (name.now ∷ []) [] (F.seen files.old) (F.seen files.new) }
    ensures steady { F.steady files.old → F.steady files.new }
    ensures steady_stop { F.steady files.old → (kind : FileKind) → IfErr result
        (IsSteadyStop (record { name = name.now; limit = limit; kind = kind } ∷ []) (F.seen files.old).contents) }
{
    match files.load_pieces(alloc, name, limit, taker) {
        Ok(()) => Ok(()),
        Err(LoadFault::Failed) => Err(Stop::Failed(name)),
        Err(LoadFault::TooLong) => Err(Stop::TooLong(name)),
        Err(LoadFault::Memory) => Err(Stop::Memory),
    }
}

/// Loads a netlist in pieces, and reads it meanwhile.
#[tactic(auto, using(crate::proofs::LoadLaws::one_load))]
fn take_netlist<'a, F: Files>(
    alloc: Global,
    name: &'a str,
    limit: u64,
    files: &mut F,
) -> Result<Netlist, Stop<'a>>
    requires { limit ≤ most_bytes }
    ensures text { IfOk result (λ text. IfSome (F.seen files.old).contents (λ held.
        HoldsText held (netlist_file name.now limit) text)) }
    ensures quiet { OnOk result (IsTold (F.seen files.old)
        → NoneRose (F.seen files.old).load_count (F.seen files.new).load_count) }
    ensures stop { IfErr result (IsStop (netlist_file name.now limit ∷ []) Never
        (F.seen files.old) (F.seen files.new)) }
    ensures stays { (F.seen files.new).contents ≡ (F.seen files.old).contents }
    ensures changes { ChangesOnly (name.now ∷ []) [] (F.seen files.old) (F.seen files.new) }
    ensures steady { F.steady files.old → F.steady files.new }
    ensures steady_stop { F.steady files.old → IfErr result
        (IsSteadyStop (netlist_file name.now limit ∷ []) (F.seen files.old).contents) }
{
    let mut taker = match TextTaker::new(alloc) {
        Ok(taker) => taker,
        Err(_) => return Err(Stop::Memory),
    };
    match take_pieces(alloc, name, limit, files, &mut taker) {
        Ok(()) => Ok(taker.finish()),
        Err(stop) => Err(stop),
    }
}

/// Loads a netlist in pieces, and reads it meanwhile. A netlist that is refused is loaded all the
/// same.
fn load_netlist<'a, F: Files>(
    alloc: Global,
    name: &'a str,
    limit: u64,
    files: &mut F,
) -> Result<Netlist, Stop<'a>>
    requires { limit ≤ most_bytes }
    ensures { Opens (netlist_file name.now limit ∷ [])
        (λ text held. HoldsText held (netlist_file name.now limit) text) Never
        (F.seen files.old) (F.seen files.new) (F.steady files.old) (F.steady files.new) result }
{
    take_netlist(alloc, name, limit, files)
}

/// Loads an original design, and reads it meanwhile.
pub fn load_original<'a, F: Files>(
    alloc: Global,
    name: &'a str,
    limits: Limits,
    files: &mut F,
) -> Result<Netlist, Stop<'a>>
    ensures { Opens (original_file limits name.now ∷ [])
        (λ text held. HoldsText held (original_file limits name.now) text) Never
        (F.seen files.old) (F.seen files.new) (F.steady files.old) (F.steady files.new) result }
{
    load_netlist(alloc, name, limits.original(), files)
}

/// Loads a hardened design or a guarded one, and reads it meanwhile.
pub fn load_hardened<'a, F: Files>(
    alloc: Global,
    name: &'a str,
    limits: Limits,
    files: &mut F,
) -> Result<Netlist, Stop<'a>>
    ensures { Opens (hardened_file limits name.now ∷ [])
        (λ text held. HoldsText held (hardened_file limits name.now) text) Never
        (F.seen files.old) (F.seen files.new) (F.steady files.old) (F.steady files.new) result }
{
    load_netlist(alloc, name, limits.hardened(), files)
}

/// Loads a file whole.
#[tactic(auto, using(crate::proofs::LoadLaws::one_load))]
fn take_bytes<'a, F: Files>(
    alloc: Global,
    name: &'a str,
    limit: u64,
    files: &mut F,
) -> Result<Vec<u8>, Stop<'a>>
    ensures bytes { IfOk result (λ bytes. IfSome (F.seen files.old).contents (λ held.
        HoldsBytes held (bytes_file name.now limit) bytes.items)) }
    ensures short { IfOk result (λ bytes. length bytes.items ≤ limit) }
    ensures quiet { OnOk result (IsTold (F.seen files.old)
        → NoneRose (F.seen files.old).load_count (F.seen files.new).load_count) }
    ensures stop { IfErr result (IsStop (bytes_file name.now limit ∷ []) Never
        (F.seen files.old) (F.seen files.new)) }
    ensures stays { (F.seen files.new).contents ≡ (F.seen files.old).contents }
    ensures changes { ChangesOnly (name.now ∷ []) [] (F.seen files.old) (F.seen files.new) }
    ensures steady { F.steady files.old → F.steady files.new }
    ensures steady_stop { F.steady files.old → IfErr result
        (IsSteadyStop (bytes_file name.now limit ∷ []) (F.seen files.old).contents) }
{
    match files.load(alloc, name, limit) {
        Ok(bytes) => Ok(bytes),
        Err(LoadFault::Failed) => Err(Stop::Failed(name)),
        Err(LoadFault::TooLong) => Err(Stop::TooLong(name)),
        Err(LoadFault::Memory) => Err(Stop::Memory),
    }
}

/// Loads a file whole.
pub fn load_bytes<'a, F: Files>(
    alloc: Global,
    name: &'a str,
    limit: u64,
    files: &mut F,
) -> Result<Vec<u8>, Stop<'a>>
    ensures opens { Opens (bytes_file name.now limit ∷ [])
        (λ bytes held. HoldsBytes held (bytes_file name.now limit) bytes.items) Never
        (F.seen files.old) (F.seen files.new) (F.steady files.old) (F.steady files.new) result }
    ensures short { IfOk result (λ bytes. length bytes.items ≤ limit) }
{
    take_bytes(alloc, name, limit, files)
}

/// Loads a file whole that has the limit of an original design, and keeps its bytes.
pub fn keep_original<'a, F: Files>(
    alloc: Global,
    name: &'a str,
    limits: Limits,
    files: &mut F,
) -> Result<Vec<u8>, Stop<'a>>
    ensures opens { Opens (kept_file (original_file limits name.now) ∷ [])
        (λ bytes held. HoldsBytes held (kept_file (original_file limits name.now)) bytes.items) Never
        (F.seen files.old) (F.seen files.new) (F.steady files.old) (F.steady files.new) result }
    ensures short { IfOk result (λ bytes. length bytes.items ≤ widest_original) }
{
    load_bytes(alloc, name, limits.original(), files)
}

/// Loads a file whole that has the limit of a hardened design, and keeps its bytes.
pub fn keep_hardened<'a, F: Files>(
    alloc: Global,
    name: &'a str,
    limits: Limits,
    files: &mut F,
) -> Result<Vec<u8>, Stop<'a>>
    ensures opens { Opens (kept_file (hardened_file limits name.now) ∷ [])
        (λ bytes held. HoldsBytes held (kept_file (hardened_file limits name.now)) bytes.items) Never
        (F.seen files.old) (F.seen files.new) (F.steady files.old) (F.steady files.new) result }
    ensures short { IfOk result (λ bytes. length bytes.items ≤ widest_text) }
{
    load_bytes(alloc, name, limits.hardened(), files)
}

/// Loads a certificate of the designs that P names in pieces, and reads it meanwhile.
#[tactic(auto, using(crate::proofs::LoadLaws::one_load))]
fn take_certificate<'a, P: OfDesigns, F: Files>(
    alloc: Global,
    words: &PairWords<'a>,
    limit: u64,
    n: &FlatNet,
    h: &FlatNet,
    files: &mut F,
) -> Result<CertRead, Stop<'a>>
    requires limit { limit ≤ widest_text }
    requires original { n.now.net ≡ P.original }
    requires hardened { h.now.net ≡ P.hardened }
    ensures read { IfOk result (λ read. IfSome (F.seen files.old).contents (λ held.
        ReadsCertificate held (bytes_file words.now.certificate.now limit) P.original P.hardened read)) }
    ensures fits { IfOk result (λ read. IfOk read (Fits P.original P.hardened)) }
    ensures quiet { OnOk result (IsTold (F.seen files.old)
        → NoneRose (F.seen files.old).load_count (F.seen files.new).load_count) }
    ensures stop { IfErr result (IsStop (bytes_file words.now.certificate.now limit ∷ []) Never
        (F.seen files.old) (F.seen files.new)) }
    ensures stays { (F.seen files.new).contents ≡ (F.seen files.old).contents }
    ensures changes { ChangesOnly (words.now.certificate.now ∷ []) [] (F.seen files.old) (F.seen files.new) }
    ensures steady { F.steady files.old → F.steady files.new }
    ensures steady_stop { F.steady files.old → IfErr result
        (IsSteadyStop (bytes_file words.now.certificate.now limit ∷ []) (F.seen files.old).contents) }
{
    let mut taker = CertTaker::<P>::new(alloc, n, h);
    match take_pieces(alloc, words.certificate, limit, files, &mut taker) {
        Ok(()) => Ok(taker.finish()),
        Err(stop) => Err(stop),
    }
}

/// Loads the certificate of a pair, and reads it meanwhile for these designs. A certificate with a fault is loaded all the same.
pub fn load_certificate<'a, F: Files>(
    alloc: Global,
    words: &PairWords<'a>,
    n: &FlatNet,
    h: &FlatNet,
    files: &mut F,
) -> Result<CertRead, Stop<'a>>
    ensures opens { Opens (certificate_file words.now.limits words.now.certificate.now ∷ [])
        (λ read held. ReadsCertificate held (certificate_file words.now.limits words.now.certificate.now)
        n.now.net h.now.net read) Never
        (F.seen files.old) (F.seen files.new) (F.steady files.old) (F.steady files.new) result }
    ensures fits { IfOk result (λ read. IfOk read (Fits n.now.net h.now.net)) }
{
    take_certificate::<Brand, F>(alloc, words, words.limits.hardened(), n, h, files)
}

/// Loads the certificate of a pair, and keeps nothing of it.
pub fn pass_certificate<'a, F: Files>(
    alloc: Global,
    words: &PairWords<'a>,
    files: &mut F,
) -> Result<(), Stop<'a>>
    ensures { Opens (certificate_file words.now.limits words.now.certificate.now ∷ [])
        (λ _ held. IsFine held (certificate_file words.now.limits words.now.certificate.now)) Never
        (F.seen files.old) (F.seen files.new) (F.steady files.old) (F.steady files.new) result }
{
    let limit = words.limits.hardened();
    let mut taker = PassingTaker { room: limit };
    take_pieces(alloc, words.certificate, limit, files, &mut taker)
}

/// Keeps a refusal. Every other stop is told at once.
pub fn keep<'a, T>(answer: Result<T, Stop<'a>>) -> Result<Kept<T>, Stop<'a>>
    ensures { result ≡ keeping answer.entry }
{
    match answer {
        Ok(read) => Ok(Ok(read)),
        Err(Stop::Failed(name)) => Err(Stop::Failed(name)),
        Err(Stop::TooLong(name)) => Err(Stop::TooLong(name)),
        Err(Stop::Refused(line)) => Ok(Err(line)),
        Err(Stop::Memory) => Err(Stop::Memory),
    }
}

/// Tells what was kept.
pub fn tell<'a, T>(kept: Kept<T>) -> Result<T, Stop<'a>>
    ensures { result ≡ telling kept }
{
    match kept {
        Ok(read) => Ok(read),
        Err(line) => Err(Stop::Refused(line)),
    }
}

/// The decision where files were not all loaded and read.
pub fn stopped(alloc: Global, stop: Stop) -> Result<Decision, OutOfMemory>
    ensures { IfOk result (λ d. IsStopped stop.entry d.status d.text.items) }
{
    match stop {
        Stop::Failed(name) => {
            let text = load_fault(alloc, name)?;
            Ok(Decision {
                status: Status::Fault,
                text,
            })
        }
        Stop::TooLong(name) => {
            let text = refused(alloc, name, b"too long")?;
            Ok(Decision {
                status: Status::Refused,
                text,
            })
        }
        Stop::Refused(text) => Ok(Decision {
            status: Status::Refused,
            text,
        }),
        Stop::Memory => Err(OutOfMemory),
    }
}
