//! What takes files in pieces: netlists and certificates are read meanwhile, and of a file that is passed over nothing is kept.
ghost use Rattle.std.specs.Prelude.{◌≡◌, ◌≤◌, [], IfOk, List, ℕ};
ghost use Rattle.blif_text.specs.Reading.{reading, Reads};
ghost use Rattle.blif_text.specs.Reader.{StandsFor, most_bytes};
ghost use Rattle.certificate.specs.Cert.{Fits};
ghost use Rattle.certificate.specs.Gives.{Gives};
ghost use Rattle.certificate.specs.Reading.{cert_of_text};
ghost use Rattle.flat_net.specs.Net.{Net};
ghost use Rattle.limits.specs.Most.{widest_text};
ghost use Rattle.tmr_top.specs.Private.PairFiles.{IsReading};

use blif_text::{Library, Reader, TextFault};
use certificate::{CertFault, CertReader, Certificate};
use flat_net::FlatNet;
use std::alloc::Global;
use std::marker::{Brand, PhantomData};
use tmr_base::OutOfMemory;
use tmr_outside::Taker;

/// Reads a netlist piece by piece. After a refusal it goes on taking, and the reader answers that refusal
/// when it is finished.
#[derive(Drop)]
pub struct TextTaker {
    pub reader: Reader,
}

impl TextTaker {
    /// No piece has come.
    pub fn new(alloc: Global) -> Result<TextTaker, OutOfMemory>
        ensures stands { IfOk result (λ taker. StandsFor taker.reader []) }
        ensures room { IfOk result (λ taker. taker.reader.room ≡ most_bytes) }
    {
        let reader = Reader::new(alloc)?;
        Ok(TextTaker { reader })
    }

    /// Ends the netlist: its library, or its first bad line.
    pub fn finish(self) -> Result<Library, TextFault>
        ensures { (given : List ℕ) → StandsFor self.reader given → Reads result (reading given) }
    {
        self.reader.finish()
    }
}

impl Taker for TextTaker {
    ghost use Rattle.blif_text.specs.Reader.{StandsFor};

    ghost stands = { λ taker. StandsFor taker.reader };

    ghost room = { λ taker. taker.reader.room };

    fn take(&mut self, piece: &[u8]) {
        // The reader keeps its first refusal.
        let _ = self.reader.feed(piece);
    }
}

/// Names two designs, for proofs alone: which designs a certificate is read for. What a load says of a taker does not tell that.
pub trait OfDesigns {
    ghost original: { Net };

    ghost hardened: { Net };
}

impl OfDesigns for Brand {
    ghost use Rattle.std.specs.Prelude.{[], None};

    ghost original = { record { model = []; inputs = []; nodes = []; outputs = []; clock = None } };

    ghost hardened = { record { model = []; inputs = []; nodes = []; outputs = []; clock = None } };
}

/// Reads a certificate of the designs that P names, piece by piece. After a fault it goes on taking, and the reader answers that fault
/// when it is finished.
#[derive(Drop)]
pub struct CertTaker<'a, P: OfDesigns> {
    pub reader: CertReader<'a>,
    of: PhantomData<P>,
}

impl<'a, P: OfDesigns> CertTaker<'a, P> {
    /// No piece has come.
    pub fn new(alloc: Global, n: &'a FlatNet, h: &'a FlatNet) -> CertTaker<'a, P>
        requires original { n.now.net ≡ P.original }
        requires hardened { h.now.net ≡ P.hardened }
        ensures stands { IsReading P.original P.hardened result.reader [] }
        ensures room { widest_text ≤ result.reader.room }
    {
        CertTaker {
            reader: CertReader::new(alloc, n, h),
            of: PhantomData,
        }
    }

    /// Ends the certificate: what it spells, or the fault of its first bad line.
    pub fn finish(self) -> Result<Certificate, CertFault>
        ensures exact { (given : List ℕ) → IsReading P.original P.hardened self.entry.reader given
            → Gives (λ k. k) result (cert_of_text P.original P.hardened given) }
        ensures fits { (given : List ℕ) → IsReading P.original P.hardened self.entry.reader given
            → IfOk result (Fits P.original P.hardened) }
    {
        self.reader.finish()
    }
}

impl<'a, P: OfDesigns> Taker for CertTaker<'a, P> {
    ghost use Rattle.tmr_top.specs.Private.PairFiles.{IsReading};

    ghost stands = { λ taker. IsReading P.original P.hardened taker.reader };

    ghost room = { λ taker. taker.reader.room };

    fn take(&mut self, piece: &[u8]) {
        self.reader.feed(piece);
    }
}

/// Takes a file of which nothing is kept.
#[derive(Drop)]
pub struct PassingTaker {
    /// How many more bytes may come.
    pub room: u64,
}

impl Taker for PassingTaker {
    ghost stands = { λ taker given. Unit {0} };

    ghost room = { λ taker. taker.room };

    fn take(&mut self, piece: &[u8]) {
        self.room -= piece.len() as u64;
    }
}
