//! Certificates: what each node of a hardened design is for.
//!
//! The layers above may rely on this: a `Certificate` is a record of lists that is consistent (each
//! number in range, h is copy c of x exactly where h has that role). The definitions of reading, of the
//! eight rules, and of allowed and quiet schedules stand here, in specs/.
//!
//! A certificate's text is read exactly (`read_cert`: the certificate, or the first line that is not the
//! expected one, with its fault), whole or in pieces (`CertReader`), and what is written, whole (`write_cert`)
//! or in pieces (`CertText`), is read again. specs/Text says how a certificate is spelled, specs/Words and specs/Reading what each line of
//! a text must be, and specs/Reader which bytes a reader stands for; specs/Lines, specs/Folding and
//! specs/Carrying are the code's own: no clause of a public function has to be believed by these.
#![tactic(auto)]

mod cert_text;
mod certificate;
mod draft;
mod fault;
mod forms;
mod line_kinds;
mod numbers;
mod pieces;
mod progress;
mod reader;
mod reading;
mod role;
mod text;
mod triples;
mod writing;

pub use cert_text::CertText;
pub use certificate::Certificate;
pub use draft::CertDraft;
pub use fault::CertFault;
pub use reader::CertReader;
pub use role::Role;
pub use text::{cert_is_within, read_cert, write_cert};
