//! The words of `sweep`.
ghost use Rattle.std.specs.Prelude.{◌<◌};

use limits::Limits;
use triplicate::Form;

/// The file word and the options of `sweep ORIG`: the form, the version of the certificate, the most
/// that a depth may be, and how large files may be.
#[derive(Clone, Copy, Drop)]
pub struct SweepWords<'a> {
    pub original: &'a str,
    pub form: Form,
    pub version: u8,
    pub most: u32,
    pub limits: Limits,
    ghost versioned: { 0 < version },
    ghost known: { version < 3 },
    ghost bounded: { 0 < most },
}
