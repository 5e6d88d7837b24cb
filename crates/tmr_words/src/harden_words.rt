//! The words of `harden`.
ghost use Rattle.std.specs.Prelude.{◌<◌};

use limits::Limits;
use triplicate::Form;

/// The three file words and the options of `harden ORIG HARD CERT`: the form, the size of partitions, the
/// version of the certificate, the most that a depth may be, and how large files may be.
#[derive(Clone, Copy, Drop)]
pub struct HardenWords<'a> {
    pub original: &'a str,
    pub hardened: &'a str,
    pub certificate: &'a str,
    pub form: Form,
    pub size: u32,
    pub version: u8,
    pub most: u32,
    pub limits: Limits,
    ghost sized: { 0 < size },
    ghost versioned: { 0 < version },
    ghost known: { version < 3 },
    ghost bounded: { 0 < most },
}
