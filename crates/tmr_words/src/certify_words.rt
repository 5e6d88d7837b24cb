//! The words of `certify`.
ghost use Rattle.std.specs.Prelude.{◌<◌};

use limits::Limits;

/// The three file words of `certify ORIG HARD CERT`, the version of the certificate, and how large
/// files may be. The certificate's name is that of neither design.
#[derive(Clone, Copy, Drop)]
pub struct CertifyWords<'a> {
    pub original: &'a str,
    pub hardened: &'a str,
    pub certificate: &'a str,
    pub version: u8,
    pub limits: Limits,
    ghost versioned: { 0 < version },
    ghost known: { version < 3 },
}
