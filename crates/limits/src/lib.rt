//! How large files may be.
//!
//! There are two sets of limits: the usual one, and the large one, which the word `--large` asks for. specs/Most has all their numbers, and
//! no contract of another crate states one of them.
#![tactic(auto)]

ghost use Rattle.std.specs.Prelude.{◌≡◌, ◌≤◌};
ghost use Rattle.limits.specs.Most.{most_original, most_hardened, widest_original, widest_text};

/// Which limits hold.
#[derive(Clone, Copy, Debug, PartialEq, Eq, Drop)]
pub enum Limits {
    /// Without `--large`.
    Usual,
    /// With `--large`.
    Large,
}

impl Limits {
    /// The most bytes of an original design, of an AIGER file, and of the flat text of either.
    pub fn original(self) -> u64
        ensures is { result ≡ most_original self }
        ensures within { result ≤ widest_original }
    {
        match self {
            Limits::Usual => 8_388_608,
            Limits::Large => 134_217_728,
        }
    }

    /// The most bytes of a hardened design, of a guarded one, of the flat text of either, and of a certificate.
    pub fn hardened(self) -> u64
        ensures is { result ≡ most_hardened self }
        ensures within { result ≤ widest_text }
    {
        match self {
            Limits::Usual => 1_073_741_824,
            Limits::Large => 17_179_869_184,
        }
    }
}
