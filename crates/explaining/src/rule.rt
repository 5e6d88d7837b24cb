//! The eight rules.
ghost use Rattle.std.specs.Prelude.{◌≡◌};
ghost use Rattle.explaining.specs.Reasons.{number};

/// A rule by which a hardened design corresponds to its original.
#[derive(Clone, Copy, Drop)]
pub enum Rule {
    Inputs,
    Clocks,
    Tables,
    Registers,
    Voters,
    Labels,
    Depths,
    Outputs,
}

/// The number of a rule, from 1 to 8.
pub fn number(rule: Rule) -> u8
    ensures { result ≡ number rule }
{
    match rule {
        Rule::Inputs => 1,
        Rule::Clocks => 2,
        Rule::Tables => 3,
        Rule::Registers => 4,
        Rule::Voters => 5,
        Rule::Labels => 6,
        Rule::Depths => 7,
        Rule::Outputs => 8,
    }
}
