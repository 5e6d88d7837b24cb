//! And-inverter graphs.
ghost use Rattle.std.specs.Prelude.{◌≡◌};
ghost use Rattle.aag_text.specs.Aig.{literal_number};

/// A variable, negated or not. Variable 0 is false.
#[derive(Clone, Copy, Debug, PartialEq, Eq, Drop)]
pub struct Literal {
    pub variable: u32,
    pub negated: bool,
}

/// The value of a latch in cycle 0.
#[derive(Clone, Copy, Debug, PartialEq, Eq, Drop)]
pub enum Start {
    Zero,
    One,
    Free,
}

/// A latch: its variable, the literal whose value it takes over, and its value in cycle 0.
#[derive(Clone, Copy, Debug, PartialEq, Eq, Drop)]
pub struct Latch {
    pub variable: u32,
    pub next: Literal,
    pub start: Start,
}

/// An and-gate: its variable, and the two literals of which it is the conjunction.
#[derive(Clone, Copy, Debug, PartialEq, Eq, Drop)]
pub struct Gate {
    pub variable: u32,
    pub left: Literal,
    pub right: Literal,
}

/// What the first line of a file says: the greatest variable, and how many inputs, latches, outputs and gates there are.
#[derive(Clone, Copy, Debug, Drop)]
pub struct Header {
    pub most: u32,
    pub inputs: u32,
    pub latches: u32,
    pub outputs: u32,
    pub gates: u32,
}

/// An and-inverter graph: the variables of its inputs, its latches, the literals of its outputs and its
/// gates, each in the order of the file.
#[derive(Debug, Drop)]
pub struct Aig {
    pub inputs: Vec<u32>,
    pub latches: Vec<Latch>,
    pub outputs: Vec<Literal>,
    pub gates: Vec<Gate>,
}

/// The number of a literal: twice its variable, and 1 more where it is negated.
pub fn literal_number(l: Literal) -> u64
    ensures { result ≡ literal_number l }
{
    let number = 2 * l.variable as u64;
    if l.negated { number + 1 } else { number }
}
