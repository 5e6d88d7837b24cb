//! How many entries a graph has.
ghost use Rattle.std.specs.Prelude.{◌≡◌, count_by};
ghost use Rattle.aag_text.specs.Aig.{plain_aig};
ghost use Rattle.aag_design.specs.Counts.{is_free, counts_of};

use crate::marks::starts_free;
use aag_text::{Aig, Latch};

/// The numbers of a file's header, and how many of its latches are free in cycle 0.
#[derive(Clone, Copy, Debug, PartialEq, Eq, Drop)]
pub struct Counts {
    pub inputs: u64,
    pub outputs: u64,
    pub latches: u64,
    pub gates: u64,
    pub free: u64,
}

fn is_free(latch: &Latch) -> bool
    ensures { result ≡ is_free latch.now }
{
    starts_free(latch.start)
}

fn free_count(latches: &[Latch]) -> u64
    ensures { result ≡ count_by is_free latches.now }
{
    latches.iter().filter(|latch| is_free(*latch)).count() as u64
}

/// How many entries a graph has.
pub fn counts_of(a: &Aig) -> Counts
    ensures { result ≡ counts_of (plain_aig a.now) }
{
    Counts {
        inputs: a.inputs.len() as u64,
        outputs: a.outputs.len() as u64,
        latches: a.latches.len() as u64,
        gates: a.gates.len() as u64,
        free: free_count(&a.latches),
    }
}
