//! What is promised of the graph of a design.
ghost use Rattle.flat_net.specs.Net.{IsDesign};
ghost use Rattle.flat_net.specs.Free.{FreeDesign};
ghost use Rattle.aag_text.specs.Aig.{PlainAig};
ghost use Rattle.aag_text.specs.Private.Nets.{IsMadeGraph};
ghost use Rattle.aag_text.specs.Same.{DoTheSame};

/// The law: the graph of a design does the same as the design.
pub fn does_the_same()
    ensures { (n : FreeDesign) (a : PlainAig) → IsDesign n.design → IsMadeGraph n a → DoTheSame n a }
{}
