//! What is promised of files that were written.
ghost use Rattle.std.specs.Prelude.{ℕ, List};
ghost use Rattle.flat_net.specs.Free.{FreeDesign};
ghost use Rattle.aag_text.specs.Written.{IsFileOf};
ghost use Rattle.aag_design.specs.ReadBack.{IsReadBack};

/// The law: the file of a design, as `aag_text` writes it, is read back. No fault of it can be told but a flat text that is longer
/// than the limit, and the design that is read is that of the file's graph.
pub fn is_read_back()
    ensures { (n : FreeDesign) (bytes : List ℕ) (file : IsFileOf n bytes) (limit : ℕ) → IsReadBack n bytes file limit }
{}
