//! The text of a design.
ghost use Rattle.std.specs.Prelude.{◌≡◌, ◌≤◌, ◌++◌, ◌∷◌, [], ℕ, Bool, List, IfOk, OnOk, Ok, codes, length};
ghost use Rattle.blif_text.specs.Reading.{reading};
ghost use Rattle.flat_net.specs.Net.{Net};
ghost use Rattle.library_faults.specs.FlatText.{text_length};
ghost use Rattle.blif_writer.specs.Left.{spaced_line};
ghost use Rattle.blif_writer.specs.Text.{flat_text, free_text, net_words, clock_words};
ghost use Rattle.blif_writer.specs.Length.{flat_length};
ghost use Rattle.blif_writer.specs.Model.{model_of, free_model};
ghost use Rattle.blif_writer.specs.NetOf.{IsNetOf, IsFreeNetOf};
ghost use Rattle.blif_writer.specs.Marks.{net_in, marks_in};

use crate::marked::Marked;
use crate::nodes::put_nodes;
use crate::words::{put_clock, put_inputs, put_outputs, put_word};
use flat_net::{FlatNet, FreeNet};
use std::alloc::{AllocError, Global};
use tmr_base::OutOfMemory;

/// Puts the line of the model's name.
fn put_model(out: &mut Vec<u8>, net: &FlatNet) -> Result<(), AllocError>
    ensures { OnOk result (out.new.items ≡ out.old.items ++ spaced_line (codes ".model") (net.now.net.model ∷ [])) }
{
    out.extend_from_slice(b".model")?;
    put_word(out, net.model().bytes())?;
    out.push(b'\n')?;
    Ok(())
}

/// Puts the line of the inputs, of which the clock is the last.
#[tactic(auto, using(crate::proofs::Putting::spaced_append))]
fn put_input_line(out: &mut Vec<u8>, net: &FlatNet) -> Result<(), AllocError>
    ensures { OnOk result (out.new.items ≡ out.old.items ++ spaced_line (codes ".inputs") (net.now.net.inputs ++ clock_words net.now.net.clock)) }
{
    out.extend_from_slice(b".inputs")?;
    put_inputs(out, net)?;
    put_clock(out, net)?;
    out.push(b'\n')?;
    Ok(())
}

/// Puts the line of the outputs.
#[tactic(auto, using(crate::proofs::Putting::spaced_append))]
fn put_output_line(out: &mut Vec<u8>, net: &FlatNet) -> Result<(), AllocError>
    ensures { OnOk result (out.new.items ≡ out.old.items ++ spaced_line (codes ".outputs") (net_words net.now.net net.now.net.outputs)) }
{
    out.extend_from_slice(b".outputs")?;
    put_outputs(out, net)?;
    out.push(b'\n')?;
    Ok(())
}

/// All lines, one after the other.
fn lines_of(alloc: Global, design: Marked<'_>) -> Result<Vec<u8>, AllocError>
    ensures { IfOk result (λ bytes. bytes.items ≡ free_text (net_in design.entry) (marks_in design.entry)) }
{
    let net = design.net();
    let mut out = Vec::new(alloc);
    put_model(&mut out, net)?;
    put_input_line(&mut out, net)?;
    put_output_line(&mut out, net)?;
    put_nodes(&mut out, design)?;
    out.extend_from_slice(b".end\n")?;
    Ok(out)
}

/// The flat text of a design: its model, inputs and last the clock, outputs, and nodes in order, a line
/// each and a line for each row, in the names of the nets. One pass over the design.
pub fn write_flat(alloc: Global, net: &FlatNet) -> Result<Vec<u8>, OutOfMemory>
    ensures text { IfOk result (λ bytes. bytes.items ≡ flat_text net.now.net) }
    // Its length, node by node and pin by pin.
    ensures length { IfOk result (λ bytes. length bytes.items ≡ flat_length net.now.net) }
    // It is read as one model with the design's names, tables and latches in order, whose text is as long.
    ensures model { IfOk result (λ bytes. reading bytes.items ≡ Ok (model_of net.now.net ∷ [])) }
    ensures model_length { text_length (model_of net.now.net) ≡ flat_length net.now.net }
    // Reading and flattening it gives the design, with no assumed initial value, for every limit that it keeps.
    ensures again { IfOk result (λ bytes. (limit : ℕ) → length bytes.items ≤ limit → IsNetOf bytes.items limit net.now.net 0) }
    // No limit gives another design.
    ensures only { IfOk result (λ bytes. (limit count : ℕ) (other : Net) → IsNetOf bytes.items limit other count → (other ≡ net.now.net) × (count ≡ 0)) }
{
    // It says that the design is valid: its names can be read back.
    net.input_count();
    let bytes = lines_of(alloc, Marked::Plain(net))?;
    Ok(bytes)
}

/// The flat text of a design with its marks: that of `write_flat`, but with `3` for the initial value of a
/// marked register. One pass over the design.
pub fn write_free(alloc: Global, net: &FreeNet) -> Result<Vec<u8>, OutOfMemory>
    ensures text { IfOk result (λ bytes. bytes.items ≡ free_text net.now.design.net net.now.free) }
    // Its length, node by node and pin by pin: marks change nothing.
    ensures length { IfOk result (λ bytes. length bytes.items ≡ flat_length net.now.design.net) }
    // It is read as one model with the design's names, tables and latches in order.
    ensures model { IfOk result (λ bytes. reading bytes.items ≡ Ok (free_model net.now.design.net net.now.free ∷ [])) }
    // Reading and flattening it gives the design and its marks, for every limit that it keeps.
    ensures again { IfOk result (λ bytes. (limit : ℕ) → length bytes.items ≤ limit → IsFreeNetOf bytes.items limit net.now.design.net net.now.free) }
    // No limit gives another design, or other marks.
    ensures only { IfOk result (λ bytes. (limit : ℕ) (other : Net) (marks : List Bool) → IsFreeNetOf bytes.items limit other marks → (other ≡ net.now.design.net) × (marks ≡ net.now.free)) }
{
    // It says that the design is valid: its names can be read back.
    net.net().input_count();
    let bytes = lines_of(alloc, Marked::Free(net))?;
    Ok(bytes)
}
