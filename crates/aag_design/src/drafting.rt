//! The draft of a graph's design.
ghost use Rattle.std.specs.Prelude.{◌≡◌, ◌<◌, ◌++◌, ◌∷◌, [], true, map, length, IfOk, OnOk};
ghost use Rattle.flat_net.specs.Draft.{TableOf};
ghost use Rattle.tmr_base.specs.Names.{is_name_byte};
ghost use Rattle.aag_text.specs.declared.aig.Latch.{Latch};
ghost use Rattle.aag_text.specs.Aig.{plain_aig};
ghost use Rattle.aag_text.specs.Variables.{defined};
ghost use Rattle.aag_design.specs.Draft.{map_from, net_name, numbered, mark_of, literals_cover, table_of, zero_element, starts_with_1, latch_element, gate_element, literal_element, aig_elements, aig_draft};
ghost use Rattle.aag_design.specs.Private.Drafting.{IsGraph};

use crate::names::{name_of, net_name, numbered};
use aag_reader::Graph;
use aag_text::{Gate, Latch, Literal, Start};
use flat_net::Draft;
use std::alloc::Global;
use table_cover::Cover;
use tmr_base::{Name, OutOfMemory};

fn mark_of(l: Literal) -> u8
    ensures { result ≡ mark_of l }
{
    if l.negated { b'0' } else { b'1' }
}

/// The row that is 1 exactly where these literals are.
fn marks_of(alloc: Global, literals: &[Literal]) -> Result<Vec<u8>, OutOfMemory>
    ensures { IfOk result (λ marks. marks.items ≡ map mark_of literals.now) }
{
    let mut marks = Vec::new(alloc);
    for l in literals {
        marks.push(mark_of(*l))?;
    }
    Ok(marks)
}

/// The cover that is 1 exactly where these literals are. Of its row only memory can be wanted.
fn cover_of(alloc: Global, literals: &[Literal]) -> Result<Cover, OutOfMemory>
    requires { length literals.now < 4294967296 }
    ensures { IfOk result (λ cover. cover ≡ literals_cover literals.now) }
{
    let marks = marks_of(alloc, literals)?;
    let mut cover = Cover::new(alloc, literals.len() as u32);
    match cover.push_row(&marks, b'1') {
        Ok(()) => Ok(cover),
        Err(_) => Err(OutOfMemory),
    }
}

/// The nets of the variables of these literals.
fn pins_of(alloc: Global, g: &Graph, literals: &[Literal]) -> Result<Vec<Name>, OutOfMemory>
    requires { IsGraph g.now }
    ensures { IfOk result (λ pins. pins.items ≡ map (λ l. net_name (plain_aig g.now.aig) l.variable) literals.now) }
{
    let mut pins = Vec::new(alloc);
    for l in literals {
        pins.push(net_name(alloc, g, l.variable)?)?;
    }
    Ok(pins)
}

/// Adds the table that is 1 exactly where these literals are.
fn push_table(
    alloc: Global,
    draft: &mut Draft,
    g: &Graph,
    name: Name,
    literals: &[Literal],
) -> Result<(), OutOfMemory>
    requires graph { IsGraph g.now }
    requires few { length literals.now < 4294967296 }
    ensures { OnOk result (draft.new ≡ record draft.old { elements = draft.old.elements ++ table_of (plain_aig g.now.aig) name literals.now ∷ [] }) }
{
    let pins = pins_of(alloc, g, literals)?;
    let cover = cover_of(alloc, literals)?;
    draft.push_table(pins, name, cover)
}

/// Adds `f`, a table without rows.
fn push_zero(alloc: Global, draft: &mut Draft) -> Result<(), OutOfMemory>
    ensures { OnOk result (draft.new ≡ record draft.old { elements = draft.old.elements ++ zero_element ∷ [] }) }
{
    let name = name_of(alloc, b"f")?;
    draft.push_table(Vec::new(alloc), name, Cover::new(alloc, 0))
}

/// Adds the names of the inputs.
fn push_inputs(alloc: Global, draft: &mut Draft, inputs: &[u32]) -> Result<(), OutOfMemory>
    requires { length inputs.now < 4294967296 }
    ensures { OnOk result (draft.new ≡ record draft.old { inputs = draft.old.inputs ++ map_from (λ i v. numbered 105 i) 0 inputs.now }) }
{
    for i in 0..inputs.len() {
        let name = numbered(alloc, b'i', i as u32)?;
        draft.push_input(name)?;
    }
    Ok(())
}

/// Adds the names of the outputs.
fn push_outputs(alloc: Global, draft: &mut Draft, outputs: &[Literal]) -> Result<(), OutOfMemory>
    requires { length outputs.now < 4294967296 }
    ensures { OnOk result (draft.new ≡ record draft.old { outputs = draft.old.outputs ++ map_from (λ k l. numbered 111 k) 0 outputs.now }) }
{
    for k in 0..outputs.len() {
        let name = numbered(alloc, b'o', k as u32)?;
        draft.push_output(name)?;
    }
    Ok(())
}

fn starts_with_1(start: Start) -> bool
    ensures { result ≡ starts_with_1 start }
{
    match start {
        Start::One => true,
        Start::Zero => false,
        Start::Free => false,
    }
}

/// Adds latch j, which reads the table of its next literal.
fn push_latch(alloc: Global, draft: &mut Draft, j: u32, latch: Latch) -> Result<(), OutOfMemory>
    ensures { OnOk result (draft.new ≡ record draft.old { elements = draft.old.elements ++ latch_element j latch ∷ [] }) }
{
    let pin = numbered(alloc, b'd', j)?;
    let out = numbered(alloc, b'l', j)?;
    draft.push_latch(pin, out, None, starts_with_1(latch.start))
}

/// Adds the latches.
fn push_latches(alloc: Global, draft: &mut Draft, latches: &[Latch]) -> Result<(), OutOfMemory>
    requires { length latches.now < 4294967296 }
    ensures { OnOk result (draft.new ≡ record draft.old { elements = draft.old.elements ++ map_from latch_element 0 latches.now }) }
{
    for j in 0..latches.len() {
        push_latch(alloc, draft, j as u32, latches[j])?;
    }
    Ok(())
}

/// Adds the gate's table.
fn push_gate(alloc: Global, draft: &mut Draft, g: &Graph, gate: Gate) -> Result<(), OutOfMemory>
    requires { IsGraph g.now }
    ensures { OnOk result (draft.new ≡ record draft.old { elements = draft.old.elements ++ gate_element (plain_aig g.now.aig) gate ∷ [] }) }
{
    let name = numbered(alloc, b'n', gate.variable)?;
    push_table(alloc, draft, g, name, &[gate.left, gate.right])
}

/// Adds the tables of these gates.
fn push_gates(
    alloc: Global,
    draft: &mut Draft,
    g: &Graph,
    gates: &[Gate],
) -> Result<(), OutOfMemory>
    requires { IsGraph g.now }
    ensures { OnOk result (draft.new ≡ record draft.old { elements = draft.old.elements ++ map (gate_element (plain_aig g.now.aig)) gates.now }) }
{
    for gate in gates {
        push_gate(alloc, draft, g, *gate)?;
    }
    Ok(())
}

/// Adds the tables of these literals, with this letter.
fn push_literals(
    alloc: Global,
    draft: &mut Draft,
    g: &Graph,
    letter: u8,
    literals: &[Literal],
) -> Result<(), OutOfMemory>
    requires graph { IsGraph g.now }
    requires letter { is_name_byte letter ≡ true }
    requires few { length literals.now < 4294967296 }
    ensures { OnOk result (draft.new ≡ record draft.old { elements = draft.old.elements ++ map_from (literal_element (plain_aig g.now.aig) letter) 0 literals.now }) }
{
    for k in 0..literals.len() {
        let name = numbered(alloc, letter, k as u32)?;
        push_table(alloc, draft, g, name, &[literals[k]])?;
    }
    Ok(())
}

/// The next literals of the latches.
fn nexts_of(alloc: Global, latches: &[Latch]) -> Result<Vec<Literal>, OutOfMemory>
    ensures { IfOk result (λ nexts. nexts.items ≡ map (λ l. l.next) latches.now) }
{
    let mut nexts = Vec::new(alloc);
    for latch in latches {
        nexts.push(latch.next)?;
    }
    Ok(nexts)
}

/// Adds all elements: `f`, the latches, the gates, the next literals and the outputs.
fn push_elements(alloc: Global, draft: &mut Draft, g: &Graph) -> Result<(), OutOfMemory>
    requires { IsGraph g.now }
    ensures { OnOk result (draft.new ≡ record draft.old { elements = draft.old.elements ++ aig_elements (plain_aig g.now.aig) }) }
{
    let nexts = nexts_of(alloc, &g.aig.latches)?;
    push_zero(alloc, draft)?;
    push_latches(alloc, draft, &g.aig.latches)?;
    push_gates(alloc, draft, g, &g.aig.gates)?;
    push_literals(alloc, draft, g, b'd', &nexts)?;
    push_literals(alloc, draft, g, b'o', &g.aig.outputs)
}

/// The design of a graph, by name.
#[tactic(auto, unfolding(crate::specs::Draft::aig_draft))]
pub fn draft_of(alloc: Global, g: &Graph) -> Result<Draft, OutOfMemory>
    requires { IsGraph g.now }
    ensures { IfOk result (λ draft. draft ≡ aig_draft (plain_aig g.now.aig)) }
{
    let name = name_of(alloc, b"aig")?;
    let mut draft = Draft::new(alloc, name);
    push_inputs(alloc, &mut draft, &g.aig.inputs)?;
    push_outputs(alloc, &mut draft, &g.aig.outputs)?;
    push_elements(alloc, &mut draft, g)?;
    Ok(draft)
}
