//! The nodes of a design.
ghost use Rattle.std.specs.Prelude.{◌≡◌, ◌==◌, ◌+◌, ◌*◌, ◌<◌, ◌≤◌, ◌++◌, [], ◌∷◌, ℕ, List, map, length, IfOk, OnOk};
ghost use Rattle.std.specs.List.{range_with_len};
ghost use Rattle.flat_net.specs.Net.{Node, Table, Register};
ghost use Rattle.flat_net.specs.Packs.{Packs};
ghost use Rattle.tmr_trial.specs.Numbers.{state_after, draw};
ghost use Rattle.tmr_trial.specs.Designs.{gate, node_text, node_drawn, nodes_drawn, state_behind};

use crate::gates::gate;
use crate::numbers::{Numbers, draw};
use flat_net::{PackedNodes, no_nodes, push_register, push_table};
use std::alloc::Global;
use tmr_base::{NetId, OutOfMemory};

/// Adds table i: it draws its two pins, of the nets before it, and then its cover.
fn push_drawn_table(
    alloc: Global,
    i: u32,
    numbers: &mut Numbers,
    nodes: &mut PackedNodes,
) -> Result<(), OutOfMemory>
    requires few { i ≤ 100000 }
    requires pins { length nodes.old.pins.items ≤ 2 * i }
    ensures state { OnOk result (numbers.new.state ≡ state_after 3 numbers.old.state) }
    ensures table { OnOk result ((names : List (List ℕ)) (name : List ℕ) (done : List Node) → Packs names nodes.old done →
        Packs (names ++ name ∷ []) nodes.new (done ++ Table name (gate (draw numbers.old.state 2 4)) (draw numbers.old.state 0 (8 + i) ∷ draw numbers.old.state 1 (8 + i) ∷ []) ∷ [])) }
    ensures pins { OnOk result (length nodes.new.pins.items ≡ length nodes.old.pins.items + 2) }
    ensures registers { OnOk result (nodes.new.registers ≡ nodes.old.registers) }
{
    let first = draw(numbers, 8 + i);
    let second = draw(numbers, 8 + i);
    let cover = gate(alloc, draw(numbers, 4))?;
    push_table(nodes, cover, &[NetId(first), NetId(second)])?;
    Ok(())
}

/// Adds a register: it draws its initial value and then its pin, of all nets.
fn push_drawn_register(
    count: u32,
    numbers: &mut Numbers,
    nodes: &mut PackedNodes,
) -> Result<(), OutOfMemory>
    requires few { count ≤ 100000 }
    requires pins { length nodes.old.pins.items ≤ 200000 }
    requires registers { nodes.old.registers ≤ 100000 }
    ensures state { OnOk result (numbers.new.state ≡ state_after 2 numbers.old.state) }
    ensures register { OnOk result ((names : List (List ℕ)) (name : List ℕ) (done : List Node) → Packs names nodes.old done →
        Packs (names ++ name ∷ []) nodes.new (done ++ Register name (draw numbers.old.state 0 2 == 1) (draw numbers.old.state 1 (8 + count)) ∷ [])) }
    ensures pins { OnOk result (length nodes.new.pins.items ≡ length nodes.old.pins.items + 1) }
    ensures registers { OnOk result (nodes.new.registers ≡ nodes.old.registers + 1) }
{
    let init = draw(numbers, 2) == 1;
    let pin = draw(numbers, 8 + count);
    push_register(nodes, init, NetId(pin))?;
    Ok(())
}

/// Adds node i of so many: one node of four is a register.
#[tactic(auto, unfolding(crate::specs::Designs::state_behind))]
fn push_drawn(
    alloc: Global,
    count: u32,
    i: u32,
    numbers: &mut Numbers,
    nodes: &mut PackedNodes,
) -> Result<(), OutOfMemory>
    requires few { count ≤ 100000 }
    requires node { i < count }
    requires pins { length nodes.old.pins.items ≤ 2 * i }
    requires registers { nodes.old.registers ≤ i }
    ensures state { OnOk result (numbers.new.state ≡ state_behind numbers.old.state) }
    ensures node { OnOk result ((names : List (List ℕ)) (name : List ℕ) (done : List Node) → name ≡ node_text i → Packs names nodes.old done →
        Packs (names ++ name ∷ []) nodes.new (done ++ node_drawn count i numbers.old.state ∷ [])) }
    ensures pins { OnOk result (length nodes.new.pins.items ≤ length nodes.old.pins.items + 2) }
    ensures registers { OnOk result (nodes.new.registers ≤ nodes.old.registers + 1) }
{
    if draw(numbers, 4) == 0 {
        push_drawn_register(count, numbers, nodes)?;
        return Ok(());
    }
    push_drawn_table(alloc, i, numbers, nodes)?;
    Ok(())
}

/// The nodes of a design of so many, drawn from this number.
pub fn drawn_nodes(alloc: Global, number: u64, count: u32) -> Result<PackedNodes, OutOfMemory>
    requires { count ≤ 100000 }
    ensures { IfOk result (λ nodes. Packs (map node_text (range_with_len 0 count)) nodes (nodes_drawn number count count)) }
{
    let mut numbers = Numbers::new(number);
    let mut nodes = no_nodes(alloc);
    for i in 0..count {
        push_drawn(alloc, count, i, &mut numbers, &mut nodes)?;
    }
    Ok(nodes)
}
