//! The hardened design and its certificate, put together.
ghost use Rattle.std.specs.Prelude.{◌≡◌, ◌+◌, ◌*◌, ◌<◌, ◌++◌, [], ◌∷◌, length, map, IfOk, OnOk};
ghost use Rattle.std.specs.List.{flat_map};
ghost use Rattle.flat_net.specs.Net.{node_name, net_names, IsOrder, IsValid};
ghost use Rattle.flat_net.specs.Packs.{Packs};
ghost use Rattle.flat_net.specs.Nodes.{number_of};
ghost use Rattle.triplicate.specs.Blocks.{threefold};
ghost use Rattle.triplicate.specs.Numbers.{copy_net};
ghost use Rattle.triplicate.specs.Construction.{hardened_order};
ghost use Rattle.triplicate.specs.Given.{IsGiven};
ghost use Rattle.triplicate.specs.Labels.{labeling};
ghost use Rattle.triplicate.specs.Planned.{cert_in};
ghost use Rattle.hardened_pair.specs.Private.Layouts.{IsLayout, net_of, partitions, voted, roles_of, hardened_of};

use crate::certifying::{copy_numbers, labels_of, of_version, partitions_of};
use crate::layout::Layout;
use crate::naming::hardened_clock;
use crate::ordering::hardened_order;
use crate::pins::first_copy;
use certificate::{CertDraft, Certificate, Role};
use flat_net::{FlatNet, PackedNodes, nodes_of};
use indexmap::IndexSet;
use std::alloc::Global;
use tmr_base::{Name, NetId, OutOfMemory};

/// Adds the three copies of which this is the first.
fn push_three(copy: u32, outputs: &mut Vec<NetId>) -> Result<(), OutOfMemory>
    requires { copy + 3 < 4294967296 }
    ensures { OnOk result (map number_of outputs.new.items ≡ map number_of outputs.old.items ++ copy ∷ (copy + 1) ∷ (copy + 2) ∷ []) }
{
    outputs.push(NetId(copy))?;
    outputs.push(NetId(copy + 1))?;
    outputs.push(NetId(copy + 2))?;
    Ok(())
}

/// The copies of the outputs.
fn hardened_outputs(alloc: Global, layout: &Layout) -> Result<Vec<NetId>, OutOfMemory>
    requires { IsLayout layout.now }
    ensures { IfOk result (λ outputs. map number_of outputs.items ≡ flat_map (λ x. threefold (copy_net (net_of layout.now) (partitions layout.now) (voted layout.now) x)) (net_of layout.now).outputs) }
{
    let n = layout.net;
    let count = n.output_count();
    let mut outputs = Vec::with_capacity(alloc, 3 * count as usize)?;
    for k in 0..count {
        let output = n.output(k);
        let copy = first_copy(layout, output.0);
        push_three(copy, &mut outputs)?;
    }
    Ok(outputs)
}

/// The hardened design.
pub fn assembled(
    alloc: Global,
    layout: &Layout,
    names: IndexSet<Name>,
    nodes: PackedNodes,
) -> Result<FlatNet, OutOfMemory>
    requires layout { IsLayout layout.now }
    requires names { names.keys ≡ net_names (hardened_of layout.now) }
    requires nodes { Packs (map node_name (hardened_of layout.now).nodes) nodes (hardened_of layout.now).nodes }
    requires valid { IsValid (hardened_of layout.now) }
    requires ordered { IsOrder (hardened_of layout.now) (hardened_order (net_of layout.now) (partitions layout.now) (voted layout.now) layout.now.net.now.order) }
    ensures { IfOk result (λ net. net.net ≡ hardened_of layout.now) }
{
    let n = layout.net;
    let model = n.model().copy(alloc)?;
    let outputs = hardened_outputs(alloc, layout)?;
    let clock = hardened_clock(alloc, n)?;
    let order = hardened_order(alloc, layout)?;
    let inputs = 3 * n.input_count();
    Ok(FlatNet::make(model, names, inputs, nodes, outputs, clock, order))
}

/// The certificate of the hardened design.
pub fn certified(
    alloc: Global,
    layout: &Layout,
    roles: Vec<Role>,
) -> Result<Certificate, OutOfMemory>
    requires layout { IsLayout layout.now }
    requires roles { roles.items ≡ roles_of layout.now }
    requires given { IsGiven (net_of layout.now) (partitions layout.now) (voted layout.now) (labeling layout.now.plan.now.inputs layout.now.plan.now.extra.table) }
    ensures { IfOk result (λ cert. cert ≡ cert_in (net_of layout.now) layout.now.plan.now) }
{
    let n = layout.net;
    let plan = layout.plan;
    let _nodes = nodes_of(n);
    let original_inputs = n.input_count();
    let depth = plan.depths(alloc)?;
    let part = partitions_of(alloc, &plan.parts)?;
    let copies = copy_numbers(alloc, layout)?;
    let labels = labels_of(alloc, &plan.extra, n.node_count())?;
    let hardened_inputs = 3 * original_inputs;
    let draft = CertDraft {
        original_inputs,
        hardened_inputs,
        depth,
        part,
        copies,
        labels,
        roles,
    };
    Ok(of_version(plan.inputs, draft))
}
