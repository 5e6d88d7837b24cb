//! The least labels of copies.
ghost use Rattle.std.specs.Prelude.{◌≡◌, ◌<◌, ◌≤◌, ◌+◌, ℕ, Some, length, max, slice_index, IfOk, IfErr, OnOk};
ghost use Rattle.tmr_base.specs.declared.copies.CopyNo.{CopyNo};
ghost use Rattle.flat_net.specs.Net.{net_count, node_of, pins_at};
ghost use Rattle.certificate.specs.Cert.{Fits, role_of};
ghost use Rattle.certificate.specs.declared.role.Role.TheVariants.{Copy};
ghost use Rattle.certifying.specs.Private.Labels.{Reaches, AreReached, AreBelow};

use certificate::{Certificate, Role};
use flat_net::{FlatNet, Kind, nodes_of};
use std::alloc::Global;
use tmr_base::{NetId, OutOfMemory};

/// What hardened net p counts: its label, and 0 for an input. A voter's label stays 0.
fn counted(h: &FlatNet, labels: &[u32], p: NetId) -> u32
    requires { p.0 < net_count h.now.net }
    ensures { (l : ℕ → ℕ) → ((i : ℕ) → i < length labels.now → slice_index labels.now i ≤ l (length h.now.net.inputs + i)) → result ≤ l p.0 }
{
    let inputs = h.input_count();
    if p.0 < inputs {
        return 0;
    }
    match labels.get((p.0 - inputs) as usize) {
        Some(label) => *label,
        None => 0,
    }
}

/// The greater of two numbers.
pub fn greater(a: u32, b: u32) -> u32
    ensures { result ≡ max a b }
{
    a.max(b)
}

/// The most that the pins of hardened table g count.
fn most_counted(h: &FlatNet, labels: &[u32], g: NetId) -> u32
    requires { g.0 < net_count h.now.net }
    ensures { (l : ℕ → ℕ) (e : ℕ) → ((i : ℕ) → i < length labels.now → slice_index labels.now i ≤ l (length h.now.net.inputs + i)) → ((j : ℕ) → j < length (pins_at (node_of h.now.net g.0)) → l (slice_index (pins_at (node_of h.now.net g.0)) j) ≤ e) → result ≤ e }
{
    let mut most = 0;
    for j in 0..h.pin_count(g) {
        most = greater(most, counted(h, labels, h.pin(g, j)));
    }
    most
}

/// The label that the pins of hardened node g want: the most that they count, and one more for a register.
fn wanted(h: &FlatNet, labels: &[u32], g: NetId) -> u32
    requires { g.0 < net_count h.now.net }
    ensures { (l : ℕ → ℕ) (e : ℕ) → ((i : ℕ) → i < length labels.now → slice_index labels.now i ≤ l (length h.now.net.inputs + i)) → Reaches l (node_of h.now.net g.0) e → result ≤ e }
{
    match h.kind(g) {
        Kind::Input => 0,
        Kind::Table => most_counted(h, labels, g),
        Kind::Register => counted(h, labels, h.pin(g, 0)).saturating_add(1),
    }
}

/// Hardened node i, counted from 0, gets its label, if it is a copy.
fn label_node(n: &FlatNet, h: &FlatNet, k: &Certificate, labels: &mut Vec<u32>, i: u32)
    requires fits { Fits n.now.net h.now.net k.now }
    requires long { length labels.old.items ≡ length h.now.net.nodes }
    requires below { AreBelow h.now.net k.now labels.old.items }
    ensures long { length labels.new.items ≡ length h.now.net.nodes }
    ensures below { AreBelow h.now.net k.now labels.new.items }
{
    if i >= nodes_of(h) {
        return;
    }
    let g = NetId(h.input_count() + i);
    if let Role::Copy { .. } = k.role(g) {
        let label = wanted(h, labels, g);
        labels[i as usize] = label;
    }
}

/// The label of each hardened node, in an order in which each copy stands behind those that it reads. A voter has 0.
pub fn labels_of(
    alloc: Global,
    n: &FlatNet,
    h: &FlatNet,
    k: &Certificate,
    order: &[u32],
) -> Result<Vec<u32>, OutOfMemory>
    requires { Fits n.now.net h.now.net k.now }
    ensures long { IfOk result (λ labels. length labels.items ≡ length h.now.net.nodes) }
    ensures below { IfOk result (λ labels. AreBelow h.now.net k.now labels.items) }
{
    let mut labels = vec![in alloc; 0; nodes_of(h) as usize]?;
    for i in order {
        label_node(n, h, k, &mut labels, *i);
    }
    Ok(labels)
}
