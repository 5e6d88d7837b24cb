//! The least depths of partitions, and the labels of the copies of each node.
ghost use Rattle.std.specs.Prelude.{◌≡◌, ◌<◌, ◌≤◌, ◌+◌, ◌-◌, ℕ, All, [], length, map, replicate, slice_index, slice_index_or, IfOk, OnOk};
ghost use Rattle.tmr_base.specs.declared.copies.CopyNo.{CopyNo};
ghost use Rattle.tmr_base.specs.Copies.{of_copy};
ghost use Rattle.flat_net.specs.Net.{net_count};
ghost use Rattle.certificate.specs.Threes.{three_of};
ghost use Rattle.certificate.specs.Cert.{Fits, copy_of};
ghost use Rattle.certifying.specs.Private.Bare.{AreSmall};
ghost use Rattle.certifying.specs.Private.Depths.{AreLabels, AreDepths};

use crate::labels::greater;
use certificate::Certificate;
use flat_net::{FlatNet, nodes_of};
use std::alloc::Global;
use tmr_base::{CopyNo, NetId, OutOfMemory};

/// The label of copy c of original node x.
fn label(n: &FlatNet, h: &FlatNet, k: &Certificate, labels: &[u32], x: NetId, c: CopyNo) -> u32
    requires fits { Fits n.now.net h.now.net k.now }
    requires long { length labels.now ≡ length h.now.net.nodes }
    requires low { length n.now.net.inputs ≤ x.0 }
    requires high { x.0 < net_count n.now.net }
    ensures { result ≡ slice_index labels.now (copy_of k.now x.0 c - length h.now.net.inputs) }
{
    let g = k.copy(x, c);
    labels[(g.0 - h.input_count()) as usize]
}

/// The labels of the copies of original node x.
fn three_labels(n: &FlatNet, h: &FlatNet, k: &Certificate, labels: &[u32], x: NetId) -> [u32; 3]
    requires fits { Fits n.now.net h.now.net k.now }
    requires long { length labels.now ≡ length h.now.net.nodes }
    requires low { length n.now.net.inputs ≤ x.0 }
    requires high { x.0 < net_count n.now.net }
    ensures labels { (c : CopyNo) → of_copy (three_of result) c ≡ slice_index labels.now (copy_of k.now x.0 c - length h.now.net.inputs) }
    ensures small { AreSmall (three_of result) }
{
    let first = label(n, h, k, labels, x, CopyNo::First);
    let second = label(n, h, k, labels, x, CopyNo::Second);
    let third = label(n, h, k, labels, x, CopyNo::Third);
    [first, second, third]
}

/// For each original node the labels of its copies.
pub fn node_labels(
    alloc: Global,
    n: &FlatNet,
    h: &FlatNet,
    k: &Certificate,
    labels: &[u32],
) -> Result<Vec<[u32; 3]>, OutOfMemory>
    requires fits { Fits n.now.net h.now.net k.now }
    requires long { length labels.now ≡ length h.now.net.nodes }
    ensures labels { IfOk result (λ threes. AreLabels n.now.net h.now.net k.now labels.now (map three_of threes.items)) }
    ensures small { IfOk result (λ threes. All AreSmall (map three_of threes.items)) }
{
    let original = n.input_count();
    let mut threes = Vec::new(alloc);
    for i in 0..nodes_of(n) {
        threes.push(three_labels(n, h, k, labels, NetId(original + i)))?;
    }
    Ok(threes)
}

/// So many zeros.
pub fn zeros(alloc: Global, count: u32) -> Result<Vec<u32>, OutOfMemory>
    ensures { IfOk result (λ zeros. zeros.items ≡ replicate count 0) }
{
    Ok(vec![in alloc; 0; count as usize]?)
}

/// The greatest of three.
fn greatest(three: [u32; 3]) -> u32
    ensures { (e : ℕ) → ((c : CopyNo) → of_copy (three_of three) c ≤ e) → result ≤ e }
{
    three[0].max(three[1]).max(three[2])
}

/// For each partition the greatest label of its nodes, or 0.
pub fn depths_of(
    alloc: Global,
    numbers: &[u32],
    count: u32,
    labels: &[[u32; 3]],
) -> Result<Vec<u32>, OutOfMemory>
    requires long { length labels.now ≡ length numbers.now }
    requires below { (i : ℕ) → i < length numbers.now → slice_index numbers.now i < count }
    ensures long { IfOk result (λ depths. length depths.items ≡ count) }
    ensures small { IfOk result (λ depths. All (λ d. d < 4294967296) depths.items) }
    ensures least { IfOk result (λ depths. AreDepths numbers.now (map three_of labels.now) depths.items) }
{
    let mut depths = zeros(alloc, count)?;
    for i in 0..numbers.len() {
        let p = numbers[i] as usize;
        depths[p] = greater(depths[p], greatest(labels[i]));
    }
    Ok(depths)
}
