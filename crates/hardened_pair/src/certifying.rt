//! The hardened design's certificate.
ghost use Rattle.std.specs.Prelude.{◌≡◌, ◌+◌, ◌*◌, ◌<◌, ◌≤◌, ◌^◌, All, length, map, IfOk, OnOk};
ghost use Rattle.std.specs.List.{range_with_len};
ghost use Rattle.certificate.specs.Cert.{IsCert};
ghost use Rattle.certificate.specs.Draft.{cert_of_draft};
ghost use Rattle.certificate.specs.Threes.{three_of, three_ids};
ghost use Rattle.triplicate.specs.Construction.{three_copies, three_labels};
ghost use Rattle.triplicate.specs.Form.{version_of};
ghost use Rattle.hardened_pair.specs.Private.Layouts.{IsLayout, net_of, partitions, voted};

use crate::layout::Layout;
use crate::pins::first_copy;
use certificate::{CertDraft, Certificate, Role};
use flat_net::nodes_of;
use recovery_depth::Extra;
use std::alloc::Global;
use tmr_base::{NetId, OutOfMemory, Parts};

/// The partition of each node.
pub fn partitions_of(alloc: Global, parts: &Parts) -> Result<Vec<u32>, OutOfMemory>
    ensures { IfOk result (λ of. of.items ≡ parts.now.of) }
{
    let count = parts.len();
    let mut of = Vec::with_capacity(alloc, count as usize)?;
    for y in 0..count {
        of.push(parts.of(y))?;
    }
    Ok(of)
}

/// The labels of the copies of each node.
pub fn labels_of(alloc: Global, extra: &Extra, count: u32) -> Result<Vec<[u32; 3]>, OutOfMemory>
    requires { count ≡ length extra.now.table.labels }
    ensures labels { IfOk result (λ labels. map three_of labels.items ≡ map three_labels extra.now.table.labels) }
    ensures small { OnOk result (All (λ l. l < 2 ^ 32) extra.now.table.labels) }
{
    let mut labels = Vec::with_capacity(alloc, count as usize)?;
    for y in 0..count {
        let label = extra.label(y);
        labels.push([label, label, label])?;
    }
    Ok(labels)
}

/// The numbers of the three copies of each node.
pub fn copy_numbers(alloc: Global, layout: &Layout) -> Result<Vec<[NetId; 3]>, OutOfMemory>
    requires { IsLayout layout.now }
    ensures { IfOk result (λ copies. map three_ids copies.items ≡ map (three_copies (net_of layout.now) (partitions layout.now) (voted layout.now)) (range_with_len (length (net_of layout.now).inputs) (length (net_of layout.now).nodes))) }
{
    let n = layout.net;
    let count = nodes_of(n);
    let mut copies = Vec::with_capacity(alloc, count as usize)?;
    let inputs = n.input_count();
    for y in 0..count {
        let copy = first_copy(layout, inputs + y);
        copies.push([NetId(copy), NetId(copy + 1), NetId(copy + 2)])?;
    }
    Ok(copies)
}

/// A certificate of version 2, where pins that read inputs are voted, or else of version 1.
pub fn of_version(inputs: bool, draft: CertDraft) -> Certificate
    requires { IsCert (cert_of_draft (version_of inputs) draft) }
    ensures { result ≡ cert_of_draft (version_of inputs) draft }
{
    if inputs {
        Certificate::make2(draft)
    } else {
        Certificate::make(draft)
    }
}
