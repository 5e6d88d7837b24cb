//! Reads schedule files.
ghost use Rattle.std.specs.Prelude.{◌≡◌, ◌<◌, ◌≤◌, ◌++◌, ◌∷◌, [], ℕ, List, All, IfOk, IfErr, OnOk, Some, None, length, map, count_by};
ghost use Rattle.toml.specs.View.{view, table_view};
ghost use Rattle.net_meaning.specs.Meaning.{upset_at};
ghost use Rattle.tmr_base.specs.declared.ids.Upset.{Upset};
ghost use Rattle.flat_net.specs.Net.{net_count};
ghost use Rattle.certificate.specs.Cert.{Fits};
ghost use Rattle.schedules.specs.Document.{document, listed_rows, listed_upsets, row_or_fault, row_of, upset_of, entry_of, listed, sched_of, starts_of, starts_or_fault, document_listed};
ghost use Rattle.std.specs.Map.{keys_of};
ghost use Rattle.std.specs.List.Sorted.{IsStrictlySortedBy};
ghost use Rattle.std.specs.BTreeMap as tree;
ghost use Rattle.schedules.specs.Gives.{Gives, Fails};
ghost use Rattle.schedules.specs.Reading.{IsReadAs, IsNodeOf};
ghost use Rattle.schedules.specs.Private.Reading.{PushesRow, ListsUpsets, CanBeStruck};
ghost use Rattle.schedules.specs.Private.Entries.{Holds, place_cmp, upset_of_entry};

use crate::document::{has_file_keys, inputs, read_document, read_row, read_starts, upsets};
use crate::entry::{find_net, read_entry};
use crate::{Schedule, ScheduleFault};
use certificate::Certificate;
use flat_net::{FlatNet, FreeNet};
use std::alloc::Global;
use std::collections::BTreeMap;
use tmr_base::{NetId, OutOfMemory, Upset};
use toml::{Table, Value};

/// Adds row t.
fn push_row(
    value: &Value,
    t: u32,
    width: u32,
    bits: &mut Vec<bool>,
    s: &mut Schedule,
) -> Result<(), ScheduleFault>
    requires inputs { s.old.inputs ≡ width }
    requires room { length s.old.rows < 1048576 }
    ensures ok { OnOk result (PushesRow width (view value.now) s.old s.new) }
    ensures err { IfErr result (λ f. Fails f (row_or_fault t (row_of width (view value.now)))) }
{
    match read_row(value, width as usize, bits) {
        Err(_) => Err(ScheduleFault::Memory),
        Ok(false) => Err(ScheduleFault::Row(t)),
        Ok(true) => match s.push_cycle(bits) {
            Ok(()) => Ok(()),
            Err(_) => Err(ScheduleFault::Memory),
        },
    }
}

/// Adds all rows.
#[tactic(auto, using(crate::proofs::Steps::rows_are_listed))]
fn read_rows(
    alloc: Global,
    rows: &[Value],
    width: u32,
    s: &mut Schedule,
) -> Result<(), ScheduleFault>
    requires inputs { s.old.inputs ≡ width }
    requires none { s.old.rows ≡ [] }
    requires few { length rows.now ≤ 1048576 }
    ensures rows { Gives (λ _. s.new.rows) result (listed_rows width (map view rows.now)) }
    ensures inputs { OnOk result (s.new.inputs ≡ width) }
    ensures upsets { OnOk result (s.new.upsets ≡ s.old.upsets) }
    ensures starts { OnOk result (s.new.starts ≡ s.old.starts) }
{
    let mut bits = Vec::new(alloc);
    for t in 0..rows.len() {
        match push_row(&rows[t], t as u32, width, &mut bits, s) {
            Ok(()) => {}
            Err(fault) => return Err(fault),
        }
    }
    Ok(())
}

/// Upset j, which is none of those that were seen.
#[tactic(auto, using(crate::proofs::Places::none_there))]
fn read_upset(
    alloc: Global,
    version: u8,
    value: &Value,
    j: u32,
    h: &FlatNet,
    cycles: u32,
    seen: &BTreeMap<(u32, u32), bool>,
) -> Result<Upset, ScheduleFault>
    ensures upset { (earlier : List Upset) → Holds seen.now earlier → Gives (λ u. u) result (upset_of version h.now.net cycles j earlier (entry_of (view value.now))) }
    ensures struck { IfOk result (λ u. CanBeStruck version h.now.net u.net.0) }
    ensures range { IfOk result (λ u. u.cycle < cycles) }
    ensures fresh { IfOk result (λ u. tree.get place_cmp seen.now (u.cycle, u.net.0) ≡ None) }
{
    match read_entry(value) {
        None => Err(ScheduleFault::Entry(j)),
        Some(entry) => match find_net(alloc, version, h, entry.net) {
            Err(_) => Err(ScheduleFault::Memory),
            Ok(None) => Err(ScheduleFault::UnknownNet(j)),
            Ok(Some(net)) => {
                if entry.cycle >= u64::from(cycles) {
                    return Err(ScheduleFault::Range(j));
                }
                let cycle = entry.cycle as u32;
                if seen.contains_key(&(cycle, net.0)) {
                    return Err(ScheduleFault::Doubled(j));
                }
                Ok(Upset {
                    cycle,
                    net,
                    value: entry.value,
                })
            }
        },
    }
}

/// The upsets by cycle and net.
#[tactic(auto, using(crate::proofs::Steps::upsets_are_listed))]
fn read_upsets(
    alloc: Global,
    version: u8,
    entries: &[Value],
    h: &FlatNet,
    cycles: u32,
) -> Result<BTreeMap<(u32, u32), bool>, ScheduleFault>
    requires { length entries.now ≤ 1048576 }
    ensures ok { IfOk result (λ m. ListsUpsets version h.now.net cycles (map view entries.now) m) }
    ensures err { IfErr result (λ f. Fails f (listed_upsets version h.now.net cycles (map view entries.now))) }
{
    let mut seen = BTreeMap::new(alloc);
    for j in 0..entries.len() {
        match read_upset(alloc, version, &entries[j], j as u32, h, cycles, &seen) {
            Err(fault) => return Err(fault),
            Ok(u) => match seen.insert((u.cycle, u.net.0), u.value) {
                Err(_) => return Err(ScheduleFault::Memory),
                Ok(_) => {}
            },
        }
    }
    Ok(seen)
}

/// The entries of a map, in order.
fn entries_of(
    alloc: Global,
    map: BTreeMap<(u32, u32), bool>,
) -> Result<Vec<((u32, u32), bool)>, OutOfMemory>
    ensures { IfOk result (λ v. v.items ≡ map.entries) }
{
    Ok(map.into_iter().collect(alloc)?)
}

/// Adds all upsets.
fn push_upsets(entries: &[((u32, u32), bool)], s: &mut Schedule) -> Result<(), OutOfMemory>
    requires none { s.old.upsets ≡ [] }
    requires few { length entries.now ≤ 1048576 }
    requires ordered { IsStrictlySortedBy place_cmp (keys_of entries.now) }
    requires range { All (λ k. k.0 < length s.old.rows) (keys_of entries.now) }
    ensures { OnOk result (s.new ≡ record s.old { upsets = map upset_of_entry entries.now }) }
{
    for j in 0..entries.len() {
        let ((cycle, net), value) = entries[j];
        s.push_upset(Upset {
            cycle,
            net: NetId(net),
            value,
        })?;
    }
    Ok(())
}

/// Adds the start values.
fn push_starts(bits: &[bool], s: &mut Schedule) -> Result<(), OutOfMemory>
    requires none { s.old.starts ≡ [] }
    requires few { length bits.now ≤ 4294967295 }
    ensures { OnOk result (s.new ≡ record s.old { starts = bits.now }) }
{
    for j in 0..bits.len() {
        s.push_start(bits[j])?;
    }
    Ok(())
}

/// A schedule with the start values alone.
fn start_schedule(
    alloc: Global,
    top: &Table,
    inputs: u32,
    count: u32,
) -> Result<Schedule, ScheduleFault>
    ensures starts { Gives (λ s. s.starts) result (starts_or_fault (starts_of count (table_view top.now))) }
    ensures rest { IfOk result (λ s. s ≡ record { inputs = inputs; rows = []; starts = s.starts; upsets = [] }) }
    ensures long { IfOk result (λ s. length s.starts ≡ count) }
{
    match read_starts(alloc, top, count as usize) {
        Err(_) => Err(ScheduleFault::Memory),
        Ok(None) => Err(ScheduleFault::Start),
        Ok(Some(bits)) => {
            let mut s = Schedule::new(alloc, inputs);
            match push_starts(&bits, &mut s) {
                Err(_) => Err(ScheduleFault::Memory),
                Ok(()) => Ok(s),
            }
        }
    }
}

/// What a schedule is read for: the version of a certificate, the original, how many of its registers have start
/// values, and the hardened design.
#[derive(Clone, Copy, Drop)]
struct Designs<'a> {
    version: u8,
    original: &'a FlatNet,
    starts: u32,
    hardened: &'a FlatNet,
}

/// Adds the start values, the rows and the upsets.
fn read_arrays(
    alloc: Global,
    designs: &Designs<'_>,
    top: &Table,
    rows: &[Value],
    upsets: &[Value],
) -> Result<Schedule, ScheduleFault>
    ensures ok { IfOk result (λ s. IsReadAs (length designs.now.original.now.net.inputs) (listed designs.now.version designs.now.original.now.net designs.now.hardened.now.net (starts_of designs.now.starts (table_view top.now)) (map view rows.now) (map view upsets.now)) s) }
    ensures struck { IfOk result (λ s. All (λ u. CanBeStruck designs.now.version designs.now.hardened.now.net u.net.0) s.upsets) }
    ensures inputs { IfOk result (λ s. s.inputs ≡ length designs.now.original.now.net.inputs) }
    ensures starts { IfOk result (λ s. length s.starts ≡ designs.now.starts) }
    ensures err { IfErr result (λ f. Fails f (listed designs.now.version designs.now.original.now.net designs.now.hardened.now.net (starts_of designs.now.starts (table_view top.now)) (map view rows.now) (map view upsets.now))) }
{
    if rows.len() > 1_048_576 || upsets.len() > 1_048_576 {
        return Err(ScheduleFault::TooMany);
    }
    let inputs = designs.original.input_count();
    match start_schedule(alloc, top, inputs, designs.starts) {
        Err(fault) => Err(fault),
        Ok(started) => {
            let mut s = started;
            match read_rows(alloc, rows, inputs, &mut s) {
                Err(fault) => return Err(fault),
                Ok(()) => {}
            }
            match read_upsets(alloc, designs.version, upsets, designs.hardened, s.cycles()) {
                Err(fault) => Err(fault),
                Ok(map) => match entries_of(alloc, map) {
                    Err(_) => Err(ScheduleFault::Memory),
                    Ok(entries) => match push_upsets(&entries, &mut s) {
                        Err(_) => Err(ScheduleFault::Memory),
                        Ok(()) => {
                            // What a schedule keeps.
                            let _cycles = s.cycles();
                            Ok(s)
                        }
                    },
                },
            }
        }
    }
}

/// The schedule that the bytes write for an original and its hardened design, or the first fault. Certificates of
/// version 1 go with it: inputs are not upset, and nothing begins with a free value.
#[tactic(auto, unfolding(crate::specs::Document::sched_of), using(crate::proofs::Places::all_nodes))]
pub fn read_schedule(
    alloc: Global,
    bytes: &[u8],
    n: &FlatNet,
    h: &FlatNet,
) -> Result<Schedule, ScheduleFault>
    requires { length bytes.now ≤ 16777216 }
    ensures ok { IfOk result (λ s. IsReadAs (length n.now.net.inputs) (sched_of 1 bytes.now n.now.net [] h.now.net) s) }
    ensures nodes { IfOk result (λ s. All (λ u. IsNodeOf h.now.net u.net.0) s.upsets) }
    ensures inputs { IfOk result (λ s. s.inputs ≡ length n.now.net.inputs) }
    ensures err { IfErr result (λ f. Fails f (sched_of 1 bytes.now n.now.net [] h.now.net)) }
{
    let designs = Designs {
        version: 1,
        original: n,
        starts: 0,
        hardened: h,
    };
    match read_for(alloc, &designs, bytes) {
        Ok(s) => Ok(s),
        Err(fault) => Err(fault),
    }
}

/// The same for certificates of version 2: inputs may be upset, and the marked registers of the original have start
/// values.
#[tactic(auto, unfolding(crate::specs::Document::sched_of), using(crate::proofs::Places::all_nets))]
pub fn read_schedule_free(
    alloc: Global,
    bytes: &[u8],
    n: &FreeNet,
    h: &FreeNet,
    c: &Certificate,
) -> Result<Schedule, ScheduleFault>
    requires bytes { length bytes.now ≤ 16777216 }
    requires fits { Fits n.now.design.net h.now.design.net c.now }
    requires version { c.now.version ≡ 2 }
    ensures ok { IfOk result (λ s. IsReadAs (length n.now.design.net.inputs) (sched_of 2 bytes.now n.now.design.net n.now.free h.now.design.net) s) }
    ensures nets { IfOk result (λ s. All (λ u. u.net.0 < net_count h.now.design.net) s.upsets) }
    ensures inputs { IfOk result (λ s. s.inputs ≡ length n.now.design.net.inputs) }
    ensures starts { IfOk result (λ s. length s.starts ≡ count_by (λ mark. mark) n.now.free) }
    ensures err { IfErr result (λ f. Fails f (sched_of 2 bytes.now n.now.design.net n.now.free h.now.design.net)) }
{
    let designs = Designs {
        version: 2,
        original: n.net(),
        starts: n.free_count(),
        hardened: h.net(),
    };
    match read_for(alloc, &designs, bytes) {
        Ok(s) => Ok(s),
        Err(fault) => Err(fault),
    }
}

/// The schedule that the bytes write for these designs, or the first fault.
fn read_for(alloc: Global, designs: &Designs<'_>, bytes: &[u8]) -> Result<Schedule, ScheduleFault>
    requires { length bytes.now ≤ 16777216 }
    ensures ok { IfOk result (λ s. IsReadAs (length designs.now.original.now.net.inputs) (document_listed designs.now.version designs.now.starts designs.now.original.now.net designs.now.hardened.now.net (document bytes.now)) s) }
    ensures struck { IfOk result (λ s. All (λ u. CanBeStruck designs.now.version designs.now.hardened.now.net u.net.0) s.upsets) }
    ensures inputs { IfOk result (λ s. s.inputs ≡ length designs.now.original.now.net.inputs) }
    ensures starts { IfOk result (λ s. length s.starts ≡ designs.now.starts) }
    ensures err { IfErr result (λ f. Fails f (document_listed designs.now.version designs.now.starts designs.now.original.now.net designs.now.hardened.now.net (document bytes.now))) }
{
    match read_document(alloc, bytes) {
        Err(fault) => Err(fault),
        Ok(top) => read_top(alloc, designs, &top),
    }
}

/// The schedule that a document has, or its first fault.
fn read_top(alloc: Global, designs: &Designs<'_>, top: &Table) -> Result<Schedule, ScheduleFault>
    ensures ok { IfOk result (λ s. IsReadAs (length designs.now.original.now.net.inputs) (document_listed designs.now.version designs.now.starts designs.now.original.now.net designs.now.hardened.now.net (Some (table_view top.now))) s) }
    ensures struck { IfOk result (λ s. All (λ u. CanBeStruck designs.now.version designs.now.hardened.now.net u.net.0) s.upsets) }
    ensures inputs { IfOk result (λ s. s.inputs ≡ length designs.now.original.now.net.inputs) }
    ensures starts { IfOk result (λ s. length s.starts ≡ designs.now.starts) }
    ensures err { IfErr result (λ f. Fails f (document_listed designs.now.version designs.now.starts designs.now.original.now.net designs.now.hardened.now.net (Some (table_view top.now)))) }
{
    if !has_file_keys(designs.version, top) {
        return Err(ScheduleFault::Top);
    }
    match (inputs(top), upsets(top)) {
        (Some(rows), Some(entries)) => read_arrays(alloc, designs, top, rows, entries),
        _ => Err(ScheduleFault::Top),
    }
}
