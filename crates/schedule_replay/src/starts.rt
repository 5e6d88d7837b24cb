//! The start values of a schedule.
ghost use Rattle.std.specs.Prelude.{◌≡◌, ◌+◌, ◌*◌, ◌<◌, ◌≤◌, ◌++◌, ◌∷◌, ℕ, Bool, List, All, IfOk, OnOk, [], length, false, slice_index_or, if◌then◌else◌};
ghost use Rattle.flat_net.specs.Net.{Net, net_count};
ghost use Rattle.flat_net.specs.Free.{node_bit};
ghost use Rattle.net_meaning.specs.Meaning.{start_at};
ghost use Rattle.certificate.specs.Cert.{Fits, RoleIsInRange};
ghost use Rattle.certificate.specs.Starts.{counted, spread_start as spread_start_of, role_start as role_start_of};
ghost use Rattle.schedule_replay.specs.Starts.{placed_starts, given_starts, AreStarts};

use certificate::{Certificate, Role};
use flat_net::FreeNet;
use schedules::Schedule;
use std::alloc::Global;
use tmr_base::{NetId, OutOfMemory};

/// The nodes of both designs that begin with a start value, each with its value.
#[derive(Drop)]
pub struct Starts {
    pub original: Vec<(NetId, bool)>,
    pub hardened: Vec<(NetId, bool)>,
}

/// No node begins with a start value.
pub fn no_starts(alloc: Global) -> Starts
    ensures original { result.original.items ≡ [] }
    ensures hardened { result.hardened.items ≡ [] }
{
    Starts {
        original: Vec::new(alloc),
        hardened: Vec::new(alloc),
    }
}

/// Start value j, or 0 where there is none.
fn start_or_zero(s: &Schedule, j: u32) -> bool
    ensures { result ≡ slice_index_or s.now.starts j false }
{
    if j < s.start_count() {
        s.start(j)
    } else {
        false
    }
}

/// The start value of a node, if it is marked, and which start value is the next one.
fn node_start(is_free: bool, s: &Schedule, next: u32) -> (bool, u32)
    requires { next < 4294967295 }
    ensures bit { result.0 ≡ (if is_free then slice_index_or s.now.starts next false else false) }
    ensures next { result.1 ≡ (if is_free then next + 1 else next) }
{
    if is_free {
        (start_or_zero(s, next), next + 1)
    } else {
        (false, next)
    }
}

/// One bit for each node of the original: its start value if it is marked.
fn place_starts(alloc: Global, n: &FreeNet, s: &Schedule) -> Result<Vec<bool>, OutOfMemory>
    ensures values { IfOk result (λ v. v.items ≡ placed_starts n.now.free s.now.starts) }
    ensures long { IfOk result (λ v. length v.items ≡ length n.now.design.net.nodes) }
{
    let mut values = Vec::new(alloc);
    let mut next = 0;
    let design = n.net();
    let inputs = design.input_count();
    for i in 0..design.node_count() {
        let (bit, after) = node_start(n.is_free(NetId(inputs + i)), s, next);
        values.push(bit)?;
        next = after;
    }
    Ok(values)
}

/// The start value of a role, where `values` has one bit for each original node.
fn role_start(c: &Certificate, inputs: u32, role: Role, values: &[bool]) -> bool
    requires inputs { inputs ≡ c.now.original_inputs }
    requires range { RoleIsInRange c.now role }
    requires values { length values.now ≡ length c.now.part }
    ensures { result ≡ role_start_of c.now values.now role }
{
    match role {
        Role::Copy { node, .. } => values[(node.0 - inputs) as usize],
        Role::Voter { .. } => false,
    }
}

/// One bit for each hardened node: a copy has its original's value.
fn spread_start(
    alloc: Global,
    n: &FreeNet,
    h: &FreeNet,
    c: &Certificate,
    values: &[bool],
) -> Result<Vec<bool>, OutOfMemory>
    requires fits { Fits n.now.design.net h.now.design.net c.now }
    requires values { length values.now ≡ length c.now.part }
    ensures values { IfOk result (λ v. v.items ≡ spread_start_of c.now values.now) }
    ensures long { IfOk result (λ v. length v.items ≡ length h.now.design.net.nodes) }
{
    let mut spread = Vec::new(alloc);
    let original_inputs = n.net().input_count();
    let design = h.net();
    let inputs = design.input_count();
    for i in 0..design.node_count() {
        let role = c.role(NetId(inputs + i));
        spread.push(role_start(c, original_inputs, role, values))?;
    }
    Ok(spread)
}

/// Adds the pair, if it is wanted.
fn push_if(
    wanted: bool,
    pair: (NetId, bool),
    starts: &mut Vec<(NetId, bool)>,
) -> Result<(), OutOfMemory>
    ensures { OnOk result (starts.new.items ≡ (if wanted then starts.old.items ++ pair ∷ [] else starts.old.items)) }
{
    if wanted {
        starts.push(pair)?;
        Ok(())
    } else {
        Ok(())
    }
}

/// The marked registers, each with its value.
fn marked_values(
    alloc: Global,
    n: &FreeNet,
    values: &[bool],
) -> Result<Vec<(NetId, bool)>, OutOfMemory>
    requires { length values.now ≡ length n.now.design.net.nodes }
    ensures starts { IfOk result (λ v. AreStarts n.now.design.net n.now.free values.now 0 v.items) }
    ensures range { IfOk result (λ v. All (λ f. f.0.0 < net_count n.now.design.net) v.items) }
{
    let mut starts = Vec::new(alloc);
    let design = n.net();
    let inputs = design.input_count();
    for i in 0..design.node_count() {
        let x = NetId(inputs + i);
        push_if(n.is_free(x), (x, values[i as usize]), &mut starts)?;
    }
    Ok(starts)
}

/// The start values that count by the certificate: none in version 1.
pub fn starts_of(
    alloc: Global,
    n: &FreeNet,
    h: &FreeNet,
    c: &Certificate,
    s: &Schedule,
) -> Result<Starts, OutOfMemory>
    requires { Fits n.now.design.net h.now.design.net c.now }
    ensures original { IfOk result (λ r. AreStarts n.now.design.net (counted c.now n.now.free) (given_starts c.now n.now.free s.now) 0 r.original.items) }
    ensures hardened { IfOk result (λ r. AreStarts h.now.design.net (counted c.now h.now.free) (spread_start_of c.now (given_starts c.now n.now.free s.now)) 0 r.hardened.items) }
    ensures original_range { IfOk result (λ r. All (λ f. f.0.0 < net_count n.now.design.net) r.original.items) }
    ensures hardened_range { IfOk result (λ r. All (λ f. f.0.0 < net_count h.now.design.net) r.hardened.items) }
{
    if c.version() == 1 {
        return Ok(no_starts(alloc));
    }
    let values = place_starts(alloc, n, s)?;
    let spread = spread_start(alloc, n, h, c, &values)?;
    let original = marked_values(alloc, n, &values)?;
    let hardened = marked_values(alloc, h, &spread)?;
    Ok(Starts { original, hardened })
}
