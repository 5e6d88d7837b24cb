//! Designs, read from what was loaded of their files.
ghost use Rattle.std.specs.Prelude.{◌≡◌, ◌≢◌, ◌≤◌, ◌∷◌, [], ℕ, IfOk, OnOk, Ok, Err};
ghost use Rattle.flat_net.specs.Net.{IsDesign};
ghost use Rattle.limits.specs.Most.{most_original, most_hardened, widest_text};
ghost use Rattle.tmr_texts.specs.Reasons.{flat_reason as reason_of_flat};
ghost use Rattle.tmr_texts.specs.Texts.{refused_line};
ghost use Rattle.tmr_top.specs.Designs.{HoldsDesign};
ghost use Rattle.tmr_top.specs.Loads.{original_file, hardened_file};
ghost use Rattle.tmr_top.specs.Private.Opened.{netlist_file, HoldsText, IsRefusal, Gives, Opens};
ghost use Rattle.tmr_top.specs.Private.Refused.{IsRefusedNetlist, IsWithin, Refuses, RefusesFor};

use crate::loads::{Netlist, Stop, load_original};
use blif_text::{Library, TextFault};
use flat_net::{FlatNet, FreeNet};
use hierarchy::{FlatFault, flatten_owned};
use limits::Limits;
use std::alloc::Global;
use tmr_base::OutOfMemory;
use tmr_outside::Files;
use tmr_texts::{bad_line, flat_reason, refused};

/// How many nodes a design has, which is a valid one.
fn checked(n: &FlatNet) -> u32
    ensures { IsDesign n.now }
{
    let _inputs = n.input_count();
    n.node_count()
}

/// How many nodes a design with marks has, which is a valid one.
pub fn checked_nodes(n: &FreeNet) -> u32
    ensures { IsDesign n.now.design }
{
    let design = n.net();
    checked(design)
}

/// The refusal of a file for this reason.
pub fn refuse<'a>(alloc: Global, name: &str, reason: &[u8]) -> Stop<'a>
    ensures { Refuses (refused_line name.now reason.now) result }
{
    match refused(alloc, name, reason) {
        Ok(line) => Stop::Refused(line),
        Err(_) => Stop::Memory,
    }
}

/// The refusal of a file for this reason, where there was memory for it.
pub fn refuse_for<'a>(alloc: Global, name: &str, reason: Result<Vec<u8>, OutOfMemory>) -> Stop<'a>
    ensures { RefusesFor name.now reason result }
{
    match reason {
        Ok(reason) => refuse(alloc, name, &reason),
        Err(_) => Stop::Memory,
    }
}

/// The reason of a fault, which is freed.
fn reason_of(alloc: Global, fault: FlatFault) -> Result<Vec<u8>, OutOfMemory>
    ensures reason { IfOk result (λ reason. reason.items ≡ reason_of_flat fault) }
    ensures caused { OnOk result (fault ≢ FlatFault.Memory) }
{
    let reason = flat_reason(alloc, &fault);
    drop(fault);
    reason
}

/// The design of a library, where its flat text keeps the limit.
pub fn design_of<'a>(
    alloc: Global,
    name: &str,
    library: Library,
    limit: u64,
) -> Result<FreeNet, Stop<'a>>
    requires { limit ≤ widest_text }
    ensures gives { Gives (λ held. HoldsText held (netlist_file name.now limit) (Ok library))
        (λ n held. HoldsDesign held (netlist_file name.now limit) n.design.net n.free)
        (IsRefusedNetlist (netlist_file name.now limit)) result }
    ensures within { IfOk result (IsWithin limit) }
{
    match flatten_owned(alloc, library, limit) {
        Ok(flat) => Ok(flat),
        Err(fault) => Err(refuse_for(alloc, name, reason_of(alloc, fault))),
    }
}

/// The refusal of a netlist that was read with this fault.
fn refuse_text<'a>(alloc: Global, name: &str, fault: TextFault) -> Stop<'a>
    ensures { (limit : ℕ) → IsRefusal (λ held. HoldsText held (netlist_file name.now limit) (Err fault))
        (IsRefusedNetlist (netlist_file name.now limit)) result }
{
    match fault {
        TextFault::Bad { line, kind } => refuse_for(alloc, name, bad_line(alloc, line, kind)),
        TextFault::Memory => Stop::Memory,
    }
}

/// The design that a netlist gives which was read so. Its names become the design's.
fn read_netlist<'a>(
    alloc: Global,
    name: &str,
    text: Netlist,
    limit: u64,
) -> Result<FreeNet, Stop<'a>>
    requires { limit ≤ widest_text }
    ensures gives { Gives (λ held. HoldsText held (netlist_file name.now limit) text)
        (λ n held. HoldsDesign held (netlist_file name.now limit) n.design.net n.free)
        (IsRefusedNetlist (netlist_file name.now limit)) result }
    ensures within { IfOk result (IsWithin limit) }
{
    match text {
        Ok(library) => design_of(alloc, name, library, limit),
        Err(fault) => Err(refuse_text(alloc, name, fault)),
    }
}

/// The original design that a netlist gives which was read so.
pub fn read_original<'a>(
    alloc: Global,
    name: &str,
    text: Netlist,
    limits: Limits,
) -> Result<FreeNet, Stop<'a>>
    ensures gives { Gives (λ held. HoldsText held (original_file limits name.now) text)
        (λ n held. HoldsDesign held (original_file limits name.now) n.design.net n.free)
        (IsRefusedNetlist (original_file limits name.now)) result }
    ensures within { IfOk result (IsWithin (most_original limits)) }
{
    read_netlist(alloc, name, text, limits.original())
}

/// The hardened or guarded design that a netlist gives which was read so.
pub fn read_hardened<'a>(
    alloc: Global,
    name: &str,
    text: Netlist,
    limits: Limits,
) -> Result<FreeNet, Stop<'a>>
    ensures gives { Gives (λ held. HoldsText held (hardened_file limits name.now) text)
        (λ n held. HoldsDesign held (hardened_file limits name.now) n.design.net n.free)
        (IsRefusedNetlist (hardened_file limits name.now)) result }
    ensures within { IfOk result (IsWithin (most_hardened limits)) }
{
    read_netlist(alloc, name, text, limits.hardened())
}

/// Loads and reads an original design.
pub fn open_original<'a, F: Files>(
    alloc: Global,
    name: &'a str,
    limits: Limits,
    files: &mut F,
) -> Result<FreeNet, Stop<'a>>
    ensures opens { Opens (original_file limits name.now ∷ [])
        (λ n held. HoldsDesign held (original_file limits name.now) n.design.net n.free)
        (IsRefusedNetlist (original_file limits name.now))
        (F.seen files.old) (F.seen files.new) (F.steady files.old) (F.steady files.new) result }
    ensures within { IfOk result (IsWithin (most_original limits)) }
{
    match load_original(alloc, name, limits, files) {
        Ok(text) => read_original(alloc, name, text, limits),
        Err(stop) => Err(stop),
    }
}
