//! The entries of a schedule's upsets.
ghost use Rattle.std.specs.Prelude.{◌≡◌, ◌<◌, ◌≤◌, IfOk, IfSome, length, map, option_map};
ghost use Rattle.toml.specs.View.{view, table_view};
ghost use Rattle.flat_net.specs.Nodes.{number_of};
ghost use Rattle.schedules.specs.Document.{entry_of, entry_in as entry_in_of, struck_named};
ghost use Rattle.schedules.specs.Private.Entries.{plain_entry};
ghost use Rattle.schedules.specs.Private.Reading.{CanBeStruck};

use crate::document::{bit_at, has_upset_keys, number_at, text_at};
use flat_net::FlatNet;
use std::alloc::Global;
use tmr_base::{Name, NameFault, NetId, OutOfMemory};
use toml::{Table, Value};

/// An upset as it is written.
#[derive(Clone, Copy, Drop)]
pub struct Written<'a> {
    pub cycle: u64,
    pub net: &'a str,
    pub value: bool,
}

/// The upset that a table writes.
fn entry_in(ms: &Table) -> Option<Written<'_>>
    ensures { option_map plain_entry result ≡ entry_in_of (table_view ms.now) }
{
    if !has_upset_keys(ms) {
        return None;
    }
    match (
        number_at(ms, "cycle"),
        text_at(ms, "net"),
        bit_at(ms, "value"),
    ) {
        (Some(cycle), Some(net), Some(value)) => Some(Written { cycle, net, value }),
        _ => None,
    }
}

/// The upset that an entry writes.
pub fn read_entry(value: &Value) -> Option<Written<'_>>
    ensures { option_map plain_entry result ≡ entry_of (view value.now) }
{
    match value.as_table() {
        None => None,
        Some(ms) => entry_in(ms),
    }
}

/// The net with this name, if it may be struck: in version 1 that is a node.
#[tactic(auto, using(certificate::proofs::Names::names))]
pub fn find_net(
    alloc: Global,
    version: u8,
    h: &FlatNet,
    name: &str,
) -> Result<Option<NetId>, OutOfMemory>
    ensures net { IfOk result (λ x. option_map number_of x ≡ struck_named version h.now.net name.now) }
    ensures struck { IfOk result (λ x. IfSome x (λ x. CanBeStruck version h.now.net x.0)) }
{
    let inputs = h.input_count();
    match Name::read(alloc, name.as_bytes()) {
        Err(NameFault::Memory) => Err(OutOfMemory),
        Err(NameFault::Bad) => Ok(None),
        Ok(name) => match h.find(&name) {
            None => Ok(None),
            Some(x) => {
                if version != 1 || inputs <= x.0 {
                    Ok(Some(x))
                } else {
                    Ok(None)
                }
            }
        },
    }
}
