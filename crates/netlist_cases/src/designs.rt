//! The designs of netlists.

ghost use Rattle.std.specs.Prelude.{◌≡◌, ◌+◌, ◌<◌, ◌≤◌, length};

use crate::reading::library_of;
use crate::stop::{Stop, stopped};
use blif_text::Library;
use flat_net::{FlatNet, FreeNet};
use hierarchy::flatten_free;
use std::alloc::Global;
use tmr_base::NetId;

/// The design of a library's first model, with its marks, if it has one.
fn free_in(alloc: Global, library: &Library) -> Option<FreeNet> {
    match flatten_free(alloc, library, 1_073_741_824) {
        Ok(net) => Some(net),
        Err(_) => None,
    }
}

/// The design of a text with its marks, which ends the case where there is none.
pub fn free_of(alloc: Global, bytes: &[u8]) -> Result<FreeNet, Stop> {
    let library = library_of(alloc, bytes)?;
    match free_in(alloc, &library) {
        Some(net) => Ok(net),
        None => Err(stopped(alloc, "no design")),
    }
}

/// The number of node i.
pub fn node_id(net: &FlatNet, i: u32) -> NetId
    requires { i < length net.now.net.nodes }
    ensures { result.0 ≡ length net.now.net.inputs + i }
{
    NetId(net.input_count() + i)
}
