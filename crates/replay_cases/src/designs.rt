//! Designs of netlists.

use blif_text::read_library;
use flat_net::FreeNet;
use hierarchy::flatten_free;
use std::alloc::Global;

/// The longest netlist that is read, in bytes.
const LONGEST: u64 = 8_388_608;

/// The design of a netlist with its marks, if it is one.
pub fn design_of(alloc: Global, text: &str) -> Option<FreeNet> {
    if text.len() as u64 > LONGEST {
        return None;
    }
    let library = read_library(alloc, text.as_bytes()).ok()?;
    flatten_free(alloc, &library, LONGEST).ok()
}
