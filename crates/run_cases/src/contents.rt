//! What names hold.

use std::alloc::{AllocError, Global};
use std::collections::BTreeMap;

/// What each name holds.
pub type Contents = BTreeMap<String, Vec<u8>>;

/// Lets the name hold the bytes.
pub fn hold(
    contents: &mut Contents,
    alloc: Global,
    name: &str,
    bytes: &[u8],
) -> Result<(), AllocError> {
    let name = String::from_str(alloc, name)?;
    let bytes = bytes.to_vec(alloc)?;
    contents.insert(name, bytes)?;
    Ok(())
}

/// The bytes of a name, or none.
pub fn bytes_held<'a>(contents: &'a Contents, name: &str) -> &'a [u8] {
    match contents.get(name) {
        Some(bytes) => bytes.as_slice(),
        None => b"",
    }
}

/// The same names with the same bytes.
pub fn copied(alloc: Global, contents: &Contents) -> Result<Contents, AllocError> {
    let mut copy = BTreeMap::new(alloc);
    for (name, bytes) in contents.iter() {
        hold(&mut copy, alloc, name, bytes)?;
    }
    Ok(copy)
}
