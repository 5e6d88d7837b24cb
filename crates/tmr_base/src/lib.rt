//! What every layer names: names of nets, numbers, copies, upsets and the type of partitions.
//!
//! The layers above may rely on this: a `Name` is its bytes, which are a name of the text format;
//! the three texts that hardening adds never meet; a number is read exactly where it is written
//! without leading zeros; a `Parts` is a list of numbers below its count.
#![tactic(auto)]

mod copies;
mod hardened_name;
mod ids;
mod memory;
mod name;
mod name_bytes;
mod number;
mod parts;

pub use copies::CopyNo;
pub use hardened_name::{clock_name, copy_name, voter_name, voter_on_stem, voter_stem};
pub use ids::{Edge, NetId, PartId, Upset};
pub use memory::OutOfMemory;
pub use name::{Name, NameFault};
pub use number::{read_u32, read_u64};
pub use parts::Parts;
