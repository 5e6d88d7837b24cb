//! What hardening answers.

use certificate::Certificate;
use flat_net::{FlatNet, FreeNet};

/// A hardened design with its certificate: the number of pairs of a node and another partition in which it is
/// read, that number for the plain cut, whether no single move of a node lowers it, and how many voters there are.
#[derive(Drop)]
pub struct Hardened {
    pub net: FlatNet,
    pub cert: Certificate,
    pub cost: u64,
    pub plain: u64,
    pub minimal: bool,
    pub voters: u32,
}

/// The same where the hardened design has marks too.
#[derive(Drop)]
pub struct HardenedFree {
    pub net: FreeNet,
    pub cert: Certificate,
    pub cost: u64,
    pub plain: u64,
    pub minimal: bool,
    pub voters: u32,
}
