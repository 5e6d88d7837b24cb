//! The files of a pair, as they are loaded and as they are read.

use certificate::Certificate;
use flat_net::FreeNet;

/// The bytes of an original design and of one that was made of it.
#[derive(Drop)]
pub struct DesignBytes {
    pub original: Vec<u8>,
    pub hardened: Vec<u8>,
}

/// The bytes of a pair and its certificate.
#[derive(Drop)]
pub struct PairBytes {
    pub designs: DesignBytes,
    pub certificate: Vec<u8>,
}

/// An original design, and one that was made of it.
#[derive(Drop)]
pub struct Designs {
    pub original: FreeNet,
    pub hardened: FreeNet,
}

/// A pair and its certificate, which fits it. Nothing is checked yet.
#[derive(Drop)]
pub struct PairRead {
    pub original: FreeNet,
    pub hardened: FreeNet,
    pub certificate: Certificate,
}
