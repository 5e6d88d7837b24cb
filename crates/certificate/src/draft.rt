//! What a certificate is made of.

use crate::Role;
use tmr_base::NetId;

/// The fields of a certificate: the input counts of the original and the hardened design, the depth of
/// each partition in cycles, for each original node its partition, its three copies and their labels,
/// and for each hardened node its role, all in the order of numbers.
#[derive(Drop)]
pub struct CertDraft {
    pub original_inputs: u32,
    pub hardened_inputs: u32,
    pub depth: Vec<u32>,
    pub part: Vec<u32>,
    pub copies: Vec<[NetId; 3]>,
    pub labels: Vec<[u32; 3]>,
    pub roles: Vec<Role>,
}
