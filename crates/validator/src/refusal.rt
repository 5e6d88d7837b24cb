//! Why a pair is refused.

/// The least rule that fails, from 1 to 8, and for it the least place: 0 for rules 1 and 2, the number
/// of a hardened node, counted from 0 behind the inputs, for rules 3 to 7, and an output position,
/// counted from 0, for rule 8.
#[derive(Clone, Copy, Debug, PartialEq, Eq, Drop)]
pub struct Refusal {
    pub rule: u8,
    pub at: u32,
}
