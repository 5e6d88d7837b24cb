//! How long the search for shorter paths goes on.

use clustering::is_large;

/// So many times it is found out anew which registers are fed back, and so many rounds follow each, fewer where `idle` rounds one after the
/// other changed nothing. No further trial is made for a path when the trials of its round have computed `levels` levels.
#[derive(Clone, Copy, Drop)]
pub struct Effort {
    pub spells: u32,
    pub rounds: u32,
    pub idle: u32,
    pub levels: u32,
}

/// How long the search goes on in a design of so many nodes. In a large one each spell costs much, and one path tells little of all.
pub fn effort_for(nodes: u32) -> Effort {
    if is_large(nodes) {
        Effort {
            spells: 1,
            rounds: 64,
            idle: 8,
            levels: 10_000,
        }
    } else {
        Effort {
            spells: 8,
            rounds: 8,
            idle: 8,
            levels: 40_000,
        }
    }
}
