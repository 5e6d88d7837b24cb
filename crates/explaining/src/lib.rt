//! Why a hardened design is not accepted: all places at which a rule fails, and why.
//!
//! The layer above may rely on this: `explain` is the text of a list of failures that has each rule and place at which the rule
//! fails, in order, each once, with a reason that is true there. `line_of` is a line of a text.
//!
//! What is hard: that no failure is left out, and no reason is false. So one function looks at one place of one rule, and
//! answers a reason or None (`finding`, by `whole`, `nodes`, `votes` and `outputs`): None only where the rule holds, and a
//! reason only where it is true. A place has one such text at most (`reasons_say_one`), so the whole text is one. Lines are
//! put while places are looked at (`telling`), and no list of failures is kept: there may be as many as nets.
#![tactic(auto)]

mod covers;
mod explaining;
mod finding;
mod joining;
mod line;
mod marks;
mod nodes;
mod outputs;
mod pins;
mod reason;
mod rule;
mod saying;
mod telling;
mod votes;
mod whole;

pub use explaining::explain;
pub use line::line_of;
