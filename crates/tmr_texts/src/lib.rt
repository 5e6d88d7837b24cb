//! What the program prints: each line, and each reason of a refusal.
//!
//! The layer above may rely on this: each text is the one that `specs/` gives. What is printed when is decided above.
#![tactic(auto)]

mod form_text;
mod help;
mod reasons;
mod replay_text;
mod texts;

pub use form_text::{FormNumbers, form_lines, hardened_lines};
pub use help::{help_text, version_text};
pub use reasons::{aag_reason, bad_line, cert_reason, flat_reason, schedule_reason};
pub use replay_text::{output_name, replay_lines};
pub use texts::{
    accepted, certificate_too_long, counted, flattened, graph_made, graph_told, greatest_depth,
    greatest_of, guard_found, guard_made, guard_not_found, join, load_fault, not_accepted, refused,
    save_fault, usage, want_of_memory,
};
