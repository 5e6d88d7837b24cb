//! Partitions that keep voters off long paths.
//!
//! A voter stands at each border read and lengthens the paths through it. Here some nodes next to borders on longest paths change sides,
//! so that fewer voters stand on these paths.
//!
//! The layers above may rely on this: `shortened` keeps the rule of sizes, and what it gives costs at most nine eighths of what it was
//! given. How long paths come out is no clause. So of the search it is proved that it is safe and ends, and nothing else.
//!
//! A round follows one worst path back (`worst_path`), tries to move runs of its nodes over each border (`trials`), room being made for
//! them (`room`), and makes the best trial if it is worth its voters. Levels follow each trial (`levels`), and are taken back with it
//! (`placing`). Each round looks once at each node, and its trials at a bounded number of nodes: so the time is linear in the pins.
#![tactic(auto)]

mod design;
mod effort;
mod feedback;
mod levels;
mod loops;
mod placing;
mod room;
mod rounds;
mod shortening;
mod trials;
mod worst_path;

pub use design::{Circuit, circuit_of};
pub use shortening::{CostedParts, shortened, shortened_from};
