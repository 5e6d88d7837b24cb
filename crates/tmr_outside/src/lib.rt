//! What is outside the program: files by name, and a sink for the printed text.
//!
//! `Files` and `Sink` count their faults, and the counts never fall. The layer above may rely on what the
//! files hold and what went out, wherever the object tells it, and on the cause of each refusal: `Failed`
//! is answered only where a count rose. `MemFiles` and `MemSink` tell everything, and fail exactly at the
//! calls that were named to them. `DiskFiles` and `StdSink` are the real ones. They tell nothing, so
//! nothing is proved of what a real file holds.
#![tactic(auto)]

mod disk_files;
mod failed_calls;
mod fault_count;
mod faults;
mod files;
mod gathered;
mod gathering;
mod giver;
mod memory_files;
mod memory_sink;
mod pieces;
mod plan;
mod progress;
mod reading;
mod replacing;
mod save_call;
mod save_target;
mod saving;
mod sink;
mod source;
mod standard_sink;
mod stored_files;
mod taker;
mod watched;
mod watched_writer;
mod whole;
mod wiping_sink;
mod working;
mod writing;

pub use disk_files::DiskFiles;
pub use faults::{LoadFault, PutFault, SaveFault};
pub use files::Files;
pub use giver::Giver;
pub use memory_files::MemFiles;
pub use memory_sink::MemSink;
pub use reading::hand_out_within;
pub use sink::Sink;
pub use source::{Counted, Source};
pub use standard_sink::StdSink;
pub use taker::{LONGEST_PIECE, Taker};
pub use wiping_sink::WipingSink;
