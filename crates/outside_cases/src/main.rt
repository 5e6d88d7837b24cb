//! Files and a sink in memory, real files, and readers and outputs that fail in the middle, driven by lines.
//!
//! Each line of the standard input is a call. It is printed again, and behind it what the call answers.
#![tactic(auto)]

mod fakes;
mod real;
mod room;

use room::{Room, answer};
use std::io;

fn main(rt: HostRuntime) -> io::Result<()> {
    let alloc = rt.alloc();
    let mut room = Room::new(alloc);
    for line in rt.lines(alloc) {
        let line = line?;
        let text = answer(&rt, alloc, &mut room, line.as_str())?;
        println!(rt; "{line}: {text}")?;
    }
    Ok(())
}
