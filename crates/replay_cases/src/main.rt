//! Runs up to 64 schedules of a pair, or inputs of a design, at once, and prints what is answered.
//!
//! Standard input has a line for each case. `orig TEXT`, `hard TEXT` and `cert TEXT` give the pair for the lines behind
//! them, with `/` in place of each line's end. `wide TEXT` replays all schedules that stand between `|`, written alike.
//! `words TEXT` runs the original, a step between two `/`: the words of its inputs, and `NAME=RUNS:VALUES` for a net that
//! is forced. `chain COUNT STEPS` runs a chain of so many inverters. Each of these is printed again, and its answer below it.
#![tactic(auto)]

mod asking;
mod designs;
mod files;
mod list;
mod printing;
mod stepping;

use crate::asking::answer;
use crate::files::Files;
use std::io;

fn main(rt: HostRuntime) -> io::Result<()> {
    let alloc = rt.alloc();
    let mut files = Files::new(alloc);
    for line in rt.lines(alloc) {
        let line = line?;
        let (verb, text) = line.split_once(' ').unwrap_or((line.as_str(), ""));
        if verb == "" || verb == "#" || files.take(alloc, verb, text)? {
            continue;
        }
        println!(rt; "{line}")?;
        match answer(alloc, &files, verb, text) {
            Ok(told) => println!(rt; "  {told}")?,
            Err(_) => println!(rt; "  want of memory")?,
        }
    }
    Ok(())
}
