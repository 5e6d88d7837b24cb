//! Runs the program over files and a sink in memory, as a text of cases on standard input says, and prints what was
//! seen. docs/cases.md says how a case is written and what is printed of it.
#![tactic(auto)]

mod bench;
mod contents;
mod line;
mod notation;
mod report;
mod trial_run;

use anyhow::Context;
use bench::Bench;
use std::io::{BufRead, BufReader};

fn main(rt: HostRuntime) -> anyhow::Result<()> {
    let alloc = rt.alloc();
    let mut bench = Bench::new(alloc);
    for (number, line) in BufReader::new(alloc, rt.reader())?.lines(alloc).enumerate() {
        let mut report = String::new(alloc);
        bench
            .take(alloc, &line?, &mut report)
            .context(format_args!("after {number} lines"))?;
        rt.print(report)?;
    }
    Ok(())
}
