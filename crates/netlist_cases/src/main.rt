//! Cases of the calls below the program's runs.
//!
//! Standard input is a text of cases, a line each; docs/cases.md says how a case is written. Each line is
//! printed again, and behind it what the case answers, with two blanks in front. What is expected is the file
//! `stdout`.
#![tactic(auto)]

mod answer;
mod covers;
mod cuts;
mod designs;
mod escapes;
mod hardenings;
mod hashes;
mod keeping;
mod libraries;
mod names;
mod partitions;
mod reading;
mod stop;
mod words;

use crate::answer::answer;
use crate::hashes::shortened;
use crate::keeping::Texts;
use crate::stop::Stop;
use std::alloc::{AllocError, Global};
use std::io;

/// What a case answers, with `want of memory` where there was none.
fn told(alloc: Global, texts: &mut Texts, case: &str) -> Result<String, AllocError> {
    match answer(alloc, texts, case) {
        Ok(text) => Ok(text),
        Err(Stop::Answered(text)) => Ok(text),
        Err(Stop::Memory) => String::from_str(alloc, "want of memory"),
    }
}

/// Prints the lines of an answer, each behind two blanks.
fn print_lines(rt: &impl Print, alloc: Global, text: &str) -> io::Result<()> {
    for line in text.lines() {
        let line = shortened(alloc, line)?;
        println!(rt; "  {line}")?;
    }
    Ok(())
}

/// Prints a case and what it answers.
fn run_case(rt: &impl Print, alloc: Global, texts: &mut Texts, case: &str) -> io::Result<()> {
    println!(rt; "{case}")?;
    let text = told(alloc, texts, case)?;
    print_lines(rt, alloc, text.as_str())
}

fn main(rt: HostRuntime) -> io::Result<()> {
    let alloc = rt.alloc();
    let mut texts = Texts::new(alloc);
    for case in rt.lines(alloc) {
        run_case(&rt, alloc, &mut texts, case?.as_str())?;
    }
    Ok(())
}
