//! `tmr`: hardens BLIF netlists and checks that hardened ones mask upsets.
#![tactic(auto)]

ghost use Rattle.std.specs.Prelude.{◌≡◌, ◌≢◌};
ghost use Rattle.std.specs.IoError.{error_kind};
ghost use Rattle.std.specs.Process.{exit_status};
ghost use Rattle.tmr_top.specs.Codes.{code_of};

use std::alloc::Global;
use std::env::FillError;
use std::io::{ErrorKind, IsTerminal};
use std::process::ExitCode;
use std::rt::Env;
use std::{env, io};
use tmr_outside::{DiskFiles, Files, Sink, StdSink, WipingSink};
use tmr_top::{Status, run};

/// The words of the command line behind the program's own name.
fn words(rt: &HostRuntime) -> io::Result<Vec<String>> {
    let mut words = Vec::new(rt.alloc());
    for word in env::args(rt)?.skip(1) {
        words.push(word)?;
    }
    Ok(words)
}

/// The status where the runtime gives no words.
fn status_without_words(error: &io::Error) -> Status
    ensures memory { error_kind error.now ≡ ErrorKind.OutOfMemory → result ≡ Status.Memory }
    ensures other { error_kind error.now ≢ ErrorKind.OutOfMemory → result ≡ Status.Fault }
{
    if error.kind() == ErrorKind::OutOfMemory {
        Status::Memory
    } else {
        Status::Fault
    }
}

/// What the process ends with: the number of the status.
fn exit_code(status: Status) -> ExitCode
    ensures { exit_status result ≡ code_of status }
{
    ExitCode::from(status.code())
}

/// Whether a run tells how far it is: standard error is a terminal, and the variable `TMR_QUIET` is not set.
fn tells_progress(rt: &HostRuntime) -> bool {
    let mut value = [0u8; 1];
    let is_quiet = !matches!(rt.var("TMR_QUIET", &mut value), Err(FillError::NotPresent));
    !is_quiet && rt.stderr().is_terminal()
}

/// Real files. Long loads and saves are told of where a person sees it, and the work behind them.
fn real_files(rt: &HostRuntime, tells: bool) -> DiskFiles<'_, HostRuntime> {
    if tells {
        DiskFiles::telling(rt.alloc(), rt)
    } else {
        DiskFiles::new(rt.alloc(), rt)
    }
}

/// Standard output. What a run told of itself is wiped away before its text is put.
fn real_sink(
    rt: &HostRuntime,
    tells: bool,
) -> WipingSink<'_, StdSink<'_, HostRuntime>, HostRuntime> {
    if tells {
        WipingSink::telling(StdSink::new(rt), rt)
    } else {
        WipingSink::silent(StdSink::new(rt), rt)
    }
}

/// Runs the program over any files and sink, and hands on nothing of what it promises. It names neither, so that no caller pays for clauses that
/// nobody needs there.
fn run_over<F: Files, S: Sink>(
    alloc: Global,
    words: &[String],
    files: &mut F,
    out: &mut S,
) -> Status {
    run(alloc, words, files, out)
}

/// Runs the program over real files and standard output.
fn run_words(rt: &HostRuntime, words: &[String]) -> Status {
    let tells = tells_progress(rt);
    // The sink is made first: what the files told is told no earlier than the sink knows that it has to be wiped away.
    let mut out = real_sink(rt, tells);
    let mut files = real_files(rt, tells);
    run_over(rt.alloc(), words, &mut files, &mut out)
}

fn main(rt: HostRuntime) -> ExitCode {
    let status = match words(&rt) {
        Ok(words) => run_words(&rt, words.as_slice()),
        Err(error) => status_without_words(&error),
    };
    exit_code(status)
}
