//! What a case has said so far, and what each of its lines does.

use crate::contents::{Contents, bytes_held, copied, hold};
use crate::line::{Change, Failure, Fronts, Line, read_line};
use crate::notation::{bytes_of, text_of};
use crate::report::{Before, push_seen};
use crate::trial_run::{Given, Seen, run_once};
use anyhow::{bail, ensure};
use std::alloc::{AllocError, Global};
use std::collections::BTreeMap;
use std::fmt::Write;
use std::str;

/// What the lines of bytes go to.
#[derive(Drop)]
enum Open {
    Nothing,
    Text(String),
    File(String),
}

/// A file that is to be cut to its first bytes, for each length from one to another.
#[derive(Drop)]
struct Cuts {
    file: String,
    from: u64,
    to: u64,
}

/// The texts that all cases share, and the files, failures and cuts of the case that is read.
#[derive(Drop)]
pub struct Bench {
    texts: Contents,
    files: Contents,
    calls: Vec<Failure>,
    puts: Vec<Failure>,
    cuts: Option<Cuts>,
    open: Open,
}

/// The words of a run, which single blanks separate.
fn words_of(alloc: Global, text: &str) -> anyhow::Result<Vec<String>> {
    let mut words = Vec::new(alloc);
    if text.is_empty() {
        return Ok(words);
    }
    for word in text.split(' ') {
        words.push(text_of(alloc, word)?)?;
    }
    Ok(words)
}

/// Appends the line of a run.
fn push_words(report: &mut String, text: &str) -> Result<(), AllocError> {
    if text.is_empty() {
        writeln!(report, "run")
    } else {
        writeln!(report, "run {text}")
    }
}

/// The bytes with a part replaced, wherever it stands.
fn replaced(alloc: Global, bytes: &[u8], change: &Change) -> anyhow::Result<String> {
    let old = text_of(alloc, change.old)?;
    let new = text_of(alloc, change.new)?;
    let text = str::from_utf8(bytes)?;
    ensure!(text.contains(old.as_str()), "nothing to change");
    Ok(text.replace(alloc, old.as_str(), new.as_str())?)
}

/// So many equal bytes.
fn long_bytes(alloc: Global, length: u64) -> Result<Vec<u8>, AllocError> {
    vec![in alloc; b'x'; length as usize]
}

/// The first bytes, or all where there are no more.
fn front(bytes: &[u8], length: u64) -> &[u8] {
    bytes.get(..length as usize).unwrap_or(bytes)
}

/// Appends bytes to what a name holds.
fn append(contents: &mut Contents, name: &str, bytes: &[u8]) -> Result<(), AllocError> {
    match contents.get_mut(name) {
        Some(held) => held.extend_from_slice(bytes),
        None => Ok(()),
    }
}

impl Bench {
    /// Nothing was said.
    pub fn new(alloc: Global) -> Bench {
        Bench {
            texts: BTreeMap::new(alloc),
            files: BTreeMap::new(alloc),
            calls: Vec::new(alloc),
            puts: Vec::new(alloc),
            cuts: None,
            open: Open::Nothing,
        }
    }

    /// Forgets the files and failures of the case before.
    fn begin_case(&mut self, name: &str, report: &mut String) -> Result<(), AllocError> {
        self.files.clear();
        self.calls.clear();
        self.puts.clear();
        self.cuts = None;
        self.open = Open::Nothing;
        writeln!(report, "\ncase {name}")
    }

    /// Begins a text, which later cases may hold.
    fn begin_text(&mut self, alloc: Global, name: &str) -> Result<(), AllocError> {
        hold(&mut self.texts, alloc, name, b"")?;
        self.open = Open::Text(String::from_str(alloc, name)?);
        Ok(())
    }

    /// Begins a file of the case.
    fn begin_file(&mut self, alloc: Global, name: &str) -> anyhow::Result<()> {
        let name = text_of(alloc, name)?;
        hold(&mut self.files, alloc, &name, b"")?;
        self.open = Open::File(name);
        Ok(())
    }

    /// Appends bytes to the text or file that was begun last.
    fn append(&mut self, bytes: &[u8]) -> anyhow::Result<()> {
        match &self.open {
            Open::Nothing => bail!("bytes of no file"),
            Open::Text(name) => append(&mut self.texts, name, bytes)?,
            Open::File(name) => append(&mut self.files, name, bytes)?,
        }
        Ok(())
    }

    /// Appends a line and its end.
    fn append_line(&mut self, text: &str) -> anyhow::Result<()> {
        self.append(text.as_bytes())?;
        self.append(b"\n")
    }

    /// Lets a file hold a text.
    fn hold_text(&mut self, alloc: Global, file: &str, text: &str) -> anyhow::Result<()> {
        ensure!(self.texts.contains_key(text), "no such text");
        let file = text_of(alloc, file)?;
        hold(&mut self.files, alloc, &file, bytes_held(&self.texts, text))?;
        Ok(())
    }

    /// Replaces a part of a file.
    fn change(&mut self, alloc: Global, change: &Change) -> anyhow::Result<()> {
        let file = text_of(alloc, change.file)?;
        let text = replaced(alloc, bytes_held(&self.files, &file), change)?;
        hold(&mut self.files, alloc, &file, text.as_bytes())?;
        Ok(())
    }

    /// Lets a file hold so many bytes.
    fn hold_long(&mut self, alloc: Global, file: &str, length: u64) -> anyhow::Result<()> {
        let file = text_of(alloc, file)?;
        let bytes = long_bytes(alloc, length)?;
        hold(&mut self.files, alloc, &file, &bytes)?;
        Ok(())
    }

    /// Has the next run made once for each front of a file.
    fn cut(&mut self, alloc: Global, fronts: &Fronts) -> anyhow::Result<()> {
        let file = text_of(alloc, fronts.file)?;
        ensure!(self.files.contains_key(file.as_str()), "no such file");
        self.cuts = Some(Cuts {
            file,
            from: fronts.from,
            to: fronts.to,
        });
        Ok(())
    }

    /// What a run with these words over these files is given.
    fn given<'a>(&'a self, words: &'a [String], files: &'a Contents) -> Given<'a> {
        Given {
            words,
            files,
            calls: &self.calls,
            puts: &self.puts,
        }
    }

    /// What is known before a run over these files.
    fn before<'a>(&'a self, files: &'a Contents) -> Before<'a> {
        Before {
            texts: &self.texts,
            files,
        }
    }

    /// Runs over the files as they are, and keeps what they hold then.
    fn run_whole(
        &mut self,
        alloc: Global,
        words: &[String],
        report: &mut String,
    ) -> Result<(), AllocError> {
        let seen = run_once(alloc, &self.given(words, &self.files))?;
        push_seen(report, &self.before(&self.files), &seen)?;
        let Seen { files, .. } = seen;
        self.files = files;
        Ok(())
    }

    /// Runs with a file cut to its first bytes, and keeps nothing.
    fn run_front(
        &self,
        alloc: Global,
        words: &[String],
        file: &str,
        length: u64,
        report: &mut String,
    ) -> Result<(), AllocError> {
        let mut files = copied(alloc, &self.files)?;
        let bytes = front(bytes_held(&self.files, file), length);
        hold(&mut files, alloc, file, bytes)?;
        let seen = run_once(alloc, &self.given(words, &files))?;
        writeln!(report, "front {length}")?;
        push_seen(report, &self.before(&files), &seen)
    }

    /// Runs once for each front.
    fn run_fronts(
        &self,
        alloc: Global,
        words: &[String],
        cuts: &Cuts,
        report: &mut String,
    ) -> Result<(), AllocError> {
        for length in cuts.from..=cuts.to {
            self.run_front(alloc, words, &cuts.file, length, report)?;
        }
        Ok(())
    }

    /// Runs, whole or front by front. The failures are for this run alone.
    fn run(&mut self, alloc: Global, text: &str, report: &mut String) -> anyhow::Result<()> {
        let words = words_of(alloc, text)?;
        push_words(report, text)?;
        match self.cuts.take() {
            Some(cuts) => self.run_fronts(alloc, &words, &cuts, report)?,
            None => self.run_whole(alloc, &words, report)?,
        }
        self.calls.clear();
        self.puts.clear();
        Ok(())
    }

    /// Does what a line says, and appends what is printed of it.
    pub fn take(&mut self, alloc: Global, line: &str, report: &mut String) -> anyhow::Result<()> {
        let Some(line) = read_line(line) else {
            bail!("no line of a case");
        };
        match line {
            Line::Nothing => Ok(()),
            Line::Whole(text) => self.append_line(text),
            Line::Part(text) => self.append(&bytes_of(alloc, text)?),
            Line::Case(name) => Ok(self.begin_case(name, report)?),
            Line::Text(name) => Ok(self.begin_text(alloc, name)?),
            Line::File(name) => self.begin_file(alloc, name),
            Line::Hold { file, text } => self.hold_text(alloc, file, text),
            Line::Long { file, length } => self.hold_long(alloc, file, length),
            Line::Change(change) => self.change(alloc, &change),
            Line::FailingCall(failure) => Ok(self.calls.push(failure)?),
            Line::FailingPut(failure) => Ok(self.puts.push(failure)?),
            Line::Fronts(fronts) => self.cut(alloc, &fronts),
            Line::Run(text) => self.run(alloc, text, report),
        }
    }
}
