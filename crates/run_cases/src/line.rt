//! The lines of a text of cases.

/// What a line says. docs/cases.md has the words.
#[derive(Clone, Copy, Drop)]
pub enum Line<'a> {
    Nothing,
    Whole(&'a str),
    Part(&'a str),
    Case(&'a str),
    Text(&'a str),
    File(&'a str),
    Hold { file: &'a str, text: &'a str },
    Long { file: &'a str, length: u64 },
    Change(Change<'a>),
    FailingCall(Failure),
    FailingPut(Failure),
    Fronts(Fronts<'a>),
    Run(&'a str),
}

/// A part of a file, and what is to stand in its place.
#[derive(Clone, Copy, Drop)]
pub struct Change<'a> {
    pub file: &'a str,
    pub old: &'a str,
    pub new: &'a str,
}

/// A call that is to fail, and how many bytes it leaves.
#[derive(Clone, Copy, Drop)]
pub struct Failure {
    pub call: u64,
    pub keep: u64,
}

/// A file that is to be cut to its first bytes, for each length from one to another.
#[derive(Clone, Copy, Drop)]
pub struct Fronts<'a> {
    pub file: &'a str,
    pub from: u64,
    pub to: u64,
}

fn number_of(text: &str) -> Option<u64> {
    text.parse::<u64>().ok()
}

fn hold_of(rest: &str) -> Option<Line<'_>> {
    let (file, text) = rest.split_once(' ')?;
    Some(Line::Hold { file, text })
}

fn long_of(rest: &str) -> Option<Line<'_>> {
    let (file, length) = rest.split_once(' ')?;
    let length = number_of(length)?;
    Some(Line::Long { file, length })
}

fn change_of(rest: &str) -> Option<Line<'_>> {
    let (file, rest) = rest.split_once(": ")?;
    let (old, new) = rest.split_once(" => ")?;
    Some(Line::Change(Change { file, old, new }))
}

fn failure_of(rest: &str) -> Option<Failure> {
    let (call, keep) = rest.split_once(" keeps ")?;
    let call = number_of(call)?;
    let keep = number_of(keep)?;
    Some(Failure { call, keep })
}

fn failing_call_of(rest: &str) -> Option<Line<'_>> {
    Some(Line::FailingCall(failure_of(rest)?))
}

fn failing_put_of(rest: &str) -> Option<Line<'_>> {
    Some(Line::FailingPut(failure_of(rest)?))
}

fn fronts_of(rest: &str) -> Option<Line<'_>> {
    let (file, range) = rest.split_once(": ")?;
    let (from, to) = range.split_once(" to ")?;
    let from = number_of(from)?;
    let to = number_of(to)?;
    Some(Line::Fronts(Fronts { file, from, to }))
}

/// What a line says, where it is one of a text of cases.
pub fn read_line(line: &str) -> Option<Line<'_>> {
    let (word, rest) = line.split_once(' ').unwrap_or((line, ""));
    match word {
        "" | "#" => Some(Line::Nothing),
        "|" => Some(Line::Whole(rest)),
        "&" => Some(Line::Part(rest)),
        "case" => Some(Line::Case(rest)),
        "text" => Some(Line::Text(rest)),
        "file" => Some(Line::File(rest)),
        "hold" => hold_of(rest),
        "long" => long_of(rest),
        "change" => change_of(rest),
        "failing-call" => failing_call_of(rest),
        "failing-put" => failing_put_of(rest),
        "fronts" => fronts_of(rest),
        "run" => Some(Line::Run(rest)),
        _ => None,
    }
}
