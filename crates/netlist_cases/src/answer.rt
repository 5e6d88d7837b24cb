//! What a case answers.

use crate::keeping::{Texts, keep};
use crate::stop::{Stop, bad_case};
use crate::words::first_word;
use crate::{covers, cuts, hardenings, names, partitions, reading};
use std::alloc::Global;

/// What the case of this line answers. A line without words and one of `#` answer nothing.
pub fn answer(alloc: Global, texts: &mut Texts, line: &str) -> Result<String, Stop> {
    let (verb, rest) = first_word(line);
    match verb {
        "" | "#" => Ok(String::new(alloc)),
        "text" | "each" => keep(alloc, texts, verb, rest),
        _ => small_answer(alloc, texts, verb, rest),
    }
}

/// The same of the verbs that keep no text.
fn small_answer(alloc: Global, texts: &Texts, verb: &str, rest: &str) -> Result<String, Stop> {
    match verb {
        "name" | "voter" | "number" => names::answer(alloc, verb, rest),
        "cover" | "same" | "wide" => covers::answer(alloc, verb, rest),
        "read" | "cuts" | "feed" => reading::answer(alloc, texts, verb, rest),
        _ => design_answer(alloc, texts, verb, rest),
    }
}

/// The same of the verbs that ask of designs.
fn design_answer(alloc: Global, texts: &Texts, verb: &str, rest: &str) -> Result<String, Stop> {
    match verb {
        "loops" | "registers" | "bound" => cuts::answer(alloc, texts, verb, rest),
        "partition" => partitions::answer(alloc, texts, rest),
        "clusters" => partitions::cluster_answer(alloc, texts, rest),
        "harden_free" | "harden_deep" => hardenings::answer(alloc, texts, verb, rest),
        _ => Err(bad_case(alloc)),
    }
}
