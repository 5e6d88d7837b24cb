//! Texts that are kept under a name, for later cases.

use crate::escapes::{decoded, push_decoded};
use crate::stop::{Stop, bad_case};
use crate::words::{first_word, number};
use std::alloc::{AllocError, Global};
use std::collections::BTreeMap;

/// Texts by their names.
#[derive(Drop)]
pub struct Texts {
    alloc: Global,
    texts: BTreeMap<String, Vec<u8>>,
}

impl Texts {
    /// No texts.
    pub fn new(alloc: Global) -> Texts {
        Texts {
            alloc,
            texts: BTreeMap::new(alloc),
        }
    }

    /// Keeps a text under a name.
    fn keep(&mut self, name: &str, bytes: Vec<u8>) -> Result<(), Stop> {
        let name = String::from_str(self.alloc, name)?;
        self.texts.insert(name, bytes)?;
        Ok(())
    }

    /// Takes a text away, or an empty one where none is kept.
    fn take(&mut self, name: &str) -> Vec<u8> {
        match self.texts.remove(name) {
            Some(bytes) => bytes,
            None => Vec::new(self.alloc),
        }
    }

    /// The bytes that a text of a case stands for: those kept under NAME for `$NAME`, else its own.
    pub fn bytes_of(&self, text: &str) -> Result<Vec<u8>, Stop> {
        match text.strip_prefix('$') {
            Some(name) => match self.texts.get(name) {
                Some(bytes) => Ok(bytes.as_slice().to_vec(self.alloc)?),
                None => Err(bad_case(self.alloc)),
            },
            None => Ok(decoded(self.alloc, text)?),
        }
    }
}

/// Puts what stands behind a `{`: with `}`, `+}` or `-}` in front the number, one more or one less.
fn push_piece(
    alloc: Global,
    bytes: &mut Vec<u8>,
    piece: &str,
    number: u64,
) -> Result<(), AllocError> {
    let (number, rest) = if let Some(rest) = piece.strip_prefix("}") {
        (number, rest)
    } else if let Some(rest) = piece.strip_prefix("+}") {
        (number.saturating_add(1), rest)
    } else if let Some(rest) = piece.strip_prefix("-}") {
        (number.saturating_sub(1), rest)
    } else {
        (number, piece)
    };
    let digits = format!(in alloc; "{number}")?;
    bytes.extend_from_slice(digits.as_bytes())?;
    push_decoded(bytes, rest)
}

/// Puts a text in which a number stands for each pair of braces.
fn push_numbered(
    alloc: Global,
    bytes: &mut Vec<u8>,
    text: &str,
    number: u32,
) -> Result<(), AllocError> {
    let mut is_first = true;
    for piece in text.split('{') {
        if is_first {
            push_decoded(bytes, piece)?;
        } else {
            push_piece(alloc, bytes, piece, u64::from(number))?;
        }
        is_first = false;
    }
    Ok(())
}

/// `FROM..TO TEXT`: puts the text once for each number from FROM on that is below TO.
fn push_each(alloc: Global, bytes: &mut Vec<u8>, rest: &str) -> Result<(), Stop> {
    let (range, text) = first_word(rest);
    let Some((from, to)) = range.split_once("..") else {
        return Err(bad_case(alloc));
    };
    let from = number(alloc, from)?;
    let to = number(alloc, to)?;
    for i in from..to {
        push_numbered(alloc, bytes, text, i)?;
    }
    Ok(())
}

/// `text NAME TEXT` and `each NAME FROM..TO TEXT`.
pub fn keep(alloc: Global, texts: &mut Texts, verb: &str, rest: &str) -> Result<String, Stop> {
    let (name, rest) = first_word(rest);
    let bytes = match verb {
        "text" => texts.bytes_of(rest)?,
        _ => {
            let mut bytes = texts.take(name);
            push_each(alloc, &mut bytes, rest)?;
            bytes
        }
    };
    texts.keep(name, bytes)?;
    Ok(String::new(alloc))
}
