//! The texts of a pair.

use std::alloc::{AllocError, Global};

/// The texts of two designs and a certificate.
#[derive(Drop)]
pub struct Files {
    pub orig: String,
    pub hard: String,
    pub cert: String,
}

/// The text with line ends in place of `/`.
pub fn lines_of(alloc: Global, text: &str) -> Result<String, AllocError> {
    text.replace(alloc, '/', "\n")
}

impl Files {
    /// Empty texts.
    pub fn new(alloc: Global) -> Files {
        Files {
            orig: String::new(alloc),
            hard: String::new(alloc),
            cert: String::new(alloc),
        }
    }

    /// Takes a text, if the word names one.
    pub fn take(&mut self, alloc: Global, verb: &str, text: &str) -> Result<bool, AllocError> {
        match verb {
            "orig" => self.orig = lines_of(alloc, text)?,
            "hard" => self.hard = lines_of(alloc, text)?,
            "cert" => self.cert = lines_of(alloc, text)?,
            _ => return Ok(false),
        }
        Ok(true)
    }
}
