//! Names and numbers.

use crate::escapes::{decoded, put_name};
use crate::stop::{Stop, stopped};
use crate::words::{first_word, number};
use std::alloc::{AllocError, Global};
use tmr_base::{
    CopyNo, Name, NameFault, PartId, clock_name, copy_name, read_u32, read_u64, voter_name,
};

const COPIES: [CopyNo; 3] = [CopyNo::First, CopyNo::Second, CopyNo::Third];

/// The name that a text stands for.
fn name_of(alloc: Global, text: &str) -> Result<Name, Stop> {
    let bytes = decoded(alloc, text)?;
    match Name::read(alloc, bytes.as_slice()) {
        Ok(name) => Ok(name),
        Err(NameFault::Bad) => Err(stopped(alloc, "no name")),
        Err(NameFault::Memory) => Err(Stop::Memory),
    }
}

/// The names of the copies, and of the clock.
fn hardened_names(alloc: Global, name: &Name) -> Result<String, Stop> {
    let mut text = String::from_str(alloc, "copies")?;
    for copy in COPIES {
        put_name(&mut text, &copy_name(alloc, name, copy)?)?;
    }
    text.push_str(" clock")?;
    put_name(&mut text, &clock_name(alloc, name)?)?;
    Ok(text)
}

/// The names of the voters for a partition. The name is copied before.
fn voter_names(alloc: Global, name: &Name, part: PartId) -> Result<String, Stop> {
    let name = name.copy(alloc)?;
    let mut text = String::from_str(alloc, "voters")?;
    for copy in COPIES {
        put_name(&mut text, &voter_name(alloc, &name, part, copy)?)?;
    }
    Ok(text)
}

/// The number as one of 32 bits and as one of 64.
fn numbers(alloc: Global, bytes: &[u8]) -> Result<String, AllocError> {
    let mut text = String::new(alloc);
    match read_u32(bytes) {
        Some(number) => write!(text, "{number}")?,
        None => text.push_str("none")?,
    }
    match read_u64(bytes) {
        Some(number) => write!(text, " {number}")?,
        None => text.push_str(" none")?,
    }
    Ok(text)
}

/// `name NAME`, `voter PARTITION NAME` and `number BYTES`.
pub fn answer(alloc: Global, verb: &str, rest: &str) -> Result<String, Stop> {
    match verb {
        "name" => hardened_names(alloc, &name_of(alloc, rest)?),
        "voter" => {
            let (part, text) = first_word(rest);
            let part = PartId(number(alloc, part)?);
            voter_names(alloc, &name_of(alloc, text)?, part)
        }
        _ => Ok(numbers(alloc, decoded(alloc, rest)?.as_slice())?),
    }
}
