//! Real files.
use crate::fakes::ByteCount;
use crate::room::{load_fault, save_answer, shown};
use std::alloc::{AllocError, Global};
use std::rt;
use tmr_outside::{DiskFiles, Files, Giver, LoadFault};

/// What came of a load in pieces.
fn taken<F: Files>(
    alloc: Global,
    files: &mut F,
    name: &str,
    limit: u64,
) -> Result<ByteCount, LoadFault> {
    let mut taken = ByteCount {
        count: 0,
        room: limit,
        full: 0,
    };
    match files.load_pieces(alloc, name, limit, &mut taken) {
        Ok(()) => Ok(taken),
        Err(fault) => Err(fault),
    }
}

/// What a load in pieces answers: how many bytes came, and how many of the pieces were as long as a piece may be, where some were.
pub fn full_pieces<F: Files>(
    alloc: Global,
    files: &mut F,
    name: &str,
    limit: u64,
) -> Result<String, AllocError> {
    match taken(alloc, files, name, limit) {
        Ok(taken) => {
            if taken.full > 0 {
                format!(in alloc; "{} bytes, {} full pieces", taken.count, taken.full)
            } else {
                format!(in alloc; "{} bytes", taken.count)
            }
        }
        Err(fault) => String::from_str(alloc, load_fault(fault)),
    }
}

/// What a load in pieces answers: how many bytes came. How a real file is cut into pieces is not told.
fn pieces<F: Files>(
    alloc: Global,
    files: &mut F,
    name: &str,
    limit: u64,
) -> Result<String, AllocError> {
    match taken(alloc, files, name, limit) {
        Ok(taken) => format!(in alloc; "{} bytes", taken.count),
        Err(fault) => String::from_str(alloc, load_fault(fault)),
    }
}

/// What a load answers: how many bytes came.
fn whole<F: Files>(
    alloc: Global,
    files: &mut F,
    name: &str,
    limit: u64,
) -> Result<String, AllocError> {
    match files.load(alloc, name, limit) {
        Ok(bytes) => format!(in alloc; "{} bytes", bytes.len()),
        Err(fault) => String::from_str(alloc, load_fault(fault)),
    }
}

/// Saves so many bytes, where there are some, and loads them again, whole and in pieces.
pub fn real_file<R: rt::Files + rt::Clock + Eprint>(
    rt: &R,
    alloc: Global,
    name: &str,
    count: u64,
    limit: u64,
) -> Result<String, AllocError> {
    let mut files = DiskFiles::new(alloc, rt);
    let bytes = vec![in alloc; 7u8; count.min(1_000_000) as usize]?;
    let saved = if count == 0 {
        "not saved"
    } else {
        save_answer(files.save(name, bytes.as_slice()))
    };
    let at_once = whole(alloc, &mut files, name, limit)?;
    let by_pieces = pieces(alloc, &mut files, name, limit)?;
    format!(in alloc; "{saved}, {at_once}, {by_pieces}")
}

/// Saves what is given, and loads it again.
pub fn real_pieces<R: rt::Files + rt::Clock + Eprint, G: Giver>(
    rt: &R,
    alloc: Global,
    name: &str,
    from: &mut G,
) -> Result<String, AllocError> {
    let mut files = DiskFiles::new(alloc, rt);
    let saved = save_answer(files.save_pieces(name, from));
    let held = match files.load(alloc, name, 100) {
        Ok(bytes) => shown(alloc, bytes.as_slice())?,
        Err(fault) => String::from_str(alloc, load_fault(fault))?,
    };
    format!(in alloc; "{saved}, {held}")
}
