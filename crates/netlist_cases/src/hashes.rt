//! Long lines are printed short.

use std::alloc::{AllocError, Global};

/// The 64-bit hash of Fowler, Noll and Vo, variant 1a.
fn hash(bytes: &[u8]) -> u64 {
    let mut hash = 14_695_981_039_346_656_037u64;
    for b in bytes {
        hash = (hash ^ u64::from(*b)).wrapping_mul(1_099_511_628_211);
    }
    hash
}

fn push_ascii(text: &mut String, bytes: &[u8]) -> Result<(), AllocError> {
    for b in bytes {
        text.push(char::from(*b))?;
    }
    Ok(())
}

fn first_bytes(bytes: &[u8]) -> &[u8] {
    if bytes.len() < 60 {
        bytes
    } else {
        &bytes[..60]
    }
}

fn last_bytes(bytes: &[u8]) -> &[u8] {
    if bytes.len() < 60 {
        bytes
    } else {
        &bytes[bytes.len() - 60..]
    }
}

/// A line of at most 1,000 bytes as it is; of a longer one the first 60 and the last 60 bytes, with its length and
/// its hash.
pub fn shortened(alloc: Global, line: &str) -> Result<String, AllocError> {
    let bytes = line.as_bytes();
    let length = bytes.len();
    let mut text = String::new(alloc);
    if length <= 1000 {
        push_ascii(&mut text, bytes)?;
        return Ok(text);
    }
    push_ascii(&mut text, first_bytes(bytes))?;
    text.push_str(" .. ")?;
    push_ascii(&mut text, last_bytes(bytes))?;
    write!(text, " ({length} bytes, hash {:016x})", hash(bytes))?;
    Ok(text)
}
