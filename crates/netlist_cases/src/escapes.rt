//! Bytes as they stand in a case: `|` stands for a line feed, and `%` with two hexadecimal digits for any byte.

use std::alloc::{AllocError, Global};
use tmr_base::Name;

/// The value of a hexadecimal digit.
fn digit(b: u8) -> u8 {
    match b {
        b'0'..=b'9' => b - b'0',
        b'a'..=b'f' => b - b'a' + 10,
        _ => 0,
    }
}

fn push_plain(bytes: &mut Vec<u8>, text: &[u8]) -> Result<(), AllocError> {
    for b in text {
        bytes.push(if *b == b'|' { b'\n' } else { *b })?;
    }
    Ok(())
}

/// The two digits behind a `%`, and the rest.
fn push_coded(bytes: &mut Vec<u8>, text: &[u8]) -> Result<(), AllocError> {
    match text {
        [high, low, rest @ ..] => {
            bytes.push(digit(*high).wrapping_mul(16).wrapping_add(digit(*low)))?;
            push_plain(bytes, rest)
        }
        _ => push_plain(bytes, text),
    }
}

/// Puts the bytes that a text stands for behind others.
pub fn push_decoded(bytes: &mut Vec<u8>, text: &str) -> Result<(), AllocError> {
    let mut is_first = true;
    for piece in text.split('%') {
        if is_first {
            push_plain(bytes, piece.as_bytes())?;
        } else {
            push_coded(bytes, piece.as_bytes())?;
        }
        is_first = false;
    }
    Ok(())
}

/// The bytes that a text stands for.
pub fn decoded(alloc: Global, text: &str) -> Result<Vec<u8>, AllocError> {
    let mut bytes = Vec::new(alloc);
    push_decoded(&mut bytes, text)?;
    Ok(bytes)
}

fn put_byte(text: &mut String, b: u8) -> Result<(), AllocError> {
    if b == b'\n' {
        return text.push('|');
    }
    if b < b' ' || b'~' < b || b == b'%' || b == b'|' {
        return write!(text, "%{b:02x}");
    }
    text.push(char::from(b))
}

/// Puts bytes as they stand in a case.
pub fn put_bytes(text: &mut String, bytes: &[u8]) -> Result<(), AllocError> {
    for b in bytes {
        put_byte(text, *b)?;
    }
    Ok(())
}

/// Puts a blank and a name.
pub fn put_name(text: &mut String, name: &Name) -> Result<(), AllocError> {
    text.push(' ')?;
    put_bytes(text, name.bytes())
}

/// Puts names, with a blank before each.
pub fn put_names(text: &mut String, names: &[Name]) -> Result<(), AllocError> {
    for name in names {
        put_name(text, name)?;
    }
    Ok(())
}
