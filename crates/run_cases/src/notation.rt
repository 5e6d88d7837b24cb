//! Bytes in a text: `%` and two digits of base 16 stand for a byte, any other character for itself.
ghost use Rattle.std.specs.Prelude.{◌<◌, IfSome};

use std::alloc::{AllocError, Global};
use std::fmt::Write;

/// The value of a digit of base 16.
fn digit_of(byte: u8) -> Option<u8>
    ensures { IfSome result (λ digit. digit < 16) }
{
    if byte.is_ascii_digit() {
        return Some(byte - b'0');
    }
    if b'A' <= byte && byte <= b'F' {
        return Some(byte - b'A' + 10);
    }
    None
}

/// The byte that the two characters write.
fn byte_of(high: u8, low: u8) -> Option<u8> {
    match (digit_of(high), digit_of(low)) {
        (Some(high), Some(low)) => Some(16 * high + low),
        _ => None,
    }
}

/// Appends what stands behind a `%`.
fn push_behind_sign(bytes: &mut Vec<u8>, text: &[u8]) -> Result<(), AllocError> {
    if let [high, low, rest @ ..] = text {
        if let Some(byte) = byte_of(*high, *low) {
            bytes.push(byte)?;
            return bytes.extend_from_slice(rest);
        }
    }
    bytes.extend_from_slice(text)
}

/// The bytes that a text writes. A `%` without two digits behind it writes nothing.
pub fn bytes_of(alloc: Global, text: &str) -> Result<Vec<u8>, AllocError> {
    let mut parts = text.split('%');
    let first = parts.next().unwrap_or("");
    let mut bytes = first.as_bytes().to_vec(alloc)?;
    for part in parts {
        push_behind_sign(&mut bytes, part.as_bytes())?;
    }
    Ok(bytes)
}

/// The text that a text writes, which must be UTF-8.
pub fn text_of(alloc: Global, text: &str) -> anyhow::Result<String> {
    Ok(String::from_utf8(bytes_of(alloc, text)?)?)
}

/// A byte from blank to tilde.
fn is_plain(byte: u8) -> bool {
    b' ' <= byte && byte <= b'~'
}

/// Appends a byte that is plain and no `%` as itself, and any other as a `%` and two digits.
fn push_byte(report: &mut String, byte: u8) -> Result<(), AllocError> {
    if is_plain(byte) && byte != b'%' {
        report.push(byte as char)
    } else {
        write!(report, "%{byte:02X}")
    }
}

/// Appends the bytes as a text that writes them.
pub fn push_bytes(report: &mut String, bytes: &[u8]) -> Result<(), AllocError> {
    for byte in bytes {
        push_byte(report, *byte)?;
    }
    Ok(())
}

/// Appends plain bytes as they are.
fn push_plain(report: &mut String, bytes: &[u8]) -> Result<(), AllocError> {
    for byte in bytes {
        report.push(*byte as char)?;
    }
    Ok(())
}

/// Appends a line of plain bytes behind `| ` and without a sign for its end, and any other behind `& ` byte by byte.
fn push_line(report: &mut String, line: &[u8]) -> Result<(), AllocError> {
    match line {
        [text @ .., b'\n'] if text.iter().all(|byte| is_plain(*byte)) => {
            report.push_str("| ")?;
            push_plain(report, text)?;
        }
        _ => {
            report.push_str("& ")?;
            push_bytes(report, line)?;
        }
    }
    report.push('\n')
}

/// Appends the bytes line by line.
pub fn push_lines(report: &mut String, bytes: &[u8]) -> Result<(), AllocError> {
    for line in bytes.split_inclusive(|byte| *byte == b'\n') {
        push_line(report, line)?;
    }
    Ok(())
}
