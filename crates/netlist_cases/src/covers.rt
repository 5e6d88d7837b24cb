//! Rows of tables, and the values that they give.

use crate::stop::{Stop, bad_case};
use crate::words::{first_word, long_number, number};
use std::alloc::{AllocError, Global};
use table_cover::{Cover, RowFault};

/// Adds a row, where there is room for one more.
fn push_marks(cover: &mut Cover, marks: &[u8], output: u8) -> Result<(), RowFault> {
    if cover.row_count() == u32::MAX {
        return Err(RowFault::Memory);
    }
    cover.push_row(marks, output)
}

/// Adds a row `MARKS:OUTPUT`.
fn push_row(cover: &mut Cover, row: &str) -> Result<(), RowFault> {
    match row.split_once(':') {
        Some((marks, output)) => match output.as_bytes() {
            [output] => push_marks(cover, marks.as_bytes(), *output),
            _ => Err(RowFault::BadChar),
        },
        None => Err(RowFault::BadChar),
    }
}

/// Adds rows, and tells of each whether it was added.
fn push_rows(text: &mut String, cover: &mut Cover, rows: &str) -> Result<(), AllocError> {
    for row in rows.split_whitespace() {
        match push_row(cover, row) {
            Ok(()) => text.push_str("ok ")?,
            Err(fault) => write!(text, "{fault:?} ")?,
        }
    }
    Ok(())
}

/// The bits of a number, the highest of so many first.
fn bits_of(alloc: Global, number: u32, width: u32) -> Result<Vec<bool>, AllocError> {
    let mut bits = Vec::new(alloc);
    let mut mask = 1u32.checked_shl(width).unwrap_or(0) / 2;
    for _bit in 0..width {
        bits.push(number & mask != 0)?;
        mask /= 2;
    }
    Ok(bits)
}

/// The value on each row of bits, as `0` or `1`.
fn put_values(alloc: Global, text: &mut String, cover: &Cover) -> Result<(), AllocError> {
    let width = cover.width();
    if width > 8 {
        return Ok(());
    }
    for number in 0..1u32.checked_shl(width).unwrap_or(0) {
        let bits = bits_of(alloc, number, width)?;
        if bits.len() == width as usize {
            text.push(if cover.value(bits.as_slice()) {
                '1'
            } else {
                '0'
            })?;
        }
    }
    Ok(())
}

fn put_rows(text: &mut String, cover: &Cover) -> Result<(), AllocError> {
    for i in 0..cover.row_count() {
        text.push(' ')?;
        for mark in cover.row(i) {
            text.push(char::from(*mark))?;
        }
    }
    Ok(())
}

/// `WIDTH ROW ..`: what each row answers, and then what a copy of the cover is.
fn cover_text(alloc: Global, rest: &str) -> Result<String, Stop> {
    let (width, rows) = first_word(rest);
    let mut cover = Cover::new(alloc, number(alloc, width)?);
    let mut text = String::new(alloc);
    push_rows(&mut text, &mut cover, rows)?;
    let cover = cover.copy(alloc)?;
    text.push_str(if cover.is_on() { "on " } else { "off " })?;
    put_values(alloc, &mut text, &cover)?;
    text.push_str(if cover.is_majority() { " majority" } else { "" })?;
    put_rows(&mut text, &cover)?;
    Ok(text)
}

/// The cover of these rows, without those that are refused.
fn cover_of(alloc: Global, width: u32, rows: &str) -> Result<Cover, AllocError> {
    let mut cover = Cover::new(alloc, width);
    let mut text = String::new(alloc);
    push_rows(&mut text, &mut cover, rows)?;
    Ok(cover)
}

fn is_same(alloc: Global, cover: &Cover, width: u32, rows: &str) -> Result<bool, AllocError> {
    let other = cover_of(alloc, width, rows)?;
    Ok(cover.same(&other))
}

fn same_text(alloc: Global, width: u32, one: &str, other: &str) -> Result<String, AllocError> {
    let one = cover_of(alloc, width, one)?;
    let is_same = is_same(alloc, &one, width, other)?;
    String::from_str(alloc, if is_same { "yes" } else { "no" })
}

/// The word of values on these words.
fn wide_text(alloc: Global, width: u32, rows: &str, words: &str) -> Result<String, Stop> {
    let cover = cover_of(alloc, width, rows)?;
    let mut bits = Vec::new(alloc);
    for word in words.split_whitespace() {
        bits.push(long_number(alloc, word)?)?;
    }
    if bits.len() != cover.width() as usize {
        return Err(bad_case(alloc));
    }
    let value = cover.wide_value(bits.as_slice());
    Ok(format!(in alloc; "{value}")?)
}

/// `WIDTH ROW .. = ROW ..` and `WIDTH ROW .. = WORD ..`.
fn two_sides(alloc: Global, verb: &str, rest: &str) -> Result<String, Stop> {
    let (width, rest) = first_word(rest);
    let width = number(alloc, width)?;
    let (one, other) = match rest.split_once('=') {
        Some(sides) => sides,
        None => return Err(bad_case(alloc)),
    };
    if verb == "same" {
        return Ok(same_text(alloc, width, one, other)?);
    }
    wide_text(alloc, width, one, other)
}

/// `cover WIDTH ROW ..`, `same WIDTH ROW .. = ROW ..` and `wide WIDTH ROW .. = WORD ..`.
pub fn answer(alloc: Global, verb: &str, rest: &str) -> Result<String, Stop> {
    match verb {
        "cover" => cover_text(alloc, rest),
        _ => two_sides(alloc, verb, rest),
    }
}
