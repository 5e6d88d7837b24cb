//! The lines of a cycle.
ghost use Rattle.std.specs.Prelude.{◌≡◌, ◌<◌, ◌≤◌, ◌*◌, ◌+◌, ◌++◌, ◌∷◌, [], length, OnOk};
ghost use Rattle.vcd_text.specs.Text.{code_text, value_at, differ, is_changed, bit, time_line, change_lines, changes_from, has_lines, cycle_lines, lines_text, line_text};

use std::alloc::{AllocError, Global};

/// Puts the code of number k: its digits in base 94, the least first.
pub fn put_code(out: &mut Vec<u8>, k: usize) -> Result<(), AllocError>
    ensures { OnOk result (out.new.items ≡ out.old.items ++ code_text k) }
{
    let mut rest = k;
    while rest >= 94 {
        out.push(33 + (rest % 94) as u8)?;
        rest /= 94;
    }
    out.push(33 + rest as u8)?;
    Ok(())
}

/// Puts `#t`.
pub fn put_time(alloc: Global, out: &mut Vec<u8>, t: u32) -> Result<(), AllocError>
    ensures { OnOk result (out.new.items ≡ out.old.items ++ line_text (time_line t)) }
{
    out.push(b'#')?;
    let number = t.to_string(alloc)?;
    out.extend_from_slice(number.as_bytes())?;
    out.push(b'\n')?;
    Ok(())
}

fn value_at(values: &[bool], count: usize, t: u32, k: usize) -> bool
    requires { t * count + k < length values.now }
    ensures { result ≡ value_at values.now count t k }
{
    values[t as usize * count + k]
}

fn differ(a: bool, b: bool) -> bool
    ensures { result ≡ differ a b }
{
    if a { !b } else { b }
}

/// Whether name k has another value in cycle t than in the cycle before. In cycle 0 each has.
fn is_changed(values: &[bool], count: usize, t: u32, k: usize) -> bool
    requires name { k < count }
    requires cycle { t * count + count ≤ length values.now }
    ensures { result ≡ is_changed values.now count t k }
{
    if t == 0 {
        return true;
    }
    differ(
        value_at(values, count, t, k),
        value_at(values, count, t - 1, k),
    )
}

fn bit_byte(value: bool) -> u8
    ensures { result ≡ bit value }
{
    if value { b'1' } else { b'0' }
}

/// Puts the line of name k in cycle t, where its value is another.
fn put_change(
    out: &mut Vec<u8>,
    values: &[bool],
    count: usize,
    t: u32,
    k: usize,
) -> Result<(), AllocError>
    requires name { k < count }
    requires cycle { t * count + count ≤ length values.now }
    ensures { OnOk result (out.new.items ≡ out.old.items ++ lines_text (change_lines values.now count t k)) }
{
    if is_changed(values, count, t, k) {
        out.push(bit_byte(value_at(values, count, t, k)))?;
        put_code(out, k)?;
        out.push(b'\n')?;
    }
    Ok(())
}

/// Puts the lines of all names in cycle t.
fn put_changes(out: &mut Vec<u8>, values: &[bool], count: usize, t: u32) -> Result<(), AllocError>
    requires { t * count + count ≤ length values.now }
    ensures { OnOk result (out.new.items ≡ out.old.items ++ lines_text (changes_from values.now count t 0 count)) }
{
    for k in 0..count {
        put_change(out, values, count, t, k)?;
    }
    Ok(())
}

/// Whether some name has another value in cycle t.
fn has_changes(values: &[bool], count: usize, t: u32) -> bool
    requires { t * count + count ≤ length values.now }
    ensures { result ≡ has_lines (changes_from values.now count t 0 count) }
{
    for k in 0..count {
        if is_changed(values, count, t, k) {
            return true;
        }
    }
    false
}

/// Puts the lines of cycle t.
pub fn put_cycle(
    alloc: Global,
    out: &mut Vec<u8>,
    values: &[bool],
    count: usize,
    t: u32,
) -> Result<(), AllocError>
    requires { t * count + count ≤ length values.now }
    ensures { OnOk result (out.new.items ≡ out.old.items ++ lines_text (cycle_lines values.now count t)) }
{
    if has_changes(values, count, t) {
        put_time(alloc, out, t)?;
        put_changes(out, values, count, t)?;
    }
    Ok(())
}
