//! The text of waves.
ghost use Rattle.std.specs.Prelude.{◌≡◌, ◌≢◌, ◌<◌, ◌≤◌, ◌*◌, ◌+◌, ◌++◌, [], true, ℕ, Some, length, codes, slice_index_or, IfOk, OnOk};
ghost use Rattle.limits.specs.Most.{widest_nets};
ghost use Rattle.tmr_base.specs.Names.{is_name};
ghost use Rattle.vcd_text.specs.At.{vcd_at, RepeatsNothing};
ghost use Rattle.vcd_text.specs.Text.{code_text, value_at, var_line, var_lines, head_lines, cycles_from, end_lines, vcd_text, lines_text, line_text};

use crate::changes::{put_code, put_cycle, put_time};
use std::alloc::{AllocError, Global};
use tmr_base::{Name, OutOfMemory};

/// Puts the line that declares name k.
fn put_var(out: &mut Vec<u8>, k: usize, name: &Name) -> Result<(), AllocError>
    ensures { OnOk result (out.new.items ≡ out.old.items ++ line_text (var_line k name.now)) }
{
    out.extend_from_slice(b"$var wire 1 ")?;
    put_code(out, k)?;
    out.push(b' ')?;
    out.extend_from_slice(name.bytes())?;
    out.extend_from_slice(b" $end\n")?;
    Ok(())
}

/// Puts the lines that declare the names.
fn put_vars(out: &mut Vec<u8>, names: &[Name]) -> Result<(), AllocError>
    ensures { OnOk result (out.new.items ≡ out.old.items ++ lines_text (var_lines 0 names.now)) }
{
    for k in 0..names.len() {
        put_var(out, k, &names[k])?;
    }
    Ok(())
}

/// Puts the lines before the first cycle.
fn put_head(out: &mut Vec<u8>, names: &[Name]) -> Result<(), AllocError>
    ensures { OnOk result (out.new.items ≡ out.old.items ++ lines_text (head_lines names.now)) }
{
    out.extend_from_slice(b"$timescale 1 ns $end\n$scope module tmr $end\n")?;
    put_vars(out, names)?;
    out.extend_from_slice(b"$upscope $end\n$enddefinitions $end\n")?;
    Ok(())
}

/// Puts the lines of all cycles.
fn put_cycles(
    alloc: Global,
    out: &mut Vec<u8>,
    values: &[bool],
    count: usize,
    cycles: u32,
) -> Result<(), AllocError>
    requires { count * cycles ≡ length values.now }
    ensures { OnOk result (out.new.items ≡ out.old.items ++ lines_text (cycles_from values.now count 0 cycles)) }
{
    for t in 0..cycles {
        put_cycle(alloc, out, values, count, t)?;
    }
    Ok(())
}

/// Puts the last line, where there are cycles.
fn put_end(alloc: Global, out: &mut Vec<u8>, cycles: u32) -> Result<(), AllocError>
    ensures { OnOk result (out.new.items ≡ out.old.items ++ lines_text (end_lines cycles)) }
{
    if cycles > 0 {
        put_time(alloc, out, cycles)?;
    }
    Ok(())
}

/// All lines.
fn text_of(
    alloc: Global,
    names: &[Name],
    cycles: u32,
    values: &[bool],
) -> Result<Vec<u8>, AllocError>
    requires { length names.now * cycles ≡ length values.now }
    ensures { IfOk result (λ bytes. bytes.items ≡ vcd_text names.now cycles values.now) }
{
    let mut out = Vec::new(alloc);
    put_head(&mut out, names)?;
    put_cycles(alloc, &mut out, values, names.len(), cycles)?;
    put_end(alloc, &mut out, cycles)?;
    Ok(out)
}

/// Each of these is a name, as a call of each tells.
fn know_names(names: &[Name])
    ensures { (k : ℕ) → k < length names.now → is_name (slice_index_or names.now k []) ≡ true }
{
    for k in 0..names.len() {
        names[k].bytes();
    }
}

/// The waves of these names over so many cycles, as a text in the value change dump format.
///
/// The values stand cycle by cycle, and in each cycle name by name. A cycle is a nanosecond of the text. Names and values
/// are as the conditions say, so want of memory is the one error.
pub fn write_vcd(
    alloc: Global,
    names: &[Name],
    cycles: u32,
    values: &[bool],
) -> Result<Vec<u8>, OutOfMemory>
    requires differ { (j k : ℕ) → j < k → k < length names.now → slice_index_or names.now j (codes "") ≢ slice_index_or names.now k (codes "") }
    requires no_end { (k : ℕ) → k < length names.now → slice_index_or names.now k (codes "") ≢ codes "$end" }
    requires few { length names.now ≤ widest_nets }
    requires values { length names.now * cycles ≡ length values.now }
    ensures text { IfOk result (λ bytes. bytes.items ≡ vcd_text names.now cycles values.now) }
    ensures at { IfOk result (λ bytes. (k t : ℕ) → k < length names.now → t < cycles → vcd_at bytes.items (code_text k) t ≡ Some (value_at values.now (length names.now) t k)) }
    ensures no_repeat { IfOk result (λ bytes. RepeatsNothing bytes.items) }
{
    know_names(names);
    let bytes = text_of(alloc, names, cycles, values)?;
    Ok(bytes)
}
