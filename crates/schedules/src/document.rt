//! The document of a schedule file, and its parts.
ghost use Rattle.std.specs.Prelude.{◌≡◌, ◌⊎◌, ◌==◌, ◌||◌, ◌&&◌, ◌++◌, ℕ, Bool, true, false, IfOk, IsErrOf, IfErr, IfSome, IsTrue, ◌↔◌, OnOk, option_map, map, nat_eq, string_bytes, None, Some, option_and_then, codes, length, replicate};
ghost use Rattle.std.specs.List.{list_all};
ghost use Rattle.std.specs.BTreeMap.{keys};
ghost use Rattle.toml.specs.Data.{get_member, as_str};
ghost use Rattle.toml.specs.View.{view, table_view, array_view, items_view};
ghost use Rattle.schedules.specs.Document.{document as document_of, only_keys, is_file_key, is_upset_key, inputs_of, upsets_of, starts_of, is_bit, row_of, natural, natural_at, bit_of_number};

use crate::ScheduleFault;
use std::alloc::Global;
use tmr_base::OutOfMemory;
use toml::{Table, Value};

/// The table of a document.
pub fn read_document(alloc: Global, bytes: &[u8]) -> Result<Table, ScheduleFault>
    ensures ok { IfOk result (λ top. document_of bytes.now ≡ Some (table_view top)) }
    ensures not_toml { IfErr result (λ f. (f ≡ ScheduleFault.Memory) ⊎ ((f ≡ ScheduleFault.NotToml) × (document_of bytes.now ≡ None))) }
{
    match toml::table_from_slice(alloc, bytes) {
        Ok(table) => Ok(table),
        Err(e) => {
            if e.is_memory() {
                Err(ScheduleFault::Memory)
            } else {
                Err(ScheduleFault::NotToml)
            }
        }
    }
}

fn is_known_file_key(version: u8, key: &String) -> bool
    ensures { result ≡ is_file_key version (string_bytes key.now) }
{
    key.as_str() == "inputs"
        || (key.as_str() == "upset" || (version != 1 && key.as_str() == "start"))
}

fn all_file_keys(version: u8, top: &Table) -> bool
    ensures { result ≡ list_all (λ key. is_file_key version (string_bytes key)) (keys top.now) }
{
    top.keys().all(|key| is_known_file_key(version, key))
}

/// There is no key but those of this version.
#[tactic(auto, using(crate::proofs::Documents::parts))]
pub fn has_file_keys(version: u8, top: &Table) -> bool
    ensures { result ≡ only_keys (is_file_key version) (table_view top.now) }
{
    all_file_keys(version, top)
}

fn is_known_upset_key(key: &String) -> bool
    ensures { result ≡ is_upset_key (string_bytes key.now) }
{
    key.as_str() == "cycle" || (key.as_str() == "net" || key.as_str() == "value")
}

fn all_upset_keys(ms: &Table) -> bool
    ensures { result ≡ list_all (λ key. is_upset_key (string_bytes key)) (keys ms.now) }
{
    ms.keys().all(|key| is_known_upset_key(key))
}

/// There is no key but the three of an upset.
#[tactic(auto, using(crate::proofs::Documents::parts))]
pub fn has_upset_keys(ms: &Table) -> bool
    ensures { result ≡ only_keys is_upset_key (table_view ms.now) }
{
    all_upset_keys(ms)
}

/// The value of a key.
fn member<'a>(ms: &'a Table, key: &str) -> Option<&'a Value>
    ensures { option_map (λ v. view v.now) result ≡ get_member key.now (table_view ms.now) }
{
    ms.get(key)
}

/// The rows of inputs, where the key is there and holds an array.
pub fn inputs(top: &Table) -> Option<&Vec<Value>>
    ensures { option_map (λ rows. array_view rows.now) result ≡ inputs_of (table_view top.now) }
{
    match member(top, "inputs") {
        Some(value) => value.as_array(),
        None => None,
    }
}

/// The entries of the key of upsets, of which there are none without the key. None where it holds no array.
pub fn upsets(top: &Table) -> Option<&[Value]>
    ensures { option_map (λ entries. items_view entries.now) result ≡ upsets_of (table_view top.now) }
{
    match member(top, "upset") {
        None => Some(&[]),
        Some(value) => match value.as_array() {
            Some(entries) => Some(entries.as_slice()),
            None => None,
        },
    }
}

fn is_bit_byte(b: u8) -> bool
    ensures { result ≡ is_bit b }
{
    b == b'0' || b == b'1'
}

fn all_bits(text: &[u8]) -> bool
    ensures { result ≡ list_all is_bit text.now }
{
    text.iter().all(|b| is_bit_byte(*b))
}

/// Adds a bit for each `0` and `1`.
fn push_bits(text: &[u8], bits: &mut Vec<bool>) -> Result<(), OutOfMemory>
    ensures { OnOk result (bits.new.items ≡ bits.old.items ++ map (λ b. nat_eq b 49) text.now) }
{
    for b in text {
        bits.push(*b == b'1')?;
    }
    Ok(())
}

/// The bits of a row, if the value is one.
pub fn read_row(value: &Value, width: usize, bits: &mut Vec<bool>) -> Result<bool, OutOfMemory>
    ensures yes { result ≡ Ok true → row_of width (view value.now) ≡ Some bits.new.items }
    ensures no { result ≡ Ok false → row_of width (view value.now) ≡ None }
    ensures long { result ≡ Ok true → length bits.new.items ≡ width }
{
    bits.clear();
    match value.as_str() {
        None => Ok(false),
        Some(text) => {
            let text = text.as_bytes();
            if !(text.len() == width && all_bits(text)) {
                return Ok(false);
            }
            push_bits(text, bits)?;
            Ok(true)
        }
    }
}

/// The bits of a text of so many.
fn text_bits(alloc: Global, value: &Value, count: usize) -> Result<Option<Vec<bool>>, OutOfMemory>
    ensures bits { IfOk result (λ o. option_map (λ v. v.items) o ≡ row_of count (view value.now)) }
    ensures long { IfOk result (λ o. IfSome o (λ v. length v.items ≡ count)) }
{
    let mut bits = Vec::new(alloc);
    match read_row(value, count, &mut bits) {
        Err(error) => Err(error),
        Ok(true) => Ok(Some(bits)),
        Ok(false) => Ok(None),
    }
}

/// So many bits that are 0.
fn zeros(alloc: Global, count: usize) -> Result<Vec<bool>, OutOfMemory>
    ensures items { IfOk result (λ v. v.items ≡ replicate count false) }
    ensures long { IfOk result (λ v. length v.items ≡ count) }
{
    Ok(Vec::from_elem(alloc, false, count)?)
}

/// The start values, where the key holds a text of so many or is not there.
pub fn read_starts(
    alloc: Global,
    top: &Table,
    count: usize,
) -> Result<Option<Vec<bool>>, OutOfMemory>
    ensures bits { IfOk result (λ o. option_map (λ v. v.items) o ≡ starts_of count (table_view top.now)) }
    ensures long { IfOk result (λ o. IfSome o (λ v. length v.items ≡ count)) }
{
    match member(top, "start") {
        None => Ok(Some(zeros(alloc, count)?)),
        Some(value) => text_bits(alloc, value, count),
    }
}

/// The number, if it is one from 0.
fn natural_number(number: i64) -> Option<u64>
    ensures { result ≡ natural number }
{
    if number < 0 {
        None
    } else {
        Some(number as u64)
    }
}

/// A number from 0 at the key.
pub fn number_at(ms: &Table, key: &str) -> Option<u64>
    ensures { result ≡ natural_at key.now (table_view ms.now) }
{
    match member(ms, key) {
        None => None,
        Some(value) => match value.as_integer() {
            None => None,
            Some(number) => natural_number(number),
        },
    }
}

/// 0 or 1 at the key.
pub fn bit_at(ms: &Table, key: &str) -> Option<bool>
    ensures { result ≡ option_and_then bit_of_number (natural_at key.now (table_view ms.now)) }
{
    match number_at(ms, key) {
        None => None,
        Some(number) => { if number <= 1 { Some(number == 1) } else { None } }
    }
}

/// The text at the key.
pub fn text_at<'a>(ms: &'a Table, key: &str) -> Option<&'a str>
    ensures { option_map (λ t. t.now) result ≡ option_and_then as_str (get_member key.now (table_view ms.now)) }
{
    match member(ms, key) {
        None => None,
        Some(value) => value.as_str(),
    }
}
