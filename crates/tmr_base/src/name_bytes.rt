//! The bytes of a name.
ghost use Rattle.std.specs.Prelude.{◌≡◌, ◌≤◌, ◌+◌, ◌++◌, length, take, IfOk};

use crate::OutOfMemory;
use std::alloc::Global;
use std::marker::Model;

/// How many bytes stand in the value itself.
const INLINE: usize = 30;

/// Where the bytes stand.
#[derive(Debug, Drop)]
enum Form {
    Short(u8, [u8; INLINE]),
    Long(Vec<u8>),
}

/// Bytes. Up to 30 stand in the value itself; only more take memory of their own.
#[derive(Debug, Drop)]
pub(crate) struct NameBytes {
    form: Form,
}

impl Model for NameBytes {
    ghost use Rattle.std.specs.Prelude.{List, ℕ};
    ghost use Rattle.tmr_base.specs.Bytes.{bytes_in, IsWithin};

    ghost Value = { List ℕ };

    ghost view = { λ bytes. bytes_in bytes.form };

    ghost invariant = { λ bytes. IsWithin bytes.form };
}

/// Writes the bytes from `start` on.
fn put(room: &mut [u8; INLINE], start: usize, bytes: &[u8])
    requires { start + length bytes.now ≤ 30 }
    ensures { take (start + length bytes.now) room.new ≡ take start room.old ++ bytes.now }
{
    room[start..start + bytes.len()].copy_from_slice(bytes);
}

/// The bytes of both parts, which fit in.
fn short(first: &[u8], second: &[u8]) -> NameBytes
    requires { length first.now + length second.now ≤ 30 }
    ensures { result ≡ first.now ++ second.now }
{
    let mut room = [0; INLINE];
    put(&mut room, 0, first);
    put(&mut room, first.len(), second);
    let length = first.len() + second.len();
    NameBytes {
        form: Form::Short(length as u8, room),
    }
}

/// The bytes of both parts, in memory of their own.
fn long(alloc: Global, first: &[u8], second: &[u8]) -> Result<NameBytes, OutOfMemory>
    ensures { IfOk result (λ bytes. bytes ≡ first.now ++ second.now) }
{
    let mut bytes = Vec::with_capacity(alloc, first.len().saturating_add(second.len()))?;
    bytes.extend_from_slice(first)?;
    bytes.extend_from_slice(second)?;
    Ok(NameBytes {
        form: Form::Long(bytes),
    })
}

impl NameBytes {
    /// The bytes of both parts, one behind the other.
    pub fn join(alloc: Global, first: &[u8], second: &[u8]) -> Result<NameBytes, OutOfMemory>
        ensures { IfOk result (λ bytes. bytes ≡ first.now ++ second.now) }
    {
        if first.len() <= INLINE && second.len() <= INLINE - first.len() {
            return Ok(short(first, second));
        }
        long(alloc, first, second)
    }

    /// The bytes.
    pub fn as_slice(&self) -> &[u8]
        ensures { result.now ≡ self.now }
    {
        match &self.form {
            Form::Short(length, room) => &room[..*length as usize],
            Form::Long(bytes) => bytes,
        }
    }

    /// The same bytes once more.
    pub fn copy(&self, alloc: Global) -> Result<NameBytes, OutOfMemory>
        ensures { IfOk result (λ bytes. bytes ≡ self.now) }
    {
        match &self.form {
            Form::Short(length, room) => Ok(NameBytes {
                form: Form::Short(*length, *room),
            }),
            Form::Long(bytes) => long(alloc, bytes, &[]),
        }
    }
}
