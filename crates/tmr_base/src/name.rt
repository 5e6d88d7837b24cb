//! A name: the bytes that stand for a net or a model in the text format.
ghost use Rattle.std.specs.Prelude.{◌≡◌, ◌==◌, ◌++◌, ◌∷◌, [], true, false, OnOk, IfOk, OnErr, IsErrOf, IsOkUnless, IsTrue};
ghost use Rattle.std.proofs.Common.{rules};
ghost use Rattle.std.specs.Cmp.Rules.{comparing};
ghost use Rattle.std.specs.Cmp.{partial_order_from_own_ties};
ghost use Rattle.std.specs.Cmp.Lexicographic.{slice_cmp};
ghost use Rattle.std.specs.Ordering.{nat_cmp, as_partial_cmp};
ghost use Rattle.std.specs.Hash.{same_Alike};
ghost use Rattle.std.specs.List.{list_all};
ghost use Rattle.std.specs.Str.{bytes_eq};
ghost use Rattle.std.proofs.lemmas.Slice.Eq.{bytes_eq-Decides};
ghost use Rattle.tmr_base.specs.Hashing.{tells_copy, hashed_part};
ghost use Rattle.tmr_base.specs.Names.{is_name, is_name_byte};

use crate::OutOfMemory;
use crate::name_bytes::NameBytes;
use std::alloc::Global;
use std::cmp::Ordering;
use std::hash::{Hash, Hasher};
use std::marker::Model;

/// One or more bytes above 0x20, none of them 0x7F or `#`, of which the last is no backslash.
/// Names are equal and ordered as their bytes. Up to 30 bytes stand in the value itself; only a longer name takes memory of its own.
#[derive(Debug, Drop)]
pub struct Name {
    bytes: NameBytes,
}

impl Model for Name {
    ghost use Rattle.std.specs.Prelude.{List, ℕ, ◌≡◌, true};
    ghost use Rattle.tmr_base.specs.Names.{is_name};

    ghost Value = { List ℕ };

    ghost view = { λ name. name.bytes };

    ghost invariant = { λ name. is_name name.bytes ≡ true };
}

/// Why bytes are not made a name.
#[derive(Clone, Copy, Debug, PartialEq, Eq, Drop)]
pub enum NameFault {
    /// The bytes are no name.
    Bad,
    /// There was no memory for the copy.
    Memory,
}

fn may_stand(b: u8) -> bool
    ensures { result ≡ is_name_byte b }
{
    32 < b && b != 0x7f && b != b'#'
}

fn all_may_stand(bytes: &[u8]) -> bool
    ensures { result ≡ list_all is_name_byte bytes.now }
{
    bytes.iter().all(|b| may_stand(*b))
}

fn is_legal(bytes: &[u8]) -> bool
    ensures { result ≡ is_name bytes.now }
{
    match bytes.last() {
        Some(last) => { *last != b'\\' && all_may_stand(bytes) }
        None => false,
    }
}

impl Name {
    /// The name with these bytes. `Bad` comes exactly where the bytes are no name.
    pub fn read(alloc: Global, bytes: &[u8]) -> Result<Name, NameFault>
        ensures ok { IfOk result (λ name. name ≡ bytes.now) }
        ensures legal { OnOk result (is_name bytes.now ≡ true) }
        ensures bad { IsErrOf result NameFault.Bad → is_name bytes.now ≡ false }
        ensures bad_only { is_name bytes.now ≡ false → result ≡ Err NameFault.Bad }
    {
        if !is_legal(bytes) {
            return Err(NameFault::Bad);
        }
        match NameBytes::join(alloc, bytes, &[]) {
            Ok(bytes) => Ok(Name { bytes }),
            Err(_) => Err(NameFault::Memory),
        }
    }

    /// The bytes, which are a name.
    pub fn bytes(&self) -> &[u8]
        ensures bytes { result.now ≡ self.now }
        ensures legal { is_name self.now ≡ true }
    {
        self.bytes.as_slice()
    }

    /// The same name once more.
    pub fn copy(&self, alloc: Global) -> Result<Name, OutOfMemory>
        ensures { IfOk result (λ name. name ≡ self.now) }
    {
        let bytes = self.bytes.copy(alloc)?;
        Ok(Name { bytes })
    }
}

/// The bytes of a name, and then those of another.
#[tactic(auto, using(crate::proofs::NameLaws::name_append))]
pub fn with_suffix(alloc: Global, x: &Name, suffix: &[u8]) -> Result<Name, OutOfMemory>
    requires { is_name suffix.now ≡ true }
    ensures { IfOk result (λ name. name ≡ x.now ++ suffix.now) }
{
    let bytes = NameBytes::join(alloc, x.bytes(), suffix)?;
    Ok(Name { bytes })
}

/// The same bytes. The last ones are compared first, since names that hash alike differ there as a rule.

fn are_same(a: &[u8], b: &[u8]) -> bool
    ensures { result ≡ bytes_eq a.now b.now }
{
    a.last() == b.last() && a == b
}

/// `0`, `1`, `2`, `a`, `b` or `c`, which ends the name of a copy or a voter.
fn tells_copy(b: u8) -> bool
    ensures { result ≡ tells_copy b }
{
    matches!(b, b'0'..=b'2' | b'a'..=b'c')
}

/// What of a name is hashed: all but a last byte that tells a copy. So the copies of a net stand side by side in
/// a table, and so do its voters for a partition: of three looked up in turn the table is fetched once from memory.
fn hashed_part(bytes: &[u8]) -> &[u8]
    ensures { result.now ≡ hashed_part bytes.now }
{
    let count = bytes.len();
    if count > 1 && bytes[count - 2] == b'~' && tells_copy(bytes[count - 1]) {
        &bytes[..count - 1]
    } else {
        bytes
    }
}

impl PartialEq for Name {
    ghost eq = { bytes_eq };

    ghost laws = { Prim.search (comparing, rules) };

    fn eq(&self, other: &Name) -> bool {
        are_same(self.bytes(), other.bytes())
    }
}

impl Eq for Name {
    ghost laws = { Prim.search (comparing, rules) };
}

impl Hash for Name {
    ghost hash_input = { λ name. hashed_part name ∷ [] };

    ghost respects_eq = { (same_Alike (λ name. hashed_part name ∷ []) bytes_eq-Decides).fed };

    fn hash<H: Hasher>(&self, state: &mut H) {
        state.write(hashed_part(self.bytes()));
    }
}

impl Ord for Name {
    ghost cmp = { slice_cmp nat_cmp };

    ghost total = { Prim.search (comparing, rules) };

    ghost matches_partial_cmp = { Prim.search (comparing, rules) };

    ghost matches_eq = { Prim.search (comparing, rules) };

    fn cmp(&self, other: &Name) -> Ordering {
        self.bytes().cmp(other.bytes())
    }
}

impl PartialOrd for Name {
    ghost partial_cmp = { as_partial_cmp (slice_cmp nat_cmp) };

    ghost laws = { partial_order_from_own_ties (Prim.search (comparing, rules)) (Prim.search (comparing, rules)) };

    fn partial_cmp(&self, other: &Name) -> Option<Ordering> {
        Some(self.cmp(other))
    }
}
