//! Files by name, kept in memory.
ghost use Rattle.std.specs.Prelude.{◌≡◌, OnOk, OnErr, option_map};
ghost use Rattle.std.specs.FinMap.{empty, get, insert};

use std::alloc::{AllocError, Global};
use std::collections::BTreeMap;
use std::marker::Model;

/// What each name holds.
#[derive(Drop)]
pub struct StoredFiles {
    files: BTreeMap<String, Vec<u8>>,
}

impl Model for StoredFiles {
    ghost use Rattle.tmr_outside.specs.Contents.{Contents, contents_code, contents_of};

    ghost Value = { Contents };

    ghost coded = { contents_code };

    ghost view = { λ stored. contents_of stored.files };
}

impl StoredFiles {
    /// No file is there.
    pub fn new(alloc: Global) -> StoredFiles
        ensures { result ≡ empty }
    {
        StoredFiles {
            files: BTreeMap::new(alloc),
        }
    }

    /// The bytes of a file, if it is there.
    #[tactic(auto, using(crate::proofs::ContentsLemmas::contents_rules))]
    pub fn get(&self, name: &str) -> Option<&[u8]>
        ensures { option_map (λ bytes. bytes.now) result ≡ get self.now name.now }
    {
        match self.files.get(name) {
            Some(bytes) => Some(bytes.as_slice()),
            None => None,
        }
    }

    /// Makes the name hold a copy of the bytes. After want of memory nothing has changed.
    pub fn insert(&mut self, alloc: Global, name: &str, bytes: &[u8]) -> Result<(), AllocError>
        ensures ok { OnOk result (self.new ≡ insert self.old name.now bytes.now) }
        ensures err { OnErr result (self.new ≡ self.old) }
    {
        let key = String::from_str(alloc, name)?;
        let copy = bytes.to_vec(alloc)?;
        self.files.insert(key, copy)?;
        Ok(())
    }
}
