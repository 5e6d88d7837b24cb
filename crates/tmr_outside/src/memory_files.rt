//! Files in memory.
ghost use Rattle.std.specs.Prelude.{◌≡◌, ◌≢◌, ◌≤◌, ◌⊎◌, [], take, vec_len, IfOk, OnOk, OnErr, IsOk, IsErrOf, IsSome, IfSome, IsOkUnless, ◌∷◌, ◌++◌, length, Option, Some, None, option_map};
ghost use Rattle.std.specs.FinMap.{empty, get, insert};
ghost use Rattle.tmr_outside.specs.Contents.{IsTooLong};
ghost use Rattle.tmr_outside.specs.Loading.{IsLoad};
ghost use Rattle.tmr_outside.specs.Pieces.{TakesFile};
ghost use Rattle.tmr_outside.specs.Plan.{prefix_left};
ghost use Rattle.tmr_outside.specs.MemoryFiles.{called, noting, holding, failing_at, files_seen, is_steady};
ghost use Rattle.tmr_outside.specs.Saving.{IsSave};

use crate::failed_calls::{CallKind, FailedCalls};
use crate::gathering::gather;
use crate::pieces::{front, hand_out};
use crate::plan::CallPlan;
use crate::stored_files::StoredFiles;
use crate::{Files, Giver, LoadFault, SaveFault, Taker};
use std::alloc::{AllocError, Global};
use std::marker::Model;

/// Keeps what each name holds, notes each call that fails, and fails exactly at the calls that were named
/// to it and at loads of a name that is not there. It is seen as what the names hold, the calls that
/// failed and the plan of its calls.
#[derive(Drop)]
pub struct MemFiles {
    alloc: Global,
    stored: StoredFiles,
    failed: FailedCalls,
    plan: CallPlan,
}

impl Model for MemFiles {
    ghost use Rattle.tmr_outside.specs.contracts.failed_calls.CallKind as kind;
    ghost use Rattle.tmr_outside.specs.MemoryFiles.{FilesInMemory, files_code};

    ghost Value = { FilesInMemory };

    ghost coded = { files_code kind.the_row.coded };

    ghost view = { λ files. record { held = files.stored; failed = files.failed; plan = files.plan } };
}

impl MemFiles {
    /// No file is there, no call failed and none is to fail.
    pub fn new(alloc: Global) -> MemFiles
        ensures held { result.held ≡ empty }
        ensures failed { result.failed ≡ [] }
        ensures next_call { result.plan.next_call ≡ 0 }
        ensures failing { result.plan.failing ≡ empty }
    {
        MemFiles {
            alloc,
            stored: StoredFiles::new(alloc),
            failed: FailedCalls::new(alloc),
            plan: CallPlan::new(alloc),
        }
    }

    /// Has the call of this number, counted from 0, fail. A save then leaves the first `keep` bytes of what
    /// it was to save, or all where there are no more; for a load `keep` counts for nothing. Naming a call
    /// again replaces its `keep`. After want of memory nothing has changed.
    pub fn fail_at(&mut self, call: u64, keep: u64) -> Result<(), AllocError>
        ensures ok { OnOk result (self.new ≡ failing_at self.old call keep) }
        ensures err { OnErr result (self.new ≡ self.old) }
    {
        self.plan.fail_at(call, keep)
    }

    /// Makes the name hold the bytes. It is no call that is numbered, and never fails by the list. After
    /// want of memory nothing has changed.
    pub fn hold(&mut self, name: &str, bytes: &[u8]) -> Result<(), AllocError>
        ensures ok { OnOk result (self.new ≡ holding self.old name.now bytes.now) }
        ensures err { OnErr result (self.new ≡ self.old) }
    {
        self.stored.insert(self.alloc, name, bytes)
    }

    /// What the name holds, or `None` where it is not there.
    pub fn held(&self, name: &str) -> Option<&[u8]>
        ensures { option_map (λ bytes. bytes.now) result ≡ get self.now.held name.now }
    {
        self.stored.get(name)
    }
}

/// The file of a load, where the call is not to fail and the file is there and has at most `limit` bytes.
fn loadable<'a>(
    stored: &'a StoredFiles,
    name: &str,
    limit: u64,
    keep: Option<u64>,
) -> Result<&'a [u8], LoadFault>
    ensures ok { IfOk result (λ bytes. get stored.now name.now ≡ Some bytes.now) }
    ensures within { IfOk result (λ bytes. length bytes.now ≤ limit) }
    ensures too_long { IsErrOf result LoadFault.TooLong → IsTooLong stored.now name.now limit }
    ensures failed { IsErrOf result LoadFault.Failed → IsSome keep ⊎ (get stored.now name.now ≡ None) }
    ensures failed_only { (result ≢ Err LoadFault.Failed) → (keep ≡ None) × IsSome (get stored.now name.now) }
    ensures kinds { result ≢ Err LoadFault.Memory }
{
    if keep.is_some() {
        return Err(LoadFault::Failed);
    }
    match stored.get(name) {
        Some(bytes) => {
            if bytes.len() as u64 > limit {
                Err(LoadFault::TooLong)
            } else {
                Ok(bytes)
            }
        }
        None => Err(LoadFault::Failed),
    }
}

/// A copy of the bytes, if there is room.
fn copy(alloc: Global, bytes: &[u8]) -> Result<Vec<u8>, LoadFault>
    ensures ok { IfOk result (λ copied. copied.items ≡ bytes.now) }
    ensures kinds { IsOkUnless result LoadFault.Memory }
{
    match bytes.to_vec(alloc) {
        Ok(copied) => Ok(copied),
        Err(_) => Err(LoadFault::Memory),
    }
}

/// Stores the bytes under the name, if there is room.
fn store(alloc: Global, stored: &mut StoredFiles, name: &str, bytes: &[u8]) -> Result<(), SaveFault>
    ensures ok { OnOk result (stored.new ≡ insert stored.old name.now bytes.now) }
    ensures err { OnErr result (stored.new ≡ stored.old) }
    ensures kinds { result ≢ Err SaveFault.Failed }
{
    match stored.insert(alloc, name, bytes) {
        Ok(()) => Ok(()),
        Err(_) => Err(SaveFault::Memory),
    }
}

/// Notes that a load of this name failed, if there is room.
fn fail_load(alloc: Global, failed: &mut FailedCalls, name: &str) -> LoadFault
    ensures failed { result ≡ LoadFault.Failed → failed.new ≡ failed.old ++ (CallKind.Load, name.now) ∷ [] }
    ensures memory { result ≡ LoadFault.Memory → failed.new ≡ failed.old }
    ensures kinds { result ≢ LoadFault.TooLong }
{
    match failed.note(alloc, CallKind::Load, name) {
        Ok(()) => LoadFault::Failed,
        Err(_) => LoadFault::Memory,
    }
}

/// Leaves these bytes of a save that is to fail and notes that it failed, if there is room.
fn fail_save(
    alloc: Global,
    stored: &mut StoredFiles,
    failed: &mut FailedCalls,
    name: &str,
    kept: &[u8],
) -> SaveFault
    ensures noted { result ≡ SaveFault.Failed → failed.new ≡ failed.old ++ (CallKind.Save, name.now) ∷ [] }
    ensures left { result ≡ SaveFault.Failed → stored.new ≡ insert stored.old name.now kept.now }
    ensures memory { result ≡ SaveFault.Memory → failed.new ≡ failed.old }
    ensures memory_left { result ≡ SaveFault.Memory → stored.new ≡ stored.old }
{
    match failed.note(alloc, CallKind::Save, name) {
        Ok(()) => {}
        Err(_) => return SaveFault::Memory,
    }
    match stored.insert(alloc, name, kept) {
        Ok(()) => SaveFault::Failed,
        Err(_) => {
            failed.forget_last();
            SaveFault::Memory
        }
    }
}

impl Files for MemFiles {
    ghost use Rattle.std.specs.Prelude.{refl};
    ghost use Rattle.tmr_outside.specs.MemoryFiles.{files_seen, is_steady};

    ghost seen = { files_seen };

    ghost steady = { is_steady };

    ghost steady_tells = { λ files steady. refl };

    #[tactic(auto, using(crate::proofs::FailedCallLemmas::call_rules))]
    fn load(&mut self, alloc: Global, name: &str, limit: u64) -> Result<Vec<u8>, LoadFault>
        ensures limit { IfOk result (λ bytes. vec_len bytes ≤ limit) }
        ensures bytes { IfOk result (λ bytes. get self.old.held name.now ≡ Some bytes.items) }
        ensures seen { IsLoad name.now limit result (files_seen self.old) (files_seen self.new)
            (is_steady self.old) (is_steady self.new) }

        // Of a load that did not want memory: it fails exactly where its number is on the list or the
        // name is not there.
        ensures listed { IsErrOf result LoadFault.Failed
            → IsSome (prefix_left self.old.plan) ⊎ (get self.old.held name.now ≡ None) }
        ensures listed_only { (result ≢ Err LoadFault.Failed) → (result ≢ Err LoadFault.Memory)
            → (prefix_left self.old.plan ≡ None) × IsSome (get self.old.held name.now) }

        // What the object is after each answer.
        ensures after_failed { IsErrOf result LoadFault.Failed
            → self.new ≡ noting (called self.old) CallKind.Load name.now }
        ensures after { result ≢ Err LoadFault.Failed → self.new ≡ called self.old }
    {
        let keep = self.plan.begin();
        match loadable(&self.stored, name, limit, keep) {
            Ok(bytes) => copy(alloc, bytes),
            Err(LoadFault::Failed) => Err(fail_load(self.alloc, &mut self.failed, name)),
            Err(fault) => Err(fault),
        }
    }

    #[tactic(auto, using(crate::proofs::FailedCallLemmas::call_rules))]
    fn load_pieces<T: Taker>(
        &mut self,
        _alloc: Global,
        name: &str,
        limit: u64,
        to: &mut T,
    ) -> Result<(), LoadFault>
        requires { limit ≤ T.room to.old }
        ensures taken { TakesFile (T.stands to.old) (T.stands to.new) (T.room to.old) (T.room to.new) limit
            (Some self.old.held) name.now (IsOk result) }
        ensures seen { IsLoad name.now limit result (files_seen self.old) (files_seen self.new)
            (is_steady self.old) (is_steady self.new) }

        // Of a load that did not want memory: it fails exactly where its number is on the list or the
        // name is not there.
        ensures listed { IsErrOf result LoadFault.Failed
            → IsSome (prefix_left self.old.plan) ⊎ (get self.old.held name.now ≡ None) }
        ensures listed_only { (result ≢ Err LoadFault.Failed) → (result ≢ Err LoadFault.Memory)
            → (prefix_left self.old.plan ≡ None) × IsSome (get self.old.held name.now) }

        // What the object is after each answer.
        ensures after_failed { IsErrOf result LoadFault.Failed
            → self.new ≡ noting (called self.old) CallKind.Load name.now }
        ensures after { result ≢ Err LoadFault.Failed → self.new ≡ called self.old }
    {
        let keep = self.plan.begin();
        match loadable(&self.stored, name, limit, keep) {
            Ok(bytes) => {
                hand_out(bytes, to);
                Ok(())
            }
            Err(LoadFault::Failed) => Err(fail_load(self.alloc, &mut self.failed, name)),
            Err(fault) => Err(fault),
        }
    }

    #[tactic(auto, using(crate::proofs::FailedCallLemmas::call_rules, crate::proofs::ContentsLemmas::contents_rules))]
    fn save(&mut self, name: &str, bytes: &[u8]) -> Result<(), SaveFault>
        ensures seen { IsSave name.now bytes.now result (files_seen self.old) (files_seen self.new)
            (is_steady self.old) (is_steady self.new) }

        // Of a save that did not want memory: it fails exactly where its number is on the list.
        ensures listed { IsErrOf result SaveFault.Failed → IsSome (prefix_left self.old.plan) }
        ensures listed_only { OnOk result (prefix_left self.old.plan ≡ None) }

        // What the object is after each answer.
        ensures after_ok { OnOk result (self.new ≡ holding (called self.old) name.now bytes.now) }
        ensures after_failed { IsErrOf result SaveFault.Failed → IfSome (prefix_left self.old.plan) (λ keep.
            self.new ≡ noting (holding (called self.old) name.now (take keep bytes.now)) CallKind.Save name.now) }
        ensures after_memory { IsErrOf result SaveFault.Memory → self.new ≡ called self.old }
    {
        match self.plan.begin() {
            None => store(self.alloc, &mut self.stored, name, bytes),
            Some(keep) => Err(fail_save(
                self.alloc,
                &mut self.stored,
                &mut self.failed,
                name,
                front(bytes, keep),
            )),
        }
    }

    #[tactic(auto, using(crate::proofs::FailedCallLemmas::call_rules, crate::proofs::ContentsLemmas::contents_rules))]
    fn save_pieces<G: Giver>(&mut self, name: &str, from: &mut G) -> Result<(), SaveFault>
        ensures seen { IsSave name.now (G.rest from.old) result (files_seen self.old) (files_seen self.new)
            (is_steady self.old) (is_steady self.new) }

        // Of a save that did not want memory: it fails exactly where its number is on the list.
        ensures listed { IsErrOf result SaveFault.Failed → IsSome (prefix_left self.old.plan) }
        ensures listed_only { OnOk result (prefix_left self.old.plan ≡ None) }

        // What the object is after each answer.
        ensures after_ok { OnOk result (self.new ≡ holding (called self.old) name.now (G.rest from.old)) }
        ensures after_failed { IsErrOf result SaveFault.Failed → IfSome (prefix_left self.old.plan) (λ keep.
            self.new ≡ noting (holding (called self.old) name.now (take keep (G.rest from.old))) CallKind.Save name.now) }
        ensures after_memory { IsErrOf result SaveFault.Memory → self.new ≡ called self.old }
    {
        match gather(self.alloc, from) {
            Ok(bytes) => self.save(name, bytes.as_slice()),
            Err(_) => {
                let _ = self.plan.begin();
                Err(SaveFault::Memory)
            }
        }
    }
}
