//! The calls on files that failed.
ghost use Rattle.std.specs.Prelude.{◌≡◌, [], ◌∷◌, ◌++◌, OnOk, OnErr, List, ℕ};
ghost use Rattle.tmr_outside.specs.FailedCalls.{calls_of};

use std::alloc::{AllocError, Global};
use std::marker::Model;

/// What a call on files does.
#[derive(Clone, Copy, PartialEq, Eq)]
pub enum CallKind {
    Load,
    Save,
}

/// A call that failed, by its kind and the name that it was made with.
#[derive(Drop)]
pub struct FailedCall {
    kind: CallKind,
    name: String,
}

/// The calls that failed, in their order.
#[derive(Drop)]
pub struct FailedCalls {
    calls: Vec<FailedCall>,
}

impl Model for FailedCalls {
    ghost use Rattle.std.specs.Prelude.{List, ℕ};
    ghost use Rattle.tmr_outside.specs.declared.failed_calls.CallKind.{CallKind};
    ghost use Rattle.tmr_outside.specs.FailedCalls.{calls_of};

    ghost Value = { List (CallKind × List ℕ) };

    ghost view = { λ failed. calls_of failed.calls };
}

impl FailedCalls {
    /// No call failed.
    pub fn new(alloc: Global) -> FailedCalls
        ensures { result ≡ [] }
    {
        FailedCalls {
            calls: Vec::new(alloc),
        }
    }

    /// Notes a failed call. After want of memory nothing has changed.
    pub fn note(&mut self, alloc: Global, kind: CallKind, name: &str) -> Result<(), AllocError>
        ensures ok { OnOk result (self.new ≡ self.old ++ (kind, name.now) ∷ []) }
        ensures err { OnErr result (self.new ≡ self.old) }
    {
        let name = String::from_str(alloc, name)?;
        self.calls.push(FailedCall { kind, name })?;
        Ok(())
    }

    /// Takes the last call out again.
    pub fn forget_last(&mut self)
        ensures { (calls : List (CallKind × List ℕ)) (last : CallKind × List ℕ)
            → self.old ≡ calls ++ last ∷ [] → self.new ≡ calls }
    {
        let _ = self.calls.pop();
    }
}
