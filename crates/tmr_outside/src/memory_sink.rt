//! A sink in memory.
ghost use Rattle.std.specs.Prelude.{take, min, ◌≡◌, ◌≢◌, ◌≤◌, ◌+◌, ◌-◌, ◌^◌, ◌++◌, OnOk, OnErr, IsErrOf, IsSome, IfSome, IsOkUnless, Some, None, [], ℕ};
ghost use Rattle.std.specs.FinMap.{empty, insert};
ghost use Rattle.tmr_outside.specs.Counts.{Rose};
ghost use Rattle.tmr_outside.specs.Written.{Grows};
ghost use Rattle.tmr_outside.specs.Plan.{prefix_left};
ghost use Rattle.tmr_outside.specs.MemorySink.{letting_out, counting_fault, failing_at};

use crate::fault_count::FaultCount;
use crate::pieces::front;
use crate::plan::CallPlan;
use crate::{PutFault, Sink};
use std::alloc::{AllocError, Global};
use std::marker::Model;

/// Keeps the bytes that are put, and fails exactly at the calls that were named to it. It is seen as its
/// bytes, its count of faults and the plan of its calls.
#[derive(Drop)]
pub struct MemSink {
    bytes: Vec<u8>,
    faults: FaultCount,
    plan: CallPlan,
}

impl Model for MemSink {
    ghost use Rattle.tmr_outside.specs.MemorySink.{SinkInMemory, sink_code};

    ghost Value = { SinkInMemory };

    ghost coded = { sink_code };

    ghost view = { λ sink. record { bytes = sink.bytes.items; faults = sink.faults; plan = sink.plan } };
}

impl MemSink {
    /// An empty sink without faults, in which no call is to fail.
    pub fn new(alloc: Global) -> MemSink
        ensures bytes { result.bytes ≡ [] }
        ensures faults { result.faults ≡ 0 }
        ensures next_call { result.plan.next_call ≡ 0 }
        ensures failing { result.plan.failing ≡ empty }
    {
        MemSink {
            bytes: Vec::new(alloc),
            faults: FaultCount::new(),
            plan: CallPlan::new(alloc),
        }
    }

    /// Has the put of this number, counted from 0, fail and let out the first `keep` bytes of its text, or
    /// all where it has no more. Naming a call again replaces its `keep`. After want of memory nothing has
    /// changed.
    pub fn fail_at(&mut self, call: u64, keep: u64) -> Result<(), AllocError>
        ensures ok { OnOk result (self.new ≡ failing_at self.old call keep) }
        ensures err { OnErr result (self.new ≡ self.old) }
    {
        self.plan.fail_at(call, keep)
    }

    /// The bytes that went out.
    pub fn written(&self) -> &[u8]
        ensures { result.now ≡ self.now.bytes }
    {
        self.bytes.as_slice()
    }
}

/// Appends the bytes, or nothing where there is no room.
fn append(to: &mut Vec<u8>, bytes: &[u8]) -> Result<(), PutFault>
    ensures ok { OnOk result (to.new.items ≡ to.old.items ++ bytes.now) }
    ensures err { OnErr result (to.new.items ≡ to.old.items) }
    ensures memory { IsOkUnless result PutFault.Memory }
{
    match to.extend_from_slice(bytes) {
        Ok(()) => Ok(()),
        Err(_) => Err(PutFault::Memory),
    }
}

impl Sink for MemSink {
    ghost use Rattle.std.specs.Prelude.{Some, ◌≡◌};
    ghost use Rattle.std.specs.FinMap.{empty};

    ghost seen = { λ sink. record { written = Some sink.bytes; put_count = sink.faults } };

    ghost steady = { λ sink. sink.plan.failing ≡ empty };

    fn put(&mut self, bytes: &[u8]) -> Result<(), PutFault>
        ensures ok { OnOk result (self.new.bytes ≡ self.old.bytes ++ bytes.now) }
        ensures memory { IsErrOf result PutFault.Memory → self.new.bytes ≡ self.old.bytes }
        ensures prefix { Grows bytes.now self.old.bytes self.new.bytes }
        ensures failed { IsErrOf result PutFault.Failed → Rose self.old.faults self.new.faults }
        ensures later { self.old.faults ≤ self.new.faults }
        ensures steady { self.old.plan.failing ≡ empty → self.new.plan.failing ≡ empty }
        ensures steady_ok { self.old.plan.failing ≡ empty
            → (result ≢ Err PutFault.Failed) × (self.new.faults ≡ self.old.faults) }

        // Of a put that did not want memory: it fails exactly where its number is on the list.
        ensures listed { IsErrOf result PutFault.Failed → IsSome (prefix_left self.old.plan) }
        ensures listed_only { OnOk result (prefix_left self.old.plan ≡ None) }

        // What the sink is after each answer.
        ensures after_ok { OnOk result (self.new ≡ letting_out self.old bytes.now) }
        ensures after_failed { IsErrOf result PutFault.Failed → IfSome (prefix_left self.old.plan) (λ keep.
            self.new ≡ counting_fault (letting_out self.old (take keep bytes.now))) }
        ensures after_memory { IsErrOf result PutFault.Memory → self.new ≡ letting_out self.old [] }
    {
        match self.plan.begin() {
            None => append(&mut self.bytes, bytes),
            Some(keep) => {
                append(&mut self.bytes, front(bytes, keep))?;
                self.faults.raise();
                Err(PutFault::Failed)
            }
        }
    }
}
