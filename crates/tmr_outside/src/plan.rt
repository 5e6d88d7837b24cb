//! The calls of an object in memory: their numbers, and which of them are to fail.
ghost use Rattle.std.specs.Prelude.{◌≡◌, [], OnOk, OnErr, Option, None};
ghost use Rattle.std.specs.FinMap.{empty, get};
ghost use Rattle.tmr_outside.specs.Plan.{prefix_left, after_call, with_failure, failing_of};

use std::alloc::{AllocError, Global};
use std::collections::BTreeMap;
use std::marker::Model;

/// Numbers the calls of an object from 0, and keeps which of them are to fail, each with the length of
/// the prefix that it leaves.
#[derive(Drop)]
pub struct CallPlan {
    next_call: u64,
    failing: BTreeMap<u64, u64>,
}

impl Model for CallPlan {
    ghost use Rattle.tmr_outside.specs.Plan.{Plan, plan_code, failing_of};

    ghost Value = { Plan };

    ghost coded = { plan_code };

    ghost view = { λ plan. record { next_call = plan.next_call; failing = failing_of plan.failing } };
}

impl CallPlan {
    /// No call was made, and none is to fail.
    pub fn new(alloc: Global) -> CallPlan
        ensures next_call { result.next_call ≡ 0 }
        ensures failing { result.failing ≡ empty }
    {
        CallPlan {
            next_call: 0,
            failing: BTreeMap::new(alloc),
        }
    }

    /// Has a call fail and leave a prefix of `keep` bytes.
    pub fn fail_at(&mut self, call: u64, keep: u64) -> Result<(), AllocError>
        ensures ok { OnOk result (self.new ≡ with_failure self.old call keep) }
        ensures err { OnErr result (self.new ≡ self.old) }
    {
        self.failing.insert(call, keep)?;
        Ok(())
    }

    /// Begins the next call, and gives the length of the prefix that it leaves if it is to fail.
    #[tactic(auto, using(crate::proofs::PlanLemmas::plan_rules))]
    pub fn begin(&mut self) -> Option<u64>
        ensures prefix { result ≡ prefix_left self.old }
        ensures none { self.old.failing ≡ empty → result ≡ None }
        ensures after { self.new ≡ after_call self.old }
    {
        let call = self.next_call;
        self.next_call = call.saturating_add(1);
        prefix_at(&self.failing, call)
    }
}

/// The length of the prefix that a call leaves, if it is to fail.
#[tactic(auto, using(crate::proofs::PlanLemmas::plan_rules))]
fn prefix_at(failing: &BTreeMap<u64, u64>, call: u64) -> Option<u64>
    ensures { result ≡ get (failing_of failing.now) call }
{
    failing.get(&call).copied()
}
