//! The type of schedules.
ghost use Rattle.std.specs.Prelude.{◌≡◌, ◌++◌, ◌∷◌, [], ◌<◌, ◌≤◌, ◌-◌, Some, length, slice_get, IfSome, OnOk, OnErr};
ghost use Rattle.tmr_base.specs.declared.ids.Upset.{Upset};
ghost use Rattle.net_meaning.specs.Meaning.{value_at};
ghost use Rattle.schedules.specs.Schedule.{PlainSchedule, IsPlainSchedule, IsBefore};

use std::alloc::Global;
use std::marker::Model;
use tmr_base::{OutOfMemory, Upset};

/// Rows of inputs, one for each cycle, start values of registers that have no initial value, and upsets in strictly
/// ascending order of cycle and net.
#[derive(Drop)]
pub struct Schedule {
    inputs: u32,
    cycles: u32,
    bits: Vec<bool>,
    starts: Vec<bool>,
    upsets: Vec<Upset>,
}

impl Model for Schedule {
    ghost use Rattle.schedules.specs.Schedule.{PlainSchedule};

    ghost Value = { PlainSchedule };

    ghost use Rattle.schedules.specs.View.{schedule_of, IsKept};

    ghost view = { schedule_of };

    ghost invariant = { IsKept };
}

impl Schedule {
    /// No cycles, no start values and no upsets.
    pub fn new(alloc: Global, inputs: u32) -> Schedule
        ensures { result ≡ record { inputs = inputs; rows = []; starts = []; upsets = [] } }
    {
        Schedule {
            inputs,
            cycles: 0,
            bits: Vec::new(alloc),
            starts: Vec::new(alloc),
            upsets: Vec::new(alloc),
        }
    }

    /// How many cycles there are.
    #[tactic(auto, using(crate::proofs::Kept::counts))]
    pub fn cycles(&self) -> u32
        ensures count { result ≡ length self.now.rows }
        ensures plain { IsPlainSchedule self.now }
    {
        self.cycles
    }

    /// Input i in cycle t.
    #[tactic(auto, using(crate::proofs::Kept::bits_of_rows))]
    pub fn input(&self, t: u32, i: u32) -> bool
        requires t { t < length self.now.rows }
        requires i { i < self.now.inputs }
        ensures { result ≡ value_at self.now.rows t i }
    {
        self.bits[t as usize * self.inputs as usize + i as usize]
    }

    /// How many start values there are.
    pub fn start_count(&self) -> u32
        ensures { result ≡ length self.now.starts }
    {
        self.starts.len() as u32
    }

    /// Start value j.
    pub fn start(&self, j: u32) -> bool
        requires { j < length self.now.starts }
        ensures { slice_get self.now.starts j ≡ Some result }
    {
        self.starts[j as usize]
    }

    /// How many upsets there are.
    pub fn upset_count(&self) -> u32
        ensures { result ≡ length self.now.upsets }
    {
        self.upsets.len() as u32
    }

    /// Upset j.
    pub fn upset(&self, j: u32) -> Upset
        requires { j < length self.now.upsets }
        ensures { slice_get self.now.upsets j ≡ Some result }
    {
        self.upsets[j as usize]
    }

    /// One cycle more, with its inputs. After want of memory the schedule is unchanged.
    pub fn push_cycle(&mut self, ins: &[bool]) -> Result<(), OutOfMemory>
        requires width { length ins.now ≡ self.old.inputs }
        requires room { length self.old.rows < 1048576 }
        ensures ok { OnOk result (self.new ≡ record self.old { rows = self.old.rows ++ ins.now ∷ [] }) }
        ensures err { OnErr result (self.new ≡ self.old) }
    {
        match self.bits.extend_from_slice(ins) {
            Ok(()) => {
                self.cycles += 1;
                Ok(())
            }
            Err(_) => Err(OutOfMemory),
        }
    }

    /// One start value more, behind the last one. After want of memory the schedule is unchanged.
    pub fn push_start(&mut self, bit: bool) -> Result<(), OutOfMemory>
        requires { length self.old.starts < 4294967295 }
        ensures ok { OnOk result (self.new ≡ record self.old { starts = self.old.starts ++ bit ∷ [] }) }
        ensures err { OnErr result (self.new ≡ self.old) }
    {
        match self.starts.push(bit) {
            Ok(()) => Ok(()),
            Err(_) => Err(OutOfMemory),
        }
    }

    /// One upset more, behind the last one. After want of memory the schedule is unchanged.
    pub fn push_upset(&mut self, u: Upset) -> Result<(), OutOfMemory>
        requires order { IfSome (slice_get self.old.upsets (length self.old.upsets - 1)) (λ v. IsBefore v u) }
        requires range { u.cycle < length self.old.rows }
        requires room { length self.old.upsets < 1048576 }
        ensures ok { OnOk result (self.new ≡ record self.old { upsets = self.old.upsets ++ u ∷ [] }) }
        ensures err { OnErr result (self.new ≡ self.old) }
    {
        match self.upsets.push(u) {
            Ok(()) => Ok(()),
            Err(_) => Err(OutOfMemory),
        }
    }
}
