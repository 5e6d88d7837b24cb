//! Sixty-four runs of a design at once.
ghost use Rattle.std.specs.Prelude.{◌≡◌, ◌<◌, ℕ, All, IfOk, IfSome, IsSome, IsSomeAnd, None, length, slice_index, option_map};
ghost use Rattle.table_cover.specs.Words.{bits_of};
ghost use Rattle.flat_net.specs.Net.{net_count};
ghost use Rattle.net_simulator.specs.Cycle.{IsCycle, forced_in};
ghost use Rattle.net_simulator.specs.Settled.{marked, AreMarks};

use crate::cycle::{Given, run_cycle};
use crate::marks::{Marks, no_marks};
use crate::tables::{Tables, tables_of};
use crate::truth::{Truths, truths_of};
use flat_net::FlatNet;
use std::alloc::Global;
use std::marker::Model;
use std::mem;
use tmr_base::{NetId, OutOfMemory};

/// A simulator of 64 runs of a design: bit j of each word belongs to run j.
#[derive(Drop)]
pub struct WideSim<'a> {
    net: &'a FlatNet,
    started: bool,
    words: Vec<u64>,
    before: Vec<u64>,
    marks: Marks,
    tables: Tables,
    truths: Truths,
}

impl<'a> Model for WideSim<'a> {
    ghost use Rattle.net_simulator.specs.Cycle.{WideRun};

    ghost Value = { WideRun };

    ghost use Rattle.net_simulator.specs.Inside.{wide_run_of, IsWideSim};

    ghost view = { wide_run_of };

    ghost invariant = { IsWideSim };
}

/// Forces what the triples say, and nothing else.
pub fn force(marks: &mut Marks, triples: &[(NetId, u64, u64)])
    requires sized { AreMarks (length marks.old.forced.items) marks.old }
    requires nets { All (λ f. f.0.0 < length marks.old.forced.items) triples.now }
    ensures forced { (j x : ℕ) → j < 64 → marked marks.new j x ≡ forced_in j triples.now x }
    ensures sized { AreMarks (length marks.old.forced.items) marks.new }
{
    marks.release();
    let count = triples.len();
    for i in 0..count {
        let (x, mask, value) = triples[count - 1 - i];
        marks.force(x, mask, value);
    }
}

impl<'a> WideSim<'a> {
    /// Runs that have not begun. All room that steps need is made here, so only this call can want memory.
    pub fn new(alloc: Global, net: &'a FlatNet) -> Result<WideSim<'a>, OutOfMemory>
        ensures net { IfOk result (λ s. s.net ≡ net.now.net) }
        ensures last { IfOk result (λ s. s.last ≡ None) }
    {
        let nets = net.input_count() as usize + net.node_count() as usize;
        let words = Vec::from_elem(alloc, 0, nets)?;
        let before = Vec::from_elem(alloc, 0, nets)?;
        let marks = no_marks(alloc, nets)?;
        let tables = tables_of(alloc, net)?;
        let truths = truths_of(alloc, net, &tables)?;
        Ok(WideSim {
            net,
            started: false,
            words,
            before,
            marks,
            tables,
            truths,
        })
    }

    /// Runs the next cycle of all runs, and takes no memory.
    ///
    /// `ins` has a word for each input, in order. A triple of `forced` is a net, a word of the runs in which it is
    /// forced, and a word of its values in these; the other bits of the last word count for nothing. Triples stand in
    /// any order; where two name one net and run, the first counts.
    pub fn step(&mut self, ins: &[u64], forced: &[(NetId, u64, u64)])
        requires ins { length ins.now ≡ length self.old.net.inputs }
        requires forced { All (λ f. f.0.0 < net_count self.old.net) forced.now }
        ensures cycle { (j : ℕ) → j < 64 → IsSomeAnd self.new.last (λ words. IsCycle self.old.net (option_map (bits_of j) self.old.last) (bits_of j ins.now) (forced_in j forced.now) (bits_of j words)) }
        ensures net { self.new.net ≡ self.old.net }
    {
        force(&mut self.marks, forced);
        mem::swap(&mut self.words, &mut self.before);
        let given = Given {
            started: self.started,
            before: &self.before,
            ins,
        };
        run_cycle(
            self.net,
            &self.tables,
            &self.truths,
            &given,
            &self.marks,
            &mut self.words,
        );
        self.started = true;
    }

    /// The word of net x in the last cycle; before the first cycle there is none. It takes no memory.
    pub fn value(&self, x: NetId) -> u64
        requires started { IsSome self.now.last }
        requires range { x.0 < net_count self.now.net }
        ensures { IfSome self.now.last (λ words. result ≡ slice_index words x.0) }
    {
        self.words[x.0 as usize]
    }

    /// The words of all nets in the last cycle.
    pub(crate) fn words(&self) -> &[u64]
        ensures { IfSome self.now.last (λ words. result.now ≡ words) }
    {
        self.words.as_slice()
    }
}
