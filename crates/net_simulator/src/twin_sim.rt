//! Sixty-four runs of a design beside those of another one.
ghost use Rattle.std.specs.Prelude.{◌≡◌, ◌<◌, ℕ, All, IfOk, IfSome, IsSome, IsSomeAnd, List, Bool, Option, None, length, map, slice_index, option_map};
ghost use Rattle.table_cover.specs.Words.{bits_of};
ghost use Rattle.flat_net.specs.Net.{Net, net_count};
ghost use Rattle.flat_net.specs.Nodes.{number_of};
ghost use Rattle.net_meaning.specs.Meaning.{bit};
ghost use Rattle.net_simulator.specs.Cycle.{IsCycle, forced_in};
ghost use Rattle.net_simulator.specs.Settled.{marked, AreMarks, last_of};
ghost use Rattle.net_simulator.specs.Beside.{AreOwn, AreReadersOf, AreTwins, IsBeside, IsRoom};
ghost use Rattle.net_simulator.specs.Layouts.{IsLayout};
ghost use Rattle.net_simulator.specs.Twins.{AreTablesMet, AreWordsBut};

use crate::beside::{follow, set_inputs_beside, set_registers_beside, set_tables_beside};
use crate::changes::{Changes, begin, no_changes};
use crate::cycle::Given;
use crate::marks::{Marks, no_marks};
use crate::tables::{Tables, tables_of};
use crate::truth::{Truths, truths_of};
use crate::twins::{Twins, twins_of};
use crate::wide::{WideSim, force};
use flat_net::FlatNet;
use std::alloc::Global;
use std::marker::Model;
use std::mem;
use tmr_base::{NetId, OutOfMemory};

/// What a simulator keeps of its design.
#[derive(Drop)]
pub struct Layout<'a> {
    net: &'a FlatNet,
    tables: Tables,
    truths: Truths,
    twins: Twins,
}

/// A simulator of 64 runs of a design whose nets stand for nets of another one, as those of a hardened design do.
///
/// It has the values that a `WideSim` has, and takes less time where most nets have the values of those that they stand
/// for.
#[derive(Drop)]
pub struct TwinSim<'a> {
    original: &'a FlatNet,
    layout: Layout<'a>,
    started: bool,
    words: Vec<u64>,
    before: Vec<u64>,
    marks: Marks,
    changes: Changes,
}

impl<'a> Model for TwinSim<'a> {
    ghost use Rattle.net_simulator.specs.Twins.{TwinRun};

    ghost Value = { TwinRun };

    ghost use Rattle.net_simulator.specs.Inside.{twin_run_of, IsTwinSim};

    ghost view = { twin_run_of };

    ghost invariant = { IsTwinSim };
}

/// Begins a cycle: each net has the word of the net that it stands for, and what the triples say is forced.
fn start_beside(
    twins: &Twins,
    own: &[u64],
    forced: &[(NetId, u64, u64)],
    marks: &mut Marks,
    changes: &mut Changes,
    now: &mut [u64],
)
    requires marks { AreMarks (length now.old) marks.old }
    requires room { IsRoom (length now.old) twins.now changes.old }
    requires unlike { length twins.now.unlike.items ≡ length now.old }
    requires forced { All (λ f. f.0.0 < length now.old) forced.now }
    ensures marks { AreMarks (length now.old) marks.new }
    ensures room { IsRoom (length now.new) twins.now changes.new }
    ensures sized { length changes.new.differing.items ≡ length changes.old.differing.items }
    ensures long { length now.new ≡ length now.old }
    ensures forced { (j x : ℕ) → j < 64 → marked marks.new j x ≡ forced_in j forced.now x }
    ensures own { AreOwn twins.now own.now now.new }
    ensures beside { (h : Net) → IsBeside h twins.now marks.new own.now now.new changes.new }
{
    force(marks, forced);
    follow(&twins.origins, own, now);
    begin(twins, forced, changes);
}

/// Gives all nets their values.
fn run_beside(layout: &Layout, given: &Given, marks: &Marks, changes: &mut Changes, now: &mut [u64])
    requires layout { IsLayout layout.now }
    requires ins { length given.now.ins.now ≡ length layout.now.net.now.net.inputs }
    requires marks { AreMarks (net_count layout.now.net.now.net) marks.now }
    requires now { length now.old ≡ net_count layout.now.net.now.net }
    requires room { IsRoom (length now.old) layout.now.twins changes.old }
    ensures room { IsRoom (length now.new) layout.now.twins changes.new }
    ensures sized { length changes.new.differing.items ≡ length changes.old.differing.items }
    ensures long { length now.new ≡ length now.old }
    ensures cycle { (j : ℕ) (n : Net) (own : List ℕ) (forced : ℕ → Option Bool) → j < 64 → AreTwins n layout.now.net.now.net layout.now.twins → AreTablesMet n (bits_of j own) →
        AreOwn layout.now.twins own now.old → IsBeside layout.now.net.now.net layout.now.twins marks.now own now.old changes.old → ((x : ℕ) → marked marks.now j x ≡ forced x) →
        IsCycle layout.now.net.now.net (last_of given.now.started (bits_of j given.now.before.now)) (bits_of j given.now.ins.now) forced (bits_of j now.new) }
    ensures beside { (own : List ℕ) → AreReadersOf layout.now.net.now.net layout.now.twins.readers →
        IsBeside layout.now.net.now.net layout.now.twins marks.now own now.old changes.old → IsBeside layout.now.net.now.net layout.now.twins marks.now own now.new changes.new }
{
    let _inputs = layout.net.input_count();
    set_inputs_beside(given.ins, marks, &layout.twins, changes, now);
    set_registers_beside(
        layout.net,
        &layout.tables.registers,
        given,
        marks,
        &layout.twins,
        changes,
        now,
    );
    set_tables_beside(
        layout.net,
        &layout.tables,
        &layout.truths,
        marks,
        &layout.twins,
        changes,
        now,
    );
}

/// Gives all nets their values, where what the triples say is forced, and `own` are the words of the other design.
fn cycle_beside(
    layout: &Layout,
    given: &Given,
    own: &[u64],
    forced: &[(NetId, u64, u64)],
    marks: &mut Marks,
    changes: &mut Changes,
    now: &mut [u64],
)
    requires layout { IsLayout layout.now }
    requires ins { length given.now.ins.now ≡ length layout.now.net.now.net.inputs }
    requires forced { All (λ f. f.0.0 < net_count layout.now.net.now.net) forced.now }
    requires marks { AreMarks (net_count layout.now.net.now.net) marks.old }
    requires now { length now.old ≡ net_count layout.now.net.now.net }
    requires room { IsRoom (net_count layout.now.net.now.net) layout.now.twins changes.old }
    requires unlike { length layout.now.twins.unlike.items ≡ net_count layout.now.net.now.net }
    ensures marks { AreMarks (net_count layout.now.net.now.net) marks.new }
    ensures room { IsRoom (net_count layout.now.net.now.net) layout.now.twins changes.new }
    ensures sized { length changes.new.differing.items ≡ length changes.old.differing.items }
    ensures long { length now.new ≡ length now.old }
    ensures cycle { (j : ℕ) (n : Net) → j < 64 → AreTwins n layout.now.net.now.net layout.now.twins → AreTablesMet n (bits_of j own.now) →
        IsCycle layout.now.net.now.net (last_of given.now.started (bits_of j given.now.before.now)) (bits_of j given.now.ins.now) (forced_in j forced.now) (bits_of j now.new) }
    ensures alike { AreReadersOf layout.now.net.now.net layout.now.twins.readers → AreWordsBut changes.new.differing.items (map number_of layout.now.twins.origins.items) own.now now.new }
{
    start_beside(&layout.twins, own, forced, marks, changes, now);
    run_beside(layout, given, marks, changes, now);
}

/// What a simulator keeps of its design.
fn layout_of<'a>(
    alloc: Global,
    original: &FlatNet,
    net: &'a FlatNet,
    origins: Vec<NetId>,
) -> Result<Layout<'a>, OutOfMemory>
    requires long { length origins.items ≡ net_count net.now.net }
    requires range { All (λ o. o.0 < net_count original.now.net) origins.items }
    ensures layout { IfOk result (λ l. IsLayout l) }
    ensures net { IfOk result (λ l. l.net.now.net ≡ net.now.net) }
    ensures twins { IfOk result (λ l. AreTwins original.now.net net.now.net l.twins) }
    ensures origins { IfOk result (λ l. l.twins.origins.items ≡ origins.items) }
{
    let tables = tables_of(alloc, net)?;
    let truths = truths_of(alloc, net, &tables)?;
    let twins = twins_of(alloc, original, net, origins)?;
    Ok(Layout {
        net,
        tables,
        truths,
        twins,
    })
}

/// How many nets a design has.
fn nets_of(net: &FlatNet) -> usize
    ensures { result ≡ net_count net.now.net }
{
    net.input_count() as usize + net.node_count() as usize
}

impl<'a> TwinSim<'a> {
    /// Runs of `net` that have not begun, beside runs of `original`: net y of it stands for net `origins[y]` of that one.
    /// All room that steps need is made here, so only this call can want memory.
    pub fn new(
        alloc: Global,
        original: &'a FlatNet,
        net: &'a FlatNet,
        origins: Vec<NetId>,
    ) -> Result<TwinSim<'a>, OutOfMemory>
        requires long { length origins.items ≡ net_count net.now.net }
        requires range { All (λ o. o.0 < net_count original.now.net) origins.items }
        ensures net { IfOk result (λ s. s.net ≡ net.now.net) }
        ensures last { IfOk result (λ s. s.last ≡ None) }
        ensures original { IfOk result (λ s. s.original ≡ original.now.net) }
        ensures origins { IfOk result (λ s. s.origins ≡ map number_of origins.items) }
    {
        let nets = nets_of(net);
        let layout = layout_of(alloc, original, net, origins)?;
        let words = Vec::from_elem(alloc, 0, nets)?;
        let before = Vec::from_elem(alloc, 0, nets)?;
        let marks = no_marks(alloc, nets)?;
        let changes = no_changes(alloc, nets, nets_of(original))?;
        Ok(TwinSim {
            original,
            layout,
            started: false,
            words,
            before,
            marks,
            changes,
        })
    }

    /// Runs the next cycle of all runs, and takes no memory. What is given and what comes out is as of `WideSim::step`.
    ///
    /// `original` has run the same cycle of the other design, and no table of it was forced. The better the two cycles agree,
    /// the less time this takes.
    pub fn step_beside(&mut self, original: &WideSim, ins: &[u64], forced: &[(NetId, u64, u64)])
        requires ins { length ins.now ≡ length self.old.net.inputs }
        requires forced { All (λ f. f.0.0 < net_count self.old.net) forced.now }
        requires original { original.now.net ≡ self.old.original }
        requires met { (j : ℕ) → j < 64 → IsSomeAnd original.now.last (λ own. AreTablesMet original.now.net (bits_of j own)) }
        ensures cycle { (j : ℕ) → j < 64 → IsSomeAnd self.new.last (λ words. IsCycle self.old.net (option_map (bits_of j) self.old.last) (bits_of j ins.now) (forced_in j forced.now) (bits_of j words)) }
        ensures net { self.new.net ≡ self.old.net }
        ensures original { self.new.original ≡ self.old.original }
        ensures origins { self.new.origins ≡ self.old.origins }
        ensures alike { IsSomeAnd original.now.last (λ own. IsSomeAnd self.new.last (λ words. AreWordsBut self.new.differing self.new.origins own words)) }
    {
        mem::swap(&mut self.words, &mut self.before);
        let given = Given {
            started: self.started,
            before: &self.before,
            ins,
        };
        cycle_beside(
            &self.layout,
            &given,
            original.words(),
            forced,
            &mut self.marks,
            &mut self.changes,
            &mut self.words,
        );
        self.started = true;
    }

    /// The word of net x in the last cycle; before the first cycle there is none. It takes no memory.
    pub fn value(&self, x: NetId) -> u64
        requires started { IsSome self.now.last }
        requires range { x.0 < net_count self.now.net }
        ensures { IfSome self.now.last (λ words. result ≡ slice_index words x.0) }
    {
        self.words[x.0 as usize]
    }

    /// Some net that stands for net x of the other design may have another word than that. Where it is false, all have its word.
    pub fn may_differ(&self, x: NetId) -> bool
        requires { x.0 < net_count self.now.original }
        ensures { result ≡ bit self.now.differing x.0 }
    {
        self.changes.differing[x.0 as usize]
    }
}
