//! A set of numbers for each number below a bound, of which few have any in it.
ghost use Rattle.std.specs.Prelude.{◌≡◌, ◌<◌, ◌∷◌, [], ℕ, true, length, slice_index_or, IfOk, OnOk};
ghost use Rattle.std.specs.List.{list_any};
ghost use Rattle.std.specs.Ordering.{is_eq, nat_cmp};
ghost use Rattle.partitioner.specs.Private.Places.{ArePlaced, placed_rows};
ghost use Rattle.partitioner.specs.Private.Sets.{has, lists_of};

use crate::counts::places::{next_place, no_places, place_of};
use std::alloc::Global;
use std::collections::BTreeSet;
use std::marker::Model;
use tmr_base::OutOfMemory;

/// Sets of numbers, which are walked in ascending order. A number gets a set of its own with the first that is put in it. All others share
/// the first set, which stays empty.
#[derive(Drop)]
pub struct Sets {
    alloc: Global,
    places: Vec<u32>,
    sets: Vec<BTreeSet<u32>>,
}

impl Model for Sets {
    ghost use Rattle.std.specs.Prelude.{ℕ, List};
    ghost use Rattle.partitioner.specs.Private.Places.{ArePlaced, placed_rows};
    ghost use Rattle.partitioner.specs.Private.Sets.{lists_of};

    ghost Value = { List (List ℕ) };

    ghost view = { λ s. placed_rows s.places.items (lists_of s.sets.items) };

    ghost invariant = { λ s. ArePlaced s.places.items (lists_of s.sets.items) };
}

/// The empty set that numbers without one of their own share.
fn no_sets(alloc: Global) -> Result<Vec<BTreeSet<u32>>, OutOfMemory>
    ensures { IfOk result (λ sets. lists_of sets.items ≡ [] ∷ []) }
{
    let mut sets = Vec::new(alloc);
    sets.push(BTreeSet::new(alloc))?;
    Ok(sets)
}

/// A set of q alone.
fn set_of_one(alloc: Global, q: u32) -> Result<BTreeSet<u32>, OutOfMemory>
    ensures { IfOk result (λ set. list_any (λ k. is_eq (nat_cmp q k)) set.keys ≡ true) }
{
    let mut set = BTreeSet::new(alloc);
    set.insert(q)?;
    Ok(set)
}

/// The set of x.
fn set_of<'a>(places: &[u32], sets: &'a [BTreeSet<u32>], x: u32) -> &'a BTreeSet<u32>
    requires placed { ArePlaced places.now (lists_of sets.now) }
    requires number { x < length places.now }
    ensures { result.now.keys ≡ slice_index_or (placed_rows places.now (lists_of sets.now)) x [] }
{
    &sets[place_of(places, x)]
}

impl Sets {
    /// As many sets, which are empty.
    pub fn empty(alloc: Global, count: u32) -> Result<Sets, OutOfMemory>
        ensures { IfOk result (λ sets. length sets ≡ count) }
    {
        let places = no_places(alloc, count)?;
        let sets = no_sets(alloc)?;
        Ok(Sets {
            alloc,
            places,
            sets,
        })
    }

    /// The set of x.
    pub fn set(&self, x: u32) -> &BTreeSet<u32>
        requires { x < length self.now }
        ensures { result.now.keys ≡ slice_index_or self.now x [] }
    {
        set_of(&self.places, &self.sets, x)
    }

    /// Adds q to the set of x.
    pub fn insert(&mut self, x: u32, q: u32) -> Result<(), OutOfMemory>
        requires { x < length self.old }
        ensures long { OnOk result (length self.new ≡ length self.old) }
        ensures kept { OnOk result ((z r : ℕ) → has self.old z r ≡ true → has self.new z r ≡ true) }
        ensures added { OnOk result (has self.new x q ≡ true) }
    {
        let place = place_of(&self.places, x);
        if place > 0 {
            self.sets[place].insert(q)?;
            return Ok(());
        }
        let next = next_place(self.sets.len())?;
        let set = set_of_one(self.alloc, q)?;
        self.sets.push(set)?;
        self.places[x as usize] = next;
        Ok(())
    }

    /// Takes q out of the set of x.
    pub fn remove(&mut self, x: u32, q: u32)
        requires { x < length self.old }
        ensures long { length self.new ≡ length self.old }
        ensures kept { (z r : ℕ) → (q ≡ r → ⊥) → has self.old z r ≡ true → has self.new z r ≡ true }
        ensures others { (z r : ℕ) → (z ≡ x → ⊥) → has self.old z r ≡ true → has self.new z r ≡ true }
    {
        let place = place_of(&self.places, x);
        if place > 0 {
            let _was = self.sets[place].remove(&q);
        }
    }
}
