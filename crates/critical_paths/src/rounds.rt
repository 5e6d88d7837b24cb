//! Rounds, each over one worst path.

use crate::design::Circuit;
use crate::effort::effort_for;
use crate::feedback::fed_back;
use crate::levels::{Levels, compute_all, weigh_ends};
use crate::placing::{Pairs, Placing};
use crate::room::{begin_round, no_rooms};
use crate::trials::{Search, make_best};
use crate::worst_path::{Path, follow_worst};
use clustering::numbers::{count, raise};
use std::alloc::Global;
use std::collections::BinaryHeap;
use tmr_base::OutOfMemory;

/// How many nodes each of so many partitions holds.
fn held_in(alloc: Global, of: &[u32], parts: u32) -> Result<Vec<u32>, OutOfMemory> {
    let mut held = vec![in alloc; 0u32; parts as usize]?;
    for p in of {
        raise(&mut held, *p, 1);
    }
    Ok(held)
}

/// Where the nodes stand at first.
fn first_placing(
    alloc: Global,
    of: Vec<u32>,
    parts: u32,
    room: u32,
) -> Result<Placing, OutOfMemory> {
    let held = held_in(alloc, of.as_slice(), parts)?;
    Ok(Placing {
        of,
        held,
        room,
        moves: Vec::new(alloc),
        pairs: Pairs { more: 0, fewer: 0 },
    })
}

/// No levels of so many nodes are known yet.
fn no_levels(alloc: Global, nodes: u32) -> Result<Levels, OutOfMemory> {
    Ok(Levels {
        of: vec![in alloc; 0u32; nodes as usize]?,
        given: vec![in alloc; 0u32; nodes as usize]?,
        fed: Vec::new(alloc),
        worst: 0,
        worst_ends: 0,
        weight: 0,
        changes: Vec::new(alloc),
        waiting: BinaryHeap::new(alloc),
        computed: 0,
        spent: 0,
    })
}

/// A search that begins where the nodes stand.
fn begun(
    alloc: Global,
    nodes: u32,
    of: Vec<u32>,
    parts: u32,
    size: u32,
) -> Result<Search, OutOfMemory> {
    let room = size.saturating_add(size / 4);
    Ok(Search {
        placing: first_placing(alloc, of, parts, room)?,
        levels: no_levels(alloc, nodes)?,
        path: Path {
            nodes: Vec::new(alloc),
            on: vec![in alloc; false; nodes as usize]?,
            random: 1,
        },
        rooms: no_rooms(alloc, nodes, parts)?,
        effort: effort_for(nodes),
    })
}

/// Finds out which registers are fed back, and computes all levels.
fn begin_spell(alloc: Global, circuit: &Circuit, s: &mut Search) -> Result<(), OutOfMemory> {
    let of = s.placing.of.as_slice();
    s.levels.fed = fed_back(alloc, circuit, of)?;
    compute_all(circuit, &mut s.levels, of);
    Ok(())
}

/// One round: the best trial at a worst path is made, if one is worth it. Says whether it was. Where nothing moved since the round before, the
/// ends weigh what they did.
fn round(circuit: &Circuit, s: &mut Search, moved: bool) -> Result<bool, OutOfMemory> {
    if moved {
        weigh_ends(circuit, &mut s.levels);
    }
    s.levels.spent = 0;
    follow_worst(circuit, &s.levels, s.placing.of.as_slice(), &mut s.path)?;
    begin_round(&mut s.rooms, moved);
    make_best(circuit, s)
}

/// The rounds of one spell. Says whether one of them made a trial.
fn spell(alloc: Global, circuit: &Circuit, s: &mut Search) -> Result<bool, OutOfMemory> {
    begin_spell(alloc, circuit, s)?;
    let mut made = false;
    let mut idle: u32 = 0;
    for _turn in 0..s.effort.rounds {
        if idle >= s.effort.idle {
            return Ok(made);
        }
        if round(circuit, s, idle == 0)? {
            made = true;
            idle = 0;
        } else {
            idle = idle.saturating_add(1);
        }
    }
    Ok(made)
}

/// The partition of each node after all rounds, from the one of each of so many at first. They end when a spell made no trial.
pub fn searched(
    alloc: Global,
    circuit: &Circuit,
    of: Vec<u32>,
    parts: u32,
    size: u32,
) -> Result<Vec<u32>, OutOfMemory> {
    let mut s = begun(alloc, count(of.as_slice()), of, parts, size)?;
    for _turn in 0..s.effort.spells {
        if !spell(alloc, circuit, &mut s)? {
            break;
        }
    }
    let Search { placing, .. } = s;
    let Placing { of, .. } = placing;
    Ok(of)
}
