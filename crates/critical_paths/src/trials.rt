//! Trials: a run of nodes of the path goes over a border next to it.

use crate::design::Circuit;
use crate::effort::Effort;
use crate::levels::{Levels, follow, forget, take_back, wait_for};
use crate::placing::{Pairs, Placing, move_back, move_node, settle};
use crate::room::{MOST_LEAVING, Rooms, find_leavers, make_room};
use crate::worst_path::Path;
use clustering::numbers::{at, count};
use tmr_base::OutOfMemory;

/// At most so many nodes of the path go over a border in one trial.
const LONGEST_RUN: u32 = 8;

/// To look for a node's place takes the time of so many levels.
const SEEN_WORK: u32 = 8;

/// The nodes of the path from `first` on, so many, go to partition `to`.
#[derive(Clone, Copy, Drop)]
pub struct Run {
    pub first: u32,
    pub count: u32,
    pub to: u32,
}

/// The best trial so far, and its worth.
#[derive(Clone, Copy, Drop)]
struct Best {
    run: Run,
    worth: u64,
}

/// All that a trial changes, and how long the search goes on.
#[derive(Drop)]
pub struct Search {
    pub effort: Effort,
    pub placing: Placing,
    pub levels: Levels,
    pub path: Path,
    pub rooms: Rooms,
}

/// What a trial is worth that brings the weight of the ends from `before` to `after` and these pairs: 3 % of the nodes is the price in
/// pairs of the whole weight. 0 if it is not worth its pairs.
fn worth(nodes: u32, before: u64, after: u64, pairs: Pairs) -> u64 {
    let gained = before.saturating_sub(after);
    if gained == 0 {
        return 0;
    }
    let paid = u64::from(pairs.fewer)
        .saturating_mul(100)
        .saturating_mul(before);
    let owed = u64::from(pairs.more)
        .saturating_mul(100)
        .saturating_mul(before);
    gained
        .saturating_mul(3)
        .saturating_mul(u64::from(nodes))
        .saturating_add(paid)
        .saturating_sub(owed)
}

/// Moves the nodes of a run, and others that make room for them. Says whether there is room, and the levels were computed in time.
fn move_run(circuit: &Circuit, s: &mut Search, run: Run) -> Result<bool, OutOfMemory> {
    let together = at(s.placing.held.as_slice(), run.to).saturating_add(run.count);
    let needed = together.saturating_sub(s.placing.room);
    if needed > MOST_LEAVING {
        return Ok(false);
    }
    if needed > 0 {
        let seen = find_leavers(circuit, &s.placing, &s.path, &mut s.rooms, run.to)?;
        s.levels.spent = s
            .levels
            .spent
            .saturating_add(seen.saturating_mul(SEEN_WORK));
        make_room(
            circuit,
            &mut s.placing,
            &mut s.levels,
            &s.rooms,
            run.to,
            needed,
        )?;
    }
    for k in 0..run.count {
        let v = at(s.path.nodes.as_slice(), run.first.saturating_add(k));
        move_node(circuit, &mut s.placing, v, run.to)?;
        wait_for(circuit, &mut s.levels, v)?;
    }
    if at(s.placing.held.as_slice(), run.to) > s.placing.room {
        return Ok(false);
    }
    follow(circuit, &mut s.levels, s.placing.of.as_slice())
}

/// Makes a trial and takes it back. Gives its worth.
fn try_run(circuit: &Circuit, s: &mut Search, run: Run) -> Result<u64, OutOfMemory> {
    let before = s.levels.weight;
    let mut worth_of = 0;
    if move_run(circuit, s, run)? {
        let nodes = count(s.placing.of.as_slice());
        worth_of = worth(nodes, before, s.levels.weight, s.placing.pairs);
    }
    take_back(circuit, &mut s.levels, before);
    move_back(&mut s.placing);
    Ok(worth_of)
}

/// The better of the best trial so far and this one.
fn better_run(
    circuit: &Circuit,
    s: &mut Search,
    best: Best,
    run: Run,
) -> Result<Best, OutOfMemory> {
    if s.levels.spent > s.effort.levels {
        return Ok(best);
    }
    let worth = try_run(circuit, s, run)?;
    if worth > best.worth {
        Ok(Best { run, worth })
    } else {
        Ok(best)
    }
}

/// Node k of the path stands in partition p.
fn stands_in(s: &Search, k: u32, p: u32) -> bool {
    k < count(s.path.nodes.as_slice())
        && at(s.placing.of.as_slice(), at(s.path.nodes.as_slice(), k)) == p
}

/// Tries the runs that begin behind the border before node k of the path, and go over it.
fn try_behind(
    circuit: &Circuit,
    s: &mut Search,
    best: Best,
    k: u32,
    own: u32,
    to: u32,
) -> Result<Best, OutOfMemory> {
    let mut best = best;
    for more in 0..LONGEST_RUN {
        if !stands_in(s, k.saturating_add(more), own) {
            return Ok(best);
        }
        let run = Run {
            first: k,
            count: more.saturating_add(1),
            to,
        };
        best = better_run(circuit, s, best, run)?;
    }
    Ok(best)
}

/// Tries the runs that end before node k of the path, and go over the border there.
fn try_before(
    circuit: &Circuit,
    s: &mut Search,
    best: Best,
    k: u32,
    own: u32,
    to: u32,
) -> Result<Best, OutOfMemory> {
    let mut best = best;
    for more in 1..LONGEST_RUN + 1 {
        if more > k || !stands_in(s, k.saturating_sub(more), own) {
            return Ok(best);
        }
        let run = Run {
            first: k.saturating_sub(more),
            count: more,
            to,
        };
        best = better_run(circuit, s, best, run)?;
    }
    Ok(best)
}

/// The best trial at the borders of the path.
fn best_run(circuit: &Circuit, s: &mut Search) -> Result<Best, OutOfMemory> {
    let none = Run {
        first: 0,
        count: 0,
        to: 0,
    };
    let mut best = Best {
        run: none,
        worth: 0,
    };
    for k in 1..count(s.path.nodes.as_slice()) {
        let before = at(
            s.placing.of.as_slice(),
            at(s.path.nodes.as_slice(), k.saturating_sub(1)),
        );
        let behind = at(s.placing.of.as_slice(), at(s.path.nodes.as_slice(), k));
        if before != behind {
            best = try_before(circuit, s, best, k, before, behind)?;
            best = try_behind(circuit, s, best, k, behind, before)?;
        }
    }
    Ok(best)
}

/// Makes the best trial at the borders of the path, if one is worth its pairs. Says whether it did.
pub fn make_best(circuit: &Circuit, s: &mut Search) -> Result<bool, OutOfMemory> {
    let best = best_run(circuit, s)?;
    if best.worth == 0 {
        return Ok(false);
    }
    move_run(circuit, s, best.run)?;
    forget(&mut s.levels);
    settle(&mut s.placing);
    Ok(true)
}
