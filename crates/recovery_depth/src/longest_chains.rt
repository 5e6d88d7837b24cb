//! Where the longest chain of each partition ends, and the chains.
ghost use Rattle.std.specs.Prelude.{◌≡◌, ◌<◌, ℕ, length, map, slice_index, slice_index_or, IfOk};
ghost use Rattle.flat_net.specs.Nodes.{number_of};
ghost use Rattle.recovery_depth.specs.Private.LastRegisters.{number_at};
ghost use Rattle.recovery_depth.specs.Private.ChainEnds.{AreChainEnds, AreRead, walked};

use crate::depth_and_chain::Deep;
use crate::last_registers::{LastRegisters, considered};
use crate::reaching::reach_at;
use std::alloc::Global;
use tmr_base::{NetId, OutOfMemory, Parts};

/// For each partition the register that ranks first of those in which a walk with the most registers ends.
pub fn chain_ends(
    alloc: Global,
    places: &Parts,
    depths: &[u32],
    last: &LastRegisters<'_>,
) -> Result<Vec<u32>, OutOfMemory>
    ensures { IfOk result (λ ends. AreChainEnds places.now last.now.reaches.now depths.now last.now.is_register.now last.now.before.now last.now.none (length places.now.of) ends.items) }
{
    let mut ends = vec![in alloc; last.none; places.count() as usize]?;
    for g in 0..places.len() {
        let p = places.of(g);
        let target = reach_at(depths, p);
        let best = reach_at(ends.as_slice(), p);
        ends[p as usize] = considered(last, target, best, g);
    }
    Ok(ends)
}

/// The originals of so many registers that end in `top`, first to last.
fn chain_of(
    alloc: Global,
    before: &[u32],
    originals: &[u32],
    top: u32,
    depth: u32,
) -> Result<Vec<NetId>, OutOfMemory>
    ensures { IfOk result (λ chain. map number_of chain.items ≡ map (number_at originals.now) (walked before.now depth top)) }
{
    let mut chain = Vec::new(alloc);
    let mut register = top;
    for step in 0..depth {
        let _step = step;
        chain.push(NetId(reach_at(originals, register)))?;
        register = reach_at(before, register);
    }
    chain.reverse();
    Ok(chain)
}

/// For each partition its depth with a chain.
pub fn depths_and_chains(
    alloc: Global,
    before: &[u32],
    originals: &[u32],
    ends: &[u32],
    depths: &[u32],
    parts: u32,
) -> Result<Vec<Deep>, OutOfMemory>
    ensures long { IfOk result (λ deeps. length deeps.items ≡ parts) }
    ensures read { IfOk result (λ deeps. AreRead before.now originals.now ends.now depths.now deeps.items) }
{
    let mut deeps = Vec::new(alloc);
    for p in 0..parts {
        let depth = reach_at(depths, p);
        let chain = chain_of(alloc, before, originals, reach_at(ends, p), depth)?;
        deeps.push(Deep { depth, chain })?;
    }
    Ok(deeps)
}
