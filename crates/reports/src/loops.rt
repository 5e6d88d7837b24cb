//! Components with a loop, each told by the first of its nodes.
ghost use Rattle.std.specs.Prelude.{◌≡◌, ◌&&◌, ◌<◌, ℕ, not, length, map, IfOk};
ghost use Rattle.std.specs.List.{range_with_len};
ghost use Rattle.feedback_cut.specs.Components.{component_of};
ghost use Rattle.reports.specs.Private.Left.{heads_loop};

use feedback_cut::LoopGroups;
use std::alloc::Global;
use tmr_base::OutOfMemory;

/// A component with a loop, of which no node was seen yet.
fn is_new_loop(has_loop: bool, seen: bool) -> bool
    ensures { result ≡ (has_loop && not seen) }
{
    has_loop && !seen
}

/// For each of so many nodes, whether its component has a loop and it is the first node there.
pub fn loop_heads(alloc: Global, groups: &LoopGroups, count: u32) -> Result<Vec<bool>, OutOfMemory>
    requires count { length groups.now.of ≡ count }
    requires below { (x : ℕ) → x < count → component_of groups.now x < length groups.now.loops }
    ensures { IfOk result (λ heads. heads.items ≡ map (heads_loop groups.now) (range_with_len 0 count)) }
{
    let mut seen = vec![in alloc; false; groups.count() as usize]?;
    let mut heads = Vec::new(alloc);
    for x in 0..count {
        let k = groups.of(x);
        let head = is_new_loop(groups.has_loop(k), seen[k as usize]);
        heads.push(head)?;
        seen[k as usize] = true;
    }
    Ok(heads)
}
