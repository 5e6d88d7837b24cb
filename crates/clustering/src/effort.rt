//! How much work a design is worth.
ghost use Rattle.std.specs.Prelude.{◌≡◌, ◌*◌, ◌^◌, ◌&&◌, nat_lt, nat_le, if◌then◌else◌};

/// A design of more nodes is large. It gets less work for each node: docs/DECISIONS.md says why, and what that costs.
const MOST_NODES: u32 = 16_384;

/// A design of so many nodes is large.
pub fn is_large(nodes: u32) -> bool
    ensures { result ≡ nat_lt 16384 nodes }
{
    nodes > MOST_NODES
}

/// How many nodes a group of a level holds at most, whatever the size of partitions, where the lowest level is level 0. In a large design that
/// is eight times as many on each level: so a level is the same for all sizes that allow so many, and is made once for them.
pub fn most_on_level(nodes: u32, level: usize) -> u32
    ensures { result ≡ (if nat_lt 16384 nodes && nat_le level 10 then 2 ^ (3 * level) else 4294967295) }
{
    if is_large(nodes) && level <= 10 {
        1u32 << (3 * level as u32)
    } else {
        u32::MAX
    }
}

/// How many passes of moves the groups of each level get in a design of so many nodes. More than two bring next to nothing, since the levels
/// below move on.
pub fn passes_for(nodes: u32) -> u32
    ensures { result ≡ (if nat_lt 16384 nodes then 1 else 2) }
{
    if is_large(nodes) { 1 } else { 2 }
}
