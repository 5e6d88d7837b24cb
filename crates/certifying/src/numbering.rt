//! Partitions numbered by their least nodes.
ghost use Rattle.std.specs.Prelude.{◌≡◌, ◌≢◌, ◌<◌, ◌≤◌, length, slice_index, IfOk, OnOk, ◌++◌, ◌∷◌, [], if◌then◌else◌, ◌==◌, ◌+◌};
ghost use Rattle.certifying.specs.Private.Forests.{IsForest};
ghost use Rattle.certifying.specs.Private.Numbers.{AreNumbered};

use std::alloc::Global;
use tmr_base::OutOfMemory;

/// The partition of each original node, and how many there are.
#[derive(Drop)]
pub struct Numbered {
    pub numbers: Vec<u32>,
    pub count: u32,
}

/// The number of the next node, whose parent is this: a new one for a root, and else the parent's.
fn next_number(numbers: &[u32], parent: u32, count: u32) -> u32
    requires { parent ≤ length numbers.now }
    ensures root { parent ≡ length numbers.now → result ≡ count }
    ensures other { parent < length numbers.now → result ≡ slice_index numbers.now parent }
{
    if (parent as usize) < numbers.len() {
        numbers[parent as usize]
    } else {
        count
    }
}

/// How many partitions there are with a node of this number more.
fn next_count(number: u32, count: u32) -> u32
    requires { count < 4294967295 }
    ensures fresh { number ≡ count → result ≡ count + 1 }
    ensures old { number ≢ count → result ≡ count }
{
    if number == count { count + 1 } else { count }
}

/// Numbers the sets of a forest in the order of their roots.
pub fn number_sets(alloc: Global, up: &[u32]) -> Result<Numbered, OutOfMemory>
    requires forest { IsForest up.now }
    requires few { length up.now < 4294967295 }
    ensures long { IfOk result (λ r. length r.numbers.items ≡ length up.now) }
    ensures few { IfOk result (λ r. r.count ≤ length up.now) }
    ensures numbered { IfOk result (λ r. AreNumbered up.now r.numbers.items r.count) }
{
    let mut numbers = Vec::with_capacity(alloc, up.len())?;
    let mut count = 0;
    for i in 0..up.len() {
        let number = next_number(&numbers, up[i], count);
        count = next_count(number, count);
        numbers.push(number)?;
    }
    Ok(Numbered { numbers, count })
}
