//! Registers whose pin reads a voter of the register's own partition.

use crate::design::{Circuit, bit, put_bit};
use crate::loops::loop_groups;
use clustering::numbers::{at, row};
use std::alloc::Global;
use tmr_base::OutOfMemory;

/// The register y would read a voter of its own partition if what it reads stood there. Where it stands there, the loops inside
/// partitions tell it; else those of the whole design do: there the move that brings them together may close a loop.
fn is_fed_back(circuit: &Circuit, of: &[u32], inside: &[u32], y: u32) -> bool {
    for x in row(&circuit.sources, y) {
        let groups = if at(of, *x) == at(of, y) {
            inside
        } else {
            circuit.whole.as_slice()
        };
        if at(groups, *x) == at(groups, y) {
            return true;
        }
    }
    false
}

/// Whether each node is such a register.
pub fn fed_back(alloc: Global, circuit: &Circuit, of: &[u32]) -> Result<Vec<bool>, OutOfMemory> {
    let inside = loop_groups(
        alloc,
        &circuit.sources,
        of,
        circuit.whole.as_slice(),
        circuit.alone.as_slice(),
    )?;
    let mut fed = vec![in alloc; false; circuit.registers.len()]?;
    for y in &circuit.ends {
        if bit(circuit.registers.as_slice(), *y)
            && is_fed_back(circuit, of, inside.as_slice(), *y)
        {
            put_bit(&mut fed, *y, true);
        }
    }
    Ok(fed)
}
