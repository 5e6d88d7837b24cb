//! What is answered, as text.

use flat_net::FlatNet;
use schedule_replay::{Difference, Outcome};
use schedules::{Schedule, ScheduleFault};
use std::alloc::{AllocError, Global};

/// 0 or 1.
fn digit(bit: bool) -> char {
    if bit { '1' } else { '0' }
}

/// The bytes of an output's name.
fn output_name(n: &FlatNet, k: u32) -> &[u8] {
    if k < n.output_count() {
        n.name(n.output(k)).bytes()
    } else {
        b"?"
    }
}

fn put_difference(text: &mut String, n: &FlatNet, d: &Difference) -> Result<(), AllocError> {
    write!(text, "differ {} ", d.cycle)?;
    for b in output_name(n, d.output) {
        text.push(char::from(*b))?;
    }
    let [a, b, c] = d.copies;
    write!(
        text,
        " {} {} {} {} / ",
        digit(d.original),
        digit(a),
        digit(b),
        digit(c)
    )
}

fn yes_or_no(is: bool) -> &'static str {
    if is { "yes" } else { "no" }
}

/// Adds the differences and the six lines of a replay.
pub fn put_replay(
    text: &mut String,
    n: &FlatNet,
    s: &Schedule,
    o: &Outcome,
) -> Result<(), AllocError> {
    for d in o.first.as_slice() {
        put_difference(text, n, d)?;
    }
    write!(
        text,
        "cycles {} / upsets {} / ",
        s.cycles(),
        s.upset_count()
    )?;
    write!(
        text,
        "allowed {} / differences {} / ",
        yes_or_no(o.allowed),
        o.differences
    )?;
    write!(text, "wrong {} / late {}", o.wrong, o.late)
}

/// The fault by its name.
pub fn fault_text(alloc: Global, fault: ScheduleFault) -> Result<String, AllocError> {
    format!(in alloc; "{fault:?}")
}
