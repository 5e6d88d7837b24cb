//! The printed lines.
ghost use Rattle.std.specs.Prelude.{◌≡◌, ◌+◌, ◌≤◌, ◌<◌, ◌∷◌, [], ◌++◌, codes, length, max, IfOk, OnOk};
ghost use Rattle.std.specs.Fmt.{decimal};
ghost use Rattle.tmr_words.specs.FileWords.{read_words as read_pieces};
ghost use Rattle.tmr_texts.specs.Texts.{joined, greatest, open_word, accepted_line, place_text, not_accepted_line, refused_line, load_fault_line, save_fault_line, counted_text, flattened_line, guard_line, aag_line, graph_line, guarded_line, not_guarded_line, line_reason, calls, large_line, usage_text, memory_text, certificate_too_long};
ghost use Rattle.tmr_words.specs.Topics.{call_of};
ghost use Rattle.flat_net.specs.Net.{Net, net_count};
ghost use Rattle.validator.specs.Place.{IsPlace};

use aag_design::Counts;
use certificate::Certificate;
use flat_net::FlatNet;
use std::alloc::Global;
use tmr_base::{NetId, OutOfMemory, PartId};
use tmr_words::{Topic, call_of, commands};
use validator::Refusal;

/// What is put where there was no memory.
#[tactic(auto, unfolding(crate::specs::Texts::memory_text))]
pub fn want_of_memory() -> &'static str
    ensures { result.now ≡ memory_text }
{
    "want of memory\n"
}

/// The pieces, one behind the other.
#[tactic(auto, using(crate::proofs::TextLaws::pieces))]
pub fn join(alloc: Global, pieces: &[&[u8]]) -> Result<Vec<u8>, OutOfMemory>
    ensures { IfOk result (λ text. text.items ≡ joined (read_pieces pieces.now)) }
{
    let mut text = Vec::new(alloc);
    for piece in pieces {
        text.extend_from_slice(piece)?;
    }
    Ok(text)
}

/// Puts how a command is called behind a text.
fn put_call(text: &mut Vec<u8>, head: &[u8], command: Topic) -> Result<(), OutOfMemory>
    ensures { OnOk result (text.new.items ≡ text.old.items ++ (head.now ++ (call_of command ++ codes "\n"))) }
{
    text.extend_from_slice(head)?;
    text.extend_from_slice(call_of(command).as_bytes())?;
    text.extend_from_slice(b"\n".as_slice())?;
    Ok(())
}

/// How each command is called: a line for each.
#[tactic(auto, using(crate::proofs::TextLaws::calls))]
fn call_lines(alloc: Global) -> Result<Vec<u8>, OutOfMemory>
    ensures { IfOk result (λ text. text.items ≡ calls) }
{
    let mut text = Vec::new(alloc);
    let mut head = b"usage: tmr ".as_slice();
    let all = commands();
    for i in 0..all.len() {
        put_call(&mut text, head, all[i])?;
        head = b"       tmr ".as_slice();
    }
    Ok(text)
}

/// The line of the option that each command has which reads a design.
fn large_line() -> &'static str
    ensures { result.now ≡ large_line }
{
    "       --large, with each command that reads ORIG or AAG: files may be 16 times as large\n"
}

/// How the program is called: a line for each command, and one for the option that most of them have.
#[tactic(auto, unfolding(crate::specs::Texts::usage_text))]
pub fn usage(alloc: Global) -> Result<Vec<u8>, OutOfMemory>
    ensures { IfOk result (λ text. text.items ≡ usage_text) }
{
    let mut text = call_lines(alloc)?;
    text.extend_from_slice(large_line().as_bytes())?;
    Ok(text)
}

/// A certificate is found, and its text is too long.
#[tactic(auto, unfolding(crate::specs::Texts::certificate_too_long))]
pub fn certificate_too_long(alloc: Global) -> Result<Vec<u8>, OutOfMemory>
    ensures { IfOk result (λ text. text.items ≡ certificate_too_long) }
{
    join(alloc, &[b"no certificate: too long\n".as_slice()])
}

/// The greatest certified depth, or 0 where there is no partition.
#[tactic(auto, using(crate::proofs::TextLaws::numbers))]
pub fn greatest_depth(c: &Certificate) -> u32
    ensures { result ≡ greatest c.now.depth }
{
    let mut most = 0;
    for p in 0..c.parts() {
        most = most.max(c.depth(PartId(p)));
    }
    most
}

/// The greatest of these depths, or 0 where there is none.
#[tactic(auto, using(crate::proofs::TextLaws::numbers))]
pub fn greatest_of(depths: &[u32]) -> u32
    ensures { result ≡ greatest depths.now }
{
    let mut most = 0;
    for p in 0..depths.len() {
        most = most.max(depths[p]);
    }
    most
}

/// What is said of open initial values by certificates of this version.
pub fn open_word(version: u8) -> &'static [u8]
    ensures { result.now ≡ open_word version }
{
    if version == 1 {
        b"assumed ".as_slice()
    } else {
        b"free ".as_slice()
    }
}

/// The line of an accepted pair, which has so many open initial values.
#[tactic(auto, unfolding(crate::specs::Texts::accepted_line))]
pub fn accepted(
    alloc: Global,
    c: &Certificate,
    count: u32,
    hardened_count: u32,
) -> Result<Vec<u8>, OutOfMemory>
    ensures { IfOk result (λ text. text.items ≡ accepted_line c.now count hardened_count) }
{
    let parts = c.parts().to_string(alloc)?;
    let depth = greatest_depth(c).to_string(alloc)?;
    let first = count.to_string(alloc)?;
    let second = hardened_count.to_string(alloc)?;
    join(
        alloc,
        &[
            b"accepted partitions ".as_slice(),
            parts.as_bytes(),
            b" depth ".as_slice(),
            depth.as_bytes(),
            b" ".as_slice(),
            open_word(c.version()),
            first.as_bytes(),
            b" ".as_slice(),
            second.as_bytes(),
            b"\n".as_slice(),
        ],
    )
}

/// Where a rule fails.
#[tactic(auto, unfolding(crate::specs::Texts::place_text))]
fn place(alloc: Global, h: &FlatNet, refusal: Refusal) -> Result<Vec<u8>, OutOfMemory>
    requires { IsPlace h.now.net refusal.rule refusal.at }
    ensures { IfOk result (λ text. text.items ≡ place_text h.now.net refusal.rule refusal.at) }
{
    if refusal.rule == 1 {
        return join(alloc, &[b"inputs".as_slice()]);
    }
    if refusal.rule == 2 {
        return join(alloc, &[b"clock".as_slice()]);
    }
    if refusal.rule == 8 {
        let at = refusal.at.to_string(alloc)?;
        return join(alloc, &[b"output ".as_slice(), at.as_bytes()]);
    }
    join(
        alloc,
        &[h.name(NetId(h.input_count() + refusal.at)).bytes()],
    )
}

/// The line of a pair that breaks a rule.
#[tactic(auto, unfolding(crate::specs::Texts::not_accepted_line))]
pub fn not_accepted(alloc: Global, h: &FlatNet, refusal: Refusal) -> Result<Vec<u8>, OutOfMemory>
    requires { IsPlace h.now.net refusal.rule refusal.at }
    ensures { IfOk result (λ text. text.items ≡ not_accepted_line h.now.net refusal.rule refusal.at) }
{
    let rule = refusal.rule.to_string(alloc)?;
    let place = place(alloc, h, refusal)?;
    join(
        alloc,
        &[
            b"not accepted: rule ".as_slice(),
            rule.as_bytes(),
            b" at ".as_slice(),
            place.as_slice(),
            b"\n".as_slice(),
        ],
    )
}

/// The line of a file that is refused.
#[tactic(auto, unfolding(crate::specs::Texts::refused_line))]
pub fn refused(alloc: Global, file: &str, reason: &[u8]) -> Result<Vec<u8>, OutOfMemory>
    ensures { IfOk result (λ text. text.items ≡ refused_line file.now reason.now) }
{
    join(
        alloc,
        &[
            b"refused ".as_slice(),
            file.as_bytes(),
            b": ".as_slice(),
            reason,
            b"\n".as_slice(),
        ],
    )
}

/// The line of a file whose load failed.
#[tactic(auto, unfolding(crate::specs::Texts::load_fault_line))]
pub fn load_fault(alloc: Global, file: &str) -> Result<Vec<u8>, OutOfMemory>
    ensures { IfOk result (λ text. text.items ≡ load_fault_line file.now) }
{
    join(
        alloc,
        &[
            b"fault: load ".as_slice(),
            file.as_bytes(),
            b"\n".as_slice(),
        ],
    )
}

/// The line of a file whose save failed.
#[tactic(auto, unfolding(crate::specs::Texts::save_fault_line))]
pub fn save_fault(alloc: Global, file: &str) -> Result<Vec<u8>, OutOfMemory>
    ensures { IfOk result (λ text. text.items ≡ save_fault_line file.now) }
{
    join(
        alloc,
        &[
            b"fault: save ".as_slice(),
            file.as_bytes(),
            b"\n".as_slice(),
        ],
    )
}

/// What is counted, and how often it is there.
pub fn counted(alloc: Global, what: &[u8], count: u64) -> Result<Vec<u8>, OutOfMemory>
    ensures { IfOk result (λ text. text.items ≡ counted_text what.now count) }
{
    let digits = count.to_string(alloc)?;
    let mut text = what.to_vec(alloc)?;
    text.extend_from_slice(digits.as_bytes())?;
    Ok(text)
}

/// The line of a design that is flattened.
#[tactic(auto, unfolding(crate::specs::Texts::flattened_line))]
pub fn flattened(alloc: Global, net: &FlatNet, assumed: u32) -> Result<Vec<u8>, OutOfMemory>
    ensures { IfOk result (λ text. text.items ≡ flattened_line net.now.net assumed) }
{
    let inputs = counted(alloc, b"flat inputs ", net.input_count() as u64)?;
    let outputs = counted(alloc, b" outputs ", net.output_count() as u64)?;
    let nodes = counted(alloc, b" nodes ", net.node_count() as u64)?;
    let registers = counted(alloc, b" registers ", net.register_count() as u64)?;
    let open_values = counted(alloc, b" assumed ", assumed as u64)?;
    join(
        alloc,
        &[
            inputs.as_slice(),
            outputs.as_slice(),
            nodes.as_slice(),
            registers.as_slice(),
            open_values.as_slice(),
            b"\n".as_slice(),
        ],
    )
}

/// What is wrong in a line of a file.
#[tactic(auto, unfolding(crate::specs::Texts::line_reason))]
pub fn at_line(alloc: Global, line: u64, kind: &str) -> Result<Vec<u8>, OutOfMemory>
    ensures { IfOk result (λ text. text.items ≡ line_reason line kind.now) }
{
    let number = line.to_string(alloc)?;
    join(
        alloc,
        &[
            b"line ".as_slice(),
            number.as_bytes(),
            b": ".as_slice(),
            kind.as_bytes(),
        ],
    )
}

/// The line of a design that is guarded, whose guarded design has so many nodes.
#[tactic(auto, unfolding(crate::specs::Texts::guard_line))]
pub fn guard_made(
    alloc: Global,
    net: &FlatNet,
    guarded_nodes: u32,
    assumed: u32,
) -> Result<Vec<u8>, OutOfMemory>
    ensures { IfOk result (λ text. (guarded : Net) → length guarded.nodes ≡ guarded_nodes → text.items ≡ guard_line net.now.net guarded assumed) }
{
    let nodes = counted(alloc, b"guard nodes ", net.node_count() as u64)?;
    let guarded_nodes = counted(alloc, b" to ", guarded_nodes as u64)?;
    let outputs = counted(alloc, b" outputs ", net.output_count() as u64)?;
    let open_values = counted(alloc, b" assumed ", assumed as u64)?;
    join(
        alloc,
        &[
            nodes.as_slice(),
            guarded_nodes.as_slice(),
            outputs.as_slice(),
            open_values.as_slice(),
            b"\n".as_slice(),
        ],
    )
}

/// The line of a guarded design that is one.
#[tactic(auto, unfolding(crate::specs::Texts::guarded_line))]
pub fn guard_found(alloc: Global) -> Result<Vec<u8>, OutOfMemory>
    ensures { IfOk result (λ text. text.items ≡ guarded_line) }
{
    Ok(b"guarded\n".to_vec(alloc)?)
}

/// The line of a design that is no guarded one.
#[tactic(auto, unfolding(crate::specs::Texts::not_guarded_line))]
pub fn guard_not_found(alloc: Global, rule: u8, at: u32) -> Result<Vec<u8>, OutOfMemory>
    ensures { IfOk result (λ text. text.items ≡ not_guarded_line rule at) }
{
    let rule = counted(alloc, b"not guarded: rule ", rule as u64)?;
    let place = counted(alloc, b" at ", at as u64)?;
    join(
        alloc,
        &[rule.as_slice(), place.as_slice(), b"\n".as_slice()],
    )
}

/// The line of an AIGER file.
#[tactic(auto, unfolding(crate::specs::Texts::aag_line))]
pub fn graph_told(alloc: Global, counts: &Counts) -> Result<Vec<u8>, OutOfMemory>
    ensures { IfOk result (λ text. text.items ≡ aag_line counts.now) }
{
    let inputs = counted(alloc, b"aag inputs ", counts.inputs)?;
    let outputs = counted(alloc, b" outputs ", counts.outputs)?;
    let latches = counted(alloc, b" latches ", counts.latches)?;
    let gates = counted(alloc, b" ands ", counts.gates)?;
    let free = counted(alloc, b" free ", counts.free)?;
    join(
        alloc,
        &[
            inputs.as_slice(),
            outputs.as_slice(),
            latches.as_slice(),
            gates.as_slice(),
            free.as_slice(),
            b"\n".as_slice(),
        ],
    )
}

/// The line of a design whose file is saved.
pub fn graph_made(
    alloc: Global,
    net: &FlatNet,
    gates: u64,
    count: u32,
) -> Result<Vec<u8>, OutOfMemory>
    ensures { IfOk result (λ text. text.items ≡ graph_line net.now.net gates count) }
{
    let counts = Counts {
        inputs: net.input_count() as u64,
        outputs: net.output_count() as u64,
        latches: net.register_count() as u64,
        gates,
        free: count as u64,
    };
    graph_told(alloc, &counts)
}
