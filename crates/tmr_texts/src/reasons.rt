//! What is printed of why a file is refused.
ghost use Rattle.std.specs.Prelude.{◌≡◌, IfOk};
ghost use Rattle.tmr_texts.specs.Texts.{line_reason};
ghost use Rattle.std.specs.Prelude.{◌≢◌, ◌++◌, ◌∷◌, [], map, codes, OnOk};
ghost use Rattle.std.specs.Fmt.{decimal};
ghost use Rattle.tmr_texts.specs.Texts.{joined};
ghost use Rattle.tmr_texts.specs.Reasons.{kind_text, spaced, fault_reason as reason_of_fault, flat_reason as reason_of_flat, cert_reason as reason_of_cert, schedule_reason as reason_of_schedule, aag_reason as reason_of_aag};

use crate::texts::{at_line, counted, join};
use aag_design::AagFault;
use blif_text::TextKind;
use certificate::CertFault;
use flat_net::NetFault;
use hierarchy::FlatFault;
use schedules::ScheduleFault;
use std::alloc::Global;
use tmr_base::{Name, OutOfMemory};

/// What is wrong with a bad line of a netlist.
fn kind(kind: TextKind) -> &'static str
    ensures { result.now ≡ kind_text kind }
{
    match kind {
        TextKind::NoModel => "no model",
        TextKind::Unsupported => "unsupported",
        TextKind::BadName => "bad name",
        TextKind::BadRow => "bad row",
        TextKind::MixedCover => "mixed cover",
        TextKind::BadLatch => "bad latch",
        TextKind::BadBinding => "bad binding",
        TextKind::DuplicatePort => "duplicate port",
        TextKind::DuplicateModel => "duplicate model",
        TextKind::RowOutside => "row outside",
        TextKind::Arguments => "arguments",
    }
}

/// The reason of the first bad line of a netlist.
pub fn bad_line(alloc: Global, line: u64, of: TextKind) -> Result<Vec<u8>, OutOfMemory>
    ensures { IfOk result (λ text. text.items ≡ line_reason line (kind_text of)) }
{
    at_line(alloc, line, kind(of))
}

/// The reason of the first bad line of a certificate.
pub fn cert_reason(alloc: Global, fault: CertFault) -> Result<Vec<u8>, OutOfMemory>
    ensures reason { IfOk result (λ text. text.items ≡ reason_of_cert fault) }
    ensures caused { OnOk result (fault ≢ CertFault.Memory) }
{
    match fault {
        CertFault::Line(line) => at_line(alloc, line, "bad line"),
        CertFault::UnknownNet(line) => at_line(alloc, line, "unknown net"),
        CertFault::Order(line) => at_line(alloc, line, "order"),
        CertFault::Range(line) => at_line(alloc, line, "range"),
        CertFault::Doubled(line) => at_line(alloc, line, "doubled"),
        CertFault::Memory => Err(OutOfMemory),
    }
}

/// A text, and then a name.
fn naming(alloc: Global, text: &str, name: &Name) -> Result<Vec<u8>, OutOfMemory>
    ensures { IfOk result (λ reason. reason.items ≡ joined (text.now ∷ name.now ∷ [])) }
{
    join(alloc, &[text.as_bytes(), name.bytes()])
}

/// The reason of a schedule that is refused.
pub fn schedule_reason(alloc: Global, fault: ScheduleFault) -> Result<Vec<u8>, OutOfMemory>
    ensures reason { IfOk result (λ reason. reason.items ≡ reason_of_schedule fault) }
    ensures caused { OnOk result (fault ≢ ScheduleFault.Memory) }
{
    match fault {
        ScheduleFault::NotToml => Ok(b"not TOML".to_vec(alloc)?),
        ScheduleFault::Top => Ok(b"bad top".to_vec(alloc)?),
        ScheduleFault::TooMany => Ok(b"too many".to_vec(alloc)?),
        ScheduleFault::Row(t) => counted(alloc, b"bad inputs row ", t as u64),
        ScheduleFault::Entry(j) => counted(alloc, b"bad upset ", j as u64),
        ScheduleFault::UnknownNet(j) => counted(alloc, b"unknown net in upset ", j as u64),
        ScheduleFault::Range(j) => counted(alloc, b"cycle out of range in upset ", j as u64),
        ScheduleFault::Doubled(j) => counted(alloc, b"doubled upset ", j as u64),
        ScheduleFault::Start => Ok(b"bad start".to_vec(alloc)?),
        ScheduleFault::Memory => Err(OutOfMemory),
    }
}

/// Puts each name with a blank before it.
#[tactic(auto, using(crate::proofs::TextLaws::names))]
fn put_spaced(text: &mut Vec<u8>, names: &[Name]) -> Result<(), OutOfMemory>
    ensures { OnOk result (text.new.items ≡ text.old.items ++ spaced names.now) }
{
    for name in names {
        text.push(b' ')?;
        text.extend_from_slice(name.bytes())?;
    }
    Ok(())
}

/// A text, and then each name with a blank before it.
fn listing(alloc: Global, text: &str, names: &[Name]) -> Result<Vec<u8>, OutOfMemory>
    ensures { IfOk result (λ reason. reason.items ≡ text.now ++ spaced names.now) }
{
    let mut reason = text.as_bytes().to_vec(alloc)?;
    put_spaced(&mut reason, names)?;
    Ok(reason)
}

/// The reason of flat elements that are no design.
fn fault_reason(alloc: Global, fault: &NetFault) -> Result<Vec<u8>, OutOfMemory>
    ensures reason { IfOk result (λ reason. reason.items ≡ reason_of_fault fault.now) }
    ensures caused { OnOk result (fault.now ≢ NetFault.Memory) }
{
    match fault {
        NetFault::DoubleDriven(name) => naming(alloc, "double driven ", name),
        NetFault::MixedClock(name) => naming(alloc, "mixed clock ", name),
        NetFault::ClockUse(name) => naming(alloc, "clock use ", name),
        NetFault::Undriven(name) => naming(alloc, "undriven ", name),
        NetFault::CombLoop(names) => listing(alloc, "combinational loop", names),
        NetFault::Memory => Err(OutOfMemory),
    }
}

/// The reason of a library that has no flat design.
pub fn flat_reason(alloc: Global, fault: &FlatFault) -> Result<Vec<u8>, OutOfMemory>
    ensures reason { IfOk result (λ reason. reason.items ≡ reason_of_flat fault.now) }
    ensures caused { OnOk result (fault.now ≢ FlatFault.Memory) }
{
    match fault {
        FlatFault::UnknownModel(name) => naming(alloc, "unknown model ", name),
        FlatFault::UnboundInput(name) => naming(alloc, "unbound input ", name),
        FlatFault::UnknownFormal(name) => naming(alloc, "unknown formal ", name),
        FlatFault::DuplicateFormal(name) => naming(alloc, "duplicate formal ", name),
        FlatFault::BothWays(name) => naming(alloc, "both ways ", name),
        FlatFault::Recursive(names) => listing(alloc, "recursive", names),
        FlatFault::TooLarge => Ok(b"too large".to_vec(alloc)?),
        FlatFault::NameClash(name) => naming(alloc, "name clash ", name),
        FlatFault::Net(fault) => fault_reason(alloc, fault),
        FlatFault::Memory => Err(OutOfMemory),
    }
}

/// Puts each number with a blank before it.
#[tactic(auto, using(crate::proofs::TextLaws::spaced_numbers))]
fn put_numbers(alloc: Global, text: &mut Vec<u8>, numbers: &[u32]) -> Result<(), OutOfMemory>
    ensures { OnOk result (text.new.items ≡ text.old.items ++ spaced (map decimal numbers.now)) }
{
    for number in numbers {
        let digits = number.to_string(alloc)?;
        text.push(b' ')?;
        text.extend_from_slice(digits.as_bytes())?;
    }
    Ok(())
}

/// The reason of gates that are a loop.
fn loop_reason(alloc: Global, variables: &[u32]) -> Result<Vec<u8>, OutOfMemory>
    ensures { IfOk result (λ reason. reason.items ≡ codes "loop" ++ spaced (map decimal variables.now)) }
{
    let mut reason = b"loop".to_vec(alloc)?;
    put_numbers(alloc, &mut reason, variables)?;
    Ok(reason)
}

/// The reason of an AIGER file that gives no design.
pub fn aag_reason(alloc: Global, fault: &AagFault) -> Result<Vec<u8>, OutOfMemory>
    ensures reason { IfOk result (λ reason. reason.items ≡ reason_of_aag fault.now) }
    ensures caused { OnOk result (fault.now ≢ AagFault.Memory) }
{
    match fault {
        AagFault::Line(line) => at_line(alloc, *line, "bad line"),
        AagFault::Doubled(variable) => counted(alloc, b"doubled ", *variable as u64),
        AagFault::Undefined(variable) => counted(alloc, b"undefined ", *variable as u64),
        AagFault::Loop(variables) => loop_reason(alloc, variables),
        AagFault::TooLarge => Ok(b"too large".to_vec(alloc)?),
        AagFault::Memory => Err(OutOfMemory),
    }
}
