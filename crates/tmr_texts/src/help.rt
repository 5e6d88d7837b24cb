//! What `help` and `version` print.
ghost use Rattle.std.specs.Prelude.{◌≡◌, IfOk};
ghost use Rattle.tmr_texts.specs.Help.{version_text, all_help, validate_help, harden_help, flatten_help, replay_help, report_help, trial_help, guard_help, guarded_help, to_aag_help, from_aag_help, wave_help, certify_help, exposure_help, sweep_help, explain_help, campaign_help, picture_help, help_help, version_help, topic_help, command_help, help_text};

use crate::texts::join;
use std::alloc::Global;
use tmr_base::OutOfMemory;
use tmr_words::{Topic, call_of};

/// The version of these sources.
const VERSION: &str = "1.9.3";

/// What `version` prints.
#[tactic(auto, unfolding(crate::specs::Help::version_text))]
pub fn version_text(alloc: Global) -> Result<Vec<u8>, OutOfMemory>
    ensures { IfOk result (λ text. text.items ≡ version_text) }
{
    join(
        alloc,
        &[b"tmr ".as_slice(), VERSION.as_bytes(), b"\n".as_slice()],
    )
}

/// All commands, the option that most of them have, and the statuses.
#[tactic(auto, unfolding(crate::specs::Help::all_help))]
fn all_help() -> &'static str
    ensures { result.now ≡ all_help }
{
    concat!(
        "commands\n",
        "  validate  checks a hardened netlist against its original and a certificate\n",
        "  harden    writes a hardened netlist and its certificate\n",
        "  flatten   writes a netlist as one flat model\n",
        "  replay    checks a hardened pair, and runs a schedule of upsets on it\n",
        "  report    checks a hardened pair, and tells of each partition\n",
        "  trial     draws a design, hardens it, and runs drawn schedules on the pair\n",
        "  guard     writes two copies of a netlist, with comparators and an alarm\n",
        "  guarded   checks that a netlist is the guarded one of another\n",
        "  to-aag    writes a netlist as an and-inverter graph (AIGER)\n",
        "  from-aag  reads such a graph, and writes it as a flat netlist\n",
        "  wave      does what replay does, and saves waves (VCD)\n",
        "  certify   finds a certificate of a hardened netlist from the two netlists alone\n",
        "  exposure  checks a hardened pair, and counts pairs of upsets that are too near\n",
        "  sweep     tells what hardening costs with partitions of each size\n",
        "  explain   tells each place where a hardened pair breaks a rule, and why\n",
        "  campaign  checks a hardened pair, and runs 64 drawn schedules on it\n",
        "  picture   checks a hardened pair, and draws its partitions (DOT)\n",
        "  help      tells this, or more of one command: tmr help COMMAND\n",
        "  version   tells which version of tmr this is\n",
        "options\n",
        "  --large   files may be 16 times as large, with each command that reads ORIG or AAG\n",
        "statuses\n",
        "  0  done\n",
        "  1  not accepted: a rule fails\n",
        "  2  usage: the words are no command\n",
        "  3  fault: a load or a save failed, or the text could not be printed\n",
        "  4  refused: a file is too long, or is not what it is to hold\n",
        "  5  want of memory\n",
    )
}

/// `validate`.
#[tactic(auto, unfolding(crate::specs::Help::validate_help))]
fn validate_help() -> &'static str
    ensures { result.now ≡ validate_help }
{
    concat!(
        "Checks a hardened netlist against its original and a certificate.\n",
        "reads     ORIG: the original netlist, BLIF, at most 8388608 bytes\n",
        "          HARD: the hardened netlist, BLIF, at most 1073741824 bytes\n",
        "          CERT: its certificate, at most 1073741824 bytes\n",
        "writes    nothing\n",
        "options   --large    larger files: ORIG at most 134217728 bytes,\n",
        "                     HARD and CERT at most 17179869184\n",
        "prints    accepted partitions K depth D assumed A B\n",
        "          with a certificate of version 2: free in place of assumed\n",
        "          or: not accepted: rule R at PLACE\n",
        "statuses  0 done, 1 not accepted, 2 usage, 3 fault, 4 refused, 5 want of memory\n",
        "example   tmr validate and.blif and.hard.blif and.cert\n",
    )
}

/// `harden`.
#[tactic(auto, unfolding(crate::specs::Help::harden_help))]
fn harden_help() -> &'static str
    ensures { result.now ≡ harden_help }
{
    concat!(
        "Hardens a netlist: three copies in partitions, with voters and a certificate.\n",
        "reads     ORIG: a netlist, BLIF, at most 8388608 bytes\n",
        "writes    HARD: the hardened netlist, BLIF\n",
        "          CERT: its certificate, under another name than HARD\n",
        "options   --size S   the size of partitions, 1 to 4294967295; default 64\n",
        "          --cert V   the version of the certificate, 1 or 2; default 1\n",
        "          --depth D  the greatest depth, 1 to 4294967295; default no bound\n",
        "          --form F   the form, plain or lean; default plain\n",
        "          --large    larger files: ORIG at most 134217728 bytes,\n",
        "                     HARD and CERT at most 17179869184\n",
        "prints    five lines: nodes, partitions, voters, depth, assumed\n",
        "          with --cert 2: free in place of assumed\n",
        "statuses  0 done, 2 usage, 3 fault, 4 refused, 5 want of memory\n",
        "example   tmr harden and.blif and.hard.blif and.cert --size 16\n",
    )
}

/// `flatten`.
#[tactic(auto, unfolding(crate::specs::Help::flatten_help))]
fn flatten_help() -> &'static str
    ensures { result.now ≡ flatten_help }
{
    concat!(
        "Writes a netlist as one flat model. Each net is named by its path.\n",
        "reads     ORIG: a netlist, BLIF, at most 8388608 bytes\n",
        "writes    FLAT: the flat netlist, BLIF\n",
        "options   --large    larger files: ORIG at most 134217728 bytes\n",
        "prints    flat inputs I outputs O nodes N registers R assumed A\n",
        "statuses  0 done, 2 usage, 3 fault, 4 refused, 5 want of memory\n",
        "example   tmr flatten counter.blif counter.flat.blif\n",
    )
}

/// `replay`.
#[tactic(auto, unfolding(crate::specs::Help::replay_help))]
fn replay_help() -> &'static str
    ensures { result.now ≡ replay_help }
{
    concat!(
        "Checks a hardened pair, and runs a schedule of upsets on it.\n",
        "reads     ORIG: the original netlist, BLIF, at most 8388608 bytes\n",
        "          HARD: the hardened netlist, BLIF, at most 1073741824 bytes\n",
        "          CERT: its certificate, at most 1073741824 bytes\n",
        "          SCHED: the schedule, TOML, at most 16777216 bytes\n",
        "writes    nothing\n",
        "options   --large    larger files: ORIG at most 134217728 bytes,\n",
        "                     HARD and CERT at most 17179869184\n",
        "prints    for each of the first 1000 differences: differ T NAME O A B C\n",
        "          six lines: cycles, upsets, allowed, differences, wrong, late\n",
        "          or: not accepted: rule R at PLACE\n",
        "statuses  0 done, 1 not accepted, 2 usage, 3 fault, 4 refused, 5 want of memory\n",
        "example   tmr replay sh.blif sh.hard.blif sh.cert apart.toml\n",
    )
}

/// `report`.
#[tactic(auto, unfolding(crate::specs::Help::report_help))]
fn report_help() -> &'static str
    ensures { result.now ≡ report_help }
{
    concat!(
        "Checks a hardened pair, and tells of each partition.\n",
        "reads     ORIG: the original netlist, BLIF, at most 8388608 bytes\n",
        "          HARD: the hardened netlist, BLIF, at most 1073741824 bytes\n",
        "          CERT: its certificate, at most 1073741824 bytes\n",
        "writes    nothing\n",
        "options   --large    larger files: ORIG at most 134217728 bytes,\n",
        "                     HARD and CERT at most 17179869184\n",
        "prints    five lines: nodes, registers, copies, voters, partitions\n",
        "          part I nodes A registers S loops G depth D least L chain NAME ..\n",
        "          or: not accepted: rule R at PLACE\n",
        "statuses  0 done, 1 not accepted, 2 usage, 3 fault, 4 refused, 5 want of memory\n",
        "example   tmr report sh.blif sh.hard.blif sh.cert\n",
    )
}

/// `trial`.
#[tactic(auto, unfolding(crate::specs::Help::trial_help))]
fn trial_help() -> &'static str
    ensures { result.now ≡ trial_help }
{
    concat!(
        "Draws a design, hardens it, and runs 64 drawn schedules of upsets on the pair.\n",
        "words     NUMBER: what is drawn from, 0 to 18446744073709551615\n",
        "          NODES: how many nodes the design has, 0 to 100000\n",
        "reads     nothing\n",
        "writes    nothing\n",
        "options   none\n",
        "prints    nine lines: nodes, partitions, voters, depth,\n",
        "          runs, upsets, differences, wrong, late\n",
        "statuses  0 done, 2 usage, 3 fault, 5 want of memory\n",
        "example   tmr trial 7 500\n",
    )
}

/// `guard`.
#[tactic(auto, unfolding(crate::specs::Help::guard_help))]
fn guard_help() -> &'static str
    ensures { result.now ≡ guard_help }
{
    concat!(
        "Writes two copies of a netlist, with comparators and an alarm.\n",
        "reads     ORIG: a netlist, BLIF, at most 8388608 bytes\n",
        "writes    GUARDED: the guarded netlist, BLIF\n",
        "options   --large    larger files: ORIG at most 134217728 bytes\n",
        "prints    guard nodes N to G outputs O assumed A\n",
        "statuses  0 done, 2 usage, 3 fault, 4 refused, 5 want of memory\n",
        "example   tmr guard counter.blif counter.guarded.blif\n",
    )
}

/// `guarded`.
#[tactic(auto, unfolding(crate::specs::Help::guarded_help))]
fn guarded_help() -> &'static str
    ensures { result.now ≡ guarded_help }
{
    concat!(
        "Checks that a netlist is the guarded one of another.\n",
        "reads     ORIG: the original netlist, BLIF, at most 8388608 bytes\n",
        "          GUARDED: the guarded netlist, BLIF, at most 1073741824 bytes\n",
        "writes    nothing\n",
        "options   --large    larger files: ORIG at most 134217728 bytes,\n",
        "                     GUARDED at most 17179869184\n",
        "prints    guarded\n",
        "          or: not guarded: rule R at J\n",
        "statuses  0 done, 1 not accepted, 2 usage, 3 fault, 4 refused, 5 want of memory\n",
        "example   tmr guarded counter.blif counter.guarded.blif\n",
    )
}

/// `to-aag`.
#[tactic(auto, unfolding(crate::specs::Help::to_aag_help))]
fn to_aag_help() -> &'static str
    ensures { result.now ≡ to_aag_help }
{
    concat!(
        "Writes a netlist as an and-inverter graph (AIGER ASCII).\n",
        "reads     ORIG: a netlist, BLIF, at most 8388608 bytes\n",
        "writes    AAG: the graph\n",
        "options   --large    larger files: ORIG at most 134217728 bytes\n",
        "prints    aag inputs I outputs O latches L ands A free F\n",
        "statuses  0 done, 2 usage, 3 fault, 4 refused, 5 want of memory\n",
        "example   tmr to-aag and.blif and.aag\n",
    )
}

/// `from-aag`.
#[tactic(auto, unfolding(crate::specs::Help::from_aag_help))]
fn from_aag_help() -> &'static str
    ensures { result.now ≡ from_aag_help }
{
    concat!(
        "Reads an and-inverter graph (AIGER ASCII), and writes it as a flat netlist.\n",
        "reads     AAG: the graph, at most 8388608 bytes\n",
        "writes    FLAT: the flat netlist, BLIF\n",
        "options   --large    larger files: AAG at most 134217728 bytes\n",
        "prints    aag inputs I outputs O latches L ands A free F\n",
        "statuses  0 done, 2 usage, 3 fault, 4 refused, 5 want of memory\n",
        "example   tmr from-aag and.aag and.flat.blif\n",
    )
}

/// `wave`.
#[tactic(auto, unfolding(crate::specs::Help::wave_help))]
fn wave_help() -> &'static str
    ensures { result.now ≡ wave_help }
{
    concat!(
        "Does what replay does, and saves the outputs and their copies as waves.\n",
        "reads     ORIG: the original netlist, BLIF, at most 8388608 bytes\n",
        "          HARD: the hardened netlist, BLIF, at most 1073741824 bytes\n",
        "          CERT: its certificate, at most 1073741824 bytes\n",
        "          SCHED: the schedule, TOML, at most 16777216 bytes\n",
        "writes    VCD: the waves, a value change dump;\n",
        "          outputs of ORIG times cycles are at most 4194304\n",
        "options   --large    larger files: ORIG at most 134217728 bytes,\n",
        "                     HARD and CERT at most 17179869184\n",
        "prints    for each of the first 1000 differences: differ T NAME O A B C\n",
        "          six lines: cycles, upsets, allowed, differences, wrong, late\n",
        "          or: not accepted: rule R at PLACE\n",
        "statuses  0 done, 1 not accepted, 2 usage, 3 fault, 4 refused, 5 want of memory\n",
        "example   tmr wave sh.blif sh.hard.blif sh.cert apart.toml apart.vcd\n",
    )
}

/// `certify`.
#[tactic(auto, unfolding(crate::specs::Help::certify_help))]
fn certify_help() -> &'static str
    ensures { result.now ≡ certify_help }
{
    concat!(
        "Finds a certificate of a hardened netlist from the two netlists alone.\n",
        "reads     ORIG: the original netlist, BLIF, at most 8388608 bytes\n",
        "          HARD: the hardened netlist, BLIF, at most 1073741824 bytes\n",
        "writes    CERT: the certificate, under another name than ORIG and HARD\n",
        "options   --cert V   the version of the certificate, 1 or 2; default 1\n",
        "          --large    larger files: ORIG at most 134217728 bytes,\n",
        "                     HARD and CERT at most 17179869184\n",
        "prints    accepted partitions K depth D assumed A B\n",
        "          with --cert 2: free in place of assumed\n",
        "          or: no certificate: CAUSE\n",
        "statuses  0 done, 1 not accepted, 2 usage, 3 fault, 4 refused, 5 want of memory\n",
        "example   tmr certify and.blif and.hard.blif and.found.cert\n",
    )
}

/// `exposure`.
#[tactic(auto, unfolding(crate::specs::Help::exposure_help))]
fn exposure_help() -> &'static str
    ensures { result.now ≡ exposure_help }
{
    concat!(
        "Checks a hardened pair, and counts the pairs of upsets that are too near.\n",
        "reads     ORIG: the original netlist, BLIF, at most 8388608 bytes\n",
        "          HARD: the hardened netlist, BLIF, at most 1073741824 bytes\n",
        "          CERT: its certificate, at most 1073741824 bytes\n",
        "writes    nothing\n",
        "options   --large    larger files: ORIG at most 134217728 bytes,\n",
        "                     HARD and CERT at most 17179869184\n",
        "prints    inputs copies I I I depth 0 near X, with a certificate of version 2\n",
        "          part P copies N N N depth D near X for each partition with nodes\n",
        "          near X\n",
        "          or: not accepted: rule R at PLACE\n",
        "statuses  0 done, 1 not accepted, 2 usage, 3 fault, 4 refused, 5 want of memory\n",
        "example   tmr exposure sh.blif sh.hard.blif sh.cert\n",
    )
}

/// `sweep`.
#[tactic(auto, unfolding(crate::specs::Help::sweep_help))]
fn sweep_help() -> &'static str
    ensures { result.now ≡ sweep_help }
{
    concat!(
        "Tells what hardening costs with partitions of 16, 32, 64 and more nodes.\n",
        "reads     ORIG: a netlist, BLIF, at most 8388608 bytes\n",
        "writes    nothing\n",
        "options   --cert V   the version of the certificate, 1 or 2; default 1\n",
        "          --depth D  the greatest depth, 1 to 4294967295; default no bound\n",
        "          --form F   the form, plain or lean; default plain\n",
        "          --large    larger files: ORIG at most 134217728 bytes\n",
        "prints    nodes N registers R levels L\n",
        "          size S partitions K voters V percent P depth D levels L near X\n",
        "          for each size\n",
        "statuses  0 done, 2 usage, 3 fault, 4 refused, 5 want of memory\n",
        "example   tmr sweep sh.blif --form lean\n",
    )
}

/// `explain`.
#[tactic(auto, unfolding(crate::specs::Help::explain_help))]
fn explain_help() -> &'static str
    ensures { result.now ≡ explain_help }
{
    concat!(
        "Tells each place where a hardened pair breaks a rule, and why.\n",
        "reads     ORIG: the original netlist, BLIF, at most 8388608 bytes\n",
        "          HARD: the hardened netlist, BLIF, at most 1073741824 bytes\n",
        "          CERT: its certificate, at most 1073741824 bytes\n",
        "writes    nothing\n",
        "options   --large    larger files: ORIG at most 134217728 bytes,\n",
        "                     HARD and CERT at most 17179869184\n",
        "prints    rule R at PLACE: WHY for each of the first 100 places\n",
        "          and N more, where there are more\n",
        "          or, where all rules hold, what validate prints\n",
        "          behind a refusal that names a line of a file: that line\n",
        "statuses  0 done, 1 not accepted, 2 usage, 3 fault, 4 refused, 5 want of memory\n",
        "example   tmr explain and.blif and.hard.blif and.cert\n",
    )
}

/// `campaign`.
#[tactic(auto, unfolding(crate::specs::Help::campaign_help))]
fn campaign_help() -> &'static str
    ensures { result.now ≡ campaign_help }
{
    concat!(
        "Checks a hardened pair, and runs 64 drawn schedules of upsets on it.\n",
        "words     NUMBER: what is drawn from, 0 to 18446744073709551615\n",
        "          CYCLES: how many cycles each schedule has, 1 to 100000\n",
        "          near: pairs of upsets that the certificate does not allow\n",
        "reads     ORIG: the original netlist, BLIF, at most 8388608 bytes\n",
        "          HARD: the hardened netlist, BLIF, at most 1073741824 bytes\n",
        "          CERT: its certificate, at most 1073741824 bytes\n",
        "writes    nothing\n",
        "options   --large    larger files: ORIG at most 134217728 bytes,\n",
        "                     HARD and CERT at most 17179869184\n",
        "prints    five lines: runs, upsets, differences, wrong, late\n",
        "          with near also: first wrong CYCLE OUTPUT RUN, where one is known\n",
        "          or: not accepted: rule R at PLACE\n",
        "statuses  0 done, 1 not accepted, 2 usage, 3 fault, 4 refused, 5 want of memory\n",
        "example   tmr campaign sh.blif sh.hard.blif sh.cert 7 1000\n",
    )
}

/// `picture`.
#[tactic(auto, unfolding(crate::specs::Help::picture_help))]
fn picture_help() -> &'static str
    ensures { result.now ≡ picture_help }
{
    concat!(
        "Checks a hardened pair, and draws its partitions as a graph.\n",
        "reads     ORIG: the original netlist, BLIF, at most 8388608 bytes\n",
        "          HARD: the hardened netlist, BLIF, at most 1073741824 bytes\n",
        "          CERT: its certificate, at most 1073741824 bytes\n",
        "writes    DOT: the graph, for dot of graphviz\n",
        "options   --large    larger files: ORIG at most 134217728 bytes,\n",
        "                     HARD and CERT at most 17179869184\n",
        "prints    accepted partitions K depth D assumed A B\n",
        "          with a certificate of version 2: free in place of assumed\n",
        "          or: not accepted: rule R at PLACE\n",
        "statuses  0 done, 1 not accepted, 2 usage, 3 fault, 4 refused, 5 want of memory\n",
        "example   tmr picture sh.blif sh.hard.blif sh.cert sh.dot\n",
    )
}

/// `help`.
#[tactic(auto, unfolding(crate::specs::Help::help_help))]
fn help_help() -> &'static str
    ensures { result.now ≡ help_help }
{
    concat!(
        "Tells of all commands and statuses, or of one command.\n",
        "reads     nothing\n",
        "writes    nothing\n",
        "options   none\n",
        "prints    a line for each command and each status\n",
        "          with COMMAND: lines like these\n",
        "statuses  0 done, 2 usage, 3 fault, 5 want of memory\n",
        "example   tmr help harden\n",
    )
}

/// `version`.
#[tactic(auto, unfolding(crate::specs::Help::version_help))]
fn version_help() -> &'static str
    ensures { result.now ≡ version_help }
{
    concat!(
        "Tells which version of tmr this is.\n",
        "reads     nothing\n",
        "writes    nothing\n",
        "options   none\n",
        "prints    tmr VERSION\n",
        "statuses  0 done, 2 usage, 3 fault, 5 want of memory\n",
        "example   tmr version\n",
    )
}

/// What is told of a command, behind its call.
fn topic_help(topic: Topic) -> &'static str
    ensures { result.now ≡ topic_help topic }
{
    match topic {
        Topic::Validate => validate_help(),
        Topic::Harden => harden_help(),
        Topic::Flatten => flatten_help(),
        Topic::Replay => replay_help(),
        Topic::Report => report_help(),
        Topic::Trial => trial_help(),
        Topic::Guard => guard_help(),
        Topic::CheckGuard => guarded_help(),
        Topic::WriteGraph => to_aag_help(),
        Topic::ReadGraph => from_aag_help(),
        Topic::Wave => wave_help(),
        Topic::Certify => certify_help(),
        Topic::Exposure => exposure_help(),
        Topic::Sweep => sweep_help(),
        Topic::Explain => explain_help(),
        Topic::Campaign => campaign_help(),
        Topic::Picture => picture_help(),
        Topic::Help => help_help(),
        Topic::Version => version_help(),
    }
}

/// How a command is called, and what is told of it.
fn command_help(alloc: Global, topic: Topic) -> Result<Vec<u8>, OutOfMemory>
    ensures { IfOk result (λ text. text.items ≡ command_help topic) }
{
    join(
        alloc,
        &[
            b"usage: tmr ".as_slice(),
            call_of(topic).as_bytes(),
            b"\n".as_slice(),
            topic_help(topic).as_bytes(),
        ],
    )
}

/// What `help` prints: of one command, or of all where none is named.
pub fn help_text(alloc: Global, topic: Option<Topic>) -> Result<Vec<u8>, OutOfMemory>
    ensures { IfOk result (λ text. text.items ≡ help_text topic) }
{
    match topic {
        None => join(alloc, &[all_help().as_bytes()]),
        Some(topic) => command_help(alloc, topic),
    }
}
