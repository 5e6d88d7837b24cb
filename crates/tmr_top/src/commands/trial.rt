//! `trial NUMBER NODES`: a drawn design is hardened and checked, and 64 drawn schedules of upsets are run on the pair.
ghost use Rattle.std.specs.Prelude.{◌≡◌, IfOk};
ghost use Rattle.campaigns.specs.Campaign.{IsCampaign};
ghost use Rattle.tmr_trial.specs.Designs.{design_of};
ghost use Rattle.triplicate.specs.Result.{IsHardenedPair};
ghost use Rattle.validator.specs.Masking.{Masks};
ghost use Rattle.tmr_texts.specs.FormText.{form_numbers};
ghost use Rattle.tmr_words.specs.Line.{TryOut};
ghost use Rattle.tmr_words.specs.TrialWords.{trial_in};
ghost use Rattle.tmr_top.specs.Tried.{IsTried, trial_lines};
ghost use Rattle.tmr_top.specs.Private.Rooms.{Performed};
ghost use Rattle.tmr_top.specs.Private.Works.{IsWorkOver};

use crate::conclusion::conclude;
use crate::decision::{Decision, Work, telling};
use campaigns::{CampaignSums, masked_campaign};
use flat_net::FlatNet;
use hardened_pair::harden;
use std::alloc::Global;
use tmr_base::OutOfMemory;
use tmr_outside::Files;
use tmr_texts::{FormNumbers, counted, form_lines, greatest_depth, join};
use tmr_trial::design;
use tmr_words::TrialWords;
use triplicate::Hardened;
use validator::check;

/// The design that is drawn from these words.
fn draw_design(alloc: Global, words: &TrialWords) -> Result<FlatNet, OutOfMemory>
    ensures { IfOk result (λ n. n.net ≡ design_of words.now.number words.now.nodes) }
{
    let n = design(alloc, words.number, words.nodes)?;
    Ok(n)
}

/// The hardened form of the drawn design, with partitions of 64 nodes.
#[tactic(auto, using(crate::proofs::TrialLaws::few_enough))]
fn harden_drawn(alloc: Global, words: &TrialWords, n: &FlatNet) -> Result<Hardened, OutOfMemory>
    requires { n.now.net ≡ design_of words.now.number words.now.nodes }
    ensures { IfOk result (λ made. IsHardenedPair n.now.net 64 made) }
{
    let made = harden(alloc, n, 64)?;
    Ok(made)
}

/// The check of a hardened form, which no hardened form fails.
#[tactic(auto, using(crate::proofs::TrialLaws::checks))]
fn pass_check(n: &FlatNet, made: &Hardened)
    requires { IsHardenedPair n.now.net 64 made.now }
    ensures { Masks n.now.net made.now.net.net made.now.cert }
{
    match check(n, &made.net, &made.cert) {
        Ok(()) => {}
        Err(_) => unreachable!(),
    }
}

/// What 64 runs of 64 cycles on a hardened form come to.
fn run_all(
    alloc: Global,
    number: u64,
    n: &FlatNet,
    made: &Hardened,
) -> Result<CampaignSums, OutOfMemory>
    requires { IsHardenedPair n.now.net 64 made.now }
    ensures { IfOk result (λ sums. IsCampaign number 64 n.now.net made.now.net.net made.now.cert sums) }
{
    pass_check(n, made);
    let sums = masked_campaign(alloc, number, 64, n, &made.net, &made.cert)?;
    Ok(sums)
}

/// The numbers that are told of a hardened form.
fn told_numbers(n: &FlatNet, made: &Hardened) -> FormNumbers
    requires { IsHardenedPair n.now.net 64 made.now }
    ensures { result ≡ form_numbers n.now.net 64 made.now.net.net made.now.cert made.now.minimal }
{
    FormNumbers {
        nodes: n.node_count(),
        hardened_nodes: made.net.node_count(),
        partitions: made.cert.parts(),
        cost: made.cost,
        plain: made.plain,
        minimal: made.minimal,
        voters: made.voters,
        depth: greatest_depth(&made.cert),
    }
}

/// The nine lines.
#[tactic(auto, unfolding(crate::specs::Tried::trial_lines))]
fn trial_lines(alloc: Global, f: &FormNumbers, sums: &CampaignSums) -> Result<Vec<u8>, OutOfMemory>
    ensures { IfOk result (λ text. text.items ≡ trial_lines f.now sums.now) }
{
    let form = form_lines(alloc, f)?;
    let upsets = counted(alloc, b"runs 64\nupsets ", sums.upsets)?;
    let differences = counted(alloc, b"\ndifferences ", sums.differences)?;
    let wrong = counted(alloc, b"\nwrong ", sums.wrong)?;
    let late = counted(alloc, b"\nlate ", sums.late)?;
    join(
        alloc,
        &[
            form.as_slice(),
            upsets.as_slice(),
            differences.as_slice(),
            wrong.as_slice(),
            late.as_slice(),
            b"\n".as_slice(),
        ],
    )
}

/// What is told of a trial.
fn tell<'a>(alloc: Global, words: &TrialWords) -> Result<Work<'a, 'a>, OutOfMemory>
    ensures { IfOk result (IsWorkOver (TryOut (trial_in words.now)) (λ held. Unit {0})) }
{
    let n = draw_design(alloc, words)?;
    let made = harden_drawn(alloc, words, &n)?;
    let sums = run_all(alloc, words.number, &n, &made)?;
    let numbers = told_numbers(&n, &made);
    let text = trial_lines(alloc, &numbers, &sums)?;
    Ok(telling(alloc, text))
}

/// The room of `trial`, which loads and saves nothing.
pub fn perform<F: Files>(
    alloc: Global,
    words: &TrialWords,
    files: &mut F,
) -> Result<Decision, OutOfMemory>
    ensures { Performed (TryOut (trial_in words.now)) (F.seen files.old) (F.seen files.new)
        (F.steady files.old) (F.steady files.new) result }
{
    conclude(alloc, tell(alloc, words), files)
}
