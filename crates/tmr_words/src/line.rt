//! What the words of the command line mean.
ghost use Rattle.std.specs.Prelude.{◌≡◌, ◌∷◌, [], IfOk};
ghost use Rattle.std.specs.Option.{option_map};
ghost use Rattle.tmr_words.specs.Words.{texts};
ghost use Rattle.tmr_words.specs.Private.WordsRead.{words_in};
ghost use Rattle.tmr_words.specs.Line.{Validate, Report, Guard, CheckGuard, Exposure, Explain, Campaign, Picture, is_file, pair_named, over_pair, over_trial, over_help, version_of, flattening_of, guarding_of, over_guarding, graphing_of, graph_reading_of, replay_over, replaying_of, waving_of, campaigning_of, picturing_of, plain_meaning, file_meaning, meaning_of, line_of};
ghost use Rattle.tmr_words.specs.FileWords.{pair_in, word_in, guarding_in, command_in, read_words as read_texts};

use crate::campaign_line::read_campaigning;
use crate::campaign_words::CampaignWords;
use crate::certify_line::read_certifying;
use crate::certify_words::CertifyWords;
use crate::harden_line::read_hardening;
use crate::harden_words::HardenWords;
use crate::picture_words::{PictureWords, read_picturing};
use crate::replay_words::ReplayWords;
use crate::sweep_line::read_sweeping;
use crate::sweep_words::SweepWords;
use crate::topic::{Topic, read_help_words, read_topic};
use crate::trial_line::read_trial_words;
use crate::trial_words::TrialWords;
use crate::words::{ReadWords, has_no_options, is_plain, read_limits, read_words};
use limits::Limits;
use std::alloc::{AllocError, Global};

/// The three file words of `validate ORIG HARD CERT`, `report`, `exposure` and `explain`, which others
/// begin with, and how large files may be.
#[derive(Clone, Copy, Drop)]
pub struct PairWords<'a> {
    pub original: &'a str,
    pub hardened: &'a str,
    pub certificate: &'a str,
    pub limits: Limits,
}

/// The two file words of `flatten ORIG FLAT`, and how large files may be.
#[derive(Clone, Copy, Drop)]
pub struct FlatWords<'a> {
    pub original: &'a str,
    pub flat: &'a str,
    pub limits: Limits,
}

/// The two file words of `guard ORIG GUARDED` and of `guarded ORIG GUARDED`, and how large files may be.
#[derive(Clone, Copy, Drop)]
pub struct GuardWords<'a> {
    pub original: &'a str,
    pub guarded: &'a str,
    pub limits: Limits,
}

/// The two file words of `to-aag ORIG AAG`, and how large files may be.
#[derive(Clone, Copy, Drop)]
pub struct GraphWords<'a> {
    pub original: &'a str,
    pub graph: &'a str,
    pub limits: Limits,
}

/// The two file words of `from-aag AAG FLAT`, and how large files may be.
#[derive(Clone, Copy, Drop)]
pub struct GraphReadWords<'a> {
    pub graph: &'a str,
    pub flat: &'a str,
    pub limits: Limits,
}

/// A command with its files.
#[derive(Clone, Copy, Drop)]
pub enum CommandWords<'a> {
    Validate(PairWords<'a>),
    Harden(HardenWords<'a>),
    Flatten(FlatWords<'a>),
    Replay(ReplayWords<'a>),
    Report(PairWords<'a>),
    Trial(TrialWords),
    Guard(GuardWords<'a>),
    CheckGuard(GuardWords<'a>),
    WriteGraph(GraphWords<'a>),
    ReadGraph(GraphReadWords<'a>),
    Certify(CertifyWords<'a>),
    Exposure(PairWords<'a>),
    Sweep(SweepWords<'a>),
    Explain(PairWords<'a>),
    Campaign(CampaignWords<'a>),
    Picture(PictureWords<'a>),
    Help(Option<Topic>),
    Version,
}

/// A pair of these files, where none is empty.
#[tactic(auto, unfolding(crate::specs::Line::pair_named))]
pub fn pair_with<'a>(
    limits: Limits,
    original: &'a str,
    hardened: &'a str,
    certificate: &'a str,
) -> Option<PairWords<'a>>
    ensures { option_map pair_in result ≡ pair_named limits (original.now ∷ hardened.now ∷ certificate.now ∷ []) }
{
    if original.is_empty() || hardened.is_empty() || certificate.is_empty() {
        return None;
    }
    Some(PairWords {
        original,
        hardened,
        certificate,
        limits,
    })
}

/// A pair, where there are three words and none is empty.
#[tactic(auto, unfolding(crate::specs::Line::pair_named))]
fn read_pair<'a>(limits: Limits, plain: &[&'a str]) -> Option<PairWords<'a>>
    ensures { option_map pair_in result ≡ pair_named limits (read_texts plain.now) }
{
    match plain {
        [original, hardened, certificate] => pair_with(limits, *original, *hardened, *certificate),
        _ => None,
    }
}

/// `validate`, where its files can be read.
fn read_validate<'a>(limits: Limits, plain: &[&'a str]) -> Option<CommandWords<'a>>
    ensures { option_map command_in result ≡ over_pair limits Validate (read_texts plain.now) }
{
    match read_pair(limits, plain) {
        None => None,
        Some(pair) => Some(CommandWords::Validate(pair)),
    }
}

/// `report`, where its files can be read.
fn read_report<'a>(limits: Limits, plain: &[&'a str]) -> Option<CommandWords<'a>>
    ensures { option_map command_in result ≡ over_pair limits Report (read_texts plain.now) }
{
    match read_pair(limits, plain) {
        None => None,
        Some(pair) => Some(CommandWords::Report(pair)),
    }
}

/// `exposure`, where its files can be read.
fn read_exposure<'a>(limits: Limits, plain: &[&'a str]) -> Option<CommandWords<'a>>
    ensures { option_map command_in result ≡ over_pair limits Exposure (read_texts plain.now) }
{
    match read_pair(limits, plain) {
        None => None,
        Some(pair) => Some(CommandWords::Exposure(pair)),
    }
}

/// `explain`, where its files can be read.
fn read_explain<'a>(limits: Limits, plain: &[&'a str]) -> Option<CommandWords<'a>>
    ensures { option_map command_in result ≡ over_pair limits Explain (read_texts plain.now) }
{
    match read_pair(limits, plain) {
        None => None,
        Some(pair) => Some(CommandWords::Explain(pair)),
    }
}

/// `campaign`, where its files and numbers can be read.
fn read_campaign<'a>(limits: Limits, plain: &[&'a str]) -> Option<CommandWords<'a>>
    ensures { option_map command_in result ≡ option_map Campaign (campaigning_of limits (read_texts plain.now)) }
{
    match read_campaigning(limits, plain) {
        None => None,
        Some(campaign) => Some(CommandWords::Campaign(campaign)),
    }
}

/// `picture`, where its files can be read.
fn read_picture<'a>(limits: Limits, plain: &[&'a str]) -> Option<CommandWords<'a>>
    ensures { option_map command_in result ≡ option_map Picture (picturing_of limits (read_texts plain.now)) }
{
    match read_picturing(limits, plain) {
        None => None,
        Some(picture) => Some(CommandWords::Picture(picture)),
    }
}

/// `trial`, where its numbers can be read.
fn read_trial<'a>(plain: &[&'a str]) -> Option<CommandWords<'a>>
    ensures { option_map command_in result ≡ over_trial (read_texts plain.now) }
{
    match read_trial_words(plain) {
        None => None,
        Some(trial) => Some(CommandWords::Trial(trial)),
    }
}

/// `help`, where no word or the name of a command stands behind it.
fn read_help<'a>(plain: &[&'a str]) -> Option<CommandWords<'a>>
    ensures { option_map command_in result ≡ over_help (read_texts plain.now) }
{
    match read_help_words(plain) {
        None => None,
        Some(topic) => Some(CommandWords::Help(topic)),
    }
}

/// `version`, where no word stands behind it.
fn read_version_line<'a>(plain: &[&'a str]) -> Option<CommandWords<'a>>
    ensures { option_map command_in result ≡ version_of (read_texts plain.now) }
{
    match plain {
        [] => Some(CommandWords::Version),
        _ => None,
    }
}

/// `flatten`, where there are two words and none is empty.
#[tactic(auto, unfolding(crate::specs::Line::flattening_of))]
fn read_flattening<'a>(limits: Limits, plain: &[&'a str]) -> Option<CommandWords<'a>>
    ensures { option_map command_in result ≡ flattening_of limits (read_texts plain.now) }
{
    match plain {
        [original, flat] => {
            if original.is_empty() || flat.is_empty() {
                return None;
            }
            Some(CommandWords::Flatten(FlatWords {
                original: *original,
                flat: *flat,
                limits,
            }))
        }
        _ => None,
    }
}

/// A design and a guarded one, where there are two words and none is empty.
#[tactic(auto, unfolding(crate::specs::Line::guarding_of))]
fn read_guarding<'a>(limits: Limits, plain: &[&'a str]) -> Option<GuardWords<'a>>
    ensures { option_map guarding_in result ≡ guarding_of limits (read_texts plain.now) }
{
    match plain {
        [original, guarded] => {
            if original.is_empty() || guarded.is_empty() {
                return None;
            }
            Some(GuardWords {
                original: *original,
                guarded: *guarded,
                limits,
            })
        }
        _ => None,
    }
}

/// `guard`, where its files can be read.
fn read_guard<'a>(limits: Limits, plain: &[&'a str]) -> Option<CommandWords<'a>>
    ensures { option_map command_in result ≡ over_guarding limits Guard (read_texts plain.now) }
{
    match read_guarding(limits, plain) {
        None => None,
        Some(words) => Some(CommandWords::Guard(words)),
    }
}

/// `guarded`, where its files can be read.
fn read_guarded<'a>(limits: Limits, plain: &[&'a str]) -> Option<CommandWords<'a>>
    ensures { option_map command_in result ≡ over_guarding limits CheckGuard (read_texts plain.now) }
{
    match read_guarding(limits, plain) {
        None => None,
        Some(words) => Some(CommandWords::CheckGuard(words)),
    }
}

/// `to-aag`, where there are two words and none is empty.
#[tactic(auto, unfolding(crate::specs::Line::graphing_of))]
fn read_graphing<'a>(limits: Limits, plain: &[&'a str]) -> Option<CommandWords<'a>>
    ensures { option_map command_in result ≡ graphing_of limits (read_texts plain.now) }
{
    match plain {
        [original, graph] => {
            if original.is_empty() || graph.is_empty() {
                return None;
            }
            Some(CommandWords::WriteGraph(GraphWords {
                original: *original,
                graph: *graph,
                limits,
            }))
        }
        _ => None,
    }
}

/// `from-aag`, where there are two words and none is empty.
#[tactic(auto, unfolding(crate::specs::Line::graph_reading_of))]
fn read_graph_reading<'a>(limits: Limits, plain: &[&'a str]) -> Option<CommandWords<'a>>
    ensures { option_map command_in result ≡ graph_reading_of limits (read_texts plain.now) }
{
    match plain {
        [graph, flat] => {
            if graph.is_empty() || flat.is_empty() {
                return None;
            }
            Some(CommandWords::ReadGraph(GraphReadWords {
                graph: *graph,
                flat: *flat,
                limits,
            }))
        }
        _ => None,
    }
}

/// A replay over a pair, where there is one and the schedule's word is not empty.
fn replay_over<'a>(
    pair: Option<PairWords<'a>>,
    schedule: &'a str,
    waves: Option<&'a str>,
) -> Option<CommandWords<'a>>
    ensures { option_map command_in result
        ≡ replay_over (option_map pair_in pair.entry) schedule.now (word_in waves.entry) }
{
    match pair {
        None => None,
        Some(pair) => {
            if schedule.is_empty() {
                return None;
            }
            Some(CommandWords::Replay(ReplayWords {
                pair,
                schedule,
                waves,
            }))
        }
    }
}

/// `replay`, where there are four words and none is empty.
#[tactic(auto, unfolding(crate::specs::Line::replaying_of))]
fn read_replaying<'a>(limits: Limits, plain: &[&'a str]) -> Option<CommandWords<'a>>
    ensures { option_map command_in result ≡ replaying_of limits (read_texts plain.now) }
{
    match plain {
        [original, hardened, certificate, schedule] => {
            let pair = pair_with(limits, *original, *hardened, *certificate);
            replay_over(pair, *schedule, None)
        }
        _ => None,
    }
}

/// `wave`, where there are five words and none is empty.
#[tactic(auto, unfolding(crate::specs::Line::waving_of))]
fn read_waving<'a>(limits: Limits, plain: &[&'a str]) -> Option<CommandWords<'a>>
    ensures { option_map command_in result ≡ waving_of limits (read_texts plain.now) }
{
    match plain {
        [original, hardened, certificate, schedule, waves] => {
            if waves.is_empty() {
                return None;
            }
            let pair = pair_with(limits, *original, *hardened, *certificate);
            replay_over(pair, *schedule, Some(*waves))
        }
        _ => None,
    }
}

/// The command of this name, where it reads files and has no option but `--large`, and its words can be read.
#[tactic(auto, unfolding(crate::specs::Line::plain_meaning))]
fn read_plain<'a>(limits: Limits, name: Topic, plain: &[&'a str]) -> Option<CommandWords<'a>>
    ensures { option_map command_in result ≡ plain_meaning limits name (read_texts plain.now) }
{
    match name {
        Topic::Validate => read_validate(limits, plain),
        Topic::Flatten => read_flattening(limits, plain),
        Topic::Replay => read_replaying(limits, plain),
        Topic::Report => read_report(limits, plain),
        Topic::Guard => read_guard(limits, plain),
        Topic::CheckGuard => read_guarded(limits, plain),
        Topic::WriteGraph => read_graphing(limits, plain),
        Topic::ReadGraph => read_graph_reading(limits, plain),
        Topic::Wave => read_waving(limits, plain),
        Topic::Exposure => read_exposure(limits, plain),
        Topic::Explain => read_explain(limits, plain),
        Topic::Campaign => read_campaign(limits, plain),
        Topic::Picture => read_picture(limits, plain),
        Topic::Harden | Topic::Certify | Topic::Sweep => None,
        Topic::Trial | Topic::Help | Topic::Version => None,
    }
}

/// The command of this name, where it reads files, and its options and words can be read.
#[tactic(auto, unfolding(crate::specs::Line::file_meaning))]
fn read_over_files<'a>(
    limits: Limits,
    name: Topic,
    words: &ReadWords<'a>,
) -> Option<CommandWords<'a>>
    ensures { option_map command_in result ≡ file_meaning limits name (words_in words.now) }
{
    match name {
        Topic::Harden => read_hardening(limits, words),
        Topic::Certify => match read_certifying(limits, words) {
            None => None,
            Some(certify) => Some(CommandWords::Certify(certify)),
        },
        Topic::Sweep => match read_sweeping(limits, words) {
            None => None,
            Some(sweep) => Some(CommandWords::Sweep(sweep)),
        },
        _ => {
            if has_no_options(words) {
                read_plain(limits, name, words.plain.as_slice())
            } else {
                None
            }
        }
    }
}

/// The command of this name, where its options and words can be read.
#[tactic(auto, unfolding(crate::specs::Line::meaning_of))]
fn read_command<'a>(name: Topic, words: &ReadWords<'a>) -> Option<CommandWords<'a>>
    ensures { option_map command_in result ≡ meaning_of name (words_in words.now) }
{
    match name {
        Topic::Trial => if is_plain(words) {
            read_trial(words.plain.as_slice())
        } else {
            None
        },
        Topic::Help => if is_plain(words) {
            read_help(words.plain.as_slice())
        } else {
            None
        },
        Topic::Version => if is_plain(words) {
            read_version_line(words.plain.as_slice())
        } else {
            None
        },
        _ => match read_limits(words) {
            None => None,
            Some(limits) => read_over_files(limits, name, words),
        },
    }
}

/// What the words mean: a command with its files, or nothing.
#[tactic(auto, unfolding(crate::specs::Line::line_of))]
pub fn read_line<'a>(
    alloc: Global,
    words: &'a [String],
) -> Result<Option<CommandWords<'a>>, AllocError>
    ensures { IfOk result (λ line. option_map command_in line ≡ line_of (texts words.now)) }
{
    let Some((command, rest)) = words.split_first() else {
        return Ok(None);
    };
    let Some(name) = read_topic(command.as_str()) else {
        return Ok(None);
    };
    let Some(read) = read_words(alloc, rest)? else {
        return Ok(None);
    };
    Ok(read_command(name, &read))
}
