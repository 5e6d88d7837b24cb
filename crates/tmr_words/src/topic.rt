//! The commands by their names, and how each is called.
ghost use Rattle.std.specs.Prelude.{◌≡◌};
ghost use Rattle.tmr_words.specs.Topics.{topic_of, commands, call_of, help_of};
ghost use Rattle.tmr_words.specs.FileWords.{read_words as read_texts};

/// A command by its name, which `help COMMAND` can tell of.
#[derive(Clone, Copy, Debug, PartialEq, Eq, Drop)]
pub enum Topic {
    Validate,
    Harden,
    Flatten,
    Replay,
    Report,
    Trial,
    Guard,
    CheckGuard,
    WriteGraph,
    ReadGraph,
    Wave,
    Certify,
    Exposure,
    Sweep,
    Explain,
    Campaign,
    Picture,
    Help,
    Version,
}

/// The command that a word names.
#[tactic(auto, unfolding(crate::specs::Topics::topic_of))]
pub fn read_topic(word: &str) -> Option<Topic>
    ensures { result ≡ topic_of word.now }
{
    match word {
        "validate" => Some(Topic::Validate),
        "harden" => Some(Topic::Harden),
        "flatten" => Some(Topic::Flatten),
        "replay" => Some(Topic::Replay),
        "report" => Some(Topic::Report),
        "trial" => Some(Topic::Trial),
        "guard" => Some(Topic::Guard),
        "guarded" => Some(Topic::CheckGuard),
        "to-aag" => Some(Topic::WriteGraph),
        "from-aag" => Some(Topic::ReadGraph),
        "wave" => Some(Topic::Wave),
        "certify" => Some(Topic::Certify),
        "exposure" => Some(Topic::Exposure),
        "sweep" => Some(Topic::Sweep),
        "explain" => Some(Topic::Explain),
        "campaign" => Some(Topic::Campaign),
        "picture" => Some(Topic::Picture),
        "help" => Some(Topic::Help),
        "version" => Some(Topic::Version),
        _ => None,
    }
}

/// All commands, in the order in which they are told of.
pub fn commands() -> [Topic; 19]
    ensures { result ≡ commands }
{
    [
        Topic::Validate,
        Topic::Harden,
        Topic::Flatten,
        Topic::Replay,
        Topic::Report,
        Topic::Trial,
        Topic::Guard,
        Topic::CheckGuard,
        Topic::WriteGraph,
        Topic::ReadGraph,
        Topic::Wave,
        Topic::Certify,
        Topic::Exposure,
        Topic::Sweep,
        Topic::Explain,
        Topic::Campaign,
        Topic::Picture,
        Topic::Help,
        Topic::Version,
    ]
}

/// How a command is called: its name, its files and other words, and its options.
pub fn call_of(command: Topic) -> &'static str
    ensures { result.now ≡ call_of command }
{
    match command {
        Topic::Validate => "validate ORIG HARD CERT",
        Topic::Harden => "harden ORIG HARD CERT [--size S] [--cert V] [--depth D] [--form F]",
        Topic::Flatten => "flatten ORIG FLAT",
        Topic::Replay => "replay ORIG HARD CERT SCHED",
        Topic::Report => "report ORIG HARD CERT",
        Topic::Trial => "trial NUMBER NODES",
        Topic::Guard => "guard ORIG GUARDED",
        Topic::CheckGuard => "guarded ORIG GUARDED",
        Topic::WriteGraph => "to-aag ORIG AAG",
        Topic::ReadGraph => "from-aag AAG FLAT",
        Topic::Wave => "wave ORIG HARD CERT SCHED VCD",
        Topic::Certify => "certify ORIG HARD CERT [--cert V]",
        Topic::Exposure => "exposure ORIG HARD CERT",
        Topic::Sweep => "sweep ORIG [--cert V] [--depth D] [--form F]",
        Topic::Explain => "explain ORIG HARD CERT",
        Topic::Campaign => "campaign ORIG HARD CERT NUMBER CYCLES [near]",
        Topic::Picture => "picture ORIG HARD CERT DOT",
        Topic::Help => "help [COMMAND]",
        Topic::Version => "version",
    }
}

/// What is asked for behind `help`: all commands, where there is no word, or one, where there is one word and it names a command.
#[tactic(auto, unfolding(crate::specs::Topics::help_of))]
pub fn read_help_words(plain: &[&str]) -> Option<Option<Topic>>
    ensures { result ≡ help_of (read_texts plain.now) }
{
    match plain {
        [] => Some(None),
        [word] => match read_topic(*word) {
            None => None,
            Some(topic) => Some(Some(topic)),
        },
        _ => None,
    }
}
