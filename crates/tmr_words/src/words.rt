//! The words behind the command word: plain words and options.
ghost use Rattle.std.specs.Prelude.{◌≡◌, IfOk, OnOk};
ghost use Rattle.std.specs.Option.{option_map};
ghost use Rattle.tmr_words.specs.Words.{texts, has_no_options, has_plain_words_alone, has_versions_alone, has_no_sizes, limits_of, setting_text, equals_text, has_dash, is_option, both, words_of};
ghost use Rattle.tmr_words.specs.Private.WordByWord.{take_setting, take_large, take_option, take_word, at_end};
ghost use Rattle.tmr_words.specs.Private.WordsRead.{words_in, item_in, taken_in};

use limits::Limits;
use std::alloc::{AllocError, Global};

/// An option that has a value.
#[derive(Clone, Copy, Debug, PartialEq, Eq, Drop)]
pub enum Setting {
    Size,
    Version,
    Depth,
    Form,
}

/// How the next word is read: options are looked for, or this option waits for its value, or all
/// words are plain.
#[derive(Clone, Copy, Debug, PartialEq, Eq, Drop)]
pub enum Mode {
    Options,
    Value(Setting),
    Plain,
}

/// The words behind a command word: the plain words, the values that the options are given, and
/// `--large`, as often as it stands there.
#[derive(Drop)]
pub struct ReadWords<'a> {
    pub plain: Vec<&'a str>,
    pub sizes: Vec<&'a [u8]>,
    pub versions: Vec<&'a [u8]>,
    pub depths: Vec<&'a [u8]>,
    pub forms: Vec<&'a [u8]>,
    pub larges: Vec<&'a str>,
}

/// What a word adds.
#[derive(Clone, Copy, Drop)]
pub enum Item<'a> {
    Nothing,
    Plain(&'a str),
    Given(Setting, &'a [u8]),
    Large(&'a str),
}

/// What a word adds, and how the next one is read.
#[derive(Clone, Copy, Drop)]
pub struct TakenWord<'a> {
    pub item: Item<'a>,
    pub next: Mode,
}

/// Whether no option but `--large` is given.
pub fn has_no_options(words: &ReadWords) -> bool
    ensures { result ≡ has_no_options (words_in words.now) }
{
    words.sizes.is_empty()
        && words.versions.is_empty()
        && words.depths.is_empty()
        && words.forms.is_empty()
}

/// Whether no option is given, and no `--large`.
pub fn is_plain(words: &ReadWords) -> bool
    ensures { result ≡ has_plain_words_alone (words_in words.now) }
{
    has_no_options(words) && words.larges.is_empty()
}

/// The limits that hold: the large ones where `--large` stands there once.
pub fn read_limits(words: &ReadWords) -> Option<Limits>
    ensures { result ≡ limits_of (words_in words.now) }
{
    match words.larges.as_slice() {
        [] => Some(Limits::Usual),
        [_] => Some(Limits::Large),
        _ => None,
    }
}

/// Whether no option but `--cert` and `--large` is given.
pub fn has_versions_alone(words: &ReadWords) -> bool
    ensures { result ≡ has_versions_alone (words_in words.now) }
{
    words.sizes.is_empty() && words.depths.is_empty() && words.forms.is_empty()
}

/// Whether `--size` is not given.
pub fn has_no_sizes(words: &ReadWords) -> bool
    ensures { result ≡ has_no_sizes (words_in words.now) }
{
    words.sizes.is_empty()
}

/// How an option is written, alone and before its value.
fn setting_words(setting: Setting) -> (&'static [u8], &'static [u8])
    ensures alone { result.0.now ≡ setting_text setting }
    ensures equals { result.1.now ≡ equals_text setting }
{
    match setting {
        Setting::Size => (b"--size".as_slice(), b"--size=".as_slice()),
        Setting::Version => (b"--cert".as_slice(), b"--cert=".as_slice()),
        Setting::Depth => (b"--depth".as_slice(), b"--depth=".as_slice()),
        Setting::Form => (b"--form".as_slice(), b"--form=".as_slice()),
    }
}

/// What the word says of this option, where it is written so, or else what is said otherwise.
fn take_one<'a>(
    setting: Setting,
    word: &'a str,
    otherwise: Option<TakenWord<'a>>,
) -> Option<TakenWord<'a>>
    ensures { option_map taken_in result ≡ take_setting setting word.now (option_map taken_in otherwise.entry) }
{
    let (alone, equals) = setting_words(setting);
    let bytes = word.as_bytes();
    if bytes == alone {
        return Some(TakenWord {
            item: Item::Nothing,
            next: Mode::Value(setting),
        });
    }
    match bytes.strip_prefix(equals) {
        Some(value) => Some(TakenWord {
            item: Item::Given(setting, value),
            next: Mode::Options,
        }),
        None => otherwise,
    }
}

/// What the word says where it is `--large`, or else what is said otherwise.
fn take_large<'a>(word: &'a str, otherwise: Option<TakenWord<'a>>) -> Option<TakenWord<'a>>
    ensures { option_map taken_in result ≡ take_large word.now (option_map taken_in otherwise.entry) }
{
    if word == "--large" {
        return Some(TakenWord {
            item: Item::Large(word),
            next: Mode::Options,
        });
    }
    otherwise
}

/// What an option says, or nothing where it is none that is known.
#[tactic(auto, unfolding(crate::specs::Private::WordByWord::take_option))]
fn take_known<'a>(word: &'a str) -> Option<TakenWord<'a>>
    ensures { option_map taken_in result ≡ take_option word.now }
{
    let large = take_large(word, None);
    let form = take_one(Setting::Form, word, large);
    let depth = take_one(Setting::Depth, word, form);
    let version = take_one(Setting::Version, word, depth);
    take_one(Setting::Size, word, version)
}

/// Whether a word begins with `-`.
fn begins_with_dash(word: &str) -> bool
    ensures { result ≡ has_dash word.now }
{
    let bytes = word.as_bytes();
    bytes.len() > 0 && bytes[0] == b'-'
}

/// A word of two or more bytes that begins with `-`.
fn is_option_word(word: &str) -> bool
    ensures { result ≡ is_option word.now }
{
    word.as_bytes().len() > 1 && begins_with_dash(word)
}

/// What a word adds, and how the next one is read, or nothing where it cannot stand there.
#[tactic(auto, unfolding(crate::specs::Private::WordByWord::take_word))]
fn next_word<'a>(mode: Mode, word: &'a str) -> Option<TakenWord<'a>>
    ensures { option_map taken_in result ≡ take_word mode word.now }
{
    match mode {
        Mode::Plain => Some(TakenWord {
            item: Item::Plain(word),
            next: Mode::Plain,
        }),
        Mode::Value(setting) => {
            if begins_with_dash(word) {
                return None;
            }
            Some(TakenWord {
                item: Item::Given(setting, word.as_bytes()),
                next: Mode::Options,
            })
        }
        Mode::Options => {
            if word == "--" {
                return Some(TakenWord {
                    item: Item::Nothing,
                    next: Mode::Plain,
                });
            }
            if is_option_word(word) {
                return take_known(word);
            }
            Some(TakenWord {
                item: Item::Plain(word),
                next: Mode::Options,
            })
        }
    }
}

/// Adds what a word adds.
fn add<'a>(words: &mut ReadWords<'a>, item: Item<'a>) -> Result<(), AllocError>
    ensures { OnOk result (words_in words.new ≡ both (words_in words.old) (item_in item.entry)) }
{
    match item {
        Item::Nothing => {}
        Item::Plain(word) => words.plain.push(word)?,
        Item::Given(Setting::Size, value) => words.sizes.push(value)?,
        Item::Given(Setting::Version, value) => words.versions.push(value)?,
        Item::Given(Setting::Depth, value) => words.depths.push(value)?,
        Item::Given(Setting::Form, value) => words.forms.push(value)?,
        Item::Large(word) => words.larges.push(word)?,
    }
    Ok(())
}

/// All words, or nothing where an option still waits for its value.
#[tactic(auto, using(crate::proofs::WordLaws::ends))]
fn ended<'a>(mode: Mode, read: ReadWords<'a>) -> Option<ReadWords<'a>>
    ensures { option_map words_in result ≡ option_map (both (words_in read.entry)) (at_end mode) }
{
    match mode {
        Mode::Value(_) => None,
        Mode::Options | Mode::Plain => Some(read),
    }
}

/// The words, or nothing where one of them cannot stand where it does.
pub fn read_words<'a>(
    alloc: Global,
    words: &'a [String],
) -> Result<Option<ReadWords<'a>>, AllocError>
    ensures { IfOk result (λ read. option_map words_in read ≡ words_of (texts words.now)) }
{
    let mut read = ReadWords {
        plain: Vec::new(alloc),
        sizes: Vec::new(alloc),
        versions: Vec::new(alloc),
        depths: Vec::new(alloc),
        forms: Vec::new(alloc),
        larges: Vec::new(alloc),
    };
    let mut mode = Mode::Options;
    for word in words {
        match next_word(mode, word.as_str()) {
            None => return Ok(None),
            Some(taken) => {
                add(&mut read, taken.item)?;
                mode = taken.next;
            }
        }
    }
    Ok(ended(mode, read))
}
