//! The options of a reparent.

ghost use Rattle.std.specs.Prelude.{◌≡◌, ◌<◌, ◌≤◌, [], None, true, drop, length, map, IfOk, IfSome};
ghost use Rattle.script_commands.specs.Options.{no_options, alias_once, duration_once, with_alias, aliases_on, aliases_once, with_new_primary, with_avoid, with_ignored, with_expected, with_timeout, with_value, begins_dash, with_given, key_reading, with_pending, with_key, with_allowed, with_prevented, with_name, equals_place, with_pair, with_option_at, with_short, begins_short, with_option, with_shard, with_free_word, with_word_for, with_word, with_words, options_of};

use crate::number::read_duration;
use crate::parts::parts_of;
use shard_base::{Items, OutOfMemory};
use shard_names::{Alias, ShardName};
use std::alloc::Global;

/// An option that has a value.
#[derive(Clone, Copy)]
pub enum Key {
    NewPrimary,
    Avoid,
    Ignored,
    Expected,
    Timeout,
}

/// What the words of a reparent have said so far.
#[derive(Drop)]
pub(crate) struct Options {
    /// The option whose value the next word is.
    pub(crate) pending: Option<Key>,
    /// Whether `--` came: no word behind it is an option.
    pub(crate) ended: bool,
    pub(crate) shard: Option<ShardName>,
    pub(crate) new_primary: Option<Alias>,
    pub(crate) avoid: Option<Alias>,
    /// The tablets that are to be left out, as they were given: none where the option was not.
    pub(crate) ignored: Items<Alias>,
    pub(crate) expected: Option<Alias>,
    /// In milliseconds.
    pub(crate) timeout: Option<u64>,
    pub(crate) allow_cross_cell: bool,
    pub(crate) prevent_cross_cell: bool,
}

fn no_options(alloc: Global) -> Options
    ensures { result ≡ no_options }
{
    Options {
        pending: None,
        ended: false,
        shard: None,
        new_primary: None,
        avoid: None,
        ignored: Items::new(alloc),
        expected: None,
        timeout: None,
        allow_cross_cell: false,
        prevent_cross_cell: false,
    }
}

/// The alias, where there is none yet.
#[tactic(auto, unfolding(crate::specs::Options::alias_once))]
fn alias_once(known: &Option<Alias>, text: &[u8]) -> Option<Alias>
    ensures { result ≡ alias_once known.now text.now }
{
    if known.is_some() {
        return None;
    }
    Alias::read(text).ok()
}

/// The milliseconds of a duration, where there are none yet.
#[tactic(auto, unfolding(crate::specs::Options::duration_once))]
fn duration_once(known: &Option<u64>, text: &[u8]) -> Option<u64>
    ensures { result ≡ duration_once known.now text.now }
{
    if known.is_some() {
        return None;
    }
    read_duration(text)
}

/// The aliases with the one that the part is.
#[tactic(auto, unfolding(crate::specs::Options::with_alias))]
fn with_alias(aliases: Items<Alias>, part: &[u8]) -> Result<Option<Items<Alias>>, OutOfMemory>
    ensures { IfOk result (λ more. more ≡ with_alias aliases part.now) }
{
    let Some(alias) = Alias::read(part).ok() else {
        return Ok(None);
    };
    let mut aliases = aliases;
    aliases.push(alias)?;
    Ok(Some(aliases))
}

/// The aliases that the parts are.
fn read_aliases(alloc: Global, parts: &[&[u8]]) -> Result<Option<Items<Alias>>, OutOfMemory>
    ensures { IfOk result (λ aliases. aliases ≡ aliases_on [] (map (λ p. p.now) parts.now)) }
{
    let mut aliases = Items::new(alloc);
    for part in parts {
        let Some(more) = with_alias(aliases, part)? else {
            return Ok(None);
        };
        aliases = more;
    }
    Ok(Some(aliases))
}

/// The aliases with commas between them, where there are none yet.
#[tactic(auto, unfolding(crate::specs::Options::aliases_once))]
fn aliases_once(
    alloc: Global,
    known: &Items<Alias>,
    text: &[u8],
) -> Result<Option<Items<Alias>>, OutOfMemory>
    ensures { IfOk result (λ aliases. aliases ≡ aliases_once known.now text.now) }
{
    if !known.is_empty() {
        return Ok(None);
    }
    let parts = parts_of(alloc, text, b',')?;
    read_aliases(alloc, &parts)
}

#[tactic(auto, unfolding(crate::specs::Options::with_new_primary))]
fn with_new_primary(options: Options, text: &[u8]) -> Option<Options>
    ensures { result ≡ with_new_primary options text.now }
{
    let mut options = options;
    let alias = alias_once(&options.new_primary, text)?;
    options.new_primary = Some(alias);
    Some(options)
}

#[tactic(auto, unfolding(crate::specs::Options::with_avoid))]
fn with_avoid(options: Options, text: &[u8]) -> Option<Options>
    ensures { result ≡ with_avoid options text.now }
{
    let mut options = options;
    let alias = alias_once(&options.avoid, text)?;
    options.avoid = Some(alias);
    Some(options)
}

#[tactic(auto, unfolding(crate::specs::Options::with_ignored))]
fn with_ignored(
    alloc: Global,
    options: Options,
    text: &[u8],
) -> Result<Option<Options>, OutOfMemory>
    ensures { IfOk result (λ new. new ≡ with_ignored options text.now) }
{
    let mut options = options;
    let Some(aliases) = aliases_once(alloc, &options.ignored, text)? else {
        return Ok(None);
    };
    options.ignored = aliases;
    Ok(Some(options))
}

#[tactic(auto, unfolding(crate::specs::Options::with_expected))]
fn with_expected(options: Options, text: &[u8]) -> Option<Options>
    ensures { result ≡ with_expected options text.now }
{
    let mut options = options;
    let alias = alias_once(&options.expected, text)?;
    options.expected = Some(alias);
    Some(options)
}

#[tactic(auto, unfolding(crate::specs::Options::with_timeout))]
fn with_timeout(options: Options, text: &[u8]) -> Option<Options>
    ensures { result ≡ with_timeout options text.now }
{
    let mut options = options;
    let milliseconds = duration_once(&options.timeout, text)?;
    options.timeout = Some(milliseconds);
    Some(options)
}

/// The options with the value of one more.
fn with_value(
    alloc: Global,
    options: Options,
    key: Key,
    text: &[u8],
) -> Result<Option<Options>, OutOfMemory>
    ensures { IfOk result (λ new. new ≡ with_value options key text.now) }
{
    match key {
        Key::NewPrimary => Ok(with_new_primary(options, text)),
        Key::Avoid => Ok(with_avoid(options, text)),
        Key::Ignored => with_ignored(alloc, options, text),
        Key::Expected => Ok(with_expected(options, text)),
        Key::Timeout => Ok(with_timeout(options, text)),
    }
}

/// Whether a word begins with a dash, as no value does.
pub fn begins_dash(text: &[u8]) -> bool
    ensures { result ≡ begins_dash text.now }
{
    text.first().is_some_and(|byte| *byte == b'-')
}

/// The options with the value of one more, which does not begin with a dash.
#[tactic(auto, unfolding(crate::specs::Options::with_given))]
fn with_given(
    alloc: Global,
    options: Options,
    key: Key,
    text: &[u8],
) -> Result<Option<Options>, OutOfMemory>
    ensures { IfOk result (λ new. new ≡ with_given options key text.now) }
{
    if begins_dash(text) {
        return Ok(None);
    }
    with_value(alloc, options, key, text)
}

/// The option of this name, if it has a value.
pub fn read_key(text: &[u8]) -> Option<Key>
    ensures { result ≡ key_reading text.now }
{
    if text == b"--new-primary".as_slice() {
        Some(Key::NewPrimary)
    } else if text == b"--avoid-primary".as_slice() {
        Some(Key::Avoid)
    } else if text == b"--ignore-replicas".as_slice() {
        Some(Key::Ignored)
    } else if text == b"--expected-primary".as_slice() {
        Some(Key::Expected)
    } else if text == b"--wait-replicas-timeout".as_slice() {
        Some(Key::Timeout)
    } else {
        None
    }
}

/// The options where the next word is the value of this one.
fn with_pending(options: Options, key: Key) -> Options
    ensures { result ≡ with_pending options key }
{
    let mut options = options;
    options.pending = Some(key);
    options
}

#[tactic(auto, unfolding(crate::specs::Options::with_key))]
fn with_key(options: Options, word: &[u8]) -> Option<Options>
    ensures { result ≡ with_key options word.now }
{
    let key = read_key(word)?;
    Some(with_pending(options, key))
}

fn with_allowed(options: Options) -> Option<Options>
    ensures { result ≡ with_allowed options }
{
    if options.allow_cross_cell {
        return None;
    }
    let mut options = options;
    options.allow_cross_cell = true;
    Some(options)
}

fn with_prevented(options: Options) -> Option<Options>
    ensures { result ≡ with_prevented options }
{
    if options.prevent_cross_cell {
        return None;
    }
    let mut options = options;
    options.prevent_cross_cell = true;
    Some(options)
}

/// The options with one that is written without `=`.
fn with_name(options: Options, word: &[u8]) -> Option<Options>
    ensures { result ≡ with_name options word.now }
{
    if word == b"--allow-cross-cell-promotion".as_slice() {
        with_allowed(options)
    } else if word == b"--prevent-cross-cell-promotion".as_slice() {
        with_prevented(options)
    } else {
        with_key(options, word)
    }
}

/// The place of the first `=`.
pub fn find_equals(word: &[u8]) -> Option<usize>
    ensures value { result ≡ equals_place word.now }
    ensures within { IfSome result (λ k. k < length word.now) }
{
    word.iter().position(|byte| *byte == b'=')
}

/// The options with one that is written with its value, behind an `=` at this place.
#[tactic(auto, unfolding(crate::specs::Options::with_pair))]
fn with_pair(
    alloc: Global,
    options: Options,
    word: &[u8],
    place: usize,
) -> Result<Option<Options>, OutOfMemory>
    requires { place < length word.now }
    ensures { IfOk result (λ new. new ≡ with_pair options word.now place) }
{
    match read_key(&word[..place]) {
        Some(key) => with_given(alloc, options, key, &word[place + 1..]),
        None => Ok(None),
    }
}

fn with_option_at(
    alloc: Global,
    options: Options,
    word: &[u8],
    place: Option<usize>,
) -> Result<Option<Options>, OutOfMemory>
    requires { IfSome place (λ k. k < length word.now) }
    ensures { IfOk result (λ new. new ≡ with_option_at options word.now place) }
{
    match place {
        None => Ok(with_name(options, word)),
        Some(place) => with_pair(alloc, options, word, place),
    }
}

/// The options with what stands behind `-i`: nothing, `=` and the value, or the value.
fn with_short(
    alloc: Global,
    options: Options,
    behind: &[u8],
) -> Result<Option<Options>, OutOfMemory>
    ensures { IfOk result (λ new. new ≡ with_short options behind.now) }
{
    match behind.split_first() {
        None => Ok(Some(with_pending(options, Key::Ignored))),
        Some((byte, value)) => {
            if *byte == b'=' {
                return with_given(alloc, options, Key::Ignored, value);
            }
            with_given(alloc, options, Key::Ignored, behind)
        }
    }
}

/// Whether a word begins as the short option `-i`.
pub fn begins_short(word: &[u8]) -> bool
    ensures { result ≡ begins_short word.now }
{
    word.starts_with(b"-i")
}

/// The options with `--`: no word behind it is one.
fn with_end(options: Options) -> Options
    ensures { result ≡ record options { ended = true } }
{
    let mut options = options;
    options.ended = true;
    options
}

/// What stands behind `-i`.
pub fn behind_short(word: &[u8]) -> &[u8]
    requires { 2 ≤ length word.now }
    ensures { result.now ≡ drop 2 word.now }
{
    &word[2..]
}

#[tactic(auto, unfolding(crate::specs::Options::with_option))]
fn with_option(alloc: Global, options: Options, word: &[u8]) -> Result<Option<Options>, OutOfMemory>
    ensures { IfOk result (λ new. new ≡ with_option options word.now) }
{
    if word == b"--".as_slice() {
        return Ok(Some(with_end(options)));
    }
    if begins_short(word) {
        return with_short(alloc, options, behind_short(word));
    }
    with_option_at(alloc, options, word, find_equals(word))
}

#[tactic(auto, unfolding(crate::specs::Options::with_shard))]
fn with_shard(options: Options, word: &[u8]) -> Option<Options>
    ensures { result ≡ with_shard options word.now }
{
    if options.shard.is_some() {
        return None;
    }
    let mut options = options;
    let name = ShardName::read(word)?;
    options.shard = Some(name);
    Some(options)
}

/// The options with a word that is no value.
fn with_free_word(
    alloc: Global,
    options: Options,
    word: &[u8],
) -> Result<Option<Options>, OutOfMemory>
    ensures { IfOk result (λ new. new ≡ with_free_word options word.now) }
{
    if options.ended || !begins_dash(word) {
        return Ok(with_shard(options, word));
    }
    with_option(alloc, options, word)
}

/// The options where no word has to be a value.
fn without_pending(options: Options) -> Options
    ensures { result ≡ record options { pending = None } }
{
    let mut options = options;
    options.pending = None;
    options
}

/// The options with one more word.
#[tactic(auto, unfolding(crate::specs::Options::with_word))]
fn with_word(alloc: Global, options: Options, word: &[u8]) -> Result<Option<Options>, OutOfMemory>
    ensures { IfOk result (λ new. new ≡ with_word options word.now) }
{
    match options.pending {
        None => with_free_word(alloc, options, word),
        Some(key) => with_given(alloc, without_pending(options), key, word),
    }
}

/// The options that words are.
#[tactic(auto, unfolding(crate::specs::Options::options_of))]
pub(crate) fn options_of(alloc: Global, words: &[&[u8]]) -> Result<Option<Options>, OutOfMemory>
    ensures { IfOk result (λ options. options ≡ options_of (map (λ w. w.now) words.now)) }
{
    let mut options = no_options(alloc);
    for word in words {
        let Some(next) = with_word(alloc, options, word)? else {
            return Ok(None);
        };
        options = next;
    }
    Ok(Some(options))
}
