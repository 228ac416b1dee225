ghost use Rattle.std.specs.Prelude.{◌≡◌, ◌≤◌, ◌<◌, ◌==◌, ◌&&◌, [], ◌∷◌, ◌++◌, map, position, length, IfOk, IfSome, OnOk, Some, None, if◌then◌else◌};
ghost use Rattle.std.specs.List.{list_all};
ghost use Rattle.std.specs.Str.{bytes_eq};
ghost use Rattle.shard_names.specs.Tablets.{alias_eq};
ghost use Rattle.shard_script.specs.Names.{has_name, started_by};
ghost use Rattle.shard_script.specs.Aliases.{aliases_in, aliases_at};
ghost use Rattle.shard_script.specs.Faults.{fault_of, fault_in, first_fault, line_reading, line_fault, IsAdded, IsRead, Gives};
ghost use Rattle.shard_script.specs.Script.{all_declared, first_bytes, place_among, has_alias, has_server, shard_eq, is_shard, is_below, in_place, admits_tablet, admits_clock, admits_command, admits_name, admits_action, admits, with_line, with_words, with_bytes, begins_newline, kept_byte, without_returns, all_parts, ended_parts, lines_of, ended_lines, empty_script, read_lines, fault_behind, reading, Fits};

use crate::fault::fault_of;
use crate::line::{Line, is_plain, line_of_words, say_nothing, words_of};
use durability::Durability;
use script_commands::parts_of;
use script_faults::Fault;
use shard_base::{Items, OutOfMemory};
use shard_calls::{Command, Side};
use shard_names::{Alias, Name, ShardName, Tablet};
use std::alloc::Global;
use thiserror::Error;
use uuid::Uuid;

/// What a script asks for.
#[derive(Drop)]
pub enum Action {
    /// `main` gives the command, so many times, each after the one before has ended.
    Play { command: Command, count: u64 },
    /// The actor of this name begins the command.
    Start { name: Name, command: Command },
    /// The command that the name started goes on, by at most so many events.
    Turn { name: Name, pumps: u64 },
    /// It goes on until it has ended.
    Finish { name: Name },
    /// Messages come and entries are offered, until there is nothing more to come.
    Settle,
    /// An entry is written at the tablet itself, round the primary.
    Local { alias: Alias },
    /// The tablet goes down. Of the bytes that it has not synced the first so many stay.
    Crash { alias: Alias, keep: u64 },
    /// The tablet comes up again.
    Restart { alias: Alias },
    /// No message passes between the two any more.
    Cut { x: Side, y: Side },
    /// Messages pass between them again.
    Mend { x: Side, y: Side },
    /// The message of this number never comes any more.
    Lose { message: u64 },
    /// It comes once more.
    Repeat { message: u64 },
    /// The shard's lock is freed, whoever holds it.
    Lapse,
    /// So many milliseconds go by.
    Tick { ms: u64 },
}

/// A shard, its tablets in alias order, and what is done to it.
#[derive(Drop)]
pub struct Script {
    pub shard: Option<ShardName>,
    /// The shard's durability policy. That of a script without a shard line is `none`.
    pub policy: Durability,
    /// The moment with which the clock begins, in milliseconds since the start of 1970, if a line declares it.
    pub clock: Option<u64>,
    pub tablets: Items<Tablet>,
    /// The names that it starts, in order.
    pub names: Items<Name>,
    pub actions: Items<Action>,
}

/// Why a text is no script.
#[derive(Clone, Copy, Debug, PartialEq, Eq, Error)]
pub enum ScriptFault {
    /// The first line that may not stand there, from 1, and what is wrong with it.
    #[error("a fault in line {line}")]
    Line { line: u64, fault: Fault },
    #[error("out of memory")]
    OutOfMemory,
}

impl From<OutOfMemory> for ScriptFault {
    ghost use Rattle.std.specs.Prelude.{◌≡◌};
    ghost use Rattle.shard_script.specs.declared.script.ScriptFault.TheVariants.{OutOfMemory as NoMemory};

    ghost from_gives = { λ _ e. e ≡ NoMemory };

    fn from(_e: OutOfMemory) -> ScriptFault {
        ScriptFault::OutOfMemory
    }
}

fn same_alias(a: &Alias, b: &Alias) -> bool
    ensures { result ≡ alias_eq a.now b.now }
{
    a == b
}

fn same_server(a: &Uuid, b: &Uuid) -> bool
    ensures { result ≡ bytes_eq a.now b.now }
{
    a == b
}

fn same_shard(a: &ShardName, b: &ShardName) -> bool
    ensures { result ≡ shard_eq a.now b.now }
{
    a == b
}

fn is_below(a: &Alias, b: &Alias) -> bool
    ensures { result ≡ is_below a.now b.now }
{
    a < b
}

pub(crate) fn has_alias(tablets: &[Tablet], alias: &Alias) -> bool
    ensures { result ≡ has_alias tablets.now alias.now }
{
    tablets.iter().any(|t| same_alias(&t.alias, alias))
}

pub(crate) fn has_server(tablets: &[Tablet], server: &Uuid) -> bool
    ensures { result ≡ has_server tablets.now server.now }
{
    tablets.iter().any(|t| same_server(&t.server, server))
}

fn same_name(a: &Name, b: &Name) -> bool
    ensures { result ≡ bytes_eq a.now b.now }
{
    a == b
}

pub(crate) fn has_name(names: &[Name], name: &Name) -> bool
    ensures { result ≡ has_name names.now name.now }
{
    names.iter().any(|n| same_name(name, n))
}

fn is_shard(shard: &Option<ShardName>, name: &ShardName) -> bool
    ensures { result ≡ is_shard shard.now name.now }
{
    match shard {
        Some(s) => same_shard(s, name),
        None => false,
    }
}

/// The most tablets of a script.
pub(crate) const MOST_TABLETS: usize = 32;

/// The most names that a script starts.
pub(crate) const MOST_NAMES: usize = 16;

/// The most lines of a script.
const MOST_LINES: u64 = 20_000;

/// The most bytes of a script.
const MOST_BYTES: usize = 1_048_576;

fn admits_tablet(script: &Script, tablet: &Tablet) -> bool
    ensures { result ≡ admits_tablet script.now tablet.now }
{
    script.shard.is_some()
        && script.actions.is_empty()
        && script.tablets.len() < MOST_TABLETS
        && !has_alias(script.tablets.as_slice(), &tablet.alias)
        && !has_server(script.tablets.as_slice(), &tablet.server)
}

fn admits_clock(script: &Script) -> bool
    ensures { result ≡ admits_clock script.now }
{
    script.shard.is_some() && script.actions.is_empty() && script.clock.is_none()
}

fn admits_command(script: &Script, command: &Command) -> bool
    ensures { result ≡ admits_command script.now command.now }
{
    match command {
        Command::Planned { shard, .. } => is_shard(&script.shard, shard),
        Command::Emergency { shard, .. } => is_shard(&script.shard, shard),
        Command::External { .. } => true,
        Command::Vtorc => true,
        Command::Write { .. } => true,
        Command::Show { .. } => true,
        Command::GetShard { shard } => is_shard(&script.shard, shard),
        Command::GetTablets { shard } => is_shard(&script.shard, shard),
    }
}

fn admits_name(script: &Script, name: &Name) -> bool
    ensures { result ≡ admits_name script.now name.now }
{
    script.names.len() < MOST_NAMES && !has_name(script.names.as_slice(), name)
}

/// Whether the tablet that a command writes at or shows is among these.
fn command_declared(tablets: &[Tablet], command: &Command) -> bool
    ensures { result ≡ list_all (has_alias tablets.now) (aliases_in command.now) }
{
    match command {
        Command::Planned { .. } => true,
        Command::Emergency { .. } => true,
        Command::External { .. } => true,
        Command::Vtorc => true,
        Command::Write { to } => match to {
            Some(alias) => has_alias(tablets, alias),
            None => true,
        },
        Command::Show { alias } => has_alias(tablets, alias),
        Command::GetShard { .. } => true,
        Command::GetTablets { .. } => true,
    }
}

fn side_declared(tablets: &[Tablet], side: &Side) -> bool
    ensures { result ≡ list_all (has_alias tablets.now) (aliases_at side.now) }
{
    match side {
        Side::Control => true,
        Side::Tablet { alias } => has_alias(tablets, alias),
    }
}

/// Whether the tablets that an action names are among these.
fn all_declared(tablets: &[Tablet], action: &Action) -> bool
    ensures { result ≡ all_declared tablets.now action.now }
{
    match action {
        Action::Play { command, .. } => command_declared(tablets, command),
        Action::Start { command, .. } => command_declared(tablets, command),
        Action::Turn { .. } => true,
        Action::Finish { .. } => true,
        Action::Settle => true,
        Action::Local { alias } => has_alias(tablets, alias),
        Action::Crash { alias, .. } => has_alias(tablets, alias),
        Action::Restart { alias } => has_alias(tablets, alias),
        Action::Cut { x, y } => side_declared(tablets, x) && side_declared(tablets, y),
        Action::Mend { x, y } => side_declared(tablets, x) && side_declared(tablets, y),
        Action::Lose { .. } => true,
        Action::Repeat { .. } => true,
        Action::Lapse => true,
        Action::Tick { .. } => true,
    }
}

/// Whether an action may stand behind the shard and the actions so far.
fn admits_action(script: &Script, action: &Action) -> bool
    ensures { result ≡ admits_action script.now action.now }
{
    match action {
        Action::Play { command, .. } => admits_command(script, command),
        Action::Start { name, command } => {
            admits_command(script, command) && admits_name(script, name)
        }
        Action::Turn { name, .. } => has_name(script.names.as_slice(), name),
        Action::Finish { name } => has_name(script.names.as_slice(), name),
        Action::Settle => true,
        Action::Local { .. } => true,
        Action::Crash { .. } => true,
        Action::Restart { .. } => true,
        Action::Cut { .. } => true,
        Action::Mend { .. } => true,
        Action::Lose { .. } => true,
        Action::Repeat { .. } => true,
        Action::Lapse => true,
        Action::Tick { .. } => true,
    }
}

/// Whether a line may stand behind the script so far.
fn admits(script: &Script, line: &Line) -> bool
    ensures { result ≡ admits script.now line.now }
{
    match line {
        Line::Shard { .. } => script.shard.is_none(),
        Line::Tablet { tablet } => admits_tablet(script, tablet),
        Line::Clock { .. } => admits_clock(script),
        Line::Act { action } => {
            script.shard.is_some()
                && admits_action(script, action)
                && all_declared(script.tablets.as_slice(), action)
        }
    }
}

/// The place of the first tablet above the alias.
fn find_above(tablets: &[Tablet], alias: &Alias) -> Option<usize>
    ensures value { result ≡ position (λ t. is_below alias.now t.alias) tablets.now }
    ensures within { IfSome result (λ place. place < length tablets.now) }
{
    tablets.iter().position(|t| is_below(alias, &t.alias))
}

/// The place of the first tablet above the alias, or the end.
fn place_of(tablets: &[Tablet], alias: &Alias) -> usize
    ensures within { result ≤ length tablets.now }
    ensures place { result ≡ place_among tablets.now alias.now }
{
    match find_above(tablets, alias) {
        Some(place) => place,
        None => tablets.len(),
    }
}

/// The tablets with one more, in alias order.
fn insert_tablet(tablets: Items<Tablet>, tablet: Tablet) -> Result<Items<Tablet>, OutOfMemory>
    ensures { IfOk result (λ new. new ≡ in_place tablet tablets) }
{
    let place = place_of(tablets.as_slice(), &tablet.alias);
    let mut list = tablets.into_vec();
    list.insert(place, tablet)?;
    Ok(Items::from_vec(list))
}

/// The names with the one that the action starts.
fn with_started(names: Items<Name>, action: &Action) -> Result<Items<Name>, OutOfMemory>
    ensures { IfOk result (λ new. new ≡ names ++ started_by action.now) }
{
    let mut names = names;
    if let Action::Start { name, .. } = action {
        names.push(*name)?;
    }
    Ok(names)
}

/// The actions with one more.
fn with_action(actions: Items<Action>, action: Action) -> Result<Items<Action>, OutOfMemory>
    ensures { IfOk result (λ new. new ≡ actions ++ action ∷ []) }
{
    let _command: Option<&Command> = None;
    let _to: Option<&Option<Alias>> = None;
    let _ignored: Option<&Items<Alias>> = None;
    let _side: Option<&Side> = None;
    let mut actions = actions;
    actions.push(action)?;
    Ok(actions)
}

/// The script with one more line.
fn with_line(script: Script, line: Line) -> Result<Script, OutOfMemory>
    ensures { IfOk result (λ new. new ≡ with_line script line) }
{
    let Script {
        mut shard,
        mut policy,
        mut clock,
        mut tablets,
        mut names,
        mut actions,
    } = script;
    match line {
        Line::Shard {
            name,
            policy: declared,
        } => {
            shard = Some(name);
            policy = declared;
        }
        Line::Tablet { tablet } => tablets = insert_tablet(tablets, tablet)?,
        Line::Clock { moment } => clock = Some(moment),
        Line::Act { action } => {
            names = with_started(names, &action)?;
            actions = with_action(actions, action)?;
        }
    }
    Ok(Script {
        shard,
        policy,
        clock,
        tablets,
        names,
        actions,
    })
}

/// The script with the line that the words spell, or the same script where it may not stand there.
#[tactic(auto, unfolding(crate::specs::Script::with_words))]
fn with_words(
    alloc: Global,
    script: Script,
    words: &[&[u8]],
) -> Result<Result<Script, Script>, OutOfMemory>
    ensures { IfOk result (λ new. IsAdded script new (with_words script (map (λ w. w.now) words.now))) }
{
    let Some(line) = line_of_words(alloc, words)? else {
        return Ok(Err(script));
    };
    if !admits(&script, &line) {
        return Ok(Err(script));
    }
    Ok(Ok(with_line(script, line)?))
}

/// The script with the line that the bytes spell, or what is wrong with it.
#[tactic(auto, unfolding(crate::specs::Script::with_bytes))]
fn with_bytes(
    alloc: Global,
    script: Script,
    bytes: &[u8],
) -> Result<Result<Script, Fault>, OutOfMemory>
    ensures { IfOk result (λ new. IsRead new (with_bytes script bytes.now) (fault_of script bytes.now)) }
{
    let words = words_of(alloc, bytes)?;
    if !is_plain(bytes) {
        return Ok(Err(fault_of(&script, bytes, &words)));
    }
    if say_nothing(&words) {
        return Ok(Ok(script));
    }
    match with_words(alloc, script, &words)? {
        Ok(next) => Ok(Ok(next)),
        Err(script) => Ok(Err(fault_of(&script, bytes, &words))),
    }
}

fn begins_newline(text: &[u8]) -> bool
    ensures { result ≡ begins_newline text.now }
{
    text.first().is_some_and(|byte| *byte == b'\n')
}

/// Whether the byte is a carriage return before a newline.
fn is_dropped(byte: u8, rest: &[u8]) -> bool
    ensures { result ≡ ((byte == 13) && begins_newline rest.now) }
{
    byte == b'\r' && begins_newline(rest)
}

/// Adds a byte that others stand behind, unless it is a carriage return before a newline.
fn push_kept(plain: &mut Vec<u8>, byte: u8, rest: &[u8]) -> Result<(), OutOfMemory>
    ensures { OnOk result (plain.new.items ≡ plain.old.items ++ kept_byte byte rest.now) }
{
    if is_dropped(byte, rest) {
        return Ok(());
    }
    plain.push(byte)?;
    Ok(())
}

/// A text without the carriage returns that stand before newlines.
fn without_returns(alloc: Global, text: &[u8]) -> Result<Vec<u8>, OutOfMemory>
    ensures { IfOk result (λ plain. plain.items ≡ without_returns text.now) }
{
    let mut plain = Vec::new(alloc);
    let mut left = text;
    while let Some((byte, rest)) = left.split_first() {
        push_kept(&mut plain, *byte, rest)?;
        left = rest;
    }
    Ok(plain)
}

/// What stands between newlines. The last may be lacking.
fn all_parts(alloc: Global, text: &[u8]) -> Result<Vec<&[u8]>, OutOfMemory>
    ensures { IfOk result (λ lines. map (λ l. l.now) lines.items ≡ all_parts text.now) }
{
    let mut lines = parts_of(alloc, text, b'\n')?;
    let count = lines.len();
    if count > 0 && lines[count - 1].is_empty() {
        lines.truncate(count - 1);
    }
    Ok(lines)
}

/// What stands before newlines.
fn ended_parts(alloc: Global, text: &[u8]) -> Result<Vec<&[u8]>, OutOfMemory>
    ensures { IfOk result (λ lines. map (λ l. l.now) lines.items ≡ ended_parts text.now) }
{
    let mut lines = parts_of(alloc, text, b'\n')?;
    let _rest = lines.pop();
    Ok(lines)
}

/// What is read before the first line.
fn empty_script(alloc: Global) -> Script
    ensures { result ≡ empty_script }
{
    Script {
        shard: None,
        policy: Durability::None,
        clock: None,
        tablets: Items::new(alloc),
        names: Items::new(alloc),
        actions: Items::new(alloc),
    }
}

/// The script with the line at this place, which is counted from 1.
fn read_line(alloc: Global, script: Script, line: u64, bytes: &[u8]) -> Result<Script, ScriptFault>
    ensures { Gives result (line_reading line script bytes.now) (line_fault line script bytes.now) }
{
    if line > MOST_LINES {
        let fault = Fault::Limit;
        return Err(ScriptFault::Line { line, fault });
    }
    match with_bytes(alloc, script, bytes)? {
        Ok(next) => Ok(next),
        Err(fault) => Err(ScriptFault::Line { line, fault }),
    }
}

fn read_lines(alloc: Global, lines: &[&[u8]]) -> Result<Script, ScriptFault>
    ensures { Gives result (read_lines (map (λ l. l.now) lines.now)) (fault_in (map (λ l. l.now) lines.now)) }
{
    let mut script = empty_script(alloc);
    for (index, bytes) in lines.iter().enumerate() {
        script = read_line(alloc, script, index as u64 + 1, bytes)?;
    }
    Ok(script)
}

/// As many bytes as a script may have.
#[tactic(auto, unfolding(crate::specs::Script::first_bytes))]
fn first_bytes(text: &[u8]) -> &[u8]
    requires { 1048576 ≤ length text.now }
    ensures { result.now ≡ first_bytes text.now }
{
    &text[..MOST_BYTES]
}

/// The script that a text of no more bytes spells.
fn read_short(alloc: Global, text: &[u8]) -> Result<Script, ScriptFault>
    ensures { Gives result (read_lines (lines_of text.now)) (fault_in (lines_of text.now)) }
{
    let plain = without_returns(alloc, text)?;
    let lines = all_parts(alloc, &plain)?;
    read_lines(alloc, &lines)
}

/// The first fault of a longer text, of which these are the first bytes.
fn read_cut(alloc: Global, text: &[u8]) -> Result<Script, ScriptFault>
    ensures { Gives result (fault_behind (ended_lines text.now) (read_lines (ended_lines text.now))) (fault_in (ended_lines text.now)) }
{
    let plain = without_returns(alloc, text)?;
    let lines = ended_parts(alloc, &plain)?;
    match read_lines(alloc, &lines) {
        Ok(_) => Err(ScriptFault::Line {
            line: lines.len() as u64 + 1,
            fault: Fault::Limit,
        }),
        Err(fault) => Err(fault),
    }
}

#[tactic(auto, unfolding(crate::specs::Script::reading, crate::specs::Faults::first_fault))]
fn read_whole(alloc: Global, text: &[u8]) -> Result<Script, ScriptFault>
    ensures { Gives result (reading text.now) (first_fault text.now) }
{
    if text.len() <= MOST_BYTES {
        return read_short(alloc, text);
    }
    read_cut(alloc, first_bytes(text))
}

/// The script that a text spells, or the first line that may not stand there with its fault.
pub fn read_text(alloc: Global, text: &[u8]) -> Result<Script, ScriptFault>
    ensures exact { Gives result (reading text.now) (first_fault text.now) }
    ensures fits { IfOk result Fits }
{
    read_whole(alloc, text)
}
