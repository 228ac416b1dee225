ghost use Rattle.std.specs.Prelude.{◌≡◌, map, IfOk};
ghost use Rattle.script_commands.specs.Numbers.{number_within};
ghost use Rattle.script_commands.specs.Commands.{fit_planned, fit_emergency, planned_of, emergency_of, planned_command, emergency_command, write_command, write_to_command, show_command, external_command, get_shard_command, get_tablets_command, command_of_one, command_of_two, command_of_four, short_command, command_of};

use crate::number::read_within;
use crate::options::{Options, options_of};
use shard_base::{Items, OutOfMemory};
use shard_calls::Command;
use shard_names::{Alias, ShardName};
use std::alloc::Global;

/// A command, and how often it is given.
#[derive(Drop)]
pub struct Given {
    pub command: Command,
    pub count: u64,
}

/// The most writes of a line.
const MOST_WRITES: u64 = 10_000;

/// How many writes a line asks for.
fn read_writes(count: &[u8]) -> Option<u64>
    ensures { result ≡ number_within 1 10000 count.now }
{
    read_within(count, 1, MOST_WRITES)
}

/// Whether these may be the options of a planned reparent.
fn fit_planned(options: &Options) -> bool
    ensures { result ≡ fit_planned options.now }
{
    options.pending.is_none() && options.ignored.is_empty() && !options.prevent_cross_cell
}

/// Whether these may be the options of an emergency reparent.
fn fit_emergency(options: &Options) -> bool
    ensures { result ≡ fit_emergency options.now }
{
    options.pending.is_none() && options.avoid.is_none() && !options.allow_cross_cell
}

/// The planned reparent with these options.
#[tactic(auto, unfolding(crate::specs::Commands::planned_of))]
fn planned_of(options: &Options) -> Option<Command>
    ensures { result ≡ planned_of options.now }
{
    if !fit_planned(options) {
        return None;
    }
    let shard = options.shard?;
    Some(Command::Planned {
        shard,
        new_primary: options.new_primary,
        avoid: options.avoid,
        expected: options.expected,
        timeout: options.timeout,
        allow_cross_cell: options.allow_cross_cell,
    })
}

/// The emergency reparent with these options.
#[tactic(auto, unfolding(crate::specs::Commands::emergency_of))]
fn emergency_of(options: Options) -> Option<Command>
    ensures { result ≡ emergency_of options }
{
    if !fit_emergency(&options) {
        return None;
    }
    let shard = options.shard?;
    Some(Command::Emergency {
        shard,
        new_primary: options.new_primary,
        ignored: options.ignored,
        expected: options.expected,
        timeout: options.timeout,
        prevent_cross_cell: options.prevent_cross_cell,
    })
}

#[tactic(auto, unfolding(crate::specs::Commands::planned_command))]
fn planned_command(alloc: Global, words: &[&[u8]]) -> Result<Option<Given>, OutOfMemory>
    ensures { IfOk result (λ given. given ≡ planned_command (map (λ w. w.now) words.now)) }
{
    let Some(options) = options_of(alloc, words)? else {
        return Ok(None);
    };
    match planned_of(&options) {
        Some(command) => Ok(Some(Given { command, count: 1 })),
        None => Ok(None),
    }
}

#[tactic(auto, unfolding(crate::specs::Commands::emergency_command))]
fn emergency_command(alloc: Global, words: &[&[u8]]) -> Result<Option<Given>, OutOfMemory>
    ensures { IfOk result (λ given. given ≡ emergency_command (map (λ w. w.now) words.now)) }
{
    let Some(options) = options_of(alloc, words)? else {
        return Ok(None);
    };
    match emergency_of(options) {
        Some(command) => Ok(Some(Given { command, count: 1 })),
        None => Ok(None),
    }
}

#[tactic(auto, unfolding(crate::specs::Commands::write_command))]
fn write_command(count: &[u8]) -> Option<Given>
    ensures { result ≡ write_command count.now }
{
    let count = read_writes(count)?;
    Some(Given {
        command: Command::Write { to: None },
        count,
    })
}

#[tactic(auto, unfolding(crate::specs::Commands::write_to_command))]
fn write_to_command(count: &[u8], to: &[u8], alias: &[u8]) -> Option<Given>
    ensures { result ≡ write_to_command count.now to.now alias.now }
{
    if to != b"to".as_slice() {
        return None;
    }
    let count = read_writes(count)?;
    let alias = Alias::read(alias).ok()?;
    Some(Given {
        command: Command::Write { to: Some(alias) },
        count,
    })
}

#[tactic(auto, unfolding(crate::specs::Commands::show_command))]
fn show_command(alias: &[u8]) -> Option<Given>
    ensures { result ≡ show_command alias.now }
{
    let alias = Alias::read(alias).ok()?;
    Some(Given {
        command: Command::Show { alias },
        count: 1,
    })
}

#[tactic(auto, unfolding(crate::specs::Commands::external_command))]
fn external_command(alias: &[u8]) -> Option<Given>
    ensures { result ≡ external_command alias.now }
{
    let alias = Alias::read(alias).ok()?;
    Some(Given {
        command: Command::External { alias },
        count: 1,
    })
}

#[tactic(auto, unfolding(crate::specs::Commands::get_shard_command))]
fn get_shard_command(name: &[u8]) -> Option<Given>
    ensures { result ≡ get_shard_command name.now }
{
    let shard = ShardName::read(name)?;
    Some(Given {
        command: Command::GetShard { shard },
        count: 1,
    })
}

#[tactic(auto, unfolding(crate::specs::Commands::get_tablets_command))]
fn get_tablets_command(name: &[u8]) -> Option<Given>
    ensures { result ≡ get_tablets_command name.now }
{
    let shard = ShardName::read(name)?;
    Some(Given {
        command: Command::GetTablets { shard },
        count: 1,
    })
}

fn command_of_one(head: &[u8]) -> Option<Given>
    ensures { result ≡ command_of_one head.now }
{
    if head == b"vtorc".as_slice() {
        Some(Given {
            command: Command::Vtorc,
            count: 1,
        })
    } else {
        None
    }
}

fn command_of_two(head: &[u8], a: &[u8]) -> Option<Given>
    ensures { result ≡ command_of_two head.now a.now }
{
    if head == b"write".as_slice() {
        write_command(a)
    } else if head == b"show".as_slice() {
        show_command(a)
    } else if head == b"TabletExternallyReparented".as_slice() {
        external_command(a)
    } else if head == b"GetShard".as_slice() {
        get_shard_command(a)
    } else if head == b"GetTablets".as_slice() {
        get_tablets_command(a)
    } else {
        None
    }
}

fn command_of_four(head: &[u8], a: &[u8], b: &[u8], c: &[u8]) -> Option<Given>
    ensures { result ≡ command_of_four head.now a.now b.now c.now }
{
    if head == b"write".as_slice() {
        write_to_command(a, b, c)
    } else {
        None
    }
}

/// The command of this word and the words behind it, if it is no reparent of a shard.
fn short_command(head: &[u8], words: &[&[u8]]) -> Option<Given>
    ensures { result ≡ short_command head.now (map (λ w. w.now) words.now) }
{
    if words.is_empty() {
        command_of_one(head)
    } else if words.len() == 1 {
        command_of_two(head, words[0])
    } else if words.len() == 3 {
        command_of_four(head, words[0], words[1], words[2])
    } else {
        None
    }
}

/// The command that words spell, and how often it is given.
pub fn command_of(alloc: Global, words: &[&[u8]]) -> Result<Option<Given>, OutOfMemory>
    ensures { IfOk result (λ given. given ≡ command_of (map (λ w. w.now) words.now)) }
{
    let Some((head, further)) = words.split_first() else {
        return Ok(None);
    };
    if *head == b"PlannedReparentShard".as_slice() {
        planned_command(alloc, further)
    } else if *head == b"EmergencyReparentShard".as_slice() {
        emergency_command(alloc, further)
    } else {
        Ok(short_command(head, further))
    }
}
