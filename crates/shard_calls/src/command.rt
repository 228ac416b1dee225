//! What actors ask for.

ghost use Rattle.std.specs.Prelude.{◌≡◌, IfOk};
ghost use Rattle.shard_calls.specs.declared.command.Command.TheVariants as commands;
ghost use Rattle.shard_calls.specs.Commands.{planned_options, emergency_options};

use shard_base::{Items, OutOfMemory};
use shard_names::{Alias, ShardName};

/// What an actor asks for. Timeouts are in milliseconds.
#[derive(Drop)]
pub enum Command {
    /// `PlannedReparentShard`: the shard is to get another primary, while the present one answers.
    Planned {
        shard: ShardName,
        /// The tablet that is to become the primary. Where none is given, the command chooses one.
        new_primary: Option<Alias>,
        /// The tablet that is not to be the primary.
        avoid: Option<Alias>,
        /// The tablet that has to be the recorded primary.
        expected: Option<Alias>,
        /// How long a call may take. Where none is given, 15 seconds.
        timeout: Option<u64>,
        /// Whether the new primary may be in another cell than the old one.
        allow_cross_cell: bool,
    },
    /// `EmergencyReparentShard`: the shard is to get another primary, though the present one may not answer.
    Emergency {
        shard: ShardName,
        /// The tablet that is to become the primary. Where none is given, the command chooses one.
        new_primary: Option<Alias>,
        /// The tablets that are to be left out, as they were given.
        ignored: Items<Alias>,
        /// The tablet that has to be the recorded primary.
        expected: Option<Alias>,
        /// How long a call may take. Where none is given, 15 seconds.
        timeout: Option<u64>,
        /// Whether the new primary has to be in the cell of the recorded one.
        prevent_cross_cell: bool,
    },
    /// `TabletExternallyReparented`: the tablet was promoted by other hands, and is to be recorded as the primary.
    External {
        alias: Alias,
    },
    /// `vtorc`: every tablet is asked how it stands, and the first thing amiss that can be repaired is.
    Vtorc,
    /// One `write`, at this tablet, or else at the recorded primary.
    Write {
        to: Option<Alias>,
    },
    /// `show`: how the tablet stands, and what its log has.
    Show {
        alias: Alias,
    },
    /// `GetShard`: the record of the shard's primary.
    GetShard {
        shard: ShardName,
    },
    /// `GetTablets`: the shard's tablets.
    GetTablets {
        shard: ShardName,
    },
}

/// How long a call of a command may take where no timeout is given: 15 seconds, in milliseconds.
const USUAL_TIMEOUT: u64 = 15_000;

/// The options of a `PlannedReparentShard`. The timeout is in milliseconds.
#[derive(Clone, Copy)]
pub struct PlannedOptions {
    pub new_primary: Option<Alias>,
    pub avoid: Option<Alias>,
    pub expected: Option<Alias>,
    pub timeout: u64,
    pub allow_cross_cell: bool,
}

impl PlannedOptions {
    /// The options of the command, if it is a `PlannedReparentShard`.
    pub fn of(command: &Command) -> Option<PlannedOptions>
        ensures { result ≡ planned_options command.now }
    {
        let Command::Planned {
            new_primary,
            avoid,
            expected,
            timeout,
            allow_cross_cell,
            ..
        } = command
        else {
            return None;
        };
        Some(PlannedOptions {
            new_primary: *new_primary,
            avoid: *avoid,
            expected: *expected,
            timeout: timeout.unwrap_or(USUAL_TIMEOUT),
            allow_cross_cell: *allow_cross_cell,
        })
    }
}

/// The options of an `EmergencyReparentShard`. The timeout is in milliseconds.
#[derive(Drop)]
pub struct EmergencyOptions {
    pub new_primary: Option<Alias>,
    pub ignored: Items<Alias>,
    pub expected: Option<Alias>,
    pub timeout: u64,
    pub prevent_cross_cell: bool,
}

impl EmergencyOptions {
    /// The options of the command, if it is an `EmergencyReparentShard`.
    pub fn of(command: &Command) -> Result<Option<EmergencyOptions>, OutOfMemory>
        ensures { IfOk result (λ options. options ≡ emergency_options command.now) }
    {
        let Command::Emergency {
            new_primary,
            ignored,
            expected,
            timeout,
            prevent_cross_cell,
            ..
        } = command
        else {
            return Ok(None);
        };
        let ignored = ignored.copied()?;
        Ok(Some(EmergencyOptions {
            new_primary: *new_primary,
            ignored,
            expected: *expected,
            timeout: timeout.unwrap_or(USUAL_TIMEOUT),
            prevent_cross_cell: *prevent_cross_cell,
        }))
    }
}

/// An `EmergencyReparentShard` with these options.
fn emergency(
    shard: &ShardName,
    new_primary: &Option<Alias>,
    ignored: &Items<Alias>,
    expected: &Option<Alias>,
    timeout: &Option<u64>,
    prevent_cross_cell: bool,
) -> Result<Command, OutOfMemory>
    ensures { IfOk
        result
        (λ command. command
        ≡ commands.Emergency shard.now new_primary.now ignored.now expected.now timeout.now prevent_cross_cell) }
{
    let ignored = ignored.copied()?;
    Ok(Command::Emergency {
        shard: *shard,
        new_primary: *new_primary,
        ignored,
        expected: *expected,
        timeout: *timeout,
        prevent_cross_cell,
    })
}

impl Command {
    /// The same command once more.
    pub fn copy(&self) -> Result<Command, OutOfMemory>
        ensures { IfOk result (λ command. command ≡ self.now) }
    {
        match self {
            Command::Planned {
                shard,
                new_primary,
                avoid,
                expected,
                timeout,
                allow_cross_cell,
            } => Ok(Command::Planned {
                shard: *shard,
                new_primary: *new_primary,
                avoid: *avoid,
                expected: *expected,
                timeout: *timeout,
                allow_cross_cell: *allow_cross_cell,
            }),
            Command::Emergency {
                shard,
                new_primary,
                ignored,
                expected,
                timeout,
                prevent_cross_cell,
            } => emergency(
                shard,
                new_primary,
                ignored,
                expected,
                timeout,
                *prevent_cross_cell,
            ),
            Command::External { alias } => Ok(Command::External { alias: *alias }),
            Command::Vtorc => Ok(Command::Vtorc),
            Command::Write { to } => Ok(Command::Write { to: *to }),
            Command::Show { alias } => Ok(Command::Show { alias: *alias }),
            Command::GetShard { shard } => Ok(Command::GetShard { shard: *shard }),
            Command::GetTablets { shard } => Ok(Command::GetTablets { shard: *shard }),
        }
    }
}
