use crate::{Call, Command, CommandAnswer, Standing, Why};
use gtid_sets::Gtid;
use shard_base::Items;
use shard_names::{Alias, Name};
use topo_lock::{Intent, Record};

/// An end of a link: the one from which commands call, or a tablet.
#[derive(Clone, Copy, Debug, PartialEq, Eq)]
pub enum Side {
    Control,
    Tablet { alias: Alias },
}

/// A link. It has no direction.
#[derive(Clone, Copy, Debug, PartialEq, Eq)]
pub struct Link {
    pub x: Side,
    pub y: Side,
}

/// An event of the machine. A command goes by its number, and a message by its own, each counted from 1.
#[derive(Drop)]
pub enum Event {
    /// The actor gives a command.
    Begin {
        actor: Name,
        command: Command,
    },
    /// The command takes the shard's lock, in the next term.
    Take {
        command: u64,
    },
    /// It reads the topology.
    Read {
        command: u64,
    },
    /// It says whom it is to promote.
    Intend {
        command: u64,
        alias: Alias,
    },
    /// The tablet is recorded as the primary.
    Record {
        command: u64,
        alias: Alias,
    },
    /// The tablet is marked as drained.
    Drain {
        command: u64,
        alias: Alias,
    },
    /// The command frees the lock, if it holds it.
    Release {
        command: u64,
    },
    /// The lock is freed, whoever holds it.
    Lapse,
    /// The command calls a tablet.
    Send {
        command: u64,
        alias: Alias,
        call: Call,
    },
    /// The message comes to its receiver.
    Deliver {
        message: u64,
    },
    /// The command waits no longer for the answer to its call.
    GiveUp {
        command: u64,
        message: u64,
    },
    /// The replica's source sends it the next entry that it needs.
    Offer {
        alias: Alias,
    },
    /// The tablet is to write the command's entry.
    Write {
        command: u64,
        alias: Alias,
    },
    /// The command looks whether its entry counts as committed.
    Tell {
        command: u64,
    },
    /// An entry is written at the tablet itself, round the primary.
    Local {
        alias: Alias,
    },
    /// The tablet goes down. Of what it has not synced so many bytes stay.
    Crash {
        alias: Alias,
        keep: u64,
    },
    Restart {
        alias: Alias,
    },
    /// No message passes between the two.
    Cut {
        x: Side,
        y: Side,
    },
    Mend {
        x: Side,
        y: Side,
    },
    /// The message never comes any more.
    Lose {
        message: u64,
    },
    /// So many milliseconds go by.
    Tick {
        ms: u64,
    },
    End {
        command: u64,
        answer: CommandAnswer,
    },
}

/// What one who holds the lock reads: the record of the primary, the last intent, and the tablets that are marked as drained, in alias order.
#[derive(Drop)]
pub struct Seen {
    pub recorded: Option<Record>,
    pub intent: Option<Intent>,
    pub drained: Items<Alias>,
}

/// The machine's reply to an event.
#[derive(Drop)]
pub enum Reply {
    Begun { command: u64 },
    /// The lock was taken, in this term.
    Term { term: u64 },
    /// The lock is held in this term, by a command of this actor.
    Taken { term: u64, actor: Name },
    /// The topology was read.
    Read(Seen),
    /// The lock is not held by the command. The topology is at this term.
    Lost { term: u64 },
    /// The command's term intends another tablet, this one.
    Stands { alias: Alias },
    /// The message of this number was sent.
    Message { message: u64 },
    /// The call was given up for this.
    GaveUp(Why),
    Wrote { gtid: Gtid },
    /// The tablet does not take the write, since it stands so.
    NotPrimary { stand: Standing },
    /// The entry counts as committed.
    Told,
    /// The tablet is no longer the primary of the term in which it wrote the entry.
    Gone,
    Ok,
}

/// An event with its reply.
#[derive(Drop)]
pub struct Step {
    pub event: Event,
    pub reply: Reply,
}

/// The line of a script's action that was refused, and how many steps stood before it.
#[derive(Drop)]
pub struct Note {
    pub place: u64,
    pub line: Items<u8>,
}

/// What happened: the steps, and the notes of what was refused, each in order.
#[derive(Drop)]
pub struct History {
    pub steps: Vec<Step>,
    pub notes: Vec<Note>,
}
