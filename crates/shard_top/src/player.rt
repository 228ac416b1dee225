//! What a player does next: an event, the note of a refused line, or nothing.

ghost use Rattle.std.specs.Prelude.{◌≡◌, ◌<◌, ◌≤◌, ◌-◌, ◌^◌, true, drop, length, IfOk, IfErr};
ghost use Rattle.shard_calls.specs.World.{open_of, open_command};
ghost use Rattle.shard_calls.specs.Table.{meets};
ghost use Rattle.shard_core.specs.Causes.{is_told_at_once};
ghost use Rattle.shard_core.specs.Kept.{world_of};
ghost use Rattle.shard_script.specs.declared.script.Action.TheVariants as actions;
ghost use Rattle.planned.specs.Leaving.{or_else};
ghost use Rattle.shard_calls.specs.declared.event.Event.TheVariants as events;
ghost use Rattle.shard_top.specs.declared.player.Start.TheVariants as forms;
ghost use Rattle.shard_top.specs.declared.player.Task.TheVariants as tasks;
ghost use Rattle.shard_top.specs.Played.{delivery, offer, arrival, pump, asked, turned, finished, turns_on, finishes_on, played_at, gives_on, settles, go_on, turn_of, finish_of, unless_refused, starts, start_at, plain_move, first_player, IsGoOfNone, IsStartOfNone, IsOfNone, Lacks};

use crate::giving::{begins, gives, gives_by};
use shard_base::OutOfMemory;
use shard_calls::{Command, CommandState, Event, Side};
use shard_core::Shard;
use shard_names::{Alias, Name};
use shard_script::Action;
use vtctld_text::RefusedAction;

/// What is being done. Commands go by their numbers.
#[derive(Clone, Copy)]
pub enum Task {
    /// Nothing: the next line is begun.
    Free,
    /// The command goes on by at most so many events.
    Turns { command: u64, left: u64 },
    /// It goes on until it has ended.
    Finishes { command: u64 },
    /// It goes on until it has ended, and then `main` gives that of the line before the player's place once more, so many times.
    Gives { command: u64, again: u64 },
    /// Messages come and entries are offered, until nothing comes of itself any more.
    Settles,
}

/// Where a script stands: what is being done, the place of the line that comes after, from 0, and how many lines were refused.
#[derive(Clone, Copy)]
pub struct Player {
    pub task: Task,
    pub line: u64,
    pub noted: u64,
}

/// How a task goes on: by an event, after which this is the task; not at all, since the command of this actor has nothing to do and has
/// not ended; or it is done.
#[derive(Drop)]
pub enum Go {
    Makes { event: Event, task: Task },
    Blocked { name: Name },
    Finished,
}

/// What a line does first: it goes on like a task, or it is refused, which is noted.
#[derive(Drop)]
pub enum Start {
    Goes { go: Go },
    Notes { refused: RefusedAction },
}

/// How a script goes on.
#[derive(Drop)]
pub enum Move {
    Makes {
        event: Event,
        player: Player,
    },
    Notes {
        refused: RefusedAction,
        player: Player,
    },
    Blocked {
        name: Name,
    },
    Over,
}

/// Memory ran out while it was worked out what comes next: what this command does, or what no command makes.
#[derive(Clone, Copy)]
pub(crate) struct Wanting {
    pub(crate) command: Option<u64>,
}

/// Why a run stops.
#[derive(Clone, Copy)]
pub enum Stop {
    /// The script is played to its end.
    Over,
    /// The command of this actor has nothing to do and has not ended.
    Blocked { name: Name },
    /// One more event would be more than a history has.
    Full,
}

/// The player before the first line.
pub(crate) fn first_player() -> Player
    ensures { result ≡ first_player }
{
    Player {
        task: Task::Free,
        line: 0,
        noted: 0,
    }
}

// ---- a pump

/// The coming of the least message that may come to its receiver.
fn delivery(shard: &Shard) -> Option<Event>
    ensures { result ≡ delivery (world_of shard.now) }
{
    match shard.deliverable() {
        Some(message) => Some(Event::Deliver { message }),
        None => None,
    }
}

/// The sending of an entry to the first tablet that may be offered one.
fn offer(shard: &Shard) -> Option<Event>
    ensures { result ≡ offer shard.now.config (world_of shard.now) }
{
    match shard.offerable() {
        Some(alias) => Some(Event::Offer { alias }),
        None => None,
    }
}

/// What comes of itself.
fn arrival(shard: &Shard) -> Option<Event>
    ensures { result ≡ arrival shard.now.config (world_of shard.now) }
{
    match delivery(shard) {
        Some(event) => Some(event),
        None => offer(shard),
    }
}

/// What the command does next, or else what comes of itself. Only the command's own event wants memory.
fn pump(shard: &Shard, command: u64) -> Result<Option<Event>, OutOfMemory>
    ensures { IfOk result (λ event. event ≡ pump shard.now.config (world_of shard.now) command) }
{
    match planned::next(shard, command)? {
        Some(event) => Ok(Some(event)),
        None => Ok(arrival(shard)),
    }
}

// ---- what a task does next

/// Whether the condition of the event's row holds, which takes no memory to tell.
fn is_met(shard: &Shard, event: &Event) -> bool
    requires { is_told_at_once event.now ≡ true }
    ensures { result ≡ meets shard.now.config (world_of shard.now) event.now }
{
    shard.meets_at_once(event)
}

/// An event that a line asks for, with the task that it sets. Where its condition does not hold it is left out.
fn asked(shard: &Shard, event: Event, task: &Task) -> Go
    requires { is_told_at_once event ≡ true }
    ensures { result ≡ asked shard.now.config (world_of shard.now) event task.now }
{
    if is_met(shard, &event) {
        Go::Makes { event, task: *task }
    } else {
        Go::Finished
    }
}

/// At most so many pumps.
fn turned(command: u64, left: u64, event: Option<Event>) -> Go
    ensures { result ≡ turned command left event }
{
    match event {
        None => Go::Finished,
        Some(event) => {
            if left == 0 {
                Go::Finished
            } else {
                let left = left - 1;
                Go::Makes {
                    event,
                    task: Task::Turns { command, left },
                }
            }
        }
    }
}

/// Events until the command has ended.
fn finished(state: &CommandState, task: &Task, event: Option<Event>) -> Go
    ensures { result ≡ finished state.now task.now event }
{
    match event {
        None => Go::Blocked { name: state.actor },
        Some(event) => Go::Makes { event, task: *task },
    }
}

/// Memory ran out for this command.
fn wants(command: u64) -> Wanting
    ensures { result ≡ record { command = Some command } }
{
    Wanting {
        command: Some(command),
    }
}

fn turns_on(shard: &Shard, command: u64, left: u64) -> Result<Go, Wanting>
    ensures goes { IfOk result (λ go. go ≡ turns_on shard.now.config (world_of shard.now) command left (open_command (world_of shard.now) command)) }
    ensures wants { IfErr result (λ want. Lacks (world_of shard.now) (IsGoOfNone (turns_on shard.now.config (world_of shard.now) command left (open_command (world_of shard.now) command))) want.command) }
{
    match shard.command(command) {
        None => Ok(Go::Finished),
        Some(_) => match pump(shard, command) {
            Ok(event) => Ok(turned(command, left, event)),
            Err(OutOfMemory) => Err(wants(command)),
        },
    }
}

fn finishes_on(shard: &Shard, command: u64) -> Result<Go, Wanting>
    ensures goes { IfOk result (λ go. go ≡ finishes_on shard.now.config (world_of shard.now) command (open_command (world_of shard.now) command)) }
    ensures wants { IfErr result (λ want. Lacks (world_of shard.now) (IsGoOfNone (finishes_on shard.now.config (world_of shard.now) command (open_command (world_of shard.now) command))) want.command) }
{
    match shard.command(command) {
        None => Ok(Go::Finished),
        Some(state) => match pump(shard, command) {
            Ok(event) => {
                let task = Task::Finishes { command };
                Ok(finished(state, &task, event))
            }
            Err(OutOfMemory) => Err(wants(command)),
        },
    }
}

fn gives_on(
    shard: &Shard,
    lines: &[Action],
    line: u64,
    command: u64,
    again: u64,
) -> Result<Go, Wanting>
    requires few { length (world_of shard.now).commands < 2 ^ 64 - 1 }
    ensures goes { IfOk result (λ go. go ≡ gives_on shard.now.config (world_of shard.now) command (played_at lines.now line) again (open_command (world_of shard.now) command)) }
    ensures wants { IfErr result (λ want. Lacks (world_of shard.now) (IsGoOfNone (gives_on shard.now.config (world_of shard.now) command (played_at lines.now line) again (open_command (world_of shard.now) command))) want.command) }
{
    match shard.command(command) {
        None => gives_by(shard, lines, line, again),
        Some(state) => match pump(shard, command) {
            Ok(event) => {
                let task = Task::Gives { command, again };
                Ok(finished(state, &task, event))
            }
            Err(OutOfMemory) => Err(wants(command)),
        },
    }
}

/// What comes of itself, as long as there is anything.
fn settles(event: Option<Event>) -> Go
    ensures { result ≡ settles event }
{
    match event {
        None => Go::Finished,
        Some(event) => Go::Makes {
            event,
            task: Task::Settles,
        },
    }
}

/// How the task goes on of a player at this place of the lines.
fn go_on(shard: &Shard, lines: &[Action], line: u64, task: &Task) -> Result<Go, Wanting>
    requires few { length (world_of shard.now).commands < 2 ^ 64 - 1 }
    ensures goes { IfOk result (λ go. go ≡ go_on shard.now.config (world_of shard.now) lines.now line task.now) }
    ensures wants { IfErr result (λ want. Lacks (world_of shard.now) (IsGoOfNone (go_on shard.now.config (world_of shard.now) lines.now line task.now)) want.command) }
{
    match task {
        Task::Free => Ok(Go::Finished),
        Task::Turns { command, left } => turns_on(shard, *command, *left),
        Task::Finishes { command } => finishes_on(shard, *command),
        Task::Gives { command, again } => gives_on(shard, lines, line, *command, *again),
        Task::Settles => Ok(settles(arrival(shard))),
    }
}

// ---- what a line does first

fn turn_of(shard: &Shard, name: &Name, pumps: u64) -> Result<Go, Wanting>
    ensures goes { IfOk result (λ go. go ≡ turn_of shard.now.config (world_of shard.now) pumps (open_of (world_of shard.now).actors name.now)) }
    ensures wants { IfErr result (λ want. Lacks (world_of shard.now) (IsGoOfNone (turn_of shard.now.config (world_of shard.now) pumps (open_of (world_of shard.now).actors name.now))) want.command) }
{
    match shard.open_of(name) {
        None => Ok(Go::Finished),
        Some(command) => turns_on(shard, command, pumps),
    }
}

fn finish_of(shard: &Shard, name: &Name) -> Result<Go, Wanting>
    ensures goes { IfOk result (λ go. go ≡ finish_of shard.now.config (world_of shard.now) (open_of (world_of shard.now).actors name.now)) }
    ensures wants { IfErr result (λ want. Lacks (world_of shard.now) (IsGoOfNone (finish_of shard.now.config (world_of shard.now) (open_of (world_of shard.now).actors name.now))) want.command) }
{
    match shard.open_of(name) {
        None => Ok(Go::Finished),
        Some(command) => finishes_on(shard, command),
    }
}

fn start_command(shard: &Shard, name: &Name, command: &Command) -> Result<Go, Wanting>
    ensures goes { IfOk result (λ go. go ≡ asked shard.now.config (world_of shard.now) (events.Begin name.now command.now) tasks.Free) }
    ensures wants { IfErr result (λ want. Lacks (world_of shard.now) (IsGoOfNone (asked shard.now.config (world_of shard.now) (events.Begin name.now command.now) tasks.Free)) want.command) }
{
    begins(shard, name, command, &Task::Free)
}

/// An event that a line asks for. Where its condition does not hold the line is refused.
fn unless_refused(shard: &Shard, event: Event, refused: RefusedAction) -> Start
    requires { is_told_at_once event ≡ true }
    ensures { result ≡ unless_refused shard.now.config (world_of shard.now) event refused }
{
    if is_met(shard, &event) {
        let go = Go::Makes {
            event,
            task: Task::Free,
        };
        Start::Goes { go }
    } else {
        Start::Notes { refused }
    }
}

/// An event that a line asks for and nothing refuses.
fn plainly(shard: &Shard, event: Event) -> Go
    requires { is_told_at_once event ≡ true }
    ensures { result ≡ asked shard.now.config (world_of shard.now) event tasks.Free }
{
    asked(shard, event, &Task::Free)
}

fn cut(shard: &Shard, x: &Side, y: &Side) -> Go
    ensures { result ≡ asked shard.now.config (world_of shard.now) (events.Cut x.now y.now) tasks.Free }
{
    let event = Event::Cut { x: *x, y: *y };
    plainly(shard, event)
}

fn mend(shard: &Shard, x: &Side, y: &Side) -> Go
    ensures { result ≡ asked shard.now.config (world_of shard.now) (events.Mend x.now y.now) tasks.Free }
{
    let event = Event::Mend { x: *x, y: *y };
    plainly(shard, event)
}

fn crash(shard: &Shard, alias: &Alias, keep: u64) -> Go
    ensures { result ≡ asked shard.now.config (world_of shard.now) (events.Crash alias.now keep) tasks.Free }
{
    let event = Event::Crash {
        alias: *alias,
        keep,
    };
    plainly(shard, event)
}

fn tick(shard: &Shard, ms: u64) -> Go
    ensures { result ≡ asked shard.now.config (world_of shard.now) (events.Tick ms) tasks.Free }
{
    let event = Event::Tick { ms };
    plainly(shard, event)
}

/// A write round the primary, which a tablet that is down refuses.
fn local(shard: &Shard, alias: &Alias) -> Start
    ensures { result ≡ starts shard.now.config (world_of shard.now) (actions.Local alias.now) }
{
    let event = Event::Local { alias: *alias };
    let refused = RefusedAction::IsDown { alias: *alias };
    unless_refused(shard, event, refused)
}

/// The tablet comes up, unless it is.
fn restart(shard: &Shard, alias: &Alias) -> Start
    ensures { result ≡ starts shard.now.config (world_of shard.now) (actions.Restart alias.now) }
{
    let event = Event::Restart { alias: *alias };
    let refused = RefusedAction::IsUp { alias: *alias };
    unless_refused(shard, event, refused)
}

/// The message is lost, if there is one of this number.
fn lose(shard: &Shard, message: u64) -> Start
    ensures { result ≡ starts shard.now.config (world_of shard.now) (actions.Lose message) }
{
    let event = Event::Lose { message };
    let refused = RefusedAction::NoMessage { message };
    unless_refused(shard, event, refused)
}

/// The message comes to its receiver, also once more, if it may.
fn repeat(shard: &Shard, message: u64) -> Start
    ensures { result ≡ starts shard.now.config (world_of shard.now) (actions.Repeat message) }
{
    let event = Event::Deliver { message };
    let refused = RefusedAction::NotDeliverable { message };
    unless_refused(shard, event, refused)
}

fn goes(go: Go) -> Start
    ensures { result ≡ forms.Goes go }
{
    Start::Goes { go }
}

/// What the line does first.
fn starts(shard: &Shard, line: &Action) -> Result<Start, Wanting>
    requires few { length (world_of shard.now).commands < 2 ^ 64 - 1 }
    ensures starts { IfOk result (λ start. start ≡ starts shard.now.config (world_of shard.now) line.now) }
    ensures wants { IfErr result (λ want. Lacks (world_of shard.now) (IsStartOfNone (starts shard.now.config (world_of shard.now) line.now)) want.command) }
{
    match line {
        Action::Play { command, count } => Ok(goes(gives(shard, command, *count)?)),
        Action::Start { name, command } => Ok(goes(start_command(shard, name, command)?)),
        Action::Turn { name, pumps } => Ok(goes(turn_of(shard, name, *pumps)?)),
        Action::Finish { name } => Ok(goes(finish_of(shard, name)?)),
        Action::Settle => Ok(goes(settles(arrival(shard)))),
        Action::Local { alias } => Ok(local(shard, alias)),
        Action::Crash { alias, keep } => Ok(goes(crash(shard, alias, *keep))),
        Action::Restart { alias } => Ok(restart(shard, alias)),
        Action::Cut { x, y } => Ok(goes(cut(shard, x, y))),
        Action::Mend { x, y } => Ok(goes(mend(shard, x, y))),
        Action::Lose { message } => Ok(lose(shard, *message)),
        Action::Repeat { message } => Ok(repeat(shard, *message)),
        Action::Lapse => Ok(goes(plainly(shard, Event::Lapse))),
        Action::Tick { ms } => Ok(goes(tick(shard, *ms))),
    }
}

// ---- moves

/// What the first of the lines from this place does that does anything. So many lines were refused before.
#[tactic(auto, using(crate::proofs::TurnLemmas::starts_lack))]
fn start_at(shard: &Shard, lines: &[Action], at: u64, noted: u64) -> Result<Move, Wanting>
    requires few { length (world_of shard.now).commands < 2 ^ 64 - 1 }
    requires each_line_once { noted ≤ at }
    ensures moves { IfOk result (λ move. move ≡ start_at shard.now.config (world_of shard.now) noted at (drop at lines.now)) }
    ensures wants { IfErr result (λ want. Lacks (world_of shard.now) (IsOfNone (start_at shard.now.config (world_of shard.now) noted at (drop at lines.now))) want.command) }
{
    for place in at as usize..lines.len() {
        let line = place as u64 + 1;
        match starts(shard, &lines[place])? {
            Start::Goes { go } => match go {
                Go::Makes { event, task } => {
                    let player = Player { task, line, noted };
                    return Ok(Move::Makes { event, player });
                }
                Go::Blocked { name } => return Ok(Move::Blocked { name }),
                Go::Finished => {}
            },
            Start::Notes { refused } => {
                let player = Player {
                    task: Task::Free,
                    line,
                    noted: noted + 1,
                };
                return Ok(Move::Notes { refused, player });
            }
        }
    }
    Ok(Move::Over)
}

/// What the player does next where there is memory.
pub(crate) fn plain_move(shard: &Shard, lines: &[Action], player: &Player) -> Result<Move, Wanting>
    requires few { length (world_of shard.now).commands < 2 ^ 64 - 1 }
    requires each_line_once { player.now.noted ≤ player.now.line }
    ensures moves { IfOk result (λ move. move ≡ plain_move shard.now.config (world_of shard.now) lines.now player.now) }
    ensures wants { IfErr result (λ want. Lacks (world_of shard.now) (IsOfNone (plain_move shard.now.config (world_of shard.now) lines.now player.now)) want.command) }
{
    match go_on(shard, lines, player.line, &player.task)? {
        Go::Makes { event, task } => {
            let player = Player { task, ..*player };
            Ok(Move::Makes { event, player })
        }
        Go::Blocked { name } => Ok(Move::Blocked { name }),
        Go::Finished => start_at(shard, lines, player.line, player.noted),
    }
}
