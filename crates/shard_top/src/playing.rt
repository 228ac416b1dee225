//! A script played to its end: one turn after the other, and how a command leaves for which there is no memory.

ghost use Rattle.std.specs.Prelude.{◌≡◌, ◌≤◌, ◌<◌, [], ◌∷◌, ◌++◌, length, List, ℕ, true, nat_le, is_some, IfOk, IfErr, OnOk, OnErr, IsOk, IsErrOf, Option, Some, None};
ghost use Rattle.shard_calls.specs.World.{open_command};
ghost use Rattle.shard_core.specs.Room.{has_room_kept};
ghost use Rattle.shard_calls.specs.Table.{Met};
ghost use Rattle.shard_core.specs.Kept.{Makes, world_of};
ghost use Rattle.planned.specs.Course.{leaves};
ghost use Rattle.planned.specs.Follows.{maker_of};
ghost use Rattle.planned.specs.Laws.{NextIsMet};
ghost use Rattle.shard_script.specs.declared.script.Action.{Action as Line};
ghost use Rattle.shard_top.specs.declared.player.Move.TheVariants as moves;
ghost use Rattle.shard_top.specs.declared.player.Player.{Player as Stands};
ghost use Rattle.shard_top.specs.Played.{begins_at, config_of, plain_move, IsOfNone, Lacks};
ghost use Rattle.vtctld_text.specs.Notes.{action_text};
ghost use Rattle.shard_top.specs.Playing.{with_note, still_open, Playing, IsStopped, IsCut, IsTurn, HasRun, WasCutOff};

use crate::player::{Move, Player, Stop, Task, Wanting, first_player, plain_move};
use shard_base::{Items, OutOfMemory};
use shard_calls::{Event, Halt};
use shard_core::{MOST_STEPS, Refused, Shard};
use shard_script::{Action, Script};
use vtctld_text::{RefusedAction, action_line};

/// 2024-01-01T00:00:00Z, in milliseconds since the start of 1970.
const FIRST_MOMENT: u64 = 1_704_067_200_000;

/// The moment at which the clock of a script begins: the one that it declares, or else the start of 2024.
#[tactic(auto, unfolding(crate::specs::Played::first_moment))]
pub(crate) fn begins_at(script: &Script) -> u64
    ensures { result ≡ begins_at script.now }
{
    script.clock.unwrap_or(FIRST_MOMENT)
}

/// What a turn comes to: one event was made, or none comes any more.
#[derive(Clone, Copy)]
pub(crate) enum Turn {
    /// How the player stands then, and the command that last ran out of memory.
    On {
        player: Player,
        leaving: Option<u64>,
    },
    Stops {
        stop: Stop,
    },
}

/// The command that makes the event, if one does.
fn maker_of(event: &Event) -> Option<u64>
    ensures { result ≡ maker_of event.now }
{
    match event {
        Event::Begin { .. } => None,
        Event::Take { command } => Some(*command),
        Event::Read { command } => Some(*command),
        Event::Intend { command, .. } => Some(*command),
        Event::Record { command, .. } => Some(*command),
        Event::Drain { command, .. } => Some(*command),
        Event::Release { command } => Some(*command),
        Event::Lapse => None,
        Event::Send { command, .. } => Some(*command),
        Event::Deliver { .. } => None,
        Event::GiveUp { command, .. } => Some(*command),
        Event::Offer { .. } => None,
        Event::Write { command, .. } => Some(*command),
        Event::Tell { command } => Some(*command),
        Event::Local { .. } => None,
        Event::Crash { .. } => None,
        Event::Restart { .. } => None,
        Event::Cut { .. } => None,
        Event::Mend { .. } => None,
        Event::Lose { .. } => None,
        Event::Tick { .. } => None,
        Event::End { command, .. } => Some(*command),
    }
}

/// The command that last ran out of memory, while it is open.
fn still_open(shard: &Shard, leaving: Option<u64>) -> Option<u64>
    ensures { result ≡ still_open (world_of shard.now) leaving }
{
    let command = leaving?;
    shard.command(command)?;
    Some(command)
}

/// Whether the history has all the steps that it may have.
fn is_full(shard: &Shard) -> bool
    ensures { result ≡ nat_le 1000000 (length shard.now.steps) }
{
    shard.history().steps.len() >= MOST_STEPS
}

/// A step whose condition holds, in a history with room.
fn make(shard: &mut Shard, event: Event) -> Result<(), OutOfMemory>
    requires met { Met shard.old.config (world_of shard.old) event }
    requires room { length shard.old.steps < 1000000 }
    ensures made { OnOk result (Makes shard.old shard.new event) }
    ensures err { OnErr result (shard.new ≡ shard.old) }
    ensures kept { has_room_kept (world_of shard.old) event ≡ true → IsOk result }
{
    match shard.apply(event) {
        Ok(_) => Ok(()),
        Err(Refused::OutOfMemory) => Err(OutOfMemory),
        Err(Refused::Unmet { .. }) => unreachable!(),
        Err(Refused::Full) => unreachable!(),
    }
}

/// A step for which room was kept.
fn make_kept(shard: &mut Shard, event: Event)
    requires met { Met shard.old.config (world_of shard.old) event }
    requires room { length shard.old.steps < 1000000 }
    requires kept { has_room_kept (world_of shard.old) event ≡ true }
    ensures { Makes shard.old shard.new event }
{
    match make(shard, event) {
        Ok(()) => {}
        Err(_) => unreachable!(),
    }
}

/// How the open command leaves that has run out of memory.
fn leaves(shard: &Shard, command: u64) -> Event
    ensures { result ≡ leaves (world_of shard.now) command }
{
    planned::leaves(shard, command)
}

/// The open command, which has run out of memory, frees the lock, or else ends. It takes no memory.
fn leave(shard: &mut Shard, command: u64, player: &Player) -> Turn
    requires is_open { still_open (world_of shard.old) (Some command) ≡ Some command }
    ensures { (lines : List Line) → Playing lines shard.old player.now (Some command) → IsTurn lines shard.old shard.new result }
{
    if is_full(shard) {
        return Turn::Stops { stop: Stop::Full };
    }
    let event = leaves(shard, command);
    make_kept(shard, event);
    let leaving = Some(command);
    let player = *player;
    Turn::On { player, leaving }
}

/// Memory has run out for a command that is open: it leaves.
fn leave_now(shard: &mut Shard, command: u64, player: &Player) -> Turn
    requires is_open { is_some (open_command (world_of shard.old) command) ≡ true }
    ensures { (lines : List Line) (leaving : Option ℕ) → still_open (world_of shard.old) leaving ≡ None
        → Playing lines shard.old player.now leaving → IsTurn lines shard.old shard.new result }
{
    leave(shard, command, player)
}

/// Memory has run out for this command, which leaves. Where no command makes what comes next, all ends.
fn give_up(shard: &mut Shard, maker: Option<u64>, player: &Player) -> Result<Turn, OutOfMemory>
    requires is_open { (c : ℕ) → maker ≡ Some c → is_some (open_command (world_of shard.old) c) ≡ true }
    ensures turn { IfOk result (λ turn. (lines : List Line) (leaving : Option ℕ) → still_open (world_of shard.old) leaving ≡ None
        → Playing lines shard.old player.now leaving → IsTurn lines shard.old shard.new turn) }
    ensures err { OnErr result (shard.new ≡ shard.old) }
    ensures cut { OnErr result (maker ≡ None) }
{
    match maker {
        None => Err(OutOfMemory),
        Some(command) => {
            let turn = leave_now(shard, command, player);
            Ok(turn)
        }
    }
}

/// The event, or else the end of its command.
fn make_or_leave(
    shard: &mut Shard,
    event: Event,
    player: &Player,
    next: &Player,
    leaving: Option<u64>,
) -> Result<Turn, OutOfMemory>
    requires met { Met shard.old.config (world_of shard.old) event }
    requires is_open { (c : ℕ) → maker_of event ≡ Some c → is_some (open_command (world_of shard.old) c) ≡ true }
    requires room { length shard.old.steps < 1000000 }
    requires closed { still_open (world_of shard.old) leaving ≡ None }
    ensures turn { IfOk result (λ turn. (lines : List Line) → Playing lines shard.old player.now leaving
        → plain_move shard.old.config (world_of shard.old) lines player.now ≡ moves.Makes event next.now → IsTurn lines shard.old shard.new turn) }
    ensures err { OnErr result (shard.new ≡ shard.old) }
    ensures cut { OnErr result (maker_of event ≡ None) }
{
    let maker = maker_of(&event);
    match make(shard, event) {
        Ok(()) => {
            let player = *next;
            Ok(Turn::On { player, leaving })
        }
        Err(_) => give_up(shard, maker, player),
    }
}

/// The line that says that an action was refused.
fn line_of(shard: &Shard, refused: &RefusedAction) -> Result<Items<u8>, OutOfMemory>
    ensures { IfOk result (λ line. line ≡ action_text refused.now) }
{
    action_line(shard.fields().alloc, refused)
}

/// Notes that a line was refused, behind the steps of the history.
fn note(shard: &mut Shard, refused: &RefusedAction) -> Result<(), Halt>
    ensures ok { OnOk result (shard.new ≡ with_note shard.old refused.now) }
    ensures err { OnErr result (shard.new ≡ shard.old) }
    ensures room { OnOk result (length shard.old.notes < 1000000) }
    ensures full { IsErrOf result Halt.Full → length shard.old.notes ≡ 1000000 }
{
    match line_of(shard, refused) {
        Ok(line) => shard.note(line),
        Err(OutOfMemory) => Err(Halt::OutOfMemory),
    }
}

/// The line is refused, which is noted.
fn note_or_stop(
    shard: &mut Shard,
    refused: &RefusedAction,
    player: &Player,
    leaving: Option<u64>,
) -> Result<Turn, OutOfMemory>
    ensures turn { IfOk result (λ turn. (lines : List Line) (before : Stands) → Playing lines shard.old before leaving → still_open (world_of shard.old) leaving ≡ None
        → plain_move shard.old.config (world_of shard.old) lines before ≡ moves.Notes refused.now player.now → IsTurn lines shard.old shard.new turn) }
    ensures err { OnErr result (shard.new ≡ shard.old) }
{
    match note(shard, refused) {
        Ok(()) => {
            let player = *player;
            Ok(Turn::On { player, leaving })
        }
        Err(Halt::Full) => Ok(Turn::Stops { stop: Stop::Full }),
        Err(Halt::OutOfMemory) => Err(OutOfMemory),
    }
}

/// One turn by this move, where no command leaves.
fn turn_by(
    shard: &mut Shard,
    lines: &[Action],
    player: &Player,
    leaving: Option<u64>,
    made: Move,
) -> Result<Turn, OutOfMemory>
    requires playing { Playing lines.now shard.old player.now leaving }
    requires closed { still_open (world_of shard.old) leaving ≡ None }
    requires met { NextIsMet shard.old.config (world_of shard.old) }
    requires made { made ≡ plain_move shard.old.config (world_of shard.old) lines.now player.now }
    ensures turn { IfOk result (λ turn. IsTurn lines.now shard.old shard.new turn) }
    ensures err { OnErr result (shard.new ≡ shard.old) }
    ensures cut { OnErr result (IsCut lines.now shard.new) }
{
    match made {
        Move::Over => Ok(Turn::Stops { stop: Stop::Over }),
        Move::Blocked { name } => {
            let stop = Stop::Blocked { name };
            Ok(Turn::Stops { stop })
        }
        Move::Notes {
            refused,
            player: next,
        } => note_or_stop(shard, &refused, &next, leaving),
        Move::Makes {
            event,
            player: next,
        } => {
            if is_full(shard) {
                return Ok(Turn::Stops { stop: Stop::Full });
            }
            make_or_leave(shard, event, player, &next, leaving)
        }
    }
}

/// What the player does next where there is memory; and what a command does next can be done.
fn next_move(shard: &Shard, lines: &[Action], player: &Player) -> Result<Move, Wanting>
    requires few { length shard.now.steps ≤ 1000000 }
    requires each_line_once { player.now.noted ≤ player.now.line }
    ensures known { IfOk result (λ move. move ≡ plain_move shard.now.config (world_of shard.now) lines.now player.now) }
    ensures wants { IfErr result (λ want. Lacks (world_of shard.now) (IsOfNone (plain_move shard.now.config (world_of shard.now) lines.now player.now)) want.command) }
    ensures met { NextIsMet shard.now.config (world_of shard.now) }
{
    let _fields = shard.fields();
    plain_move(shard, lines, player)
}

/// One turn, where no command leaves.
fn plain_turn(
    shard: &mut Shard,
    lines: &[Action],
    player: &Player,
    leaving: Option<u64>,
) -> Result<Turn, OutOfMemory>
    requires playing { Playing lines.now shard.old player.now leaving }
    requires closed { still_open (world_of shard.old) leaving ≡ None }
    ensures turn { IfOk result (λ turn. IsTurn lines.now shard.old shard.new turn) }
    ensures err { OnErr result (shard.new ≡ shard.old) }
    ensures cut { OnErr result (IsCut lines.now shard.new) }
{
    match next_move(shard, lines, player) {
        Ok(made) => turn_by(shard, lines, player, leaving, made),
        Err(wanting) => give_up(shard, wanting.command, player),
    }
}

/// One turn.
fn take_turn(
    shard: &mut Shard,
    lines: &[Action],
    player: &Player,
    leaving: Option<u64>,
) -> Result<Turn, OutOfMemory>
    requires playing { Playing lines.now shard.old player.now leaving }
    ensures turn { IfOk result (λ turn. IsTurn lines.now shard.old shard.new turn) }
    ensures err { OnErr result (shard.new ≡ shard.old) }
    ensures cut { OnErr result (IsCut lines.now shard.new) }
{
    match still_open(shard, leaving) {
        Some(command) => {
            let turn = leave(shard, command, player);
            Ok(turn)
        }
        None => plain_turn(shard, lines, player, leaving),
    }
}

/// Plays the lines, one event or one note a turn.
fn play_lines(shard: &mut Shard, lines: &[Action]) -> Result<Stop, OutOfMemory>
    requires opening { shard.old.steps ≡ [] }
    requires unnoted { shard.old.notes ≡ [] }
    ensures ok { IfOk result (λ stop. IsStopped lines.now shard.new stop) }
    ensures cut { OnErr result (IsCut lines.now shard.new) }
    ensures config { shard.new.config ≡ shard.old.config }
{
    // The proof's generator wants the type inside a player named here.
    let _task: Option<&Task> = None;
    let mut player = first_player();
    let mut leaving = None;
    loop {
        match take_turn(shard, lines, &player, leaving)? {
            Turn::On {
                player: next,
                leaving: command,
            } => {
                player = next;
                leaving = command;
            }
            Turn::Stops { stop } => return Ok(stop),
        }
    }
}

/// Plays a script, adds a note for each line that is refused, and says why it stops. Where a command runs out of memory it leaves, and the
/// script goes on. Only where memory runs out in what no command makes is that the result; what was made is then a front of what the
/// script plays.
pub fn play(shard: &mut Shard, script: &Script) -> Result<Stop, OutOfMemory>
    requires opening { shard.old ≡ record { config = config_of script.now; steps = []; notes = [] } }
    ensures config { shard.new.config ≡ config_of script.now }
    ensures ok { IfOk result (λ stop. HasRun script.now shard.new.steps shard.new.notes stop) }
    ensures cut { OnErr result (WasCutOff script.now shard.new.steps shard.new.notes) }
{
    play_lines(shard, script.actions.as_slice())
}
