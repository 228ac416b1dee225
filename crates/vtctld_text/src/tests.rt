ghost use Rattle.std.specs.Prelude.{◌≡◌};

use crate::{RefusedAction, action_line, has_refusal, has_refusal_with, text_of, text_with};
use gtid_sets::{Gtid, GtidSet};
use shard_base::{Items, OutOfMemory};
use shard_calls::{
    Command, CommandAnswer, Event, Left, NotJoined, Note, Refusal, Reply, Standing, Step, Why,
};
use shard_names::{Alias, Name, ShardName};
use std::alloc::Global;
use std::process::Abort;
use std::test::Fail;
use uuid::Uuid;

pub(crate) fn alias(rt: &impl Abort, text: &[u8]) -> Alias {
    Alias::read(text).ok().expect(rt, "an alias")
}

pub(crate) fn name(rt: &impl Abort, text: &[u8]) -> Name {
    Name::from_slice(text).expect(rt, "a name")
}

pub(crate) fn gtid(last: u8, number: u64) -> Gtid {
    Gtid {
        server: Uuid::from_bytes([0, 0, 0, 0, 0, 0, 0x40, 0, 0x80, 0, 0, 0, 0, 0, 1, last]),
        number,
    }
}

fn planned(rt: &impl Abort) -> Command {
    Command::Planned {
        shard: ShardName::read(b"commerce/0").expect(rt, "a shard's name"),
        new_primary: Some(alias(rt, b"zone1-100")),
        avoid: None,
        expected: None,
        timeout: None,
        allow_cross_cell: false,
    }
}

fn write() -> Command {
    Command::Write { to: None }
}

pub(crate) fn began(actor: Name, command: Command) -> Step {
    Step {
        event: Event::Begin { actor, command },
        reply: Reply::Begun { command: 1 },
    }
}

pub(crate) fn ended(answer: CommandAnswer) -> Step {
    Step {
        event: Event::End { command: 1, answer },
        reply: Reply::Ok,
    }
}

/// The text of a command that ended so at once.
pub(crate) fn text_by(
    alloc: Global,
    actor: Name,
    command: Command,
    answer: CommandAnswer,
) -> Result<Vec<u8>, OutOfMemory> {
    let steps = [began(actor, command), ended(answer)];
    text_of(alloc, &steps)
}

#[test]
fn prints_promotions(rt: HostRuntime) -> Result<(), Fail> {
    let alloc = rt.alloc();
    let promoted = CommandAnswer::Promoted {
        alias: alias(&rt, b"zone1-100"),
        term: 1,
        left: Items::new(alloc),
    };
    let text = text_by(alloc, name(&rt, b"main"), planned(&rt), promoted)?;
    let want = b"PlannedReparentShard commerce/0: promoted zone1-0000000100 in term 1\n";
    assert_eq!(rt; text.as_slice(), want.as_slice());
    Ok(())
}

pub(crate) fn push_left(
    left: &mut Items<NotJoined>,
    alias: Alias,
    cause: Left,
) -> Result<(), OutOfMemory> {
    left.push(NotJoined { alias, left: cause })
}

pub(crate) fn one(alloc: Global, gtid: Gtid) -> Result<GtidSet, OutOfMemory> {
    let mut set = GtidSet::empty(alloc);
    set.add(gtid)?;
    Ok(set)
}

/// Tablets that did not join.
fn all_left(rt: &impl Abort, alloc: Global) -> Result<Items<NotJoined>, OutOfMemory> {
    let mut left = Items::new(alloc);
    let extra = one(alloc, gtid(1, 2))?;
    push_left(&mut left, alias(rt, b"zone1-101"), Left::Errant { extra })?;
    push_left(&mut left, alias(rt, b"zone1-102"), Left::GivenUp(Why::Lost))?;
    push_left(
        &mut left,
        alias(rt, b"zone1-103"),
        Left::StaleTerm { seen: 7 },
    )?;
    push_left(
        &mut left,
        alias(rt, b"zone1-104"),
        Left::PromisedAhead { promised: 8 },
    )?;
    Ok(left)
}

#[test]
fn prints_who_did_not_join(rt: HostRuntime) -> Result<(), Fail> {
    let alloc = rt.alloc();
    let promoted = CommandAnswer::Promoted {
        alias: alias(&rt, b"zone1-100"),
        term: 1,
        left: all_left(&rt, alloc)?,
    };
    let text = text_by(alloc, name(&rt, b"main"), planned(&rt), promoted)?;
    let want = b"PlannedReparentShard commerce/0: promoted zone1-0000000100 in term 1
  not joined zone1-0000000101: errant 00000000-0000-4000-8000-000000000101:2
  not joined zone1-0000000102: lost
  not joined zone1-0000000103: has seen term 7
  not joined zone1-0000000104: promised term 8
";
    assert_eq!(rt; text.as_slice(), want.as_slice());
    Ok(())
}

#[test]
fn begins_each_line_with_the_actor(rt: HostRuntime) -> Result<(), Fail> {
    let alloc = rt.alloc();
    let mut left = Items::new(alloc);
    push_left(&mut left, alias(&rt, b"zone1-101"), Left::GivenUp(Why::Cut))?;
    let promoted = CommandAnswer::Promoted {
        alias: alias(&rt, b"zone1-100"),
        term: 2,
        left,
    };
    let text = text_by(alloc, name(&rt, b"p"), planned(&rt), promoted)?;
    let want = b"[p] PlannedReparentShard commerce/0: promoted zone1-0000000100 in term 2
[p]   not joined zone1-0000000101: cut
";
    assert_eq!(rt; text.as_slice(), want.as_slice());
    Ok(())
}

fn shows(
    rt: &impl Abort,
    alloc: Global,
    stand: Standing,
    position: GtidSet,
) -> Result<Vec<u8>, OutOfMemory> {
    let shown = CommandAnswer::Shown {
        alias: alias(rt, b"zone1-101"),
        stand,
        position,
    };
    text_by(
        alloc,
        name(rt, b"main"),
        Command::Show {
            alias: alias(rt, b"zone1-101"),
        },
        shown,
    )
}

#[test]
fn shows_replicas(rt: HostRuntime) -> Result<(), Fail> {
    let alloc = rt.alloc();
    let mut position = one(alloc, gtid(0, 1))?;
    position.add(gtid(1, 1))?;
    let replica = Standing::Replica {
        source: alias(&rt, b"zone1-100"),
        term: 1,
    };
    let text = shows(&rt, alloc, replica, position)?;
    let want = b"show zone1-0000000101: replica of zone1-0000000100 in term 1, position \
                 MySQL56/00000000-0000-4000-8000-000000000100:1,00000000-0000-4000-8000-000000000101:1\n";
    assert_eq!(rt; text.as_slice(), want.as_slice());
    Ok(())
}

#[test]
fn shows_stands(rt: HostRuntime) -> Result<(), Fail> {
    let alloc = rt.alloc();
    let text = shows(&rt, alloc, Standing::Down, GtidSet::empty(alloc))?;
    assert_eq!(rt;
        text.as_slice(),
        b"show zone1-0000000101: down, position MySQL56/\n".as_slice()
    );
    let text = shows(&rt, alloc, Standing::Stopped, GtidSet::empty(alloc))?;
    assert_eq!(rt;
        text.as_slice(),
        b"show zone1-0000000101: stopped, position MySQL56/\n".as_slice()
    );
    let text = shows(
        &rt,
        alloc,
        Standing::Primary { term: 3 },
        GtidSet::empty(alloc),
    )?;
    let want = b"show zone1-0000000101: primary of term 3, position MySQL56/\n";
    assert_eq!(rt; text.as_slice(), want.as_slice());
    let text = shows(
        &rt,
        alloc,
        Standing::Demoted { term: 3, by: 5 },
        GtidSet::empty(alloc),
    )?;
    let want = b"show zone1-0000000101: demoted from term 3 by term 5, position MySQL56/\n";
    assert_eq!(rt; text.as_slice(), want.as_slice());
    let text = shows(
        &rt,
        alloc,
        Standing::Feeder { term: 4 },
        GtidSet::empty(alloc),
    )?;
    let want = b"show zone1-0000000101: feeder in term 4, position MySQL56/\n";
    assert_eq!(rt; text.as_slice(), want.as_slice());
    Ok(())
}

fn writes(rt: &impl Abort, alloc: Global, answer: CommandAnswer) -> Result<Vec<u8>, OutOfMemory> {
    text_by(alloc, name(rt, b"w"), write(), answer)
}

#[test]
fn prints_written_transactions(rt: HostRuntime) -> Result<(), Fail> {
    let alloc = rt.alloc();
    let committed = CommandAnswer::Committed {
        gtid: gtid(0, 2),
        alias: alias(&rt, b"zone1-100"),
        term: 1,
    };
    let text = writes(&rt, alloc, committed)?;
    let want =
        b"[w] write: committed 00000000-0000-4000-8000-000000000100:2 on zone1-0000000100 in term 1\n";
    assert_eq!(rt; text.as_slice(), want.as_slice());
    let unknown = CommandAnswer::Unknown {
        gtid: gtid(0, 2),
        alias: alias(&rt, b"zone1-100"),
        term: 1,
    };
    let text = writes(&rt, alloc, unknown)?;
    let want =
        b"[w] write: unknown 00000000-0000-4000-8000-000000000100:2 on zone1-0000000100 in term 1\n";
    assert_eq!(rt; text.as_slice(), want.as_slice());
    Ok(())
}

#[test]
fn prints_writes_that_were_not_taken(rt: HostRuntime) -> Result<(), Fail> {
    let alloc = rt.alloc();
    let not_primary = CommandAnswer::NotPrimary {
        alias: alias(&rt, b"zone1-101"),
        stand: Standing::Stopped,
    };
    let text = writes(&rt, alloc, not_primary)?;
    let want = b"[w] write: not primary: zone1-0000000101 is stopped\n";
    assert_eq!(rt; text.as_slice(), want.as_slice());
    let text = writes(&rt, alloc, CommandAnswer::NoPrimaryRecorded)?;
    assert_eq!(rt;
        text.as_slice(),
        b"[w] write: no primary recorded\n".as_slice()
    );
    Ok(())
}

/// The text of a reparent that was refused for want of a link.
fn refused_by(
    rt: &impl Abort,
    alloc: Global,
    undone: Option<bool>,
) -> Result<Vec<u8>, OutOfMemory> {
    let refusal = Refusal::Unreachable {
        alias: alias(rt, b"zone1-100"),
        why: Why::Cut,
    };
    text_by(
        alloc,
        name(rt, b"p"),
        planned(rt),
        CommandAnswer::Refused { refusal, undone },
    )
}

#[test]
fn prints_what_became_of_an_undo(rt: HostRuntime) -> Result<(), Fail> {
    let alloc = rt.alloc();
    let text = refused_by(&rt, alloc, None)?;
    let want =
        b"[p] PlannedReparentShard commerce/0: refused 8 Unreachable: zone1-0000000100 cut\n";
    assert_eq!(rt; text.as_slice(), want.as_slice());
    let text = refused_by(&rt, alloc, Some(true))?;
    let want =
        b"[p] PlannedReparentShard commerce/0: refused 8 Unreachable: zone1-0000000100 cut; undone\n";
    assert_eq!(rt; text.as_slice(), want.as_slice());
    let text = refused_by(&rt, alloc, Some(false))?;
    let want =
        b"[p] PlannedReparentShard commerce/0: refused 8 Unreachable: zone1-0000000100 cut; not undone\n";
    assert_eq!(rt; text.as_slice(), want.as_slice());
    Ok(())
}

#[test]
fn says_nothing_of_an_undo_after_want_of_memory(rt: HostRuntime) -> Result<(), Fail> {
    let answer = CommandAnswer::Refused {
        refusal: Refusal::OutOfMemory,
        undone: Some(true),
    };
    let text = text_by(rt.alloc(), name(&rt, b"main"), planned(&rt), answer)?;
    let want = b"PlannedReparentShard commerce/0: refused 20 OutOfMemory\n";
    assert_eq!(rt; text.as_slice(), want.as_slice());
    Ok(())
}

#[test]
fn prints_that_nothing_was_to_do(rt: HostRuntime) -> Result<(), Fail> {
    let answer = CommandAnswer::NothingToDo {
        alias: alias(&rt, b"zone1-100"),
    };
    let text = text_by(rt.alloc(), name(&rt, b"main"), planned(&rt), answer)?;
    let want = b"PlannedReparentShard commerce/0: nothing to do, primary is zone1-0000000100\n";
    assert_eq!(rt; text.as_slice(), want.as_slice());
    Ok(())
}

fn commerce(rt: &impl Abort) -> ShardName {
    ShardName::read(b"commerce/0").expect(rt, "a shard's name")
}

#[test]
fn prints_emergencies(rt: HostRuntime) -> Result<(), Fail> {
    let command = Command::Emergency {
        shard: commerce(&rt),
        new_primary: None,
        ignored: Items::new(rt.alloc()),
        expected: None,
        timeout: None,
        prevent_cross_cell: false,
    };
    let answer = CommandAnswer::Refused {
        refusal: Refusal::BothGiven,
        undone: None,
    };
    let text = text_by(rt.alloc(), name(&rt, b"e"), command, answer)?;
    let want = b"[e] EmergencyReparentShard commerce/0: refused 6 BothGiven\n";
    assert_eq!(rt; text.as_slice(), want.as_slice());
    Ok(())
}

#[test]
fn prints_json_without_the_command(rt: HostRuntime) -> Result<(), Fail> {
    let answer = CommandAnswer::Shard {
        shard: commerce(&rt),
        recorded: None,
    };
    let command = Command::GetShard {
        shard: commerce(&rt),
    };
    let text = text_by(rt.alloc(), name(&rt, b"g"), command, answer)?;
    let want =
        b"[g] {\"keyspace\":\"commerce\",\"primary_alias\":null,\"primary_term_start_time\":null,\"shard\":\"0\",\"term\":0}\n";
    assert_eq!(rt; text.as_slice(), want.as_slice());
    let rows = Items::new(rt.alloc());
    let command = Command::GetTablets {
        shard: commerce(&rt),
    };
    let text = text_by(
        rt.alloc(),
        name(&rt, b"main"),
        command,
        CommandAnswer::Tablets { rows },
    )?;
    assert_eq!(rt; text.as_slice(), b"[]\n".as_slice());
    let command = Command::GetShard {
        shard: commerce(&rt),
    };
    let full = CommandAnswer::Refused {
        refusal: Refusal::OutOfMemory,
        undone: None,
    };
    let text = text_by(rt.alloc(), name(&rt, b"main"), command, full)?;
    assert_eq!(rt;
        text.as_slice(),
        b"GetShard commerce/0: refused 20 OutOfMemory\n".as_slice()
    );
    Ok(())
}

#[test]
fn prints_promotions_by_other_hands(rt: HostRuntime) -> Result<(), Fail> {
    let command = Command::External {
        alias: alias(&rt, b"zone1-101"),
    };
    let answer = CommandAnswer::Recorded { term: 3 };
    let text = text_by(rt.alloc(), name(&rt, b"x"), command, answer)?;
    let want = b"[x] TabletExternallyReparented zone1-0000000101: recorded in term 3\n";
    assert_eq!(rt; text.as_slice(), want.as_slice());
    Ok(())
}

pub(crate) fn has_refusal_by(answer: CommandAnswer) -> bool {
    let steps = [ended(answer)];
    has_refusal(&steps)
}

#[test]
fn counts_refusals(rt: HostRuntime) -> Result<(), Fail> {
    let alloc = rt.alloc();
    let unknown = CommandAnswer::Unknown {
        gtid: gtid(0, 2),
        alias: alias(&rt, b"zone1-100"),
        term: 1,
    };
    assert!(rt; has_refusal_by(unknown));
    assert!(rt; has_refusal_by(CommandAnswer::NoPrimaryRecorded));
    let committed = CommandAnswer::Committed {
        gtid: gtid(0, 2),
        alias: alias(&rt, b"zone1-100"),
        term: 1,
    };
    assert!(rt; !has_refusal_by(committed));
    let shown = CommandAnswer::Shown {
        alias: alias(&rt, b"zone1-100"),
        stand: Standing::Down,
        position: GtidSet::empty(alloc),
    };
    assert!(rt; !has_refusal_by(shown));
    assert!(rt; !has_refusal_by(CommandAnswer::Recorded { term: 1 }));
    Ok(())
}

fn note(place: u64, line: Items<u8>) -> Note
    ensures { result ≡ record { place = place; line = line } }
{
    Note { place, line }
}

#[test]
fn prints_notes_behind_their_steps(rt: HostRuntime) -> Result<(), Fail> {
    let alloc = rt.alloc();
    let up = alias(&rt, b"zone1-100");
    let down = alias(&rt, b"zone1-101");
    let steps = [
        began(name(&rt, b"p"), write()),
        ended(CommandAnswer::NoPrimaryRecorded),
    ];
    let lost = action_line(alloc, &RefusedAction::NoMessage { message: 7 })?;
    let repeated = action_line(alloc, &RefusedAction::NotDeliverable { message: 3 })?;
    let is_up = action_line(alloc, &RefusedAction::IsUp { alias: up })?;
    let is_down = action_line(alloc, &RefusedAction::IsDown { alias: down })?;
    let notes = [
        note(0, lost),
        note(1, repeated),
        note(2, is_up),
        note(2, is_down),
    ];
    let text = text_with(alloc, &steps, &notes)?;
    let want =
        b"lose: no message 7\nrepeat: message 3 cannot be delivered\n[p] write: no primary recorded\n\
                 restart: zone1-0000000100 is up\nlocal: zone1-0000000101 is down\n";
    assert_eq!(rt; text.as_slice(), want.as_slice());
    Ok(())
}

#[test]
fn counts_refused_actions(rt: HostRuntime) -> Result<(), Fail> {
    let steps = [ended(CommandAnswer::NoPrimaryRecorded)];
    assert!(rt; has_refusal_with(&steps, &[]));
    assert!(rt; !has_refusal_with(&[], &[]));
    let line = action_line(rt.alloc(), &RefusedAction::NoMessage { message: 0 })?;
    let notes = [note(0, line)];
    assert!(rt; has_refusal_with(&[], &notes));
    Ok(())
}
