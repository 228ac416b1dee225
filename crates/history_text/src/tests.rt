//! The texts of histories.

use crate::{append_opening, append_step};
use durability::Durability;
use gtid_sets::{Gtid, GtidSet};
use shard_base::{Items, OutOfMemory};
use shard_calls::{Call, Command, CommandAnswer, Event, Reply, Seen, Side, Standing, Step, Why};
use shard_names::{Alias, Name, ShardName, Tablet, TabletType};
use std::alloc::Global;
use std::process::Abort;
use std::test::Fail;
use topo_lock::{Intent, Record};
use uuid::Uuid;
use vtctld_text::commands_of;

/// The first moment of 2024.
const START: u64 = 1_704_067_200_000;

pub(crate) fn alias(rt: &impl Abort, text: &[u8]) -> Alias {
    Alias::read(text).ok().expect(rt, "an alias")
}

pub(crate) fn name(rt: &impl Abort, text: &[u8]) -> Name {
    Name::from_slice(text).expect(rt, "a name")
}

pub(crate) fn commerce(rt: &impl Abort) -> ShardName {
    ShardName::read(b"commerce/0").expect(rt, "a shard's name")
}

fn server(last: u8) -> Uuid {
    Uuid::from_bytes([0, 0, 0, 0, 0, 0, 0x40, 0, 0x80, 0, 0, 0, 0, 0, 1, last])
}

fn gtid(last: u8, number: u64) -> Gtid {
    Gtid {
        server: server(last),
        number,
    }
}

fn one(alloc: Global, gtid: Gtid) -> Result<GtidSet, OutOfMemory> {
    let mut set = GtidSet::empty(alloc);
    set.add(gtid)?;
    Ok(set)
}

pub(crate) fn step(event: Event, reply: Reply) -> Step {
    Step { event, reply }
}

/// The line of a step before any command has begun.
pub(crate) fn line_of(alloc: Global, event: Event, reply: Reply) -> Result<Vec<u8>, OutOfMemory> {
    let mut text = Vec::new(alloc);
    append_step(&mut text, &[], &step(event, reply))?;
    Ok(text)
}

pub(crate) fn planned(rt: &impl Abort) -> Command {
    Command::Planned {
        shard: commerce(rt),
        new_primary: None,
        avoid: None,
        expected: None,
        timeout: None,
        allow_cross_cell: false,
    }
}

fn nothing_seen(alloc: Global) -> Seen {
    Seen {
        recorded: None,
        intent: None,
        drained: Items::new(alloc),
    }
}

fn promote(alloc: Global) -> Call {
    Call::Promote {
        position: GtidSet::empty(alloc),
    }
}

fn promoted(alloc: Global, alias: Alias) -> CommandAnswer {
    CommandAnswer::Promoted {
        alias,
        term: 1,
        left: Items::new(alloc),
    }
}

/// How a shard gets its first primary, up to the promotion.
fn first_steps(rt: &impl Abort, alloc: Global, into: &mut Vec<Step>) -> Result<(), OutOfMemory> {
    let command = 1;
    let actor = name(rt, b"main");
    let order = planned(rt);
    into.push(step(
        Event::Begin {
            actor,
            command: order,
        },
        Reply::Begun { command },
    ))?;
    into.push(step(Event::Take { command }, Reply::Term { term: 1 }))?;
    let seen = nothing_seen(alloc);
    into.push(step(Event::Read { command }, Reply::Read(seen)))?;
    let alias = alias(rt, b"zone1-100");
    into.push(step(Event::Intend { command, alias }, Reply::Ok))?;
    Ok(())
}

/// The promotion, whose call and answer are the first two messages.
fn next_steps(rt: &impl Abort, alloc: Global, into: &mut Vec<Step>) -> Result<(), OutOfMemory> {
    let call = promote(alloc);
    let sent = Event::Send {
        command: 1,
        alias: alias(rt, b"zone1-100"),
        call,
    };
    into.push(step(sent, Reply::Message { message: 1 }))?;
    let message = Reply::Message { message: 2 };
    into.push(step(Event::Deliver { message: 1 }, message))?;
    into.push(step(Event::Deliver { message: 2 }, Reply::Ok))?;
    let recorded = Event::Record {
        command: 1,
        alias: alias(rt, b"zone1-100"),
    };
    into.push(step(recorded, Reply::Ok))?;
    Ok(())
}

/// The wait for acknowledgements, whose call and answer are messages 3 and 4, and the end.
fn last_steps(rt: &impl Abort, alloc: Global, into: &mut Vec<Step>) -> Result<(), OutOfMemory> {
    let sent = Event::Send {
        command: 1,
        alias: alias(rt, b"zone1-100"),
        call: Call::WaitTold {
            until: START + 15_000,
        },
    };
    into.push(step(sent, Reply::Message { message: 3 }))?;
    let message = Reply::Message { message: 4 };
    into.push(step(Event::Deliver { message: 3 }, message))?;
    into.push(step(Event::Deliver { message: 4 }, Reply::Ok))?;
    into.push(step(Event::Release { command: 1 }, Reply::Ok))?;
    let answer = promoted(alloc, alias(rt, b"zone1-100"));
    into.push(step(Event::End { command: 1, answer }, Reply::Ok))?;
    Ok(())
}

/// The opening without a shard, and the line of each step.
fn text_of(alloc: Global, steps: &[Step]) -> Result<Vec<u8>, OutOfMemory> {
    let commands = commands_of(alloc, steps)?;
    let mut text = Vec::new(alloc);
    append_opening(&mut text, &None, &Durability::None, &[], START)?;
    for step in steps {
        append_step(&mut text, &commands, step)?;
    }
    Ok(text)
}

#[test]
fn prints_how_a_shard_gets_a_primary(rt: HostRuntime) -> Result<(), Fail> {
    let alloc = rt.alloc();
    let mut steps = Vec::new(alloc);
    first_steps(&rt, alloc, &mut steps)?;
    next_steps(&rt, alloc, &mut steps)?;
    last_steps(&rt, alloc, &mut steps)?;
    let text = text_of(alloc, steps.as_slice())?;
    let want = b"history
begin main PlannedReparentShard commerce/0 = command 1
take 1 = term 1
read 1 = record - intent - drained -
intend 1 zone1-0000000100 = ok
send 1 zone1-0000000100 promote - = message 1
deliver 1 = message 2
deliver 2 = ok
record 1 zone1-0000000100 = ok
send 1 zone1-0000000100 waittold 2024-01-01T00:00:15.000Z = message 3
deliver 3 = message 4
deliver 4 = ok
release 1 = ok
end 1 = PlannedReparentShard commerce/0: promoted zone1-0000000100 in term 1
";
    assert_eq!(rt; text.as_slice(), want.as_slice());
    Ok(())
}

fn tablet(alias: Alias, last: u8, kind: TabletType) -> Tablet {
    Tablet {
        alias,
        server: server(last),
        kind,
    }
}

#[test]
fn prints_declarations(rt: HostRuntime) -> Result<(), Fail> {
    let tablets = [
        tablet(alias(&rt, b"zone1-100"), 0, TabletType::Replica),
        tablet(alias(&rt, b"zone1-101"), 1, TabletType::Rdonly),
        tablet(alias(&rt, b"zone2-7"), 0xab, TabletType::Spare),
    ];
    let mut text = Vec::new(rt.alloc());
    let policy = Durability::SemiSync;
    append_opening(
        &mut text,
        &Some(commerce(&rt)),
        &policy,
        &tablets,
        START + 5,
    )?;
    let want = b"shard commerce/0 semi_sync
tablet zone1-0000000100 replica 00000000-0000-4000-8000-000000000100
tablet zone1-0000000101 rdonly 00000000-0000-4000-8000-000000000101
tablet zone2-0000000007 spare 00000000-0000-4000-8000-0000000001ab
clock 2024-01-01T00:00:00.005Z
history
";
    assert_eq!(rt; text.as_slice(), want.as_slice());
    Ok(())
}

#[test]
fn declares_nothing_without_a_shard(rt: HostRuntime) -> Result<(), Fail> {
    let mut text = Vec::new(rt.alloc());
    append_opening(&mut text, &None, &Durability::None, &[], START)?;
    assert_eq!(rt; text.as_slice(), b"history\n".as_slice());
    Ok(())
}

#[test]
fn prints_locks(rt: HostRuntime) -> Result<(), Fail> {
    let alloc = rt.alloc();
    let taken = Reply::Taken {
        term: 3,
        actor: name(&rt, b"p"),
    };
    let text = line_of(alloc, Event::Take { command: 2 }, taken)?;
    assert_eq!(rt; text.as_slice(), b"take 2 = taken 3 p\n".as_slice());
    let text = line_of(alloc, Event::Read { command: 2 }, Reply::Lost { term: 4 })?;
    assert_eq!(rt; text.as_slice(), b"read 2 = lost 4\n".as_slice());
    let text = line_of(alloc, Event::Lapse, Reply::Ok)?;
    assert_eq!(rt; text.as_slice(), b"lapse = ok\n".as_slice());
    Ok(())
}

fn all_seen(rt: &impl Abort, alloc: Global) -> Result<Seen, OutOfMemory> {
    let mut drained = Items::new(alloc);
    drained.push(alias(rt, b"zone1-101"))?;
    drained.push(alias(rt, b"zone2-200"))?;
    let recorded = Some(Record {
        alias: alias(rt, b"zone1-100"),
        term: 1,
        moment: START,
    });
    let intent = Some(Intent {
        term: 2,
        alias: alias(rt, b"zone1-102"),
    });
    Ok(Seen {
        recorded,
        intent,
        drained,
    })
}

#[test]
fn prints_what_is_read(rt: HostRuntime) -> Result<(), Fail> {
    let alloc = rt.alloc();
    let seen = all_seen(&rt, alloc)?;
    let text = line_of(alloc, Event::Read { command: 2 }, Reply::Read(seen))?;
    let want =
        b"read 2 = record zone1-0000000100,1,2024-01-01T00:00:00.000Z intent 2,zone1-0000000102 \
                 drained zone1-0000000101,zone2-0000000200\n";
    assert_eq!(rt; text.as_slice(), want.as_slice());
    Ok(())
}

#[test]
fn prints_changes_of_the_topology(rt: HostRuntime) -> Result<(), Fail> {
    let alloc = rt.alloc();
    let stands = Reply::Stands {
        alias: alias(&rt, b"zone1-101"),
    };
    let intended = Event::Intend {
        command: 2,
        alias: alias(&rt, b"zone1-100"),
    };
    let text = line_of(alloc, intended, stands)?;
    let want = b"intend 2 zone1-0000000100 = stands zone1-0000000101\n";
    assert_eq!(rt; text.as_slice(), want.as_slice());
    let recorded = Event::Record {
        command: 2,
        alias: alias(&rt, b"zone1-100"),
    };
    let text = line_of(alloc, recorded, Reply::Lost { term: 5 })?;
    assert_eq!(rt;
        text.as_slice(),
        b"record 2 zone1-0000000100 = lost 5\n".as_slice()
    );
    let drained = Event::Drain {
        command: 2,
        alias: alias(&rt, b"zone1-100"),
    };
    let text = line_of(alloc, drained, Reply::Ok)?;
    assert_eq!(rt;
        text.as_slice(),
        b"drain 2 zone1-0000000100 = ok\n".as_slice()
    );
    Ok(())
}

fn sent_line(rt: &impl Abort, alloc: Global, call: Call) -> Result<Vec<u8>, OutOfMemory> {
    let sent = Event::Send {
        command: 2,
        alias: alias(rt, b"zone1-100"),
        call,
    };
    line_of(alloc, sent, Reply::Message { message: 9 })
}

#[test]
fn prints_plain_calls(rt: HostRuntime) -> Result<(), Fail> {
    let alloc = rt.alloc();
    let text = sent_line(&rt, alloc, Call::Status)?;
    assert_eq!(rt;
        text.as_slice(),
        b"send 2 zone1-0000000100 status = message 9\n".as_slice()
    );
    let text = sent_line(&rt, alloc, Call::Stop)?;
    assert_eq!(rt;
        text.as_slice(),
        b"send 2 zone1-0000000100 stop = message 9\n".as_slice()
    );
    let text = sent_line(&rt, alloc, Call::Demote)?;
    assert_eq!(rt;
        text.as_slice(),
        b"send 2 zone1-0000000100 demote = message 9\n".as_slice()
    );
    let text = sent_line(&rt, alloc, Call::Feed)?;
    assert_eq!(rt;
        text.as_slice(),
        b"send 2 zone1-0000000100 feed = message 9\n".as_slice()
    );
    Ok(())
}

#[test]
fn prints_calls_with_sets(rt: HostRuntime) -> Result<(), Fail> {
    let alloc = rt.alloc();
    let position = one(alloc, gtid(0, 1))?;
    let text = sent_line(&rt, alloc, Call::Promote { position })?;
    let want =
        b"send 2 zone1-0000000100 promote 00000000-0000-4000-8000-000000000100:1 = message 9\n";
    assert_eq!(rt; text.as_slice(), want.as_slice());
    let joining = Call::SetSource {
        source: alias(&rt, b"zone1-101"),
        stand: 3,
        position: one(alloc, gtid(1, 4))?,
    };
    let text = sent_line(&rt, alloc, joining)?;
    let want =
        b"send 2 zone1-0000000100 setsource zone1-0000000101 3 00000000-0000-4000-8000-000000000101:4 = message 9\n";
    assert_eq!(rt; text.as_slice(), want.as_slice());
    let waiting = Call::WaitFor {
        position: GtidSet::empty(alloc),
        until: START,
    };
    let text = sent_line(&rt, alloc, waiting)?;
    let want = b"send 2 zone1-0000000100 waitfor - 2024-01-01T00:00:00.000Z = message 9\n";
    assert_eq!(rt; text.as_slice(), want.as_slice());
    Ok(())
}

fn given_up(alloc: Global, why: Why) -> Result<Vec<u8>, OutOfMemory> {
    let given_up = Event::GiveUp {
        command: 2,
        message: 9,
    };
    line_of(alloc, given_up, Reply::GaveUp(why))
}

#[test]
fn prints_why_calls_were_given_up(rt: HostRuntime) -> Result<(), Fail> {
    let alloc = rt.alloc();
    let text = given_up(alloc, Why::Down)?;
    assert_eq!(rt; text.as_slice(), b"giveup 2 9 = down\n".as_slice());
    let text = given_up(alloc, Why::Cut)?;
    assert_eq!(rt; text.as_slice(), b"giveup 2 9 = cut\n".as_slice());
    let text = given_up(alloc, Why::Lost)?;
    assert_eq!(rt; text.as_slice(), b"giveup 2 9 = lost\n".as_slice());
    let late = Why::TimedOut {
        since: START,
        now: START + 15_001,
    };
    let text = given_up(alloc, late)?;
    let want =
        b"giveup 2 9 = timed out since 2024-01-01T00:00:00.000Z at 2024-01-01T00:00:15.001Z\n";
    assert_eq!(rt; text.as_slice(), want.as_slice());
    Ok(())
}

#[test]
fn prints_entries(rt: HostRuntime) -> Result<(), Fail> {
    let alloc = rt.alloc();
    let offered = Event::Offer {
        alias: alias(&rt, b"zone1-101"),
    };
    let text = line_of(alloc, offered, Reply::Message { message: 4 })?;
    assert_eq!(rt;
        text.as_slice(),
        b"offer zone1-0000000101 = message 4\n".as_slice()
    );
    let local = Event::Local {
        alias: alias(&rt, b"zone1-101"),
    };
    let text = line_of(alloc, local, Reply::Wrote { gtid: gtid(1, 2) })?;
    let want = b"local zone1-0000000101 = wrote 00000000-0000-4000-8000-000000000101:2\n";
    assert_eq!(rt; text.as_slice(), want.as_slice());
    let text = line_of(alloc, Event::Tell { command: 2 }, Reply::Told)?;
    assert_eq!(rt; text.as_slice(), b"tell 2 = told\n".as_slice());
    let text = line_of(alloc, Event::Tell { command: 2 }, Reply::Gone)?;
    assert_eq!(rt; text.as_slice(), b"tell 2 = gone\n".as_slice());
    Ok(())
}

#[test]
fn prints_written_entries(rt: HostRuntime) -> Result<(), Fail> {
    let alloc = rt.alloc();
    let written = Event::Write {
        command: 2,
        alias: alias(&rt, b"zone1-100"),
    };
    let text = line_of(alloc, written, Reply::Wrote { gtid: gtid(0, 3) })?;
    let want = b"write 2 zone1-0000000100 = wrote 00000000-0000-4000-8000-000000000100:3\n";
    assert_eq!(rt; text.as_slice(), want.as_slice());
    let written = Event::Write {
        command: 2,
        alias: alias(&rt, b"zone1-100"),
    };
    let stand = Standing::Demoted { term: 1, by: 2 };
    let text = line_of(alloc, written, Reply::NotPrimary { stand })?;
    let want = b"write 2 zone1-0000000100 = stand demoted from term 1 by term 2\n";
    assert_eq!(rt; text.as_slice(), want.as_slice());
    Ok(())
}

#[test]
fn prints_what_befalls_tablets(rt: HostRuntime) -> Result<(), Fail> {
    let alloc = rt.alloc();
    let crashed = Event::Crash {
        alias: alias(&rt, b"zone1-100"),
        keep: 12,
    };
    let text = line_of(alloc, crashed, Reply::Ok)?;
    assert_eq!(rt;
        text.as_slice(),
        b"crash zone1-0000000100 12 = ok\n".as_slice()
    );
    let restarted = Event::Restart {
        alias: alias(&rt, b"zone1-100"),
    };
    let text = line_of(alloc, restarted, Reply::Ok)?;
    assert_eq!(rt;
        text.as_slice(),
        b"restart zone1-0000000100 = ok\n".as_slice()
    );
    let text = line_of(alloc, Event::Tick { ms: 1000 }, Reply::Ok)?;
    assert_eq!(rt; text.as_slice(), b"tick 1000 = ok\n".as_slice());
    let text = line_of(alloc, Event::Lose { message: 3 }, Reply::Ok)?;
    assert_eq!(rt; text.as_slice(), b"lose 3 = ok\n".as_slice());
    Ok(())
}

#[test]
fn prints_links(rt: HostRuntime) -> Result<(), Fail> {
    let alloc = rt.alloc();
    let cut = Event::Cut {
        x: Side::Control,
        y: Side::Tablet {
            alias: alias(&rt, b"zone1-100"),
        },
    };
    let text = line_of(alloc, cut, Reply::Ok)?;
    assert_eq!(rt;
        text.as_slice(),
        b"cut control zone1-0000000100 = ok\n".as_slice()
    );
    let mended = Event::Mend {
        x: Side::Tablet {
            alias: alias(&rt, b"zone2-200"),
        },
        y: Side::Tablet {
            alias: alias(&rt, b"zone1-100"),
        },
    };
    let text = line_of(alloc, mended, Reply::Ok)?;
    let want = b"mend zone2-0000000200 zone1-0000000100 = ok\n";
    assert_eq!(rt; text.as_slice(), want.as_slice());
    Ok(())
}
