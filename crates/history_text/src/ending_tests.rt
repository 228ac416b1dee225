//! How commands end in histories.

use crate::append_step;
use crate::tests::{alias, commerce, name, planned, step};
use shard_base::{Items, OutOfMemory};
use shard_calls::{
    Analysis, Command, CommandAnswer, Event, Finding, Left, NotJoined, Refusal, Reply, Rest, Why,
};
use shard_names::{Alias, Name};
use std::alloc::Global;
use std::process::Abort;
use std::test::Fail;
use vtctld_text::Begun;

/// The line of an end, where the actor `p` gave the one command.
fn ended_line(
    rt: &impl Abort,
    alloc: Global,
    command: Command,
    answer: CommandAnswer,
) -> Result<Vec<u8>, OutOfMemory> {
    let commands = [Begun {
        actor: name(rt, b"p"),
        command,
    }];
    let mut text = Vec::new(alloc);
    let ended = step(Event::End { command: 1, answer }, Reply::Ok);
    append_step(&mut text, &commands, &ended)?;
    Ok(text)
}

fn push_left(left: &mut Items<NotJoined>, alias: Alias, cause: Left) -> Result<(), OutOfMemory> {
    left.push(NotJoined { alias, left: cause })
}

#[test]
fn joins_the_lines_of_an_answer(rt: HostRuntime) -> Result<(), Fail> {
    let alloc = rt.alloc();
    let mut left = Items::new(alloc);
    push_left(&mut left, alias(&rt, b"zone1-101"), Left::GivenUp(Why::Cut))?;
    push_left(
        &mut left,
        alias(&rt, b"zone1-102"),
        Left::StaleTerm { seen: 7 },
    )?;
    let answer = CommandAnswer::Promoted {
        alias: alias(&rt, b"zone1-100"),
        term: 2,
        left,
    };
    let text = ended_line(&rt, alloc, planned(&rt), answer)?;
    let want = b"end 1 = PlannedReparentShard commerce/0: promoted zone1-0000000100 in term 2 \
                 |   not joined zone1-0000000101: cut |   not joined zone1-0000000102: has seen term 7\n";
    assert_eq!(rt; text.as_slice(), want.as_slice());
    Ok(())
}

#[test]
fn prints_answers_without_the_actor(rt: HostRuntime) -> Result<(), Fail> {
    let alloc = rt.alloc();
    let answer = CommandAnswer::Shard {
        shard: commerce(&rt),
        recorded: None,
    };
    let command = Command::GetShard {
        shard: commerce(&rt),
    };
    let text = ended_line(&rt, alloc, command, answer)?;
    let want =
        b"end 1 = {\"keyspace\":\"commerce\",\"primary_alias\":null,\"primary_term_start_time\":null,\"shard\":\"0\",\"term\":0}\n";
    assert_eq!(rt; text.as_slice(), want.as_slice());
    let answer = CommandAnswer::Refused {
        refusal: Refusal::BothGiven,
        undone: Some(false),
    };
    let text = ended_line(&rt, alloc, planned(&rt), answer)?;
    let want = b"end 1 = PlannedReparentShard commerce/0: refused 6 BothGiven; not undone\n";
    assert_eq!(rt; text.as_slice(), want.as_slice());
    Ok(())
}

fn push_rest(rest: &mut Items<Rest>, alias: Alias, to: Alias) -> Result<(), OutOfMemory> {
    let _refusal: Option<&Refusal> = None;
    let _left: Option<&Left> = None;
    rest.push(Rest::Joined { alias, to })
}

#[test]
fn prints_what_a_vtorc_found(rt: HostRuntime) -> Result<(), Fail> {
    let alloc = rt.alloc();
    let mut findings = Items::new(alloc);
    findings.push(Finding {
        alias: alias(&rt, b"zone1-101"),
        analysis: Analysis::ReplicationStopped,
    })?;
    let mut rest = Items::new(alloc);
    push_rest(
        &mut rest,
        alias(&rt, b"zone1-101"),
        alias(&rt, b"zone1-100"),
    )?;
    let answer = CommandAnswer::Vtorc { findings, rest };
    let text = ended_line(&rt, alloc, Command::Vtorc, answer)?;
    let want =
        b"end 1 = vtorc: ReplicationStopped on zone1-0000000101 | vtorc: joined zone1-0000000101 to zone1-0000000100\n";
    assert_eq!(rt; text.as_slice(), want.as_slice());
    Ok(())
}
