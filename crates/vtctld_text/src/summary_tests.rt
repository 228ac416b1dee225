//! The line that is said of a large rehearsal.

use crate::tests::{alias, began, ended, gtid, name};
use crate::write_summary;
use shard_base::OutOfMemory;
use shard_calls::{Command, CommandAnswer, Event, Refusal, Reply, Step};
use shard_names::Alias;
use std::alloc::Global;
use std::process::Abort;
use std::test::Fail;

fn intended(alias: Alias, reply: Reply) -> Step {
    Step {
        event: Event::Intend { command: 1, alias },
        reply,
    }
}

fn summary(alloc: Global, rounds: u64, steps: &[Step]) -> Result<Vec<u8>, OutOfMemory> {
    let mut text = Vec::new(alloc);
    write_summary(rounds, steps, &mut text)?;
    Ok(text)
}

fn committed(rt: &impl Abort, term: u64) -> CommandAnswer {
    CommandAnswer::Committed {
        gtid: gtid(0, 2),
        alias: alias(rt, b"zone1-100"),
        term,
    }
}

#[test]
fn counts_one_term(rt: HostRuntime) -> Result<(), Fail> {
    let steps = [
        began(name(&rt, b"main"), Command::Write { to: None }),
        intended(alias(&rt, b"zone1-100"), Reply::Ok),
        intended(alias(&rt, b"zone1-101"), Reply::Lost { term: 1 }),
        ended(committed(&rt, 1)),
    ];
    let text = summary(rt.alloc(), 3, &steps)?;
    let want = b"gen 3: 1 commands, 0 refused, 1 term, 1 committed\n";
    assert_eq!(rt; text.as_slice(), want.as_slice());
    Ok(())
}

/// Commands that have begun and not ended are not counted.
#[test]
fn counts_terms_and_refusals(rt: HostRuntime) -> Result<(), Fail> {
    let refused = CommandAnswer::Refused {
        refusal: Refusal::BothGiven,
        undone: None,
    };
    let steps = [
        intended(alias(&rt, b"zone1-100"), Reply::Ok),
        intended(alias(&rt, b"zone1-101"), Reply::Ok),
        ended(refused),
        ended(committed(&rt, 2)),
        began(name(&rt, b"main"), Command::Write { to: None }),
    ];
    let text = summary(rt.alloc(), 20, &steps)?;
    let want = b"gen 20: 2 commands, 1 refused, 2 terms, 1 committed\n";
    assert_eq!(rt; text.as_slice(), want.as_slice());
    Ok(())
}
