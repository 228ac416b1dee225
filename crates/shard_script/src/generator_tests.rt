//! The first rounds of a rehearsal.

use crate::generator::{drawn_kind, next_seed};
use crate::{Action, generate};
use shard_calls::Command;
use std::test::Fail;

#[test]
fn draws_two_watches_and_then_writes(rt: HostRuntime) -> Result<(), Fail> {
    let first = next_seed(1);
    let second = next_seed(first);
    let third = next_seed(second);
    assert_eq!(rt; drawn_kind(first), 6);
    assert_eq!(rt; drawn_kind(second), 6);
    assert_eq!(rt; drawn_kind(third), 1);
    Ok(())
}

fn name_of(command: &Command) -> &'static [u8] {
    match command {
        Command::Planned { .. } => b"PlannedReparentShard",
        Command::Vtorc => b"vtorc",
        Command::Write { .. } => b"write",
        _ => b"another command",
    }
}

/// The command of a line, and how many times it is given.
fn given_by(action: &Action) -> (&'static [u8], u64) {
    match action {
        Action::Play { command, count } => (name_of(command), *count),
        _ => (b"no command", 0),
    }
}

#[test]
fn three_rounds_have_these_lines(rt: HostRuntime) -> Result<(), Fail> {
    let script = generate(rt.alloc(), 3)?;
    let lines = [
        (b"PlannedReparentShard".as_slice(), 1),
        (b"vtorc".as_slice(), 1),
        (b"vtorc".as_slice(), 1),
        (b"write".as_slice(), 5),
    ];
    assert_eq!(rt; script.actions.as_slice().len(), lines.len());
    for (action, (name, count)) in script.actions.as_slice().iter().zip(lines) {
        let given = given_by(action);
        assert_eq!(rt; given.0, name);
        assert_eq!(rt; given.1, count);
    }
    Ok(())
}
