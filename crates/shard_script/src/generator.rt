//! A large rehearsal from a number: rounds of writes, reparents, crashes, emergencies and watches.

ghost use Rattle.std.specs.Prelude.{◌≡◌, ◌<◌, ◌≤◌, ◌∷◌, ◌++◌, length, OnOk, IfOk};
ghost use Rattle.shard_script.specs.Generator.{generated_name, alias_in, server_of, replica_in, generated_tablets, drawn_alias, next_seed, drawn_kind, drawn_tablet, once, promotes, rescues, quiet_lines, crash_lines, round_lines, round_of, rounds, first_line, generated};
ghost use Rattle.shard_script.specs.Script.{Fits};

use crate::script::{Action, Script};
use durability::Durability;
use shard_base::{Items, OutOfMemory, Text};
use shard_calls::Command;
use shard_names::{Alias, ShardName, Tablet, TabletType};
use std::alloc::Global;
use uuid::Uuid;

/// The cells of the tablets.
const NEAR: &[u8] = b"zone1";

const FAR: &[u8] = b"zone2";

/// A text that has room in its kind.
fn text<const N: usize>(bytes: &[u8]) -> Text<N>
    requires { length bytes.now ≤ N }
    ensures { result ≡ bytes.now }
{
    match Text::from_slice(bytes) {
        Some(text) => text,
        None => unreachable!(),
    }
}

fn generated_name() -> ShardName
    ensures { result ≡ generated_name }
{
    ShardName {
        keyspace: text(b"gen"),
        shard: text(b"0"),
    }
}

fn alias_in(cell: &[u8], uid: u32) -> Alias
    requires { length cell.now ≤ 32 }
    ensures { result ≡ alias_in cell.now uid }
{
    Alias {
        cell: text(cell),
        uid,
    }
}

fn server_of(uid: u32) -> Uuid
    requires { uid < 1000 }
    ensures { result ≡ server_of uid }
{
    let (high, low) = ((uid / 100) as u8, (uid % 100) as u8);
    Uuid::from_bytes([0, 0, 0, 0, 0, 0, 0x40, 0, 0x80, 0, 0, 0, 0, 0, high, low])
}

fn replica_in(cell: &[u8], uid: u32) -> Tablet
    requires few { length cell.now ≤ 32 }
    requires small { uid < 1000 }
    ensures { result ≡ replica_in cell.now uid }
{
    Tablet {
        alias: alias_in(cell, uid),
        server: server_of(uid),
        kind: TabletType::Replica,
    }
}

fn generated_tablets(alloc: Global) -> Result<Items<Tablet>, OutOfMemory>
    ensures { IfOk result (λ tablets. tablets ≡ generated_tablets) }
{
    let mut tablets = Items::new(alloc);
    tablets.push(replica_in(NEAR, 100))?;
    tablets.push(replica_in(NEAR, 101))?;
    tablets.push(replica_in(NEAR, 102))?;
    tablets.push(replica_in(FAR, 200))?;
    tablets.push(replica_in(FAR, 201))?;
    Ok(tablets)
}

/// The alias of the tablet at this place.
fn drawn_alias(place: u64) -> Alias
    ensures { result ≡ drawn_alias place }
{
    if place == 0 {
        alias_in(NEAR, 100)
    } else if place == 1 {
        alias_in(NEAR, 101)
    } else if place == 2 {
        alias_in(NEAR, 102)
    } else if place == 3 {
        alias_in(FAR, 200)
    } else {
        alias_in(FAR, 201)
    }
}

/// The number that is drawn behind this one.
pub(crate) fn next_seed(seed: u64) -> u64
    requires { seed < 2147483648 }
    ensures value { result ≡ next_seed seed }
    ensures small { result < 2147483648 }
{
    (seed * 1_103_515_245 + 12_345) % 2_147_483_648
}

fn once(command: Command) -> Action
    ensures { result ≡ once command }
{
    Action::Play { command, count: 1 }
}

/// The reparent to this tablet, in whatever cell.
fn promotes(alias: Alias) -> Command
    ensures { result ≡ promotes alias }
{
    Command::Planned {
        shard: generated_name(),
        new_primary: Some(alias),
        avoid: None,
        expected: None,
        timeout: None,
        allow_cross_cell: true,
    }
}

fn rescues(alloc: Global) -> Command
    ensures { result ≡ rescues }
{
    Command::Emergency {
        shard: generated_name(),
        new_primary: None,
        ignored: Items::new(alloc),
        expected: None,
        timeout: None,
        prevent_cross_cell: false,
    }
}

/// The tablet crashes, the shard is rescued, and the tablet comes back and is looked after.
fn push_crash(alloc: Global, actions: &mut Items<Action>, alias: &Alias) -> Result<(), OutOfMemory>
    ensures { OnOk result (actions.new ≡ actions.old ++ crash_lines alias.now) }
{
    actions.push(Action::Crash {
        alias: *alias,
        keep: 0,
    })?;
    actions.push(once(rescues(alloc)))?;
    actions.push(Action::Restart { alias: *alias })?;
    actions.push(once(Command::Vtorc))
}

fn push_quiet(actions: &mut Items<Action>) -> Result<(), OutOfMemory>
    ensures { OnOk result (actions.new ≡ actions.old ++ quiet_lines) }
{
    actions.push(Action::Tick { ms: 1000 })?;
    actions.push(Action::Settle)
}

/// The lines of a round of this kind.
#[tactic(auto, unfolding(crate::specs::Generator::round_lines))]
fn push_round(
    alloc: Global,
    actions: &mut Items<Action>,
    kind: u64,
    alias: &Alias,
) -> Result<(), OutOfMemory>
    ensures { OnOk result (actions.new ≡ actions.old ++ round_lines kind alias.now) }
{
    match kind {
        0..=3 => actions.push(Action::Play {
            command: Command::Write { to: None },
            count: 5,
        }),
        4 => actions.push(once(promotes(*alias))),
        5 => push_crash(alloc, actions, alias),
        6 => actions.push(once(Command::Vtorc)),
        _ => push_quiet(actions),
    }
}

/// What the round of this number does, from 0 to 7.
pub(crate) fn drawn_kind(seed: u64) -> u64
    ensures { result ≡ drawn_kind seed }
{
    seed / 65_536 % 8
}

/// The lines of the round that this number draws.
fn push_drawn(alloc: Global, actions: &mut Items<Action>, seed: u64) -> Result<(), OutOfMemory>
    ensures { OnOk result (actions.new ≡ actions.old ++ round_of seed) }
{
    let kind = drawn_kind(seed);
    let alias = drawn_alias(seed / 1_048_576 % 5);
    push_round(alloc, actions, kind, &alias)
}

/// The first reparent, and so many rounds.
fn generated_actions(alloc: Global, n: u64) -> Result<Items<Action>, OutOfMemory>
    ensures { IfOk result (λ actions. actions ≡ first_line ∷ rounds n 1) }
{
    let mut actions = Items::new(alloc);
    actions.push(first_line())?;
    let mut seed = 1;
    for _round in 0..n {
        seed = next_seed(seed);
        push_drawn(alloc, &mut actions, seed)?;
    }
    Ok(actions)
}

fn first_line() -> Action
    ensures { result ≡ first_line }
{
    once(Command::Planned {
        shard: generated_name(),
        new_primary: Some(alias_in(NEAR, 100)),
        avoid: None,
        expected: None,
        timeout: None,
        allow_cross_cell: false,
    })
}

/// The script of a rehearsal of so many rounds, from 1 to 1,000: five replicas in two cells under the policy `semi_sync`, and in each round, as its drawn
/// number says, five writes, a reparent, a crash with an emergency, a watch, or a second that goes by.
#[tactic(auto, using(crate::proofs::GeneratorLemmas::generated_fits))]
pub fn generate(alloc: Global, n: u64) -> Result<Script, OutOfMemory>
    requires some { 1 ≤ n }
    requires few { n ≤ 1000 }
    ensures script { IfOk result (λ script. script ≡ generated n) }
    ensures fits { IfOk result Fits }
{
    Ok(Script {
        shard: Some(generated_name()),
        policy: Durability::SemiSync,
        clock: None,
        tablets: generated_tablets(alloc)?,
        names: Items::new(alloc),
        actions: generated_actions(alloc, n)?,
    })
}
