//! What a client's write changes, a write at a tablet itself, a crash and a restart.

ghost use Rattle.std.specs.Prelude.{◌≡◌, ◌<◌, ◌≤◌, ◌+◌, ◌-◌, ◌^◌, ℕ, List, true, length, Err, Ok, OnOk, OnErr, IfOk, Some};
ghost use Rattle.shard_names.specs.Tablets.{is_declared};
ghost use Rattle.gtid_sets.specs.Logs.{greatest_number};
ghost use Rattle.shard_calls.specs.Stands.{primary_term, standing_of};
ghost use Rattle.shard_calls.specs.World.{changed_at, with_act};
ghost use Rattle.shard_calls.specs.Table.{meets};
ghost use Rattle.shard_calls.specs.declared.state.Act.TheVariants as acts;
ghost use Rattle.shard_calls.specs.declared.event.Event.TheVariants as events;
ghost use Rattle.shard_calls.specs.declared.event.Reply.TheVariants as replies;
ghost use Rattle.shard_state.specs.State.{data_of, config_in, seen, state_at, tablets_of};
ghost use Rattle.changes.specs.Few.{AreFew};
ghost use Rattle.changes.specs.Makes.{Makes};

use crate::acts::{act, forget, note_written};
use crate::tablets::{
    count_at, crash_at, next_gtid, primary_term, restart_at, stand_at, write_at, write_local_at,
};
use gtid_sets::Gtid;
use shard_base::OutOfMemory;
use shard_calls::{Act, CommandState, Reply, Stand, Wrote};
use shard_names::Alias;
use shard_state::{Fields, open_command};

/// The command found the tablet standing so.
fn refuse_write(
    commands: &mut Vec<CommandState>,
    command: u64,
    alias: &Alias,
    stand: &Stand,
) -> Result<Reply, OutOfMemory>
    ensures reply { IfOk result (λ reply. reply ≡ replies.NotPrimary (standing_of stand.now)) }
    ensures ok { OnOk result (commands.new.items ≡ changed_at commands.old.items command (with_act (acts.Wrote alias.now (Err (standing_of stand.now))))) }
    ensures err { OnErr result (commands.new.items ≡ commands.old.items) }
{
    let new = Act::Wrote {
        alias: *alias,
        reply: Err(stand.standing()),
    };
    act(commands, command, new)?;
    Ok(Reply::NotPrimary {
        stand: stand.standing(),
    })
}

/// The command has written this transaction.
fn note_entry(
    commands: &mut Vec<CommandState>,
    command: u64,
    gtid: &Gtid,
    alias: &Alias,
    term: u64,
    index: u64,
)
    ensures { commands.new.items ≡ changed_at commands.old.items command (λ s. record s { wrote = Some (record { gtid = gtid.now; alias = alias.now; term = term; index = index }) }) }
{
    let wrote = Wrote {
        gtid: *gtid,
        alias: *alias,
        term,
        index,
    };
    note_written(commands, command, wrote);
}

fn wrote_act(alias: &Alias, gtid: &Gtid) -> Act
    ensures { result ≡ acts.Wrote alias.now (Ok gtid.now) }
{
    Act::Wrote {
        alias: *alias,
        reply: Ok(*gtid),
    }
}

/// The primary of the term writes the command's entry. The act and what the tablet does come together or not at all.
fn write_entry(
    fields: &mut Fields,
    command: u64,
    alias: &Alias,
    term: u64,
) -> Result<Reply, OutOfMemory>
    requires met { meets (config_in (data_of fields.old)) (seen (data_of fields.old)) (events.Write command alias.now) ≡ true }
    requires few { AreFew (2 ^ 20) (seen (data_of fields.old)) }
    requires primary { primary_term (state_at fields.old.managers.items alias.now).stand ≡ Some term }
    ensures made { IfOk result (λ reply. Makes (data_of fields.old) (data_of fields.new) (events.Write command alias.now) reply) }
    ensures err { OnErr result (data_of fields.new ≡ data_of fields.old) }
{
    let state = match open_command(&fields.commands, command) {
        Some(state) => state,
        None => unreachable!(),
    };
    let client = state.client;
    let number = state.number;
    let index = count_at(&fields.managers, alias) as u64 + 1;
    let gtid = next_gtid(&fields.managers, alias);
    let new = wrote_act(alias, &gtid);
    act(&mut fields.commands, command, new)?;
    match write_at(&mut fields.managers, alias, client, number) {
        Ok(_) => {
            note_entry(&mut fields.commands, command, &gtid, alias, term, index);
            Ok(Reply::Wrote { gtid })
        }
        Err(fault) => {
            forget(&mut fields.commands, command);
            Err(fault)
        }
    }
}

/// The tablet writes the command's entry, if it is a primary.
pub(crate) fn write(fields: &mut Fields, command: u64, alias: &Alias) -> Result<Reply, OutOfMemory>
    requires met { meets (config_in (data_of fields.old)) (seen (data_of fields.old)) (events.Write command alias.now) ≡ true }
    requires few { AreFew (2 ^ 20) (seen (data_of fields.old)) }
    ensures made { IfOk result (λ reply. Makes (data_of fields.old) (data_of fields.new) (events.Write command alias.now) reply) }
    ensures err { OnErr result (data_of fields.new ≡ data_of fields.old) }
{
    let stand = stand_at(&fields.managers, alias);
    match primary_term(&stand) {
        Some(term) => write_entry(fields, command, alias, term),
        None => refuse_write(&mut fields.commands, command, alias, &stand),
    }
}

/// An entry is written at the tablet itself, round the primary.
pub(crate) fn write_local(fields: &mut Fields, alias: &Alias) -> Result<Reply, OutOfMemory>
    requires met { meets (config_in (data_of fields.old)) (seen (data_of fields.old)) (events.Local alias.now) ≡ true }
    requires few { AreFew (2 ^ 20) (seen (data_of fields.old)) }
    ensures made { IfOk result (λ reply. Makes (data_of fields.old) (data_of fields.new) (events.Local alias.now) reply) }
    ensures err { OnErr result (data_of fields.new ≡ data_of fields.old) }
{
    write_local_at(&mut fields.managers, alias)
}

/// The tablet goes down. It takes no memory.
pub(crate) fn crash(fields: &mut Fields, alias: &Alias, keep: u64) -> Reply
    requires met { meets (config_in (data_of fields.old)) (seen (data_of fields.old)) (events.Crash alias.now keep) ≡ true }
    ensures { Makes (data_of fields.old) (data_of fields.new) (events.Crash alias.now keep) result }
{
    let _kept = keep; // a log in memory keeps what is there
    crash_at(&mut fields.managers, alias);
    Reply::Ok
}

/// The tablet comes up. It takes no memory.
pub(crate) fn restart(fields: &mut Fields, alias: &Alias) -> Reply
    requires met { meets (config_in (data_of fields.old)) (seen (data_of fields.old)) (events.Restart alias.now) ≡ true }
    ensures { Makes (data_of fields.old) (data_of fields.new) (events.Restart alias.now) result }
{
    restart_at(&mut fields.managers, alias);
    Reply::Ok
}
