//! With which answers an open command may end.

ghost use Rattle.std.specs.Prelude.{◌≡◌, ◌&&◌, true, IsOk, IfOk};
ghost use Rattle.shard_calls.specs.Causes.{has_write_cause, has_external_cause, has_vtorc_cause, has_tablets_cause, has_command_cause, has_cause};
ghost use Rattle.shard_calls.specs.Commands.{planned_options, emergency_options};
ghost use Rattle.shard_calls.specs.Spans.{span_in};
ghost use Rattle.shard_calls.specs.Stands.{is_primary_of};
ghost use Rattle.shard_calls.specs.World.{numbered, if_open};
ghost use Rattle.shard_state.specs.State.{data_of, config_in, group_in, seen, state_at};
ghost use Rattle.causes.specs.Writing.{stands_for};
ghost use Rattle.shard_core.specs.Causes.{planned_cause, emergency_cause, is_out_of_memory};

use causes::{
    has_emergency_cause, has_external_cause, has_planned_cause, has_shard_cause, has_show_cause,
    has_tablets_cause, has_vtorc_cause, has_write_cause,
};
use shard_base::OutOfMemory;
use shard_calls::{
    Command, CommandAnswer, CommandState, EmergencyOptions, PlannedOptions, Refusal,
};
use shard_names::Alias;
use shard_state::{Fields, group_of, manager_of, open_command, span_of};
use tablet_manager::Manager;

// ---- of a reparent

fn planned_cause(
    fields: &Fields,
    state: &CommandState,
    answer: &CommandAnswer,
) -> Result<bool, OutOfMemory>
    ensures { IfOk result (λ b. b ≡ planned_cause (group_in (data_of fields.now)) (planned_options state.now.command) state.now (span_in (data_of fields.now).messages state.now) answer.now) }
{
    match PlannedOptions::of(&state.command) {
        Some(options) => {
            let span = span_of(fields.alloc, &fields.post, state)?;
            let group = group_of(fields.alloc, fields)?;
            has_planned_cause(fields.alloc, &group, &options, state, &span, answer)
        }
        None => Ok(false),
    }
}

fn emergency_cause(
    fields: &Fields,
    state: &CommandState,
    answer: &CommandAnswer,
) -> Result<bool, OutOfMemory>
    ensures { IfOk result (λ b. b ≡ emergency_cause (group_in (data_of fields.now)) (emergency_options state.now.command) state.now (span_in (data_of fields.now).messages state.now) answer.now) }
{
    match EmergencyOptions::of(&state.command)? {
        Some(options) => {
            let span = span_of(fields.alloc, &fields.post, state)?;
            let group = group_of(fields.alloc, fields)?;
            has_emergency_cause(fields.alloc, &group, &options, state, &span, answer)
        }
        None => Ok(false),
    }
}

/// Of a promotion of the tablet by other hands.
fn external_cause(
    fields: &Fields,
    alias: &Alias,
    state: &CommandState,
    answer: &CommandAnswer,
) -> Result<bool, OutOfMemory>
    ensures { IfOk result (λ b. b ≡ has_external_cause (group_in (data_of fields.now)) alias.now (span_in (data_of fields.now).messages state.now) answer.now) }
{
    let span = span_of(fields.alloc, &fields.post, state)?;
    let group = group_of(fields.alloc, fields)?;
    Ok(has_external_cause(&group, alias, &span, answer))
}

/// Of a repair of what is amiss.
fn vtorc_cause(
    fields: &Fields,
    state: &CommandState,
    answer: &CommandAnswer,
) -> Result<bool, OutOfMemory>
    ensures { IfOk result (λ b. b ≡ has_vtorc_cause (group_in (data_of fields.now)) state.now (span_in (data_of fields.now).messages state.now) answer.now) }
{
    let span = span_of(fields.alloc, &fields.post, state)?;
    let group = group_of(fields.alloc, fields)?;
    has_vtorc_cause(fields.alloc, &group, state, &span, answer)
}

// ---- of a write

/// Whether the tablet is the primary of the term.
fn is_primary_at(managers: &[Manager], alias: &Alias, term: u64) -> bool
    ensures { result ≡ is_primary_of (state_at managers.now alias.now).stand term }
{
    match manager_of(managers, alias) {
        Some(manager) => manager.stand().is_primary_of(term),
        None => false,
    }
}

/// Whether the tablet that an `Unknown` names is still the primary of the term that it names.
fn stands_for(fields: &Fields, answer: &CommandAnswer) -> bool
    ensures { result ≡ stands_for (seen (data_of fields.now)) answer.now }
{
    match answer {
        CommandAnswer::Unknown { alias, term, .. } => {
            is_primary_at(&fields.managers, alias, *term)
        }
        _ => false,
    }
}

fn write_cause(
    fields: &Fields,
    to: &Option<Alias>,
    state: &CommandState,
    answer: &CommandAnswer,
) -> bool
    ensures { result ≡ has_write_cause (seen (data_of fields.now)) to.now state.now answer.now }
{
    has_write_cause(to, state, answer, stands_for(fields, answer))
}

// ---- of any command

/// Whether it says that memory ran out, and that nothing was tried to undo.
fn is_out_of_memory(answer: &CommandAnswer) -> bool
    ensures { result ≡ is_out_of_memory answer.now }
{
    match answer {
        CommandAnswer::Refused { refusal, undone } => {
            undone.is_none() && matches!(refusal, Refusal::OutOfMemory)
        }
        _ => false,
    }
}

/// Of a look at the shard's tablets.
fn tablets_cause(
    fields: &Fields,
    state: &CommandState,
    answer: &CommandAnswer,
) -> Result<bool, OutOfMemory>
    ensures { IfOk result (λ b. b ≡ has_tablets_cause (group_in (data_of fields.now)) state.now answer.now) }
{
    let group = group_of(fields.alloc, fields)?;
    Ok(has_tablets_cause(&group, state, answer))
}

fn command_cause(
    fields: &Fields,
    state: &CommandState,
    answer: &CommandAnswer,
) -> Result<bool, OutOfMemory>
    ensures { IfOk result (λ b. b ≡ has_command_cause (config_in (data_of fields.now)) (seen (data_of fields.now)) state.now state.now.command answer.now) }
{
    match &state.command {
        Command::Planned { .. } => planned_cause(fields, state, answer),
        Command::Emergency { .. } => emergency_cause(fields, state, answer),
        Command::External { alias } => external_cause(fields, alias, state, answer),
        Command::Vtorc => vtorc_cause(fields, state, answer),
        Command::Write { to } => Ok(write_cause(fields, to, state, answer)),
        Command::Show { alias } => Ok(has_show_cause(alias, state, answer)),
        Command::GetShard { shard } => Ok(has_shard_cause(shard, state, answer)),
        Command::GetTablets { .. } => tablets_cause(fields, state, answer),
    }
}

/// The same, where want of memory needs no other cause.
#[tactic(auto, using(crate::proofs::CauseLemmas::memory_cause))]
fn state_cause(
    fields: &Fields,
    state: &CommandState,
    answer: &CommandAnswer,
) -> Result<bool, OutOfMemory>
    ensures cause { IfOk result (λ b. b ≡ has_command_cause (config_in (data_of fields.now)) (seen (data_of fields.now)) state.now state.now.command answer.now) }
    ensures kept { is_out_of_memory answer.now ≡ true → IsOk result }
{
    if is_out_of_memory(answer) {
        return Ok(true);
    }
    command_cause(fields, state, answer)
}

/// Whether the open command of this number may end with this answer, if that is told without memory: that it has run out of memory.
#[tactic(auto, using(crate::proofs::CauseLemmas::cause_at_once))]
pub(crate) fn has_cause_at_once(fields: &Fields, command: u64, answer: &CommandAnswer) -> bool
    ensures { result ≡ (is_out_of_memory answer.now && has_cause (config_in (data_of fields.now)) (seen (data_of fields.now)) (if_open (numbered (data_of fields.now).commands command)) answer.now) }
{
    is_out_of_memory(answer) && open_command(&fields.commands, command).is_some()
}

/// Whether the open command of this number may end with this answer. That it has run out of memory takes no memory to tell.
pub(crate) fn has_cause(
    fields: &Fields,
    command: u64,
    answer: &CommandAnswer,
) -> Result<bool, OutOfMemory>
    ensures cause { IfOk result (λ b. b ≡ has_cause (config_in (data_of fields.now)) (seen (data_of fields.now)) (if_open (numbered (data_of fields.now).commands command)) answer.now) }
    ensures kept { is_out_of_memory answer.now ≡ true → IsOk result }
{
    match open_command(&fields.commands, command) {
        Some(state) => state_cause(fields, state, answer),
        None => Ok(false), // it has ended, or never began
    }
}
