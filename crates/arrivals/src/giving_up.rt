//! Why a call may be given up: its tablet is down, the link is cut, it is lost, or its time is over.

ghost use Rattle.std.specs.Prelude.{◌≡◌, ◌+◌, ◌&&◌, ◌==◌, not, nat_le, is_none};
ghost use Rattle.std.specs.List.{list_all};
ghost use Rattle.shard_calls.specs.World.{numbered};
ghost use Rattle.shard_calls.specs.Messages.{passes, may_arrive, answers_to, is_unanswered, is_call_lost, may_time_out, is_overdue, why_unanswered, why_by, why_given_up};
ghost use Rattle.shard_calls.specs.declared.why.Why.TheVariants as whys;
ghost use Rattle.shard_state.specs.State.{seen, data_of, AreOfGroup};
ghost use Rattle.arrivals.specs.GivingUp.{why_in};

use crate::links::{is_cut, link_to};
use crate::receivers::may_arrive;
use shard_calls::{Call, Command, CommandState, Content, Message, Why};
use shard_names::Alias;
use shard_state::{Fields, is_down, open_command, timeout_of};

/// Whether the message of this number has not come, and may not.
fn is_out_at(fields: &Fields, number: u64) -> bool
    requires group { AreOfGroup (data_of fields.now) }
    ensures { result ≡ passes (λ m. is_none m.arrived && not (may_arrive (seen (data_of fields.now)) m)) (numbered fields.now.post.messages number) }
{
    match fields.post.message(number) {
        Some(message) => message.arrived.is_none() && !may_arrive(fields, message),
        None => false,
    }
}

fn all_out(fields: &Fields, numbers: &[u64]) -> bool
    requires group { AreOfGroup (data_of fields.now) }
    ensures { result ≡ list_all (λ k. passes (λ m. is_none m.arrived && not (may_arrive (seen (data_of fields.now)) m)) (numbered fields.now.post.messages k)) numbers.now }
{
    numbers.iter().all(|number| is_out_at(fields, *number))
}

/// Whether no answer to the call was delivered, and none may be. It costs a few steps for each answer.
fn is_unanswered(fields: &Fields, call: u64) -> bool
    requires group { AreOfGroup (data_of fields.now) }
    ensures { result ≡ is_unanswered (seen (data_of fields.now)) call }
{
    all_out(fields, fields.post.answers_to(call))
}

fn is_lost_at(fields: &Fields, number: u64) -> bool
    ensures { result ≡ passes (λ m. m.lost) (numbered fields.now.post.messages number) }
{
    match fields.post.message(number) {
        Some(message) => message.lost,
        None => false,
    }
}

fn all_lost(fields: &Fields, numbers: &[u64]) -> bool
    ensures { result ≡ list_all (λ k. passes (λ m. m.lost) (numbered fields.now.post.messages k)) numbers.now }
{
    numbers.iter().all(|number| is_lost_at(fields, *number))
}

/// Whether all answers to the call are lost.
fn are_answers_lost(fields: &Fields, call: u64) -> bool
    ensures { result ≡ list_all (λ m. m.lost) (answers_to (seen (data_of fields.now)) call) }
{
    all_lost(fields, fields.post.answers_to(call))
}

/// Whether the call was lost, or came to its tablet and all its answers were lost.
fn is_call_lost(fields: &Fields, number: u64, message: &Message) -> bool
    ensures { result ≡ is_call_lost (seen (data_of fields.now)) number message.now }
{
    message.lost || (message.arrived.is_some() && are_answers_lost(fields, number))
}

fn may_time_out(call: &Call) -> bool
    ensures { result ≡ may_time_out call.now }
{
    match call {
        Call::Status => true,
        Call::Stop => true,
        Call::Demote => true,
        Call::Promote { .. } => true,
        Call::SetSource { .. } => true,
        Call::Feed => true,
        Call::WaitFor { .. } => false,
        Call::WaitTold { .. } => false,
    }
}

/// Whether so many milliseconds have gone by.
fn is_over(sent: u64, timeout: u64, now: u64) -> bool
    ensures { result ≡ nat_le (sent + timeout) now }
{
    match sent.checked_add(timeout) {
        Some(until) => until <= now,
        None => false,
    }
}

fn is_overdue(fields: &Fields, command: &Command, message: &Message, call: &Call) -> bool
    ensures { result ≡ is_overdue (seen (data_of fields.now)) command.now message.now call.now }
{
    may_time_out(call) && is_over(message.sent, timeout_of(command), fields.clock)
}

fn timed_out(sent: u64, now: u64) -> Why
    ensures { result ≡ whys.TimedOut sent now }
{
    Why::TimedOut { since: sent, now }
}

/// The first that holds: the tablet is down, its link is cut, the call or its answers are lost, or the time is over.
fn why_unanswered(
    fields: &Fields,
    number: u64,
    command: &Command,
    message: &Message,
    to: &Alias,
    call: &Call,
) -> Option<Why>
    ensures { result ≡ why_unanswered (seen (data_of fields.now)) number command.now message.now to.now call.now }
{
    if is_down(&fields.managers, to) {
        return Some(Why::Down);
    }
    if is_cut(&fields.cuts, &link_to(to)) {
        return Some(Why::Cut);
    }
    if is_call_lost(fields, number, message) {
        return Some(Why::Lost);
    }
    if is_overdue(fields, command, message, call) {
        return Some(timed_out(message.sent, fields.clock));
    }
    None
}

/// Whether the call is the command's, and no answer to it has come or may.
fn is_waited_for(fields: &Fields, command: u64, number: u64, by: u64) -> bool
    requires group { AreOfGroup (data_of fields.now) }
    ensures { result ≡ ((by == command) && is_unanswered (seen (data_of fields.now)) number) }
{
    by == command && is_unanswered(fields, number)
}

fn why_by(
    fields: &Fields,
    command: u64,
    number: u64,
    state: &CommandState,
    message: &Message,
) -> Option<Why>
    requires group { AreOfGroup (data_of fields.now) }
    ensures { result ≡ why_by (seen (data_of fields.now)) command number state.now message.now message.now.content }
{
    match &message.content {
        Content::Asks {
            command: by,
            to,
            call,
            ..
        } => {
            if is_waited_for(fields, command, number, *by) {
                return why_unanswered(fields, number, &state.command, message, to, call);
            }
            None
        }
        Content::Answers { .. } => None,
        Content::Feeds { .. } => None,
        Content::Acks { .. } => None,
    }
}

fn why_for(fields: &Fields, command: u64, number: u64, state: &CommandState) -> Option<Why>
    requires group { AreOfGroup (data_of fields.now) }
    ensures { result ≡ why_in (seen (data_of fields.now)) command number state.now (numbered fields.now.post.messages number) }
{
    match fields.post.message(number) {
        Some(message) => why_by(fields, command, number, state, message),
        None => None,
    }
}

/// Why an open command may give up its call of this number, if it may.
///
/// It costs a few steps for each answer to the call.
pub fn why_given_up(fields: &Fields, command: u64, call: u64) -> Option<Why>
    requires group { AreOfGroup (data_of fields.now) }
    ensures { result ≡ why_given_up (seen (data_of fields.now)) command call }
{
    match open_command(&fields.commands, command) {
        Some(state) => why_for(fields, command, call, state),
        None => None,
    }
}
