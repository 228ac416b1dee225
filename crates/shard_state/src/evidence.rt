//! What a promotion rests on: that nothing was intended before, that the last intended tablet gave up its place, or that a set of tablets
//! stopped that meets whatever could still be told.

ghost use Rattle.std.specs.Prelude.{◌≡◌, ◌||◌, ◌&&◌, not, nat_lt, length, filter, reverse, is_some};
ghost use Rattle.std.specs.List.{find, list_all};
ghost use Rattle.std.specs.Option.{option_copied};
ghost use Rattle.gtid_sets.specs.StoredPosition.{position_eq};
ghost use Rattle.durability.specs.Policies.{rules_of};
ghost use Rattle.durability.specs.Sets.{ackers_in};
ghost use Rattle.shard_names.specs.declared.alias.Alias.{Alias};
ghost use Rattle.gtid_sets.specs.Winner.{winner};
ghost use Rattle.topo_lock.specs.Topology.{last_of};
ghost use Rattle.shard_calls.specs.Outcomes.{sendings};
ghost use Rattle.shard_calls.specs.Grounds.{demoted_at, gave_up, grounded, has_any_ground, has_evidence, has_stopped, if_stopped, if_demoted, is_of_term, last_before, passes_held, revokes_all, stopped_all, stopped_among, stopped_at};
ghost use Rattle.shard_state.specs.State.{data_of, config_in, seen, tablets_of};
ghost use Rattle.shard_state.specs.InPlace.{answered_by, asks, covers_held, covers_leading, first_answer, greatest_stopped, is_asked_by, held_by, is_asked_in, is_leading, is_out, leads_all, newest_or_zero, stopped_by, winner_among};

use crate::Fields;
use crate::declared::is_eligible_alias;
use crate::locks::{intends, is_first};
use crate::lookups::command_of;
use crate::outcomes::answer_to_call;
use durability::{Durability, Policy, is_eligible};
use gtid_sets::{GtidSet, covers};
use post::Post;
use shard_calls::{Act, Answer, Call, Content};
use shard_names::{Alias, Tablet};
use tablet_manager::Manager;
use topo_lock::Intent;

/// A call by which a tablet gives up what it does.
#[derive(Clone, Copy)]
pub(crate) enum Leave {
    Stop,
    Demote,
}

fn asks(leave: Leave, call: &Call) -> bool
    ensures { result ≡ asks leave call.now }
{
    match leave {
        Leave::Stop => matches!(call, Call::Stop),
        Leave::Demote => matches!(call, Call::Demote),
    }
}

fn is_asked_in(term: u64, alias: &Alias, leave: Leave, content: &Content) -> bool
    ensures { result ≡ is_asked_in term alias.now leave content.now }
{
    match content {
        Content::Asks {
            term: of,
            to,
            call,
            ..
        } => *of == term && *to == *alias && asks(leave, call),
        Content::Answers { .. } => false,
        Content::Feeds { .. } => false,
        Content::Acks { .. } => false,
    }
}

/// Whether the act sent such a call.
fn is_asked_by(post: &Post, term: u64, alias: &Alias, leave: Leave, act: &Act) -> bool
    ensures { result ≡ is_asked_by post.now.messages term alias.now leave act.now }
{
    match act {
        Act::Sent { message } => match post.message(*message) {
            Some(message) => is_asked_in(term, alias, leave, &message.content),
            None => false,
        },
        _ => false,
    }
}

/// The first act that sent such a call.
fn first_asking<'a>(
    post: &Post,
    acts: &'a [Act],
    term: u64,
    alias: &Alias,
    leave: Leave,
) -> Option<&'a Act>
    ensures { option_copied result ≡ find (is_asked_by post.now.messages term alias.now leave) acts.now }
{
    acts.iter()
        .find(|act| is_asked_by(post, term, alias, leave, act))
}

/// What the call of an act was answered.
fn answered_by<'a>(post: &'a Post, act: &Act) -> Option<&'a Answer>
    ensures { option_copied result ≡ answered_by post.now.messages act.now }
{
    match act {
        Act::Sent { message } => match post.message(*message) {
            Some(message) => answer_to_call(post, message),
            None => None,
        },
        _ => None,
    }
}

/// What the first such call of the command in the term to the tablet was answered.
fn first_answer<'a>(
    post: &'a Post,
    acts: &[Act],
    term: u64,
    alias: &Alias,
    leave: Leave,
) -> Option<&'a Answer>
    ensures { option_copied result ≡ first_answer post.now.messages acts.now term alias.now leave }
{
    match first_asking(post, acts, term, alias, leave) {
        Some(act) => answered_by(post, act),
        None => None,
    }
}

/// What the command's first Stop of the tablet was answered.
fn stop_answer<'a>(post: &'a Post, acts: &[Act], term: u64, alias: &Alias) -> Option<&'a Answer>
    ensures { held_by (if_stopped alias.now) (option_copied result) ≡ stopped_at (sendings post.now.messages acts.now) term alias.now }
{
    first_answer(post, acts, term, alias, Leave::Stop)
}

/// What the command's first Demote of the tablet was answered.
fn demote_answer<'a>(post: &'a Post, acts: &[Act], term: u64, alias: &Alias) -> Option<&'a Answer>
    ensures { held_by (if_demoted alias.now) (option_copied result) ≡ demoted_at (sendings post.now.messages acts.now) term alias.now }
{
    first_answer(post, acts, term, alias, Leave::Demote)
}

fn is_same(a: &GtidSet, b: &GtidSet) -> bool
    ensures { result ≡ position_eq a.now b.now }
{
    *a == *b
}

/// The first intent of an earlier term from the end on.
fn find_before(intents: &[Intent], term: u64) -> Option<&Intent>
    ensures { option_copied result ≡ find (λ i. nat_lt i.term term) (reverse intents.now) }
{
    intents.iter().rev().find(|intent| intent.term < term)
}

/// The last intent of an earlier term. It costs the steps from the last intent back to it.
fn last_before(intents: &[Intent], term: u64) -> Option<Intent>
    ensures { result ≡ last_of (filter (λ i. nat_lt i.term term) intents.now) }
{
    find_before(intents, term).copied()
}

/// It gave up its place with nothing newer than the row of this term, and had this position.
fn is_of_term(answer: &Answer, term: u64, position: &GtidSet) -> bool
    ensures { (alias : Alias) → result ≡ passes_held (is_of_term term position.now) (if_demoted alias answer.now) }
{
    match answer {
        Answer::Demoted {
            newest,
            position: had,
        } => *newest == term && is_same(position, had),
        _ => false,
    }
}

fn gave_up_by(post: &Post, acts: &[Act], term: u64, position: &GtidSet, intent: &Intent) -> bool
    ensures { result ≡ passes_held (is_of_term intent.now.term position.now) (demoted_at (sendings post.now.messages acts.now) term intent.now.alias) }
{
    match demote_answer(post, acts, term, &intent.alias) {
        Some(answer) => is_of_term(answer, intent.term, position),
        None => false,
    }
}

/// Whether the last intended tablet gave up its place, and had this position.
fn gave_up(fields: &Fields, acts: &[Act], term: u64, position: &GtidSet) -> bool
    ensures { result ≡ gave_up (sendings fields.now.post.messages acts.now) term position.now (last_before fields.now.topo.topology term) }
{
    match last_before(fields.topo.intents(), term) {
        Some(intent) => gave_up_by(&fields.post, acts, term, position, &intent),
        None => false,
    }
}

fn has_stopped_so(answer: &Answer) -> bool
    ensures { (alias : Alias) → result ≡ is_some (if_stopped alias answer.now) }
{
    matches!(answer, Answer::Stopped { .. })
}

/// Whether the tablet stopped.
fn has_stopped(post: &Post, acts: &[Act], term: u64, alias: &Alias) -> bool
    ensures { result ≡ has_stopped (sendings post.now.messages acts.now) term alias.now }
{
    match stop_answer(post, acts, term, alias) {
        Some(answer) => has_stopped_so(answer),
        None => false,
    }
}

fn is_unstopped_acker(
    fields: &Fields,
    acts: &[Act],
    term: u64,
    primary: &Tablet,
    tablet: &Tablet,
) -> bool
    ensures { result ≡ ((rules_of fields.now.policy).is_acker primary.now tablet.now && not (has_stopped (sendings fields.now.post.messages acts.now) term tablet.now.alias)) }
{
    fields.policy.is_acker(primary, tablet) && !has_stopped(&fields.post, acts, term, &tablet.alias)
}

fn count_unstopped_at(fields: &Fields, acts: &[Act], term: u64, primary: &Tablet) -> usize
    ensures { result ≡ length (filter (λ m. (rules_of fields.now.policy).is_acker primary.now m.me && not (has_stopped (sendings fields.now.post.messages acts.now) term m.me.alias)) fields.now.managers.items) }
{
    fields
        .managers
        .iter()
        .filter(|manager| is_unstopped_acker(fields, acts, term, primary, manager.me()))
        .count()
}

/// How many of the tablet's ackers did not stop.
fn count_unstopped(fields: &Fields, acts: &[Act], term: u64, primary: &Tablet) -> usize
    ensures { result ≡ ackers_in (rules_of fields.now.policy) (tablets_of fields.now.managers.items) primary.now (λ a. not (has_stopped (sendings fields.now.post.messages acts.now) term a)) }
{
    count_unstopped_at(fields, acts, term, primary)
}

/// Whether the tablet cannot get a write accepted any more: it may not be promoted, it stopped, or too few of its ackers are left.
#[tactic(auto, unfolding(crate::specs::InPlace::is_out))]
fn is_out(fields: &Fields, acts: &[Act], term: u64, tablet: &Tablet) -> bool
    ensures { result ≡ is_out (rules_of fields.now.policy) (tablets_of fields.now.managers.items) (has_stopped (sendings fields.now.post.messages acts.now) term) tablet.now }
{
    !is_eligible(&fields.policy, tablet)
        || has_stopped(&fields.post, acts, term, &tablet.alias)
        || count_unstopped(fields, acts, term, tablet) < fields.policy.acks(tablet) as usize
}

fn all_revoked(fields: &Fields, acts: &[Act], term: u64) -> bool
    ensures { result ≡ list_all (λ m. is_out (rules_of fields.now.policy) (tablets_of fields.now.managers.items) (has_stopped (sendings fields.now.post.messages acts.now) term) m.me) fields.now.managers.items }
{
    fields
        .managers
        .iter()
        .all(|manager| is_out(fields, acts, term, manager.me()))
}

/// Whether no tablet that may be promoted is left that can get a write accepted.
fn revokes_all(fields: &Fields, acts: &[Act], term: u64) -> bool
    ensures { result ≡ revokes_all (rules_of fields.now.policy) (tablets_of fields.now.managers.items) (has_stopped (sendings fields.now.post.messages acts.now) term) }
{
    all_revoked(fields, acts, term)
}

fn newest_in(answer: &Answer) -> u64
    ensures { (alias : Alias) → result ≡ newest_or_zero (if_stopped alias answer.now) }
{
    match answer {
        Answer::Stopped { newest, .. } => *newest,
        _ => 0,
    }
}

/// The newest row that the tablet had when it stopped, or 0.
fn newest_of(post: &Post, acts: &[Act], term: u64, manager: &Manager) -> u64
    ensures { result ≡ newest_or_zero (stopped_by post.now.messages acts.now term manager.now) }
{
    match stop_answer(post, acts, term, &manager.me().alias) {
        Some(answer) => newest_in(answer),
        None => 0,
    }
}

/// The greatest of these.
fn greatest_newest(managers: &[Manager], post: &Post, acts: &[Act], term: u64) -> u64
    ensures { result ≡ greatest_stopped (stopped_by post.now.messages acts.now term) managers.now }
{
    let mut rest = managers;
    let mut most = 0;
    while let Some((manager, more)) = rest.split_first() {
        most = most.max(newest_of(post, acts, term, manager));
        rest = more;
    }
    most
}

fn is_covered_in(answer: &Answer, newest: u64, position: &GtidSet) -> bool
    ensures { (alias : Alias) → result ≡ (not (is_leading newest (if_stopped alias answer.now)) || covers_held position.now (if_stopped alias answer.now)) }
{
    match answer {
        Answer::Stopped {
            newest: of,
            position: had,
        } => *of != newest || covers(position, had),
        _ => true,
    }
}

/// Whether the position has all that the tablet had, if it stopped with this newest row.
fn is_covered(
    fields: &Fields,
    acts: &[Act],
    term: u64,
    newest: u64,
    position: &GtidSet,
    manager: &Manager,
) -> bool
    ensures { result ≡ (not (is_leading newest (stopped_by fields.now.post.messages acts.now term manager.now)) || covers_held position.now (stopped_by fields.now.post.messages acts.now term manager.now)) }
{
    match stop_answer(&fields.post, acts, term, &manager.me().alias) {
        Some(answer) => is_covered_in(answer, newest, position),
        None => true,
    }
}

/// Whether the position has all that those had who stopped with this newest row.
fn covers_leading(fields: &Fields, acts: &[Act], term: u64, newest: u64, position: &GtidSet) -> bool
    ensures { result ≡ covers_leading (stopped_by fields.now.post.messages acts.now term) fields.now.managers.items newest position.now }
{
    fields.managers.iter().all(|manager| is_covered(fields, acts, term, newest, position, manager))
}

fn leads_all_so(fields: &Fields, acts: &[Act], term: u64, newest: u64, answer: &Answer) -> bool
    ensures { (alias : Alias) → result ≡ leads_all (stopped_by fields.now.post.messages acts.now term) fields.now.managers.items newest (if_stopped alias answer.now) }
{
    match answer {
        Answer::Stopped {
            newest: of,
            position,
        } => *of == newest && covers_leading(fields, acts, term, newest, position),
        _ => false,
    }
}

/// Whether the tablet stopped with this newest row, and had all that the others of it had.
fn leads_all(fields: &Fields, acts: &[Act], term: u64, newest: u64, manager: &Manager) -> bool
    ensures { result ≡ leads_all (stopped_by fields.now.post.messages acts.now term) fields.now.managers.items newest (stopped_by fields.now.post.messages acts.now term manager.now) }
{
    match stop_answer(&fields.post, acts, term, &manager.me().alias) {
        Some(answer) => leads_all_so(fields, acts, term, newest, answer),
        None => false,
    }
}

fn first_leading<'a>(
    fields: &'a Fields,
    acts: &[Act],
    term: u64,
    newest: u64,
) -> Option<&'a Manager>
    ensures { option_copied result ≡ find (λ m. leads_all (stopped_by fields.now.post.messages acts.now term) fields.now.managers.items newest (stopped_by fields.now.post.messages acts.now term m)) fields.now.managers.items }
{
    fields
        .managers
        .iter()
        .find(|manager| leads_all(fields, acts, term, newest, manager))
}

/// The tablet that is ahead of all who stopped.
fn winner<'a>(fields: &'a Fields, acts: &[Act], term: u64) -> Option<&'a Manager>
    ensures { option_copied result ≡ winner_among (stopped_by fields.now.post.messages acts.now term) fields.now.managers.items }
{
    let newest = greatest_newest(&fields.managers, &fields.post, acts, term);
    first_leading(fields, acts, term, newest)
}

fn had_position(answer: &Answer, position: &GtidSet) -> bool
    ensures { (alias : Alias) → result ≡ passes_held (λ h. position_eq position.now h.position) (if_stopped alias answer.now) }
{
    match answer {
        Answer::Stopped { position: had, .. } => is_same(position, had),
        _ => false,
    }
}

/// Whether the tablet had this position when it stopped.
fn stopped_with(post: &Post, acts: &[Act], term: u64, manager: &Manager, position: &GtidSet) -> bool
    ensures { result ≡ passes_held (λ h. position_eq position.now h.position) (stopped_by post.now.messages acts.now term manager.now) }
{
    match stop_answer(post, acts, term, &manager.me().alias) {
        Some(answer) => had_position(answer, position),
        None => false,
    }
}

/// Whether the tablet that is ahead of all who stopped had this position.
fn is_ahead(fields: &Fields, acts: &[Act], term: u64, position: &GtidSet) -> bool
    ensures { result ≡ passes_held (λ h. position_eq position.now h.position) (winner (stopped_among (tablets_of fields.now.managers.items) (sendings fields.now.post.messages acts.now) term)) }
{
    match winner(fields, acts, term) {
        Some(manager) => stopped_with(&fields.post, acts, term, manager, position),
        None => false,
    }
}

fn stopped_all(fields: &Fields, acts: &[Act], term: u64, position: &GtidSet) -> bool
    ensures { result ≡ stopped_all (rules_of fields.now.policy) (tablets_of fields.now.managers.items) (sendings fields.now.post.messages acts.now) term position.now }
{
    revokes_all(fields, acts, term) && is_ahead(fields, acts, term, position)
}

fn has_any_ground(fields: &Fields, acts: &[Act], term: u64, position: &GtidSet) -> bool
    ensures { result ≡ has_any_ground (rules_of fields.now.policy) (tablets_of fields.now.managers.items) fields.now.topo.topology (sendings fields.now.post.messages acts.now) term position.now }
{
    is_first(&fields.topo, term) && position.count() == 0
        || gave_up(fields, acts, term, position)
        || stopped_all(fields, acts, term, position)
}

fn is_grounded(fields: &Fields, acts: &[Act], term: u64, alias: &Alias, position: &GtidSet) -> bool
    ensures { result ≡ grounded (rules_of fields.now.policy) (tablets_of fields.now.managers.items) fields.now.topo.topology (sendings fields.now.post.messages acts.now) term alias.now position.now }
{
    is_eligible_alias(fields, alias)
        && intends(&fields.topo, term, alias)
        && has_any_ground(fields, acts, term, position)
}

/// Whether the command of this number, in this term, may ask the tablet to become the primary, if it covers the position. It takes no memory.
///
/// It costs a walk over what the command did, and where its grounds are who stopped, some walks for each tablet.
pub fn has_evidence(
    fields: &Fields,
    command: u64,
    term: u64,
    alias: &Alias,
    position: &GtidSet,
) -> bool
    ensures { result ≡ has_evidence (config_in (data_of fields.now)) (seen (data_of fields.now)) command term alias.now position.now }
{
    match command_of(&fields.commands, command) {
        Some(state) => is_grounded(fields, state.acts.as_slice(), term, alias, position),
        None => is_grounded(fields, &[], term, alias, position),
    }
}
