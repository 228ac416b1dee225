//! Links that are cut and mended.

ghost use Rattle.std.specs.Prelude.{◌≡◌, ◌∷◌, ◌++◌, [], true, filter, not, OnOk, OnErr, IfOk, Some};
ghost use Rattle.std.specs.List.{list_any};
ghost use Rattle.shard_calls.specs.Messages.{side_eq, link_eq, is_cut, with_cut, without_cut, why_given_up};
ghost use Rattle.shard_calls.specs.Table.{meets};
ghost use Rattle.shard_calls.specs.declared.event.Event.TheVariants as events;
ghost use Rattle.shard_state.specs.State.{data_of, config_in, seen};
ghost use Rattle.changes.specs.Makes.{Makes};

use shard_base::OutOfMemory;
use shard_calls::{Link, Reply, Settled, Side, Why};
use shard_state::Fields;

fn side_eq(one: &Side, other: &Side) -> bool
    ensures { result ≡ side_eq one.now other.now }
{
    match one {
        Side::Control => match other {
            Side::Control => true,
            Side::Tablet { .. } => false,
        },
        Side::Tablet { alias } => match other {
            Side::Control => false,
            Side::Tablet { alias: at } => *alias == *at,
        },
    }
}

/// Whether two links are one.
fn link_eq(one: &Link, other: &Link) -> bool
    ensures { result ≡ link_eq one.now other.now }
{
    (side_eq(&one.x, &other.x) && side_eq(&one.y, &other.y))
        || (side_eq(&one.x, &other.y) && side_eq(&one.y, &other.x))
}

fn is_cut(cuts: &[Link], link: &Link) -> bool
    ensures { result ≡ is_cut cuts.now link.now }
{
    cuts.iter().any(|each| link_eq(link, each))
}

fn push_link(cuts: &mut Vec<Link>, link: Link) -> Result<(), OutOfMemory>
    ensures ok { OnOk result (cuts.new.items ≡ cuts.old.items ++ link ∷ []) }
    ensures err { OnErr result (cuts.new.items ≡ cuts.old.items) }
{
    // The proof's generator wants each enum inside a link named here.
    let _side: Option<&Side> = None;
    cuts.push(link)?;
    Ok(())
}

/// The link is one of those that are cut.
fn add_cut(cuts: &mut Vec<Link>, link: Link) -> Result<(), OutOfMemory>
    ensures ok { OnOk result (cuts.new.items ≡ with_cut cuts.old.items link) }
    ensures err { OnErr result (cuts.new.items ≡ cuts.old.items) }
{
    if is_cut(cuts, &link) {
        return Ok(());
    }
    push_link(cuts, link)
}

/// The link is none of those that are cut.
fn remove_cut(cuts: &mut Vec<Link>, link: &Link)
    ensures { cuts.new.items ≡ without_cut cuts.old.items link.now }
{
    cuts.retain(|each| !link_eq(link, each));
}

/// No message passes between the two.
pub(crate) fn cut(fields: &mut Fields, x: &Side, y: &Side) -> Result<Reply, OutOfMemory>
    ensures made { IfOk result (λ reply. Makes (data_of fields.old) (data_of fields.new) (events.Cut x.now y.now) reply) }
    ensures err { OnErr result (data_of fields.new ≡ data_of fields.old) }
{
    add_cut(&mut fields.cuts, Link { x: *x, y: *y })?;
    Ok(Reply::Ok)
}

/// Messages pass between the two again. It takes no memory.
pub(crate) fn mend(fields: &mut Fields, x: &Side, y: &Side) -> Reply
    ensures { Makes (data_of fields.old) (data_of fields.new) (events.Mend x.now y.now) result }
{
    remove_cut(&mut fields.cuts, &Link { x: *x, y: *y });
    Reply::Ok
}

/// The message never comes any more. It takes no memory.
pub(crate) fn lose(fields: &mut Fields, message: u64) -> Reply
    ensures { Makes (data_of fields.old) (data_of fields.new) (events.Lose message) result }
{
    fields.post.lose(message);
    Reply::Ok
}

/// The command waits no longer for the answer to its call, for this reason. It takes no memory.
pub(crate) fn give_up(fields: &mut Fields, command: u64, message: u64, why: Option<Why>) -> Reply
    requires found { why ≡ why_given_up (seen (data_of fields.old)) command message }
    requires met { meets (config_in (data_of fields.old)) (seen (data_of fields.old)) (events.GiveUp command message) ≡ true }
    ensures { Makes (data_of fields.old) (data_of fields.new) (events.GiveUp command message) result }
{
    let _of = command;
    match why {
        Some(why) => {
            fields.post.settle(message, Settled::GaveUp { why });
            Reply::GaveUp(why)
        }
        None => Reply::Ok,
    }
}

/// So many milliseconds go by. It takes no memory.
pub(crate) fn tick(fields: &mut Fields, milliseconds: u64) -> Reply
    requires met { meets (config_in (data_of fields.old)) (seen (data_of fields.old)) (events.Tick milliseconds) ≡ true }
    ensures { Makes (data_of fields.old) (data_of fields.new) (events.Tick milliseconds) result }
{
    fields.clock += milliseconds;
    Reply::Ok
}
