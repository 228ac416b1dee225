//! What refusals say of tablets: why they may not be promoted, and why they have not stopped.

ghost use Rattle.std.specs.Prelude.{◌≡◌, ◌++◌, OnOk, codes};
ghost use Rattle.tablet_text.specs.Refusals.{bar_text, reason_text, unreached_text, rejected_text, not_stopped_text, further_text, listed_text};

use crate::stand::write_why;
use shard_base::OutOfMemory;
use shard_calls::{Bar, NotStopped, Reason, Rejected, Unreached};

/// Appends why a given tablet may not be promoted.
pub fn write_bar(bar: &Bar, into: &mut Vec<u8>) -> Result<(), OutOfMemory>
    ensures { OnOk result (into.new.items ≡ into.old.items ++ bar_text bar.now) }
{
    into.extend_from_slice(bar_name(*bar))?;
    Ok(())
}

fn bar_name(bar: Bar) -> &'static [u8]
    ensures { result.now ≡ bar_text bar }
{
    match bar {
        Bar::MustNot => b"must_not",
        Bar::Drained => b"drained",
        Bar::Ignored => b"ignored",
    }
}

fn reason_name(reason: Reason) -> &'static [u8]
    ensures { result.now ≡ reason_text reason }
{
    match reason {
        Reason::MustNot => b"must_not",
        Reason::Drained => b"drained",
        Reason::Avoided => b"avoided",
        Reason::Ignored => b"ignored",
        Reason::Unreached => b"unreached",
        Reason::OtherCell => b"other cell",
        Reason::NotReplica => b"not a replica",
        Reason::ShortOfAckers => b"short of ackers",
    }
}

#[tactic(auto, unfolding(crate::specs::Refusals::rejected_text))]
fn write_rejected(rejected: &Rejected, into: &mut Vec<u8>) -> Result<(), OutOfMemory>
    ensures { OnOk result (into.new.items ≡ into.old.items ++ rejected_text rejected.now) }
{
    rejected.alias.write(into)?;
    into.extend_from_slice(b" ")?;
    into.extend_from_slice(reason_name(rejected.reason))?;
    Ok(())
}

fn write_further_rejected(rejected: &[Rejected], into: &mut Vec<u8>) -> Result<(), OutOfMemory>
    ensures { OnOk result (into.new.items ≡ into.old.items ++ further_text rejected_text rejected.now) }
{
    for tablet in rejected {
        into.extend_from_slice(b", ")?;
        write_rejected(tablet, into)?;
    }
    Ok(())
}

/// Appends which tablets are no candidates, and why.
pub fn write_all_rejected(rejected: &[Rejected], into: &mut Vec<u8>) -> Result<(), OutOfMemory>
    ensures { OnOk result (into.new.items ≡ into.old.items ++ listed_text rejected_text rejected.now) }
{
    match rejected.split_first() {
        None => {
            into.extend_from_slice(b"-")?;
            Ok(())
        }
        Some((first, further)) => {
            write_rejected(first, into)?;
            write_further_rejected(further, into)
        }
    }
}

/// Appends why a tablet has not stopped.
fn write_unreached(unreached: &Unreached, into: &mut Vec<u8>) -> Result<(), OutOfMemory>
    ensures { OnOk result (into.new.items ≡ into.old.items ++ unreached_text unreached.now) }
{
    match unreached {
        Unreached::GivenUp(why) => write_why(why, into),
        Unreached::Ignored => {
            into.extend_from_slice(b"ignored")?;
            Ok(())
        }
    }
}

#[tactic(auto, unfolding(crate::specs::Refusals::not_stopped_text))]
fn write_not_stopped(tablet: &NotStopped, into: &mut Vec<u8>) -> Result<(), OutOfMemory>
    ensures { OnOk result (into.new.items ≡ into.old.items ++ not_stopped_text tablet.now) }
{
    tablet.alias.write(into)?;
    into.extend_from_slice(b" ")?;
    write_unreached(&tablet.unreached, into)
}

fn write_further_not_stopped(tablets: &[NotStopped], into: &mut Vec<u8>) -> Result<(), OutOfMemory>
    ensures { OnOk result (into.new.items ≡ into.old.items ++ further_text not_stopped_text tablets.now) }
{
    for tablet in tablets {
        into.extend_from_slice(b", ")?;
        write_not_stopped(tablet, into)?;
    }
    Ok(())
}

/// Appends which tablets have not stopped, and why.
pub fn write_all_not_stopped(tablets: &[NotStopped], into: &mut Vec<u8>) -> Result<(), OutOfMemory>
    ensures { OnOk result (into.new.items ≡ into.old.items ++ listed_text not_stopped_text tablets.now) }
{
    match tablets.split_first() {
        None => {
            into.extend_from_slice(b"-")?;
            Ok(())
        }
        Some((first, further)) => {
            write_not_stopped(first, into)?;
            write_further_not_stopped(further, into)
        }
    }
}
