ghost use Rattle.std.specs.Prelude.{◌≡◌, ◌++◌, OnOk};
ghost use Rattle.tablet_text.specs.Stands.{since_text, primary_text, demoted_text, in_term_text, replica_text, feeder_text, standing_text, stands_text, timed_out_text, why_text, errant_text, has_seen_text, promised_text, left_text, not_joined_text};

use crate::moment::write_moment;
use crate::number::write_number;
use gtid_sets::{GtidSet, write_set};
use shard_base::OutOfMemory;
use shard_calls::{Left, NotJoined, Standing, Why};
use shard_names::Alias;

/// Appends from when to when.
#[tactic(auto, unfolding(crate::specs::Stands::since_text))]
pub fn write_since(since: u64, now: u64, into: &mut Vec<u8>) -> Result<(), OutOfMemory>
    ensures { OnOk result (into.new.items ≡ into.old.items ++ since_text since now) }
{
    into.extend_from_slice(b"since ")?;
    write_moment(since, into)?;
    into.extend_from_slice(b" at ")?;
    write_moment(now, into)
}

#[tactic(auto, unfolding(crate::specs::Stands::primary_text))]
fn write_primary(term: u64, into: &mut Vec<u8>) -> Result<(), OutOfMemory>
    ensures { OnOk result (into.new.items ≡ into.old.items ++ primary_text term) }
{
    into.extend_from_slice(b"primary of term ")?;
    write_number(term, into)
}

#[tactic(auto, unfolding(crate::specs::Stands::demoted_text))]
fn write_demoted(term: u64, by: u64, into: &mut Vec<u8>) -> Result<(), OutOfMemory>
    ensures { OnOk result (into.new.items ≡ into.old.items ++ demoted_text term by) }
{
    into.extend_from_slice(b"demoted from term ")?;
    write_number(term, into)?;
    into.extend_from_slice(b" by term ")?;
    write_number(by, into)
}

/// Appends a tablet and a term.
#[tactic(auto, unfolding(crate::specs::Stands::in_term_text))]
pub fn write_in_term(alias: &Alias, term: u64, into: &mut Vec<u8>) -> Result<(), OutOfMemory>
    ensures { OnOk result (into.new.items ≡ into.old.items ++ in_term_text alias.now term) }
{
    alias.write(into)?;
    into.extend_from_slice(b" in term ")?;
    write_number(term, into)
}

#[tactic(auto, unfolding(crate::specs::Stands::replica_text))]
fn write_replica(source: &Alias, term: u64, into: &mut Vec<u8>) -> Result<(), OutOfMemory>
    ensures { OnOk result (into.new.items ≡ into.old.items ++ replica_text source.now term) }
{
    into.extend_from_slice(b"replica of ")?;
    write_in_term(source, term, into)
}

#[tactic(auto, unfolding(crate::specs::Stands::feeder_text))]
fn write_feeder(term: u64, into: &mut Vec<u8>) -> Result<(), OutOfMemory>
    ensures { OnOk result (into.new.items ≡ into.old.items ++ feeder_text term) }
{
    into.extend_from_slice(b"feeder in term ")?;
    write_number(term, into)
}

/// Appends a stand.
pub fn write_standing(stand: &Standing, into: &mut Vec<u8>) -> Result<(), OutOfMemory>
    ensures { OnOk result (into.new.items ≡ into.old.items ++ standing_text stand.now) }
{
    match stand {
        Standing::Down => {
            into.extend_from_slice(b"down")?;
            Ok(())
        }
        Standing::Stopped => {
            into.extend_from_slice(b"stopped")?;
            Ok(())
        }
        Standing::Primary { term } => write_primary(*term, into),
        Standing::Demoted { term, by } => write_demoted(*term, *by, into),
        Standing::Replica { source, term } => write_replica(source, *term, into),
        Standing::Feeder { term } => write_feeder(*term, into),
    }
}

/// Appends how a tablet stands.
#[tactic(auto, unfolding(crate::specs::Stands::stands_text))]
pub fn write_stands(alias: &Alias, stand: &Standing, into: &mut Vec<u8>) -> Result<(), OutOfMemory>
    ensures { OnOk result (into.new.items ≡ into.old.items ++ stands_text alias.now stand.now) }
{
    alias.write(into)?;
    into.extend_from_slice(b" is ")?;
    write_standing(stand, into)
}

#[tactic(auto, unfolding(crate::specs::Stands::timed_out_text))]
fn write_timed_out(since: u64, now: u64, into: &mut Vec<u8>) -> Result<(), OutOfMemory>
    ensures { OnOk result (into.new.items ≡ into.old.items ++ timed_out_text since now) }
{
    into.extend_from_slice(b"timed out ")?;
    write_since(since, now, into)
}

/// Appends why a call was given up.
pub fn write_why(why: &Why, into: &mut Vec<u8>) -> Result<(), OutOfMemory>
    ensures { OnOk result (into.new.items ≡ into.old.items ++ why_text why.now) }
{
    match why {
        Why::Down => {
            into.extend_from_slice(b"down")?; // the tablet
            Ok(())
        }
        Why::Cut => {
            into.extend_from_slice(b"cut")?;
            Ok(())
        }
        Why::Lost => {
            into.extend_from_slice(b"lost")?;
            Ok(())
        }
        Why::TimedOut { since, now } => write_timed_out(*since, *now, into),
    }
}

#[tactic(auto, unfolding(crate::specs::Stands::errant_text))]
fn write_errant(extra: &GtidSet, into: &mut Vec<u8>) -> Result<(), OutOfMemory>
    ensures { OnOk result (into.new.items ≡ into.old.items ++ errant_text extra.now) }
{
    into.extend_from_slice(b"errant ")?;
    write_set(extra, into)
}

/// Appends which term a tablet has seen.
#[tactic(auto, unfolding(crate::specs::Stands::has_seen_text))]
pub fn write_has_seen(term: u64, into: &mut Vec<u8>) -> Result<(), OutOfMemory>
    ensures { OnOk result (into.new.items ≡ into.old.items ++ has_seen_text term) }
{
    into.extend_from_slice(b"has seen term ")?;
    write_number(term, into)
}

#[tactic(auto, unfolding(crate::specs::Stands::promised_text))]
fn write_promised(term: u64, into: &mut Vec<u8>) -> Result<(), OutOfMemory>
    ensures { OnOk result (into.new.items ≡ into.old.items ++ promised_text term) }
{
    into.extend_from_slice(b"promised term ")?;
    write_number(term, into)
}

/// Appends why a tablet did not join.
pub fn write_left(left: &Left, into: &mut Vec<u8>) -> Result<(), OutOfMemory>
    ensures { OnOk result (into.new.items ≡ into.old.items ++ left_text left.now) }
{
    match left {
        Left::Errant { extra } => write_errant(extra, into),
        Left::GivenUp(why) => write_why(why, into),
        Left::StaleTerm { seen } => write_has_seen(*seen, into),
        Left::PromisedAhead { promised } => write_promised(*promised, into),
    }
}

/// Appends which tablet did not join, and why.
#[tactic(auto, unfolding(crate::specs::Stands::not_joined_text))]
pub fn write_not_joined(not_joined: &NotJoined, into: &mut Vec<u8>) -> Result<(), OutOfMemory>
    ensures { OnOk result (into.new.items ≡ into.old.items ++ not_joined_text not_joined.now) }
{
    into.extend_from_slice(b"  not joined ")?;
    not_joined.alias.write(into)?;
    into.extend_from_slice(b": ")?;
    write_left(&not_joined.left, into)
}
