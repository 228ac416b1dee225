ghost use Rattle.std.specs.Prelude.{◌≡◌, ◌∷◌, ◌++◌, None, OnOk, OnErr};
ghost use Rattle.shard_base.specs.Lists.{IsFront};
ghost use Rattle.gtid_sets.specs.Gtid.{gtid_text};
ghost use Rattle.gtid_sets.specs.Intervals.{start};
ghost use Rattle.gtid_sets.specs.SetText.{set_text, position_text};
ghost use Rattle.gtid_sets.specs.SetWriting.{first_text, last_text, intervals_text};

use crate::{Gtid, GtidSet, Interval};
use itoa::Buffer;
use shard_base::{OutOfMemory, append_pieces};
use uuid::Uuid;

/// Appends the text of a set, as MySQL prints it. Want of memory leaves the text as it was.
pub fn write_set(set: &GtidSet, into: &mut Vec<u8>) -> Result<(), OutOfMemory>
    ensures ok { OnOk result (into.new.items ≡ into.old.items ++ set_text set.now) }
    ensures err { OnErr result (into.new.items ≡ into.old.items) }
{
    let before = into.len();
    if write_intervals(set.intervals().as_slice(), into).is_err() {
        into.truncate(before);
        return Err(OutOfMemory);
    }
    Ok(())
}

/// Appends `MySQL56/` and the set, as Vitess writes a position. Want of memory leaves the text as it was.
pub fn write_position(set: &GtidSet, into: &mut Vec<u8>) -> Result<(), OutOfMemory>
    ensures ok { OnOk result (into.new.items ≡ into.old.items ++ position_text set.now) }
    ensures err { OnErr result (into.new.items ≡ into.old.items) }
{
    let start = into.len();
    into.extend_from_slice(b"MySQL56/")?;
    if write_set(set, into).is_err() {
        into.truncate(start);
        return Err(OutOfMemory);
    }
    Ok(())
}

/// Appends the text of intervals in order. After want of memory a front of it may stand.
fn write_intervals(intervals: &[Interval], into: &mut Vec<u8>) -> Result<(), OutOfMemory>
    ensures ok { OnOk result (into.new.items ≡ into.old.items ++ intervals_text None intervals.now) }
    ensures err { OnErr result (IsFront into.old.items into.new.items) }
{
    let mut previous = None;
    for interval in intervals {
        write_interval(previous, interval, into)?;
        previous = Some(interval.server);
    }
    Ok(())
}

/// Appends an interval, behind those of a server. After want of memory a front of it may stand.
fn write_interval(
    before: Option<Uuid>,
    interval: &Interval,
    into: &mut Vec<u8>,
) -> Result<(), OutOfMemory>
    ensures ok { OnOk result (into.new.items ≡ into.old.items ++ first_text before (start interval.now) ++ last_text interval.now) }
    ensures err { OnErr result (IsFront into.old.items into.new.items) }
{
    write_first(before, &interval.start(), into)?;
    write_last(interval, into)
}

/// Appends the first transaction of an interval: with its server, unless that stands before it.
fn write_first(before: Option<Uuid>, first: &Gtid, into: &mut Vec<u8>) -> Result<(), OutOfMemory>
    ensures ok { OnOk result (into.new.items ≡ into.old.items ++ first_text before first.now) }
    ensures err { OnErr result (into.new.items ≡ into.old.items) }
{
    let mut digits = Buffer::new();
    let number = digits.format(first.number).as_bytes();
    match before {
        None => first.write(into),
        Some(server) if server == first.server => append_pieces(into, &[b":", number]),
        Some(_) => write_next_server(first, into),
    }
}

/// Appends a comma and a transaction.
fn write_next_server(gtid: &Gtid, into: &mut Vec<u8>) -> Result<(), OutOfMemory>
    ensures ok { OnOk result (into.new.items ≡ into.old.items ++ 44 ∷ gtid_text gtid.now) }
    ensures err { OnErr result (into.new.items ≡ into.old.items) }
{
    let mut room = Uuid::encode_buffer();
    let server = gtid.server.hyphenated();
    let server = server.encode_lower(&mut room);
    let mut digits = Buffer::new();
    let number = digits.format(gtid.number);
    append_pieces(into, &[b",", server.as_bytes(), b":", number.as_bytes()])
}

/// Appends a dash and the last number of an interval, where that is not its first.
fn write_last(interval: &Interval, into: &mut Vec<u8>) -> Result<(), OutOfMemory>
    ensures ok { OnOk result (into.new.items ≡ into.old.items ++ last_text interval.now) }
    ensures err { OnErr result (into.new.items ≡ into.old.items) }
{
    if interval.first == interval.last {
        return Ok(());
    }
    let mut digits = Buffer::new();
    let number = digits.format(interval.last);
    append_pieces(into, &[b"-", number.as_bytes()])
}
