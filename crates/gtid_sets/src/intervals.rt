//! Lists of intervals in order, none touching another.

ghost use Rattle.std.specs.Prelude.{◌≡◌, ◌↔◌, ◌||◌, true, false, ◌<◌, ◌≤◌, ◌^◌, length, get_or, option_to_list, IsTrue, IfOk, OnOk, OnErr};
ghost use Rattle.std.specs.List.{prefix_len};
ghost use Rattle.gtid_sets.specs.Intervals.{Ordered, StartsBy, StartsRise, Behind, HasWith, holds, within, total, start, ends_below, touches, below, takes};

use crate::{Gtid, Interval};
use shard_base::OutOfMemory;
use std::alloc::Global;

/// Which transactions of two lists are taken.
#[derive(Clone, Copy)]
pub(crate) enum Taken {
    /// Those of either list.
    Either,
    /// Those of the first list that the second has not.
    FirstAlone,
}

/// The list of an interval, or of none where it is empty.
pub(crate) fn of_one(alloc: Global, interval: &Interval) -> Result<Vec<Interval>, OutOfMemory>
    ensures in_order { IfOk result (λ xs. Ordered xs.items) }
    ensures members { IfOk result (λ xs. (g : Gtid) → within xs.items g ≡ holds interval.now g) }
{
    let mut intervals = Vec::new(alloc);
    append_some(&mut intervals, interval)?;
    Ok(intervals)
}

/// The list of intervals in any order, which are put in order.
pub(crate) fn of_all(
    alloc: Global,
    intervals: &mut Vec<Interval>,
) -> Result<Vec<Interval>, OutOfMemory>
    ensures in_order { IfOk result (λ xs. Ordered xs.items) }
    ensures members { IfOk result (λ xs. (g : Gtid) → within xs.items g ≡ within intervals.old.items g) }
{
    intervals.sort_by_key(|interval| interval.start())?;
    let mut all = Vec::new(alloc);
    append_all(&mut all, intervals.as_slice())?;
    Ok(all)
}

/// Puts an interval at the end, unless it is empty.
fn append_some(intervals: &mut Vec<Interval>, next: &Interval) -> Result<(), OutOfMemory>
    requires in_order { Ordered intervals.old.items }
    requires behind { StartsBy (start next.now) intervals.old.items }
    ensures in_order { OnOk result (Ordered intervals.new.items) }
    ensures members { OnOk result ((g : Gtid) → within intervals.new.items g ≡ (within intervals.old.items g || holds next.now g)) }
    ensures behind { OnOk result (StartsBy (start next.now) intervals.new.items) }
{
    if next.first > next.last {
        return Ok(());
    }
    append(intervals, next)
}

/// How many transactions they have.
pub(crate) fn count(intervals: &[Interval]) -> u128
    requires { length intervals.now < 2 ^ 64 }
    ensures { result ≡ total intervals.now }
{
    let mut total = 0;
    for interval in intervals {
        total += interval.count();
    }
    total
}

/// How many of them end below a transaction and do not touch it.
pub(crate) fn place_of(intervals: &[Interval], gtid: &Gtid) -> usize
    requires { Ordered intervals.now }
    ensures { result ≡ prefix_len (ends_below gtid.now) intervals.now }
{
    intervals.partition_point(|interval| interval.ends_below(gtid))
}

/// Whether a transaction is in one of them.
pub(crate) fn has(intervals: &[Interval], gtid: &Gtid) -> bool
    requires { Ordered intervals.now }
    ensures { result ≡ within intervals.now gtid.now }
{
    let place = place_of(intervals, gtid);
    match intervals.get(place) {
        Some(interval) => interval.holds(gtid),
        None => false,
    }
}

/// Puts a transaction in. Want of memory leaves the list as it was.
pub(crate) fn put(intervals: &mut Vec<Interval>, gtid: &Gtid) -> Result<(), OutOfMemory>
    requires { Ordered intervals.old.items }
    ensures in_order { Ordered intervals.new.items }
    ensures members { OnOk result (HasWith gtid.now intervals.old.items intervals.new.items) }
    ensures err { OnErr result (intervals.new.items ≡ intervals.old.items) }
{
    let place = place_of(intervals.as_slice(), gtid);
    match intervals.get(place).copied() {
        Some(held) if held.touches(gtid) => {
            widen(intervals, place, &held, gtid);
            Ok(())
        }
        Some(_) => insert_alone(intervals, place, gtid),
        None => insert_alone(intervals, place, gtid),
    }
}

/// Puts a transaction in that touches none.
fn insert_alone(intervals: &mut Vec<Interval>, place: usize, gtid: &Gtid) -> Result<(), OutOfMemory>
    requires in_order { Ordered intervals.old.items }
    requires place { prefix_len (ends_below gtid.now) intervals.old.items ≡ place }
    requires apart { (d : Interval) → place < length intervals.old.items → touches gtid.now (get_or intervals.old.items place d) ≡ false }
    ensures in_order { Ordered intervals.new.items }
    ensures members { OnOk result (HasWith gtid.now intervals.old.items intervals.new.items) }
    ensures err { OnErr result (intervals.new.items ≡ intervals.old.items) }
{
    let alone = Interval {
        server: gtid.server,
        first: gtid.number,
        last: gtid.number,
    };
    intervals.insert(place, alone)?;
    Ok(())
}

/// Widens the interval at a place by a transaction that touches it, and joins the next where that one touches it too.
fn widen(intervals: &mut Vec<Interval>, place: usize, held: &Interval, gtid: &Gtid)
    requires in_order { Ordered intervals.old.items }
    requires place { prefix_len (ends_below gtid.now) intervals.old.items ≡ place }
    requires within { place < length intervals.old.items }
    requires there { get_or intervals.old.items place held.now ≡ held.now }
    requires touched { touches gtid.now held.now ≡ true }
    ensures in_order { Ordered intervals.new.items }
    ensures members { HasWith gtid.now intervals.old.items intervals.new.items }
{
    let wide = held.widened(gtid);
    match intervals.get(place + 1).copied() {
        Some(next) if next.touches(gtid) => {
            intervals.remove(place + 1);
            intervals[place] = wide.joined(&next);
        }
        Some(_) => intervals[place] = wide,
        None => intervals[place] = wide,
    }
}

/// Puts an interval at the end, joined to the last where they touch.
fn append(intervals: &mut Vec<Interval>, next: &Interval) -> Result<(), OutOfMemory>
    requires in_order { Ordered intervals.old.items }
    requires some { next.now.first ≤ next.now.last }
    requires behind { StartsBy (start next.now) intervals.old.items }
    ensures in_order { OnOk result (Ordered intervals.new.items) }
    ensures members { OnOk result ((g : Gtid) → within intervals.new.items g ≡ (within intervals.old.items g || holds next.now g)) }
    ensures behind { OnOk result (StartsBy (start next.now) intervals.new.items) }
{
    match intervals.last().copied() {
        Some(last) if last.touches(&next.start()) => {
            let place = intervals.len() - 1;
            intervals[place] = last.joined(next);
            Ok(())
        }
        _ => {
            intervals.push(*next)?;
            Ok(())
        }
    }
}

/// Puts intervals in order of their starts at the end, each joined to the last where they touch. Empty ones are left out.
fn append_all(intervals: &mut Vec<Interval>, more: &[Interval]) -> Result<(), OutOfMemory>
    requires in_order { Ordered intervals.old.items }
    requires rise { StartsRise more.now }
    requires behind { Behind intervals.old.items more.now }
    ensures in_order { OnOk result (Ordered intervals.new.items) }
    ensures members { OnOk result ((g : Gtid) → within intervals.new.items g ≡ (within intervals.old.items g || within more.now g)) }
{
    let mut left = more;
    while let Some((next, rest)) = left.split_first() {
        append_some(intervals, next)?;
        left = rest;
    }
    Ok(())
}

/// What is taken of two lists: the parts of the first that the second has not, and, where either is wanted, the second.
pub(crate) fn combined(
    alloc: Global,
    a: &[Interval],
    b: &[Interval],
    taken: Taken,
) -> Result<Vec<Interval>, OutOfMemory>
    requires a { Ordered a.now }
    requires b { Ordered b.now }
    ensures in_order { IfOk result (λ xs. Ordered xs.items) }
    ensures members { IfOk result (λ xs. (g : Gtid) → within xs.items g ≡ takes taken (within a.now g) (within b.now g)) }
{
    let mut all = Vec::new(alloc);
    let Some((first, others)) = a.split_first() else {
        append_second(&mut all, b, taken)?;
        return Ok(all);
    };
    let mut x = *first;
    let mut left = others;
    let mut right = b;
    while let Some((y, later)) = right.split_first() {
        append_below(&mut all, &x, y)?;
        match x.above(y) {
            Some(part) => {
                append_taken(&mut all, y, taken)?;
                x = part;
                right = later;
            }
            None => {
                let Some((next, others)) = left.split_first() else {
                    append_second(&mut all, right, taken)?;
                    return Ok(all);
                };
                x = *next;
                left = others;
            }
        }
    }
    append(&mut all, &x)?;
    append_all(&mut all, left)?;
    Ok(all)
}

/// Puts the part of an interval below another at the end.
fn append_below(
    intervals: &mut Vec<Interval>,
    x: &Interval,
    y: &Interval,
) -> Result<(), OutOfMemory>
    requires in_order { Ordered intervals.old.items }
    requires some { x.now.first ≤ x.now.last }
    requires behind { StartsBy (start x.now) intervals.old.items }
    requires behind_other { StartsBy (start y.now) intervals.old.items }
    ensures in_order { OnOk result (Ordered intervals.new.items) }
    ensures members { OnOk result ((g : Gtid) → within intervals.new.items g ≡ (within intervals.old.items g || within (option_to_list (below x.now y.now)) g)) }
    ensures behind { OnOk result (StartsBy (start x.now) intervals.new.items) }
    ensures behind_other { OnOk result (StartsBy (start y.now) intervals.new.items) }
{
    match x.below(y) {
        Some(part) => append(intervals, &part),
        None => Ok(()),
    }
}

/// Puts an interval of the second list at the end, if it is taken.
fn append_taken(
    intervals: &mut Vec<Interval>,
    next: &Interval,
    taken: Taken,
) -> Result<(), OutOfMemory>
    requires in_order { Ordered intervals.old.items }
    requires some { next.now.first ≤ next.now.last }
    requires behind { StartsBy (start next.now) intervals.old.items }
    ensures in_order { OnOk result (Ordered intervals.new.items) }
    ensures members { OnOk result ((g : Gtid) → within intervals.new.items g ≡ (within intervals.old.items g || takes taken false (holds next.now g))) }
    ensures behind { OnOk result (StartsBy (start next.now) intervals.new.items) }
{
    match taken {
        Taken::Either => append(intervals, next),
        Taken::FirstAlone => Ok(()),
    }
}

/// Puts what is left of the second list at the end, if it is taken.
fn append_second(
    intervals: &mut Vec<Interval>,
    more: &[Interval],
    taken: Taken,
) -> Result<(), OutOfMemory>
    requires in_order { Ordered intervals.old.items }
    requires more { Ordered more.now }
    requires behind { Behind intervals.old.items more.now }
    ensures in_order { OnOk result (Ordered intervals.new.items) }
    ensures members { OnOk result ((g : Gtid) → within intervals.new.items g ≡ (within intervals.old.items g || takes taken false (within more.now g))) }
{
    match taken {
        Taken::Either => append_all(intervals, more),
        Taken::FirstAlone => Ok(()),
    }
}

/// Whether the first list has all of the second.
pub(crate) fn covers(a: &[Interval], b: &[Interval]) -> bool
    requires a { Ordered a.now }
    requires b { Ordered b.now }
    ensures { IsTrue result ↔ ((g : Gtid) → within b.now g ≡ true → within a.now g ≡ true) }
{
    let mut left = a;
    let mut right = b;
    while let Some((wanted, later)) = right.split_first() {
        let Some((held, rest)) = left.split_first() else {
            return false;
        };
        if held.contains(wanted) {
            right = later;
        } else if held.stands_before(wanted) {
            left = rest;
        } else {
            return false;
        }
    }
    true
}
