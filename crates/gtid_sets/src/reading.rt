ghost use Rattle.std.specs.Prelude.{◌≡◌, ◌+◌, ◌≤◌, ◌<◌, ◌^◌, ◌==◌, [], ◌∷◌, false, length, take, drop, position, IfSome, if◌then◌else◌};
ghost use Rattle.std.specs.List.{position_or_len, prefix_len, slice_split};
ghost use Rattle.gtid_sets.specs.Reading.{number_of, with_digit, one_of, both_of, bounds_of, between, is_too_large, begins_tag, item_says, items_say, server_of, behind_at, named_says, is_white, white_before, solid_length, less_white_behind, part_says, parts_say, text_says, onto, all_or_first, reading_from, set_reading, position_reading, Gives, Reads};

use crate::{GtidSet, Interval};
use shard_base::OutOfMemory;
use std::alloc::Global;
use thiserror::Error;
use uuid::Uuid;

/// Why a text is no GTID set. `at` is the place of the first byte of the UUID or item, counted from 0. Where that is missing, it is
/// the place right behind the last byte before it that is no white space, or 0.
#[derive(Clone, Copy, Debug, PartialEq, Eq, Error)]
pub enum SetFault {
    /// 1: no UUID stands before the first colon of a part.
    #[error("no UUID at byte {at}")]
    BadUuid { at: u64 },
    /// 2: an interval is missing, is neither `n` nor `n-m`, or has 0 as `n`.
    #[error("no interval at byte {at}")]
    BadInterval { at: u64 },
    /// 3: an item begins with a letter or `_`, as tags do.
    #[error("a tag at byte {at}")]
    Tagged { at: u64 },
    /// 4: a number of the interval is above 9223372036854775806.
    #[error("too large a number at byte {at}")]
    TooLarge { at: u64 },
    /// 5: a position does not begin with `MySQL56/`.
    #[error("no position of MySQL 5.6 or later")]
    BadFlavor,
}

/// Why a set was not read.
#[derive(Clone, Copy, Debug, PartialEq, Eq, Error)]
pub enum ReadFault {
    /// The text spells no set.
    #[error("the text spells no GTID set")]
    Text(SetFault),
    /// Memory ran out.
    #[error("out of memory")]
    OutOfMemory,
}

/// The number with one more digit behind it. Numbers above the greatest count as the one next to it.
#[tactic(auto, unfolding(crate::specs::Reading::with_digit))]
fn with_digit(value: u64, byte: u8) -> Option<u64>
    ensures { result ≡ with_digit value byte }
{
    if !byte.is_ascii_digit() {
        return None;
    }
    let longer = u128::from(value) * 10 + u128::from(byte - b'0');
    Some(longer.min(9223372036854775807) as u64)
}

/// The number that decimal digits stand for, if there is a digit. Numbers above the greatest count as the one next to it.
fn read_number(text: &[u8]) -> Option<u64>
    ensures { result ≡ number_of text.now }
{
    if text.is_empty() {
        return None;
    }
    let mut value = 0;
    for byte in text {
        value = with_digit(value, *byte)?;
    }
    Some(value)
}

#[tactic(auto, unfolding(crate::specs::Reading::both_of))]
fn read_both(text: &[u8], dash: usize) -> Option<(u64, u64)>
    requires { dash < length text.now }
    ensures { result ≡ both_of text.now dash }
{
    let first = read_number(&text[..dash])?;
    let last = read_number(&text[dash + 1..])?;
    Some((first, last))
}

#[tactic(auto, unfolding(crate::specs::Reading::one_of))]
fn read_one(text: &[u8]) -> Option<(u64, u64)>
    ensures { result ≡ one_of text.now }
{
    let number = read_number(text)?;
    Some((number, number))
}

fn find_dash(text: &[u8]) -> Option<usize>
    ensures value { result ≡ position (λ b. b == 45) text.now }
    ensures within { IfSome result (λ k. k < length text.now) }
{
    text.iter().position(|byte| *byte == b'-')
}

/// The first and the last number of an interval.
#[tactic(auto, unfolding(crate::specs::Reading::bounds_of))]
fn read_bounds(text: &[u8]) -> Option<(u64, u64)>
    ensures { result ≡ bounds_of text.now }
{
    match find_dash(text) {
        Some(dash) => read_both(text, dash),
        None => read_one(text),
    }
}

/// Whether a number is above the greatest of a transaction.
fn is_too_large(number: u64) -> bool
    ensures { result ≡ is_too_large number }
{
    number > 9223372036854775806
}

/// The transactions of a server between bounds, which begin at this place.
#[tactic(auto, unfolding(crate::specs::Reading::between))]
fn between(server: &Uuid, at: u64, bounds: (u64, u64)) -> Result<Interval, SetFault>
    ensures { result ≡ between server.now at bounds }
{
    let (first, last) = bounds;
    if first == 0 {
        return Err(SetFault::BadInterval { at });
    }
    if is_too_large(first) || is_too_large(last) {
        return Err(SetFault::TooLarge { at });
    }
    Ok(Interval {
        server: *server,
        first,
        last,
    })
}

fn begins_tag(item: &[u8]) -> bool
    ensures { result ≡ begins_tag item.now }
{
    item.first()
        .is_some_and(|byte| byte.is_ascii_alphabetic() || *byte == b'_')
}

/// The interval of a server that an item spells, which begins at this place.
#[tactic(auto, unfolding(crate::specs::Reading::item_says))]
fn read_item(server: &Uuid, at: u64, item: &[u8]) -> Result<Interval, SetFault>
    ensures { result ≡ item_says server.now at item.now }
{
    if begins_tag(item) {
        return Err(SetFault::Tagged { at });
    }
    match read_bounds(item) {
        Some(bounds) => between(server, at, bounds),
        None => Err(SetFault::BadInterval { at }),
    }
}

/// Puts an interval at the end of those read so far, or answers its fault.
fn push_read(
    intervals: &mut Vec<Interval>,
    read: Result<Interval, SetFault>,
) -> Result<(), ReadFault>
    ensures { Gives result intervals.new.items (onto intervals.old.items (all_or_first (read ∷ []))) }
{
    match read {
        Ok(interval) => match intervals.push(interval) {
            Ok(()) => Ok(()),
            Err(_) => Err(ReadFault::OutOfMemory),
        },
        Err(fault) => Err(ReadFault::Text(fault)),
    }
}

/// How many bytes stand before the first colon.
fn length_before_colon(text: &[u8]) -> usize
    ensures { result ≡ position_or_len (λ b. b == 58) text.now }
{
    text.iter().take_while(|byte| **byte != b':').count()
}

/// How many bytes stand before the first comma.
fn length_before_comma(text: &[u8]) -> usize
    ensures { result ≡ position_or_len (λ b. b == 44) text.now }
{
    text.iter().take_while(|byte| **byte != b',').count()
}

/// What stands before a place.
fn text_before(text: &[u8], end: usize) -> &[u8]
    requires { end ≤ length text.now }
    ensures { result.now ≡ take end text.now }
{
    &text[..end]
}

/// What stands behind the byte at a place.
fn text_behind(text: &[u8], end: usize) -> &[u8]
    requires { end < length text.now }
    ensures { result.now ≡ drop (end + 1) text.now }
{
    &text[end + 1..]
}

/// Reads the items of a server, of which the first begins at this place, behind the intervals read so far.
fn read_items(
    intervals: &mut Vec<Interval>,
    server: &Uuid,
    start: usize,
    items: &[u8],
) -> Result<(), ReadFault>
    requires { start + length items.now < 2 ^ 64 }
    ensures { Gives result intervals.new.items (onto intervals.old.items (all_or_first (items_say server.now start (slice_split (λ b. b == 58) items.now)))) }
{
    let mut at = start;
    let mut left = items;
    let mut end = length_before_colon(left);
    while end < left.len() {
        push_read(
            intervals,
            read_item(server, at as u64, text_before(left, end)),
        )?;
        at += end + 1;
        left = text_behind(left, end);
        end = length_before_colon(left);
    }
    push_read(intervals, read_item(server, at as u64, left))
}

/// The hyphenated form in either case.
fn read_server(text: &[u8]) -> Option<Uuid>
    ensures { result ≡ server_of text.now }
{
    if text.len() != 36 {
        return None;
    }
    Uuid::try_parse_ascii(text).ok()
}

/// The place of a UUID of this length, or, where that is 0, of the white space before it.
fn place_of_uuid(start: usize, at: usize, length: usize) -> u64
    ensures { result ≡ (if length == 0 then start else at) }
{
    if length == 0 { start as u64 } else { at as u64 }
}

/// Reads what stands behind the UUID of a part, behind the intervals read so far. The part begins at `at`, and its UUID has this length.
fn read_behind_uuid(
    intervals: &mut Vec<Interval>,
    server: &Uuid,
    at: usize,
    part: &[u8],
    end: usize,
) -> Result<(), ReadFault>
    requires fits { at + length part.now < 2 ^ 64 }
    requires within { end ≤ length part.now }
    ensures { Gives result intervals.new.items (onto intervals.old.items (all_or_first (behind_at server.now (at + end) part.now end))) }
{
    if end == part.len() {
        return Err(ReadFault::Text(SetFault::BadInterval {
            at: (at + end) as u64,
        }));
    }
    read_items(intervals, server, at + end + 1, text_behind(part, end))
}

/// Reads a part less the white space round it, which begins at `at`, behind the intervals read so far. The white space before it
/// begins at `start`.
fn read_named(
    intervals: &mut Vec<Interval>,
    start: usize,
    at: usize,
    part: &[u8],
) -> Result<(), ReadFault>
    requires { at + length part.now < 2 ^ 64 }
    ensures { Gives result intervals.new.items (onto intervals.old.items (all_or_first (named_says start at (slice_split (λ b. b == 58) part.now)))) }
{
    let end = length_before_colon(part);
    match read_server(text_before(part, end)) {
        Some(server) => read_behind_uuid(intervals, &server, at, part, end),
        None => Err(ReadFault::Text(SetFault::BadUuid {
            at: place_of_uuid(start, at, end),
        })),
    }
}

#[tactic(auto, unfolding(crate::specs::Reading::is_white))]
fn is_white(byte: u8) -> bool
    ensures { result ≡ is_white byte }
{
    byte == b' ' || byte == b'\t' || byte == b'\n' || byte == b'\r'
}

/// How much white space stands at the front.
fn white_at_front(text: &[u8]) -> usize
    ensures { result ≡ prefix_len is_white text.now }
{
    text.iter().take_while(|byte| is_white(**byte)).count()
}

/// How much white space stands at the front, where a comma stands before it.
#[tactic(auto, unfolding(crate::specs::Reading::white_before))]
fn white_before(behind_comma: bool, text: &[u8]) -> usize
    ensures value { result ≡ white_before behind_comma text.now }
    ensures within { result ≤ length text.now }
{
    if !behind_comma {
        return 0;
    }
    white_at_front(text)
}

/// The length up to the last byte that is no white space.
#[tactic(auto, using(crate::proofs::ReadingLemmas::solid_more))]
fn solid_length(text: &[u8]) -> usize
    ensures value { result ≡ solid_length text.now }
    ensures within { result ≤ length text.now }
{
    let mut length = 0;
    for (i, byte) in text.iter().enumerate() {
        if !is_white(*byte) {
            length = i + 1;
        }
    }
    length
}

/// The text less the white space at its end, where a comma stands behind it.
#[tactic(auto, unfolding(crate::specs::Reading::less_white_behind))]
fn less_white_behind(before_comma: bool, text: &[u8]) -> &[u8]
    ensures value { result.now ≡ less_white_behind before_comma text.now }
    ensures within { length result.now ≤ length text.now }
{
    if before_comma {
        &text[..solid_length(text)]
    } else {
        text
    }
}

/// Reads a part that stands behind a comma or not, and before one or not, behind the intervals read so far.
#[tactic(auto, unfolding(crate::specs::Reading::part_says))]
fn read_part(
    intervals: &mut Vec<Interval>,
    behind_comma: bool,
    before_comma: bool,
    at: usize,
    part: &[u8],
) -> Result<(), ReadFault>
    requires { at + length part.now < 2 ^ 64 }
    ensures { Gives result intervals.new.items (onto intervals.old.items (all_or_first (part_says behind_comma before_comma at part.now))) }
{
    let white = white_before(behind_comma, part);
    let text = less_white_behind(before_comma, &part[white..]);
    read_named(intervals, at, at + white, text)
}

/// Reads the parts of a text of which the first begins at this place, behind the intervals read so far.
fn read_parts(intervals: &mut Vec<Interval>, start: usize, text: &[u8]) -> Result<(), ReadFault>
    requires { start + length text.now < 2 ^ 64 }
    ensures { Gives result intervals.new.items (onto intervals.old.items (all_or_first (parts_say false start (slice_split (λ b. b == 44) text.now)))) }
{
    let mut at = start;
    let mut left = text;
    let mut behind_comma = false;
    let mut end = length_before_comma(left);
    while end < left.len() {
        read_part(intervals, behind_comma, true, at, text_before(left, end))?;
        at += end + 1;
        left = text_behind(left, end);
        behind_comma = true;
        end = length_before_comma(left);
    }
    read_part(intervals, behind_comma, false, at, left)
}

/// Reads the intervals of a text that begins at this place, behind those read so far.
#[tactic(auto, unfolding(crate::specs::Reading::text_says))]
fn read_text(intervals: &mut Vec<Interval>, at: usize, text: &[u8]) -> Result<(), ReadFault>
    requires { at + length text.now < 2 ^ 64 }
    ensures { Gives result intervals.new.items (onto intervals.old.items (all_or_first (text_says at text.now))) }
{
    if text.is_empty() {
        return Ok(());
    }
    read_parts(intervals, at, text)
}

/// The set that a text spells which begins at this place.
fn read_from(alloc: Global, at: usize, text: &[u8]) -> Result<GtidSet, ReadFault>
    requires { at + length text.now < 2 ^ 64 }
    ensures { Reads result (reading_from at text.now) }
{
    let mut intervals = Vec::new(alloc);
    read_text(&mut intervals, at, text)?;
    match GtidSet::of_intervals(alloc, &mut intervals) {
        Ok(set) => Ok(set),
        Err(_) => Err(ReadFault::OutOfMemory),
    }
}

/// The set that a text spells, as the MySQL 8.0 manual has it ("GTID Format and Storage"): parts between commas, each a UUID and
/// intervals `n` or `n-m` after colons. The empty text is the empty set. UUIDs are hyphenated, in either case. White space round
/// commas is passed over. An interval whose last number is below its first has no transaction.
///
/// The error is the first fault from the left, or that memory ran out. At one place `Tagged` comes before `BadInterval`, and that
/// before `TooLarge`.
pub fn read_set(alloc: Global, text: &[u8]) -> Result<GtidSet, ReadFault>
    ensures { Reads result (set_reading text.now) }
{
    read_from(alloc, 0, text)
}

/// The set of a position as Vitess writes it: `MySQL56/`, and the text of the set. Places are counted from the front of it all.
///
/// The error is `BadFlavor` where it begins otherwise, else as that of `read_set`.
#[tactic(auto, unfolding(crate::specs::Reading::position_reading))]
pub fn read_position(alloc: Global, text: &[u8]) -> Result<GtidSet, ReadFault>
    ensures { Reads result (position_reading text.now) }
{
    match text.strip_prefix(b"MySQL56/") {
        Some(set) => read_from(alloc, 8, set),
        None => Err(ReadFault::Text(SetFault::BadFlavor)),
    }
}
