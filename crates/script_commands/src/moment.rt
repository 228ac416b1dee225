//! Moments: a date and a time of day in UTC.

ghost use Rattle.std.specs.Prelude.{◌≡◌, ◌≤◌, ◌<◌, ◌+◌, ◌*◌, true, length, pos};
ghost use Rattle.std.specs.Int.{IsInRange};
ghost use Rattle.jiff_core.specs.Calendar.{days_in_month};
ghost use Rattle.script_commands.specs.Moments.{fits_byte, fits_pattern, has_form, part, milliseconds_of, is_day, is_time, is_moment, start_of_day, time_of_day, milliseconds_since_1970, is_of_clock, moment_reading};

use crate::number::read_within;
use jiff_core::civil::{Date, days_in_month};

fn fits_byte(pattern: u8, byte: u8) -> bool
    ensures { result ≡ fits_byte pattern byte }
{
    if pattern == b'0' {
        byte.is_ascii_digit()
    } else {
        byte == pattern
    }
}

/// Whether the text has a digit for each `0` of the pattern, and else the pattern's bytes.
fn fits_pattern(pattern: &[u8], text: &[u8]) -> bool
    ensures { result ≡ fits_pattern pattern.now text.now }
{
    match pattern.split_first() {
        None => text.is_empty(),
        Some((first, pattern)) => match text.split_first() {
            None => false,
            Some((byte, text)) => fits_byte(*first, *byte) && fits_pattern(pattern, text),
        },
    }
}

/// Whether the text is written as a moment, with or without milliseconds.
fn has_form(text: &[u8]) -> bool
    ensures value { result ≡ has_form text.now }
    ensures long { result ≡ true → 20 ≤ length text.now }
{
    fits_pattern(b"0000-00-00T00:00:00Z", text) || fits_pattern(b"0000-00-00T00:00:00.000Z", text)
}

/// The number that so many digits from this place stand for, at most four.
#[tactic(auto, unfolding(crate::specs::Moments::part))]
fn part(text: &[u8], place: usize, count: usize) -> u64
    requires { place + count ≤ length text.now }
    ensures value { result ≡ part place count text.now }
    ensures small { result < 10000 }
{
    read_within(&text[place..place + count], 0, 9999).unwrap_or(0)
}

/// The milliseconds, where they are written.
#[tactic(auto, unfolding(crate::specs::Moments::milliseconds_of))]
fn milliseconds_of(text: &[u8]) -> u64
    ensures value { result ≡ milliseconds_of text.now }
    ensures small { result < 10000 }
{
    if text.len() == 24 {
        part(text, 20, 3)
    } else {
        0
    }
}

/// Whether the calendar has the day.
fn is_day(year: u64, month: u64, day: u64) -> bool
    requires { year < 10000 }
    ensures { result ≡ is_day year month day }
{
    1 <= month && month <= 12 && 1 <= day && day <= days_in_month(year as i16, month as u8) as u64
}

fn is_time(hour: u64, minute: u64, second: u64) -> bool
    ensures { result ≡ is_time hour minute second }
{
    hour < 24 && minute < 60 && second < 60
}

/// Whether the text is a moment in the years from 0 to 9999.
#[tactic(auto, unfolding(crate::specs::Moments::is_moment))]
pub fn is_moment(text: &[u8]) -> bool
    ensures { result ≡ is_moment text.now }
{
    has_form(text)
        && is_day(part(text, 0, 4), part(text, 5, 2), part(text, 8, 2))
        && is_time(part(text, 11, 2), part(text, 14, 2), part(text, 17, 2))
}

/// The milliseconds from the start of 1970 to the start of a day.
#[tactic(auto, unfolding(crate::specs::Moments::start_of_day))]
fn start_of_day(year: u64, month: u64, day: u64) -> u64
    requires year { year < 10000 }
    requires month { IsInRange 1 12 month }
    requires day { IsInRange 1 (days_in_month (pos year) month) day }
    ensures value { result ≡ start_of_day year month day }
    ensures bound { result ≤ 4371587 * 86400000 }
{
    let date = Date::constrain(year as i16, month as u8, day as u8);
    date.to_unix_epoch_day().unsigned_abs() as u64 * 86_400_000
}

/// The milliseconds from the start of a day.
#[tactic(auto, unfolding(crate::specs::Moments::time_of_day))]
fn time_of_day(text: &[u8]) -> u64
    requires { 20 ≤ length text.now }
    ensures value { result ≡ time_of_day text.now }
    ensures bound { result < 10000 * 3661001 }
{
    part(text, 11, 2) * 3_600_000
        + part(text, 14, 2) * 60_000
        + part(text, 17, 2) * 1000
        + milliseconds_of(text)
}

/// The milliseconds since the start of 1970, of a moment from then on.
#[tactic(auto, unfolding(crate::specs::Moments::milliseconds_since_1970))]
fn milliseconds_since_1970(text: &[u8]) -> u64
    requires { is_moment text.now ≡ true }
    ensures { result ≡ milliseconds_since_1970 text.now }
{
    start_of_day(part(text, 0, 4), part(text, 5, 2), part(text, 8, 2)) + time_of_day(text)
}

/// The first millisecond of the year 9001.
const START_OF_9001: u64 = 221_876_928_000_000;

/// Whether a clock may begin with a moment: in the years from 1970 to 9000.
fn is_of_clock(year: u64, milliseconds: u64) -> bool
    ensures { result ≡ is_of_clock year milliseconds }
{
    1970 <= year && milliseconds < START_OF_9001
}

/// The milliseconds since the start of 1970 of a moment with which a clock may begin: in the years from 1970 to 9000.
#[tactic(auto, unfolding(crate::specs::Moments::moment_reading))]
pub fn read_moment(text: &[u8]) -> Option<u64>
    ensures { result ≡ moment_reading text.now }
{
    if !is_moment(text) {
        return None;
    }
    let milliseconds = milliseconds_since_1970(text);
    if !is_of_clock(part(text, 0, 4), milliseconds) {
        return None;
    }
    Some(milliseconds)
}
