ghost use Rattle.std.specs.Prelude.{◌≡◌, ◌≤◌, ◌<◌, ◌++◌, pos, min, OnOk};
ghost use Rattle.tablet_text.specs.Moments.{day_at, digit, two_digits, three_digits, four_digits, date_text, time_text, last_moment, text_within, moment_text};

use jiff_core::civil::Date;
use shard_base::{OutOfMemory, append_pieces};

/// The last millisecond of the year 9999.
const LAST_MOMENT: u64 = 253_402_300_799_999;

const DAY_IN_MILLISECONDS: u64 = 86_400_000;

fn digit(number: u32) -> u8
    ensures { result ≡ digit number }
{
    b'0' + (number % 10) as u8
}

fn two_digits(number: u32) -> [u8; 2]
    ensures { result ≡ two_digits number }
{
    [digit(number / 10), digit(number)]
}

fn three_digits(number: u32) -> [u8; 3]
    ensures { result ≡ three_digits number }
{
    [digit(number / 100), digit(number / 10), digit(number)]
}

fn four_digits(number: u32) -> [u8; 4]
    ensures { result ≡ four_digits number }
{
    [
        digit(number / 1000),
        digit(number / 100),
        digit(number / 10),
        digit(number),
    ]
}

/// A date in the years from 1970 to 9999.
#[derive(Clone, Copy)]
struct Day {
    year: u32,
    month: u32,
    day: u32,
}

/// The day so many days after the first of 1970.
fn day_at(days: u32) -> Day
    requires { days ≤ 2_932_896 }
    ensures year { result.year ≡ (day_at days).year }
    ensures month { result.month ≡ (day_at days).month }
    ensures day { result.day ≡ (day_at days).day }
{
    let date = Date::from_days_since_min(days + 4_371_587);
    Day {
        year: date.year as u32,
        month: date.month as u32,
        day: date.day as u32,
    }
}

#[tactic(auto, unfolding(crate::specs::Moments::date_text))]
fn write_date(days: u32, into: &mut Vec<u8>) -> Result<(), OutOfMemory>
    requires { days ≤ 2_932_896 }
    ensures { OnOk result (into.new.items ≡ into.old.items ++ date_text (day_at days)) }
{
    let day = day_at(days);
    append_pieces(
        into,
        &[
            four_digits(day.year).as_slice(),
            b"-",
            two_digits(day.month).as_slice(),
            b"-",
            two_digits(day.day).as_slice(),
        ],
    )
}

/// Appends the time of day, of the milliseconds since midnight.
#[tactic(auto, unfolding(crate::specs::Moments::time_text))]
fn write_time(milliseconds: u32, into: &mut Vec<u8>) -> Result<(), OutOfMemory>
    ensures { OnOk result (into.new.items ≡ into.old.items ++ time_text milliseconds) }
{
    append_pieces(
        into,
        &[
            two_digits(milliseconds / 3_600_000).as_slice(),
            b":",
            two_digits(milliseconds / 60_000 % 60).as_slice(),
            b":",
            two_digits(milliseconds / 1000 % 60).as_slice(),
            b".",
            three_digits(milliseconds % 1000).as_slice(),
        ],
    )
}

#[tactic(auto, unfolding(crate::specs::Moments::text_within))]
fn write_within(moment: u64, into: &mut Vec<u8>) -> Result<(), OutOfMemory>
    requires { moment ≤ last_moment }
    ensures { OnOk result (into.new.items ≡ into.old.items ++ text_within moment) }
{
    write_date((moment / DAY_IN_MILLISECONDS) as u32, into)?;
    into.extend_from_slice(b"T")?;
    write_time((moment % DAY_IN_MILLISECONDS) as u32, into)?;
    into.extend_from_slice(b"Z")?;
    Ok(())
}

/// The moment, or the last that has a text.
fn up_to_last(moment: u64) -> u64
    ensures is { result ≡ min moment last_moment }
    ensures within { result ≤ last_moment }
{
    moment.min(LAST_MOMENT)
}

/// Appends the date and the time of a moment, in milliseconds since the start of 1970.
#[tactic(auto, unfolding(crate::specs::Moments::moment_text))]
pub fn write_moment(moment: u64, into: &mut Vec<u8>) -> Result<(), OutOfMemory>
    ensures { OnOk result (into.new.items ≡ into.old.items ++ moment_text moment) }
{
    write_within(up_to_last(moment), into)
}
