ghost use Rattle.std.specs.Prelude.{◌≡◌, ◌<◌, length, IfSome};
ghost use Rattle.script_commands.specs.Numbers.{with_digit, number_reading, number_within, unit_reading, unit_place, within_a_day, is_duration, duration_reading};

/// The number with one more digit, if it has 64 bits.
fn push_digit(value: u64, byte: u8) -> Option<u64>
    ensures { result ≡ with_digit value byte }
{
    if !byte.is_ascii_digit() {
        return None;
    }
    value.checked_mul(10)?.checked_add((byte - b'0') as u64)
}

/// The number that decimal digits stand for, if there is a digit and the number has 64 bits. Leading zeros are read.
pub fn read_number(text: &[u8]) -> Option<u64>
    ensures { result ≡ number_reading text.now }
{
    if text.is_empty() {
        return None;
    }
    let mut value = 0;
    for byte in text {
        value = push_digit(value, *byte)?;
    }
    Some(value)
}

/// The number that decimal digits stand for, if it is neither below the least nor above the most.
#[tactic(auto, unfolding(crate::specs::Numbers::number_within))]
pub fn read_within(text: &[u8], least: u64, most: u64) -> Option<u64>
    ensures { result ≡ number_within least most text.now }
{
    let number = read_number(text)?;
    if number < least || number > most {
        return None;
    }
    Some(number)
}

/// The milliseconds of a unit: `ms`, `s` or `m`.
fn read_unit(text: &[u8]) -> Option<u64>
    ensures { result ≡ unit_reading text.now }
{
    if text == b"ms".as_slice() {
        Some(1)
    } else if text == b"s".as_slice() {
        Some(1000)
    } else if text == b"m".as_slice() {
        Some(60000)
    } else {
        None
    }
}

/// The place of the first byte that is no digit.
fn find_unit(text: &[u8]) -> Option<usize>
    ensures value { result ≡ unit_place text.now }
    ensures within { IfSome result (λ k. k < length text.now) }
{
    text.iter().position(|byte| !byte.is_ascii_digit())
}

/// The most milliseconds of a duration: a day.
const MOST_MILLISECONDS: u64 = 86400000;

/// So many units, if that is at most a day.
fn within_a_day(number: u64, unit: u64) -> Option<u64>
    ensures { result ≡ within_a_day number unit }
{
    let milliseconds = number.checked_mul(unit)?;
    if milliseconds > MOST_MILLISECONDS {
        return None;
    }
    Some(milliseconds)
}

/// Whether a text is 1 to 9 digits and a unit, however long the duration is.
pub fn is_duration(text: &[u8]) -> bool
    ensures { result ≡ is_duration text.now }
{
    match find_unit(text) {
        None => false,
        Some(place) => {
            place <= 9
                && read_number(&text[..place]).is_some()
                && read_unit(&text[place..]).is_some()
        }
    }
}

/// The milliseconds of a duration: 1 to 9 digits and a unit, at most a day in all.
#[tactic(auto, unfolding(crate::specs::Numbers::duration_reading))]
pub fn read_duration(text: &[u8]) -> Option<u64>
    ensures { result ≡ duration_reading text.now }
{
    let place = find_unit(text)?;
    if place > 9 {
        return None;
    }
    let number = read_number(&text[..place])?;
    let unit = read_unit(&text[place..])?;
    within_a_day(number, unit)
}
