// Texts of dates.
ghost use Rattle.std.specs.Prelude.{◌≡◌, ◌+◌, ◌*◌, ◌<◌, IfSome, pos, neg_ℤ, ◌+ℤ◌, ◌-ℤ◌, ◌*ℤ◌};
ghost use Rattle.jiff.specs.Words.{IsBetween, IsWithin};
ghost use Rattle.tf_time.specs.Reader.{seen, leading_digits};
ghost use Rattle.tf_time.specs.Dates as spec;

use crate::calendar::day_number;
use crate::reader::{byte, four_digits, leading_digits, two_digits};

/// Why a text is not read as a date.
#[derive(Clone, Copy, Debug, PartialEq, Eq, Drop)]
pub enum DateError {
    /// It has not the form of a date, or the calendar or the clock has no such moment.
    NotADate,
    /// It is a real date, and its moment lies outside the years 0 to 9999 in UTC.
    OutOfRange,
}

// Milliseconds.
const MINUTE: i64 = 60_000;

const DAY: i64 = 86_400_000;
// The first moment of the year 0 and the last one of the year 9999.
const FIRST: i64 = -62_167_219_200_000;

const LAST: i64 = 253_402_300_799_999;

// `YYYY-MM-DD`, as a day number.
fn date(text: &[u8]) -> Option<(i32, &[u8])>
    ensures value { seen result ≡ spec.date text.now }
    ensures bound { IfSome result (λ p. IsBetween (neg_ℤ (pos 4_371_587)) (pos 2_932_896) p.0) }
{
    let (year, rest) = four_digits(text)?;
    let rest = byte(b'-', rest)?;
    let (month, rest) = two_digits(rest)?;
    let rest = byte(b'-', rest)?;
    let (day, rest) = two_digits(rest)?;
    Some((day_number(year, month, day)?, rest))
}

// `HH:MM`, in minutes.
fn clock(text: &[u8]) -> Option<(u16, &[u8])>
    ensures value { seen result ≡ spec.clock text.now }
    ensures bound { IfSome result (λ p. p.0 < 1440) }
{
    let (hour, rest) = two_digits(text)?;
    let rest = byte(b':', rest)?;
    let (minute, rest) = two_digits(rest)?;
    if hour < 24 && minute < 60 {
        Some((60 * u16::from(hour) + u16::from(minute), rest))
    } else {
        None
    }
}

// Digit `place` of the `count` that the text begins with, or 0 past them.
fn digit_at(text: &[u8], count: usize, place: usize) -> u16
    requires { count ≡ leading_digits text.now }
    ensures value { result ≡ spec.digit_at text.now count place }
    ensures bound { result < 10 }
{
    if place < count {
        u16::from(text[place] - b'0')
    } else {
        0
    }
}

// One to nine digits of a fraction, in whole thousandths.
fn thousandths(text: &[u8]) -> Option<(u16, &[u8])>
    ensures value { seen result ≡ spec.thousandths text.now }
    ensures bound { IfSome result (λ p. p.0 < 1000) }
{
    let count = leading_digits(text);
    if count == 0 || count > 9 {
        return None;
    }
    let value = 100 * digit_at(text, count, 0)
        + 10 * digit_at(text, count, 1)
        + digit_at(text, count, 2);
    Some((value, &text[count..]))
}

// A fraction, if a dot stands there.
fn fraction(text: &[u8]) -> Option<(u16, &[u8])>
    ensures value { seen result ≡ spec.fraction text.now }
    ensures bound { IfSome result (λ p. p.0 < 1000) }
{
    match text {
        [b'.', rest @ ..] => thousandths(rest),
        _ => Some((0, text)),
    }
}

// `:SS` with its fraction, if a colon stands there, in milliseconds.
fn seconds(text: &[u8]) -> Option<(u32, &[u8])>
    ensures value { seen result ≡ spec.seconds text.now }
    ensures bound { IfSome result (λ p. p.0 < 60_000) }
{
    let [b':', rest @ ..] = text else {
        return Some((0, text));
    };
    let (second, rest) = two_digits(rest)?;
    let (part, rest) = fraction(rest)?;
    if second < 60 {
        Some((1000 * u32::from(second) + u32::from(part), rest))
    } else {
        None
    }
}

// `Z`, `+HH:MM`, `-HH:MM` or nothing, in minutes east of UTC.
fn zone(text: &[u8]) -> Option<(i64, &[u8])>
    ensures value { seen result ≡ spec.zone text.now }
    ensures bound { IfSome result (λ p. IsWithin 1439 p.0) }
{
    match text {
        [] => Some((0, text)),
        [b'Z', rest @ ..] => Some((0, rest)),
        [b'+', rest @ ..] => {
            let (minutes, rest) = clock(rest)?;
            Some((i64::from(minutes), rest))
        }
        [b'-', rest @ ..] => {
            let (minutes, rest) = clock(rest)?;
            Some((-i64::from(minutes), rest))
        }
        _ => None,
    }
}

// A time of day with its offset, in milliseconds from midnight in UTC.
fn in_utc(minutes: u16, part: u32, offset: i64) -> i64
    requires minutes_in { minutes < 1440 }
    requires part_in { part < 60_000 }
    requires offset_in { IsWithin 1439 offset }
    ensures value { result ≡ pos (60_000 * minutes + part) -ℤ offset *ℤ pos 60_000 }
    ensures bound { IsWithin 200_000_000 result }
{
    MINUTE * i64::from(minutes) + i64::from(part) - offset * MINUTE
}

// A day and milliseconds from its midnight, in milliseconds since 1970.
fn since_epoch(day: i32, ms: i64) -> i64
    requires { IsWithin 200_000_000 ms }
    ensures { result ≡ day *ℤ pos 86_400_000 +ℤ ms }
{
    i64::from(day) * DAY + ms
}

// The same after its `T`.
fn time_of_day(text: &[u8]) -> Option<(i64, &[u8])>
    ensures value { seen result ≡ spec.time_of_day text.now }
    ensures bound { IfSome result (λ p. IsWithin 200_000_000 p.0) }
{
    let (minutes, rest) = clock(text)?;
    let (part, rest) = seconds(rest)?;
    let (offset, rest) = zone(rest)?;
    Some((in_utc(minutes, part, offset), rest))
}

// The milliseconds from the date's midnight in UTC.
fn time(text: &[u8]) -> Option<(i64, &[u8])>
    ensures value { seen result ≡ spec.time text.now }
    ensures bound { IfSome result (λ p. IsWithin 200_000_000 p.0) }
{
    match text {
        [] => Some((0, text)),
        [b'T', rest @ ..] => time_of_day(rest),
        _ => None,
    }
}

// The moment that the whole text is.
fn moment(text: &[u8]) -> Option<i64>
    ensures { result ≡ spec.moment text.now }
{
    let (day, rest) = date(text)?;
    let (ms, rest) = time(rest)?;
    if rest.is_empty() {
        Some(since_epoch(day, ms))
    } else {
        None
    }
}

/// The milliseconds since 1970 of a date's text. Takes no memory.
///
/// A date is `YYYY-MM-DD`, which `T` and a time may follow: `HH:MM`, then `:SS` if wanted, which alone may have `.`
/// and 1 to 9 digits of a second, of which those past three are dropped; then a zone if wanted, `Z`, `+HH:MM` or
/// `-HH:MM`. Without a zone it is UTC, and without a time midnight. Hours are 0 to 23, minutes and seconds 0 to 59. It is a
/// part of the format `strict_date_optional_time` of the Elasticsearch Reference, date formats.
///
/// `NotADate` for every other text, and for a day that the calendar (ISO 8601, proleptic Gregorian) has not.
/// `OutOfRange` for a date whose moment lies outside -62167219200000 to 253402300799999.
pub fn read_date(text: &str) -> Result<i64, DateError>
    ensures { result ≡ spec.date_of text.now }
{
    match moment(text.as_bytes()) {
        None => Err(DateError::NotADate),
        Some(ms) if FIRST <= ms && ms <= LAST => Ok(ms),
        Some(_) => Err(DateError::OutOfRange),
    }
}
