// Dates as texts.
ghost use Rattle.std.specs.Prelude.{◌≡◌, ◌++◌, ◌∷◌, ◌<◌, ◌≤◌, IfOk, pos, neg_ℤ, unsigned_abs, string_bytes};
ghost use Rattle.jiff.specs.Words.{IsBetween};
ghost use Rattle.tf_time.specs.Parts as spec;

use jiff_core::civil::Date;
use std::alloc::{AllocError, Global};

// Milliseconds.
const DAY: i64 = 86_400_000;

// The calendar's date of a day number.
fn civil(day: i64) -> Date
    requires { IsBetween (neg_ℤ (pos 719_528)) (pos 2_932_896) day }
    ensures value { (unsigned_abs result.year, result.month, result.day) ≡ spec.civil_of day }
    ensures year { IsBetween (pos 0) (pos 9999) result.year }
{
    Date::from_days_since_min((day + 4_371_587) as u32)
}

// `YYYY-MM-DD`.
fn civil_text(alloc: Global, year: u16, month: u8, day: u8) -> Result<String, AllocError>
    requires year_in { year < 10_000 }
    requires month_in { month < 100 }
    requires day_in { day < 100 }
    ensures { IfOk result (λ s. string_bytes s ≡ spec.civil_text (year, month, day)) }
{
    format!(in alloc; "{year:04}-{month:02}-{day:02}")
}

// `HH:MM:SS.mmm`, of the milliseconds since midnight.
fn clock_text(alloc: Global, ms: u32) -> Result<String, AllocError>
    requires { ms < 86_400_000 }
    ensures { IfOk result (λ s. string_bytes s ≡ spec.clock_text ms) }
{
    let hour = ms / 3_600_000;
    let minute = ms / 60_000 % 60;
    let second = ms / 1000 % 60;
    let part = ms % 1000;
    format!(in alloc; "{hour:02}:{minute:02}:{second:02}.{part:03}")
}

/// The text of a date, given in milliseconds since 1970, as `2024-03-01T00:00:00.000Z`. The error is want of memory
/// alone.
pub fn print_date(alloc: Global, ms: i64) -> Result<String, AllocError>
    requires { IsBetween (neg_ℤ (pos 62_167_219_200_000)) (pos 253_402_300_799_999) ms }
    ensures { IfOk result (λ s. string_bytes s ≡ spec.date_text ms) }
{
    let date = civil(ms.div_euclid(DAY));
    let mut text = civil_text(alloc, date.year as u16, date.month, date.day)?;
    let clock = clock_text(alloc, ms.rem_euclid(DAY) as u32)?;
    text.push_str("T")?;
    text.push_str(clock.as_str())?;
    text.push_str("Z")?;
    Ok(text)
}
