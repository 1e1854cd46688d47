// Days of the calendar.
ghost use Rattle.std.specs.Prelude.{◌≡◌, ◌<◌, IfSome, pos, neg_ℤ};
ghost use Rattle.jiff.specs.Words.{IsBetween};
ghost use Rattle.tf_time.specs.Calendar as spec;

use jiff::civil::Date;

/// The number of a day, 0 for 1 January 1970, and `None` where the calendar has no such day.
pub(crate) fn day_number(year: u16, month: u8, day: u8) -> Option<i32>
    requires year_in { year < 10_000 }
    requires month_in { month < 100 }
    requires day_in { day < 100 }
    ensures value { result ≡ spec.day_number year month day }
    ensures bound { IfSome result (IsBetween (neg_ℤ (pos 4_371_587)) (pos 2_932_896)) }
{
    match Date::new(year as i16, month as i8, day as i8) {
        Ok(date) => Some(date.to_plain().to_unix_epoch_day()),
        Err(_) => None,
    }
}
