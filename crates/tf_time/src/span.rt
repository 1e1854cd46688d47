// Texts of spans.
ghost use Rattle.std.specs.Prelude.{◌≡◌, ◌^◌, ◌<◌, ◌≤◌, length, IfSome};
ghost use Rattle.std.specs.Result.{result_ok};
ghost use Rattle.tf_time.specs.Reader.{leading_digits as front};
ghost use Rattle.tf_time.specs.Spans as spec;

use crate::reader::leading_digits;

// The longest span, in milliseconds.
const LONGEST: u64 = 253_402_300_799_999;

/// A text is no span.
#[derive(Clone, Copy, Debug, PartialEq, Eq, Drop)]
pub struct NotASpan;

// The number that digits write.
fn number(digits: &[u8]) -> u64
    requires few { length digits.now ≤ 15 }
    requires are_digits { front digits.now ≡ length digits.now }
    ensures value { result ≡ spec.value digits.now }
    ensures bound { result < 10 ^ 15 }
{
    let mut value = 0;
    for digit in digits {
        value = 10 * value + u64::from(*digit - b'0');
    }
    value
}

// The milliseconds of a unit.
fn unit(text: &[u8]) -> Option<u64>
    ensures value { result ≡ spec.unit text.now }
    ensures bound { IfSome result (λ ms. ms ≤ 86_400_000) }
{
    match text {
        b"ms" => Some(1),
        b"s" => Some(1000),
        b"m" => Some(60_000),
        b"h" => Some(3_600_000),
        b"d" => Some(86_400_000),
        _ => None,
    }
}

// The milliseconds of a span.
fn span(text: &[u8]) -> Option<i64>
    ensures { result ≡ spec.span text.now }
{
    let count = leading_digits(text);
    if count == 0 || count > 15 {
        return None;
    }
    let unit = unit(&text[count..])?;
    let ms = u128::from(number(&text[..count])) * u128::from(unit);
    if ms <= u128::from(LONGEST) {
        Some(ms as i64)
    } else {
        None
    }
}

/// The milliseconds of a span's text: 1 to 15 digits and one of `ms`, `s`, `m`, `h` and `d`, at most 253402300799999
/// milliseconds. Takes no memory.
///
/// It is a part of the Elasticsearch Reference, time units. `NotASpan` for every other text.
pub fn read_span(text: &str) -> Result<i64, NotASpan>
    ensures { result_ok result ≡ spec.span text.now }
{
    span(text.as_bytes()).ok_or(NotASpan)
}
