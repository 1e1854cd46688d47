// What stands at the front of a text, and the rest.
ghost use Rattle.std.specs.Prelude.{◌≡◌, ◌<◌, ◌≤◌, length, IfSome};
ghost use Rattle.tf_time.specs.Reader as spec;

/// The rest behind a byte.
pub(crate) fn byte(wanted: u8, text: &[u8]) -> Option<&[u8]>
    ensures { spec.seen_rest result ≡ spec.byte wanted text.now }
{
    match text {
        [first, rest @ ..] if *first == wanted => Some(rest),
        _ => None,
    }
}

fn one_digit(text: &[u8]) -> Option<(u8, &[u8])>
    ensures value { spec.seen result ≡ spec.one_digit text.now }
    ensures bound { IfSome result (λ p. p.0 < 10) }
{
    match text {
        [first, rest @ ..] if first.is_ascii_digit() => Some((*first - b'0', rest)),
        _ => None,
    }
}

/// The number of the first two bytes, where they are digits.
pub(crate) fn two_digits(text: &[u8]) -> Option<(u8, &[u8])>
    ensures value { spec.seen result ≡ spec.two_digits text.now }
    ensures bound { IfSome result (λ p. p.0 < 100) }
{
    let (tens, rest) = one_digit(text)?;
    let (ones, rest) = one_digit(rest)?;
    Some((10 * tens + ones, rest))
}

/// The number of the first four bytes, where they are digits.
pub(crate) fn four_digits(text: &[u8]) -> Option<(u16, &[u8])>
    ensures value { spec.seen result ≡ spec.four_digits text.now }
    ensures bound { IfSome result (λ p. p.0 < 10_000) }
{
    let (hundreds, rest) = two_digits(text)?;
    let (ones, rest) = two_digits(rest)?;
    Some((100 * u16::from(hundreds) + u16::from(ones), rest))
}

/// How many digits the text begins with.
pub(crate) fn leading_digits(text: &[u8]) -> usize
    ensures value { result ≡ spec.leading_digits text.now }
    ensures bound { result ≤ length text.now }
{
    let mut count = 0;
    for byte in text {
        if !byte.is_ascii_digit() {
            return count;
        }
        count += 1;
    }
    count
}
