// The least of texts in bytes.
ghost use Rattle.std.specs.Prelude.{◌≡◌, IfOk, Some};
ghost use Rattle.std.specs.List.{fold};
ghost use Rattle.std.specs.Option.{option_copied, option_to_list};
ghost use Rattle.tf_mapping.specs.Least.{lesser_text};
ghost use Rattle.tf_config.specs.Checks.{told_if};

use std::alloc::Global;
use tf_model::{OutOfMemory, Text};

/// The lesser of a text and the least one before.
pub(crate) fn lesser<'a>(text: &'a str, least: Option<&'a str>) -> Option<&'a str>
    ensures { option_copied result ≡ lesser_text (option_copied least.entry) text.now }
{
    match least {
        None => Some(text),
        Some(least) => if text.as_bytes().cmp(least.as_bytes()).is_lt() {
            Some(text)
        } else {
            Some(least)
        },
    }
}

/// The same, where something is so, and otherwise the least one before.
pub(crate) fn lesser_if<'a>(is_so: bool, text: &'a str, least: Option<&'a str>) -> Option<&'a str>
    ensures { option_copied result ≡ fold lesser_text (option_copied least.entry) (told_if is_so text.now) }
{
    if is_so { lesser(text, least) } else { least }
}

/// The lesser of the least text before and another one, where there is one.
pub(crate) fn lesser_option<'a>(text: Option<&'a Text>, least: Option<&'a str>) -> Option<&'a str>
    ensures { option_copied result ≡ fold lesser_text (option_copied least.entry) (option_to_list (option_copied text.entry)) }
{
    match text {
        None => least,
        Some(text) => lesser(text.as_str(), least),
    }
}

/// The lesser of a text and the least one before. The text is copied only where it is the lesser.
pub(crate) fn lesser_copy(
    alloc: Global,
    least: Option<Text>,
    text: &str,
) -> Result<Option<Text>, OutOfMemory>
    ensures { IfOk result (λ found. found ≡ lesser_text least text.now) }
{
    match least {
        None => Ok(Some(Text::from_str(alloc, text)?)),
        Some(least) => Ok(Some(lesser_of(alloc, least, text)?)),
    }
}

fn lesser_of(alloc: Global, least: Text, text: &str) -> Result<Text, OutOfMemory>
    ensures { IfOk result (λ found. Some found ≡ lesser_text (Some least) text.now) }
{
    if text.as_bytes().cmp(least.as_bytes()).is_lt() {
        Text::from_str(alloc, text)
    } else {
        Ok(least)
    }
}
