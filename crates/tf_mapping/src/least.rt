// The least of texts in bytes.
ghost use Rattle.std.specs.Prelude.{◌≡◌, IfOk, Some, string_bytes};
ghost use Rattle.tf_mapping.specs.Least.{lesser_text};

use std::alloc::Global;
use tf_model::{OutOfMemory, Text};

/// The lesser of a text and the least one before. The text is copied only where it is the lesser.
pub(crate) fn lesser(
    alloc: Global,
    least: Option<Text>,
    text: &str,
) -> Result<Option<Text>, OutOfMemory>
    ensures { IfOk result (λ found. found ≡ lesser_text least text.now) }
{
    match least {
        None => Ok(Some(Text::from_str(alloc, text)?)),
        Some(least) => Ok(Some(lesser_of(alloc, least, text)?)),
    }
}

fn lesser_of(alloc: Global, least: Text, text: &str) -> Result<Text, OutOfMemory>
    ensures { IfOk result (λ found. Some found ≡ lesser_text (Some least) text.now) }
{
    if text.as_bytes().cmp(least.as_bytes()).is_lt() {
        Text::from_str(alloc, text)
    } else {
        Ok(least)
    }
}
