// The least of texts in bytes.
ghost use Rattle.std.specs.Prelude.{◌≡◌, Some};
ghost use Rattle.std.specs.Option.{option_copied};
ghost use Rattle.tf_query.specs.Unknown.{lesser_text};

use tf_model::Text;

/// The lesser of a text and the least one before.
pub(crate) fn lesser<'a>(text: &'a Text, least: Option<&'a Text>) -> &'a Text
    ensures { Some result.now ≡ lesser_text (option_copied least.entry) text.now }
{
    match least {
        None => text,
        Some(least) => if text.cmp(least).is_lt() { text } else { least },
    }
}
