// The forms of names.
ghost use Rattle.std.specs.Prelude.{◌≡◌, ◌<◌, false, length, IsTrue};
ghost use Rattle.std.specs.List.{list_all};
ghost use Rattle.tf_model.specs.Names as spec;

/// Whether this is a transform's id: 1 to 64 of `a-z`, `0-9`, `-` and `_`, the first and the last a letter or digit.
///
/// Elasticsearch Reference, create transform, path parameter `transform_id`. Takes no memory.
#[tactic(auto, unfolding(crate::specs::Names::is_transform_id))]
pub fn is_transform_id(name: &str) -> bool
    ensures { result ≡ spec.is_transform_id name.now }
{
    let bytes = name.as_bytes();
    if !has_size(bytes, 64) {
        return false;
    }
    let whole = are_id_bytes(bytes);
    let first = is_letter_or_digit(bytes[0]);
    let last = is_letter_or_digit(bytes[bytes.len() - 1]);
    whole && first && last
}

// From 1 byte to so many.
fn has_size(bytes: &[u8], most: usize) -> bool
    ensures size { result ≡ spec.is_between 1 most (length bytes.now) }
    ensures some { IsTrue result → 0 < length bytes.now }
{
    !bytes.is_empty() && bytes.len() <= most
}

fn are_id_bytes(bytes: &[u8]) -> bool
    ensures { result ≡ list_all spec.is_id_byte bytes.now }
{
    bytes.iter().all(|byte| is_id_byte(*byte))
}

fn is_id_byte(byte: u8) -> bool
    ensures { result ≡ spec.is_id_byte byte }
{
    is_letter_or_digit(byte) || byte == b'-' || byte == b'_'
}

fn is_letter_or_digit(byte: u8) -> bool
    ensures { result ≡ spec.is_letter_or_digit byte }
{
    byte.is_ascii_lowercase() || byte.is_ascii_digit()
}

/// Whether this is the name of an index or a destination: 1 to 255 bytes, no upper-case ASCII letter, none of
/// `\ / * ? " < > |`, space, comma, `#` and `:`, not beginning with `-`, `_` or `+`, and neither `.` nor `..`.
///
/// Elasticsearch Reference, create index, path parameter `index`. Takes no memory.
#[tactic(auto, unfolding(crate::specs::Names::is_index_name))]
pub fn is_index_name(name: &str) -> bool
    ensures { result ≡ spec.is_index_name name.now }
{
    let bytes = name.as_bytes();
    if !has_size(bytes, 255) {
        return false;
    }
    let whole = are_name_bytes(bytes);
    let first = is_no_first(bytes[0]);
    let dots = name == "." || name == "..";
    whole && !first && !dots
}

fn are_name_bytes(bytes: &[u8]) -> bool
    ensures { result ≡ list_all spec.is_name_byte bytes.now }
{
    bytes.iter().all(|byte| is_name_byte(*byte))
}

fn is_name_byte(byte: u8) -> bool
    ensures { result ≡ spec.is_name_byte byte }
{
    !byte.is_ascii_uppercase() && !b"\\/*?\"<>| ,#:".contains(&byte)
}

fn is_no_first(byte: u8) -> bool
    ensures { result ≡ spec.is_no_first byte }
{
    byte == b'-' || byte == b'_' || byte == b'+'
}

/// Whether this is a field's path: at most 255 bytes, in parts joined by `.` that are not empty. Takes no memory.
#[tactic(auto, unfolding(crate::specs::Names::is_field_path))]
pub fn is_field_path(path: &str) -> bool
    ensures { result ≡ spec.is_field_path path.now }
{
    path.len() <= 255 && parts_have_bytes(path.as_bytes())
}

fn parts_have_bytes(path: &[u8]) -> bool
    ensures { result ≡ spec.parts_have_bytes false path.now }
{
    let mut had = false;
    for byte in path {
        if *byte != b'.' {
            had = true;
        } else if had {
            had = false;
        } else {
            return false;
        }
    }
    had
}
