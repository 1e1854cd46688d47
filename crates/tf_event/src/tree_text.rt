//! Trees read from the texts that they print as, in one pass.
//!
//! A text is refused where it is not in the printed form: spaces, another order of members, numbers
//! or escapes that are written otherwise.
ghost use Rattle.std.specs.Prelude.{◌≡◌, ◌≤◌, ◌<◌, ◌+◌, ◌*◌, ◌++◌, ◌∷◌, [], length, if◌then◌else◌, nat_lt, map, take, flat_map, IfOk, IfSome, IsTrue, IsUtf8, false};
ghost use Rattle.std.specs.Char.{digit_char};
ghost use Rattle.std.specs.Fmt.{decimal};
ghost use Rattle.std.specs.List.{AllByRecursion};
ghost use Rattle.tf_model.specs.declared.tree.Tree.{Tree, out-Tree};
ghost use Rattle.tf_model.specs.Lines.{IsLeaf, IsLine, IsLineWithin, NamesAscend};
ghost use Rattle.tf_model.specs.Print.{escape_letter, escaped, quoted, listed, paired, printed, printed_member};

use crate::refusal::Refusal;
use std::alloc::Global;
use tf_model::{List, Text, Tree};

/// How deep arrays and objects nest at most.
const MAX_NESTING: u32 = 127;

/// How far a number stands below zero at most.
const MOST_BELOW_ZERO: u64 = 1 << 63;

/// The tree that prints as the text, which is one that a line can be.
#[tactic(auto, unfolding(tf_model::specs::Lines::IsLine))]
pub(crate) fn tree_of_text(alloc: Global, text: &[u8]) -> Result<Tree, Refusal>
    ensures text { IfOk result (λ t. text.now ≡ printed t) }
    ensures line { IfOk result IsLine }
{
    let (tree, rest) = read_tree(alloc, MAX_NESTING, text)?;
    if rest.is_empty() {
        Ok(tree)
    } else {
        Err(Refusal::Unspelled)
    }
}

/// The tree at the front of the text, with at most so much nesting, and the text after it.
#[cycle(read_tree)]
#[tactic(auto, using(crate::proofs::PrintedTrees::within))]
fn read_tree(alloc: Global, nesting: u32, text: &[u8]) -> Result<(Tree, &[u8]), Refusal>
    ensures text { IfOk result (λ x. text.now ≡ printed x.0 ++ x.1.now) }
    ensures line { IfOk result (λ x. IsLineWithin nesting x.0) }
{
    match text {
        [b'{', rest @ ..] => read_object(alloc, nesting, rest),
        [b'[', rest @ ..] => read_array(alloc, nesting, rest),
        _ => read_leaf(alloc, text),
    }
}

/// The object whose text stands behind its opening brace.
#[cycle(read_tree)]
#[tactic(auto, using(crate::proofs::PrintedTrees::texts, crate::proofs::PrintedTrees::within))]
fn read_object(alloc: Global, nesting: u32, text: &[u8]) -> Result<(Tree, &[u8]), Refusal>
    ensures text { IfOk result (λ x. 123 ∷ text.now ≡ printed x.0 ++ x.1.now) }
    ensures line { IfOk result (λ x. IsLineWithin nesting x.0) }
{
    if nesting == 0 {
        return Err(Refusal::Unspelled);
    }
    let (members, rest) = read_members(alloc, nesting - 1, text)?;
    Ok((Tree::Obj(members), rest))
}

/// The array whose text stands behind its opening bracket.
#[cycle(read_tree)]
#[tactic(auto, using(crate::proofs::PrintedTrees::texts, crate::proofs::PrintedTrees::within))]
fn read_array(alloc: Global, nesting: u32, text: &[u8]) -> Result<(Tree, &[u8]), Refusal>
    ensures text { IfOk result (λ x. 91 ∷ text.now ≡ printed x.0 ++ x.1.now) }
    ensures line { IfOk result (λ x. IsLineWithin nesting x.0) }
{
    if nesting == 0 {
        return Err(Refusal::Unspelled);
    }
    let (items, rest) = read_items(alloc, nesting - 1, text)?;
    Ok((Tree::Arr(items), rest))
}

/// The members to the closing brace, each name below the next.
#[cycle(read_tree)]
fn read_members(
    alloc: Global,
    nesting: u32,
    text: &[u8],
) -> Result<(List<(Text, Tree)>, &[u8]), Refusal>
    ensures text { IfOk result (λ x. text.now ≡ paired false (map printed_member x.0) ++ x.1.now) }
    ensures names { IfOk result (λ x. NamesAscend x.0) }
    ensures lines { IfOk result (λ x. AllByRecursion (λ m. IsUtf8 m.0 × IsLineWithin nesting m.1) x.0) }
{
    let mut members = List::new(alloc);
    if let [b'}', rest @ ..] = text {
        return Ok((members, rest));
    }
    let mut rest = text;
    for _ in 0..text.len() {
        let (name, value) = read_name(alloc, rest)?;
        let (tree, after) = read_tree(alloc, nesting, value)?;
        if !may_follow(&name, members.as_slice()) {
            return Err(Refusal::Unspelled);
        }
        members.push((name, tree))?;
        let (ends, after) = read_separator(b'}', after)?;
        if ends {
            return Ok((members, after));
        }
        rest = after;
    }
    Err(Refusal::Unspelled)
}

/// The items to the closing bracket.
#[cycle(read_tree)]
fn read_items(alloc: Global, nesting: u32, text: &[u8]) -> Result<(List<Tree>, &[u8]), Refusal>
    ensures text { IfOk result (λ x. text.now ≡ listed false (map printed x.0) ++ x.1.now) }
    ensures lines { IfOk result (λ x. AllByRecursion (IsLineWithin nesting) x.0) }
{
    let mut items = List::new(alloc);
    if let [b']', rest @ ..] = text {
        return Ok((items, rest));
    }
    let mut rest = text;
    for _ in 0..text.len() {
        let (tree, after) = read_tree(alloc, nesting, rest)?;
        items.push(tree)?;
        let (ends, after) = read_separator(b']', after)?;
        if ends {
            return Ok((items, after));
        }
        rest = after;
    }
    Err(Refusal::Unspelled)
}

/// Whether the text goes on with the closing byte, else with a comma.
fn read_separator(close: u8, text: &[u8]) -> Result<(bool, &[u8]), Refusal>
    ensures { IfOk result (λ x. text.now ≡ (if x.0 then close else 44) ∷ x.1.now) }
{
    match text {
        [b',', rest @ ..] => Ok((false, rest)),
        [byte, rest @ ..] if *byte == close => Ok((true, rest)),
        _ => Err(Refusal::Unspelled),
    }
}

/// Whether the name may stand behind the members, as it is above the last of their names.
fn may_follow(name: &Text, members: &[(Text, Tree)]) -> bool
    ensures { NamesAscend members.now → IsTrue result
        → (tree : Tree) → NamesAscend (members.now ++ (name.now, tree) ∷ []) }
{
    match members.last() {
        Some(last) => last.0 < *name,
        None => true,
    }
}

/// The name of a member, and the text of its value.
fn read_name(alloc: Global, text: &[u8]) -> Result<(Text, &[u8]), Refusal>
    ensures text { IfOk result (λ x. text.now ≡ quoted x.0 ++ 58 ∷ x.1.now) }
    ensures utf8 { IfOk result (λ x. IsUtf8 x.0) }
{
    let [b'"', quoted @ ..] = text else {
        return Err(Refusal::Unspelled);
    };
    let (name, rest) = read_string(alloc, quoted)?;
    match rest {
        [b':', value @ ..] => Ok((name, value)),
        _ => Err(Refusal::Unspelled),
    }
}

/// A tree that holds no other.
#[tactic(auto, using(crate::proofs::PrintedTrees::texts, crate::proofs::PrintedTrees::leaves))]
fn read_leaf(alloc: Global, text: &[u8]) -> Result<(Tree, &[u8]), Refusal>
    ensures text { IfOk result (λ x. text.now ≡ printed x.0 ++ x.1.now) }
    ensures leaf { IfOk result (λ x. IsLeaf (out-Tree x.0)) }
{
    match text {
        [b'"', rest @ ..] => {
            let (text, rest) = read_string(alloc, rest)?;
            Ok((Tree::Str(text), rest))
        }
        [b'-', rest @ ..] => read_negative(rest),
        [b'n', b'u', b'l', b'l', rest @ ..] => Ok((Tree::Null, rest)),
        [b't', b'r', b'u', b'e', rest @ ..] => Ok((Tree::Bool(true), rest)),
        [b'f', b'a', b'l', b's', b'e', rest @ ..] => Ok((Tree::Bool(false), rest)),
        _ => {
            let (number, rest) = read_natural(text)?;
            Ok((Tree::Num(i128::from(number)), rest))
        }
    }
}

/// The number whose digits stand behind its sign.
#[tactic(auto, using(crate::proofs::PrintedTrees::texts, crate::proofs::PrintedTrees::leaves))]
fn read_negative(text: &[u8]) -> Result<(Tree, &[u8]), Refusal>
    ensures text { IfOk result (λ x. 45 ∷ text.now ≡ printed x.0 ++ x.1.now) }
    ensures leaf { IfOk result (λ x. IsLeaf (out-Tree x.0)) }
{
    let (number, rest) = read_natural(text)?;
    if number == 0 || number > MOST_BELOW_ZERO {
        return Err(Refusal::Unspelled);
    }
    Ok((Tree::Num(-i128::from(number)), rest))
}

/// A number at the front of the text, with no zero before it.
#[tactic(auto, using(crate::proofs::PrintedTrees::numbers))]
fn read_natural(text: &[u8]) -> Result<(u64, &[u8]), Refusal>
    ensures { IfOk result (λ x. text.now ≡ decimal x.0 ++ x.1.now) }
{
    let (first, rest) = first_byte(text)?;
    match first {
        b'0' => Ok((0, rest)),
        b'1'..=b'9' => read_digits(u64::from(first - b'0'), rest),
        _ => Err(Refusal::Unspelled),
    }
}

/// The first byte of the text, and the text after it.
fn first_byte(text: &[u8]) -> Result<(u8, &[u8]), Refusal>
    ensures { IfOk result (λ x. text.now ≡ x.0 ∷ x.1.now) }
{
    match text {
        [first, rest @ ..] => Ok((*first, rest)),
        [] => Err(Refusal::Unspelled),
    }
}

/// The number that begins so, and goes on with the digits at the front of the text.
fn read_digits(first: u64, text: &[u8]) -> Result<(u64, &[u8]), Refusal>
    requires { 0 < first }
    ensures { IfOk result (λ x. decimal first ++ text.now ≡ decimal x.0 ++ x.1.now) }
{
    let mut number = first;
    for (place, byte) in text.iter().enumerate() {
        if !byte.is_ascii_digit() {
            return Ok((number, &text[place..]));
        }
        match with_digit(number, *byte - b'0') {
            Some(longer) => number = longer,
            None => return Err(Refusal::Unspelled),
        }
    }
    Ok((number, &[]))
}

/// The number with a digit behind it, where it fits.
fn with_digit(number: u64, digit: u8) -> Option<u64>
    ensures { IfSome result (λ n. n ≡ number * 10 + digit) }
{
    number.checked_mul(10)?.checked_add(u64::from(digit))
}

/// The text whose string stands behind its opening quote.
fn read_string(alloc: Global, text: &[u8]) -> Result<(Text, &[u8]), Refusal>
    ensures text { IfOk result (λ x. 34 ∷ text.now ≡ quoted x.0 ++ x.1.now) }
    ensures utf8 { IfOk result (λ x. IsUtf8 x.0) }
{
    let (plain, rest) = text.split_at(plain_len(text));
    match rest {
        [b'"', rest @ ..] => Ok((text_of(alloc, plain)?, rest)),
        _ => read_escaped(alloc, text),
    }
}

/// How many bytes at the front of the text stand for themselves in a string.
fn plain_len(text: &[u8]) -> usize
    ensures within { result ≤ length text.now }
    ensures plain { flat_map escaped (take result text.now) ≡ take result text.now }
{
    for (place, byte) in text.iter().enumerate() {
        if !is_plain(*byte) {
            return place;
        }
    }
    text.len()
}

/// Whether a byte stands for itself in a string.
#[tactic(auto, using(crate::proofs::PrintedTrees::escapes))]
fn is_plain(byte: u8) -> bool
    ensures { IsTrue result → escaped byte ≡ byte ∷ [] }
{
    byte >= b' ' && byte != b'"' && byte != b'\\'
}

/// The text of bytes that are UTF-8.
fn text_of(alloc: Global, bytes: &[u8]) -> Result<Text, Refusal>
    ensures same { IfOk result (λ text. text ≡ bytes.now) }
    ensures utf8 { IfOk result IsUtf8 }
{
    match str::from_utf8(bytes) {
        Ok(text) => Ok(Text::from_str(alloc, text)?),
        Err(_) => Err(Refusal::Unspelled),
    }
}

/// The text whose string, with escapes, stands behind its opening quote.
fn read_escaped(alloc: Global, text: &[u8]) -> Result<(Text, &[u8]), Refusal>
    ensures text { IfOk result (λ x. 34 ∷ text.now ≡ quoted x.0 ++ x.1.now) }
    ensures utf8 { IfOk result (λ x. IsUtf8 x.0) }
{
    let mut bytes = List::new(alloc);
    let mut rest = text;
    for _ in 0..text.len() {
        if let [b'"', after @ ..] = rest {
            return Ok((text_of(alloc, bytes.as_slice())?, after));
        }
        let (byte, after) = read_escape(rest)?;
        bytes.push(byte)?;
        rest = after;
    }
    Err(Refusal::Unspelled)
}

/// A byte of a string, which stands for itself or is escaped.
fn read_escape(text: &[u8]) -> Result<(u8, &[u8]), Refusal>
    ensures { IfOk result (λ x. text.now ≡ escaped x.0 ++ x.1.now) }
{
    match text {
        [b'\\', b'u', b'0', b'0', high, low, rest @ ..] => Ok((control(*high, *low)?, rest)),
        [b'\\', letter, rest @ ..] => Ok((escaped_by(*letter)?, rest)),
        [byte, rest @ ..] if is_plain(*byte) => Ok((*byte, rest)),
        _ => Err(Refusal::Unspelled),
    }
}

/// The byte that a backslash and a letter stand for.
#[tactic(auto, unfolding(tf_model::specs::Print::escaped))]
fn escaped_by(letter: u8) -> Result<u8, Refusal>
    ensures { IfOk result (λ byte. escaped byte ≡ 92 ∷ letter ∷ []) }
{
    match letter {
        b'"' => Ok(b'"'),
        b'\\' => Ok(b'\\'),
        b'b' => Ok(8),
        b't' => Ok(b'\t'),
        b'n' => Ok(b'\n'),
        b'f' => Ok(12),
        b'r' => Ok(b'\r'),
        _ => Err(Refusal::Unspelled),
    }
}

/// The byte that is escaped by its two digits of base 16.
#[tactic(auto, using(crate::proofs::PrintedTrees::escapes))]
fn control(high: u8, low: u8) -> Result<u8, Refusal>
    ensures { IfOk result (λ byte. escaped byte ≡ 92 ∷ 117 ∷ 48 ∷ 48 ∷ high ∷ low ∷ []) }
{
    let tens = hex_digit(high)?;
    let ones = hex_digit(low)?;
    let byte = tens * 16 + ones;
    if byte >= b' ' || has_letter(byte) {
        return Err(Refusal::Unspelled);
    }
    Ok(byte)
}

/// Whether a letter behind a backslash stands for the byte.
fn has_letter(byte: u8) -> bool
    ensures { result ≡ nat_lt 0 (escape_letter byte) }
{
    matches!(byte, b'"' | b'\\' | 8 | 9 | 10 | 12 | 13)
}

/// The number that a digit of base 16 stands for.
fn hex_digit(digit: u8) -> Result<u8, Refusal>
    ensures small { IfOk result (λ n. n < 16) }
    ensures digit { IfOk result (λ n. digit_char n ≡ digit) }
{
    match digit {
        b'0'..=b'9' => Ok(digit - b'0'),
        b'a'..=b'f' => Ok(digit - b'a' + 10),
        _ => Err(Refusal::Unspelled),
    }
}
