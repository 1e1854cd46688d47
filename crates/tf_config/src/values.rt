// The values of a configuration's members.
ghost use Rattle.std.specs.Prelude.{◌≡◌, ◌≤◌, IfOk, [], ◌∷◌, pos, unwrap_or};
ghost use Rattle.std.specs.List.{filter_map};
ghost use Rattle.std.specs.Option.{option_and_then, option_copied};
ghost use Rattle.tf_model.specs.Trees.{text_in, number_in};
ghost use Rattle.tf_time.specs.Spans.{span};
ghost use Rattle.tf_config.specs.Drafts as spec;

use std::alloc::Global;
use tf_model::{List, OutOfMemory, Text, Tree};
use tf_time::read_span;

const LARGEST_INTERVAL: u64 = 9_223_372_036_854_775_807;

const LARGEST_PAGE: u64 = 65_536;

const DEFAULT_PAGE: u32 = 500;

/// The member with a name of a tree that may be absent.
pub(crate) fn beside<'a>(name: &str, tree: Option<&'a Tree>) -> Option<&'a Tree>
    ensures { option_copied result ≡ spec.beside name.now (option_copied tree.entry) }
{
    tree?.get(name)
}

/// A text, empty where there is none.
pub(crate) fn text_or_none(alloc: Global, tree: Option<&Tree>) -> Result<Text, OutOfMemory>
    ensures { IfOk result (λ text. text ≡ spec.text_or_none (option_copied tree.entry)) }
{
    match text_of(tree) {
        None => Ok(Text::new(alloc)),
        Some(text) => text.copy(alloc),
    }
}

fn text_of<'a>(tree: Option<&'a Tree>) -> Option<&'a Text>
    ensures { option_copied result ≡ option_and_then text_in (option_copied tree.entry) }
{
    tree?.as_text()
}

/// A truth value, or another one where there is none.
pub(crate) fn truth_or(other: bool, tree: Option<&Tree>) -> bool
    ensures { result ≡ spec.truth_or other (option_copied tree.entry) }
{
    match tree {
        None => other,
        Some(tree) => tree.as_bool().unwrap_or(other),
    }
}

/// The texts of an array, none where there is no array.
pub(crate) fn texts_or_none(alloc: Global, tree: Option<&Tree>) -> Result<List<Text>, OutOfMemory>
    ensures { IfOk result (λ texts. texts ≡ spec.texts_or_none (option_copied tree.entry)) }
{
    match tree {
        None => Ok(List::new(alloc)),
        Some(tree) => texts_in(alloc, tree),
    }
}

fn texts_in(alloc: Global, tree: &Tree) -> Result<List<Text>, OutOfMemory>
    ensures { IfOk result (λ texts. texts ≡ spec.texts_in tree.now) }
{
    match tree.as_array() {
        None => Ok(List::new(alloc)),
        Some(items) => texts_among(alloc, items.as_slice()),
    }
}

fn texts_among(alloc: Global, items: &[Tree]) -> Result<List<Text>, OutOfMemory>
    ensures { IfOk result (λ texts. texts ≡ filter_map text_in items.now) }
{
    let mut texts = List::new(alloc);
    for item in items {
        if let Some(text) = item.as_text() {
            texts.push(text.copy(alloc)?)?;
        }
    }
    Ok(texts)
}

/// A text alone or the texts of an array, none where there is neither.
pub(crate) fn names_or_none(alloc: Global, tree: Option<&Tree>) -> Result<List<Text>, OutOfMemory>
    ensures { IfOk result (λ names. names ≡ spec.names_or_none (option_copied tree.entry)) }
{
    match tree {
        None => Ok(List::new(alloc)),
        Some(tree) => names_in(alloc, tree),
    }
}

fn names_in(alloc: Global, tree: &Tree) -> Result<List<Text>, OutOfMemory>
    ensures { IfOk result (λ names. names ≡ spec.names_by (text_in tree.now) tree.now) }
{
    match tree.as_text() {
        None => texts_in(alloc, tree),
        Some(name) => alone(alloc, name),
    }
}

fn alone(alloc: Global, name: &Text) -> Result<List<Text>, OutOfMemory>
    ensures { IfOk result (λ names. names ≡ name.now ∷ []) }
{
    let mut names = List::new(alloc);
    names.push(name.copy(alloc)?)?;
    Ok(names)
}

/// The milliseconds of a span, another number where it is absent, and -1 where it is none.
pub(crate) fn span_or(other: i64, tree: Option<&Tree>) -> i64
    ensures { result ≡ spec.span_or other (option_copied tree.entry) }
{
    match tree {
        None => other,
        Some(tree) => span_in(tree).unwrap_or(-1),
    }
}

fn span_in(tree: &Tree) -> Option<i64>
    ensures { result ≡ option_and_then span (text_in tree.now) }
{
    read_span(tree.as_text()?.as_str()).ok()
}

/// The milliseconds of a fixed interval, 0 where it is none.
pub(crate) fn fixed_interval(tree: Option<&Tree>) -> i64
    ensures { result ≡ spec.fixed_interval (option_copied tree.entry) }
{
    match text_of(tree) {
        None => 0,
        Some(text) => read_span(text.as_str()).unwrap_or(0),
    }
}

/// The interval of a histogram, 0 where it is none.
pub(crate) fn interval(tree: Option<&Tree>) -> u64
    ensures { result ≡ spec.interval (option_copied tree.entry) }
{
    number_up_to(LARGEST_INTERVAL, number_of(tree))
}

fn number_of(tree: Option<&Tree>) -> i128
    ensures { result ≡ unwrap_or (option_and_then number_in (option_copied tree.entry)) (pos 0) }
{
    match tree {
        None => 0,
        Some(tree) => tree.as_number().unwrap_or(0),
    }
}

fn number_up_to(greatest: u64, number: i128) -> u64
    ensures value { result ≡ spec.number_up_to greatest number }
    ensures bound { result ≤ greatest }
{
    if 0 <= number && number <= i128::from(greatest) {
        number as u64
    } else {
        0
    }
}

/// The page size, 500 where it is absent, and 0 where it is too large or below 0.
pub(crate) fn page_size_or(tree: Option<&Tree>) -> u32
    ensures { result ≡ spec.page_size_or (option_copied tree.entry) }
{
    match tree {
        None => DEFAULT_PAGE,
        Some(tree) => number_up_to(LARGEST_PAGE, tree.as_number().unwrap_or(0)) as u32,
    }
}
