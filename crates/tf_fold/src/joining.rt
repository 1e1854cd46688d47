// What an aggregation keeps of one document, and what it keeps of two lists.
ghost use Rattle.std.specs.Prelude.{◌≡◌, ◌+◌, ◌+ℤ◌, ◌≤◌, ◌^◌, Some};
ghost use Rattle.std.specs.Option.{option_copied};
ghost use Rattle.tf_fold.specs.Bounds.{IsPartWithin, IsWithin};
ghost use Rattle.tf_fold.specs.Parts as spec;
ghost use Rattle.tf_model.specs.Conditions.{FitsAgg, IsNoText, IsNumber};
ghost use Rattle.tf_model.specs.Rows.{greater, lesser, number_found, of_both};
ghost use Rattle.tf_model.specs.Values.{value_of};

use crate::part::Part;
use tf_model::{Agg, AggKind, Doc, Value};

/// What an aggregation keeps of one document. Takes no memory.
pub fn part_of(agg: &Agg, doc: &Doc) -> Part
    requires { FitsAgg agg.now.kind (value_of doc.now agg.now.field) }
    ensures value { result ≡ spec.part_found agg.now.kind (value_of doc.now agg.now.field) }
    ensures within { IsPartWithin 1 result }
{
    let found = doc.value(&agg.field);
    match agg.kind {
        AggKind::Sum => Part::Sum(number_of(found)),
        AggKind::Min => Part::Least(copy_found(found)),
        AggKind::Max => Part::Greatest(copy_found(found)),
        AggKind::ValueCount => Part::Count(u64::from(found.is_some())),
    }
}

/// What a value adds to a sum.
fn number_of(found: Option<&Value>) -> i128
    requires { IsNumber (option_copied found) }
    ensures value { result ≡ number_found (option_copied found.entry) }
    ensures within { IsWithin 1 result }
{
    match found {
        Some(Value::Int(n)) => *n,
        _ => 0,
    }
}

/// A copy of a value that is no text, where there is one. Takes no memory.
fn copy_found(found: Option<&Value>) -> Option<Value>
    requires { IsNoText (option_copied found) }
    ensures { result ≡ option_copied found.entry }
{
    match found {
        Some(value) => Some(copy_plain(value)),
        None => None,
    }
}

/// A copy of a value that is no text. Takes no memory.
fn copy_plain(value: &Value) -> Value
    requires { IsNoText (Some value.now) }
    ensures { result ≡ value.now }
{
    match value {
        Value::Bool(truth) => Value::Bool(*truth),
        Value::Int(n) => Value::Int(*n),
        Value::Date(ms) => Value::Date(*ms),
        _ => Value::Null,
    }
}

/// What an aggregation keeps of two lists, of at most `m` and `n` documents. Takes no memory.
pub fn join(part: &Part, m: u64, more: &Part, n: u64) -> Part
    requires part { IsPartWithin m part.now }
    requires more { IsPartWithin n more.now }
    requires few { m + n ≤ 2 ^ 42 }
    ensures value { result ≡ spec.joined part.now more.now }
    ensures within { IsPartWithin (m + n) result }
{
    match (part, more) {
        (Part::Sum(a), Part::Sum(b)) => Part::Sum(sum_of(*a, m, *b, n)),
        (Part::Least(a), Part::Least(b)) => Part::Least(least_of(a.as_ref(), b.as_ref())),
        (Part::Greatest(a), Part::Greatest(b)) => Part::Greatest(greatest_of(
            a.as_ref(),
            b.as_ref(),
        )),
        (Part::Count(a), Part::Count(b)) => Part::Count(a + b),
        _ => Part::Count(0),
    }
}

/// The lesser of two values that are no texts, or the one that is there.
fn least_of(a: Option<&Value>, b: Option<&Value>) -> Option<Value>
    requires a { IsNoText (option_copied a) }
    requires b { IsNoText (option_copied b) }
    ensures value { result ≡ of_both lesser (option_copied a.entry) (option_copied b.entry) }
    ensures plain { IsNoText result }
{
    match (a, b) {
        (Some(v), Some(w)) => Some(copy_plain(if v.cmp(w).is_gt() { w } else { v })),
        (Some(v), None) => Some(copy_plain(v)),
        (None, other) => copy_found(other),
    }
}

/// The greater of two values that are no texts, or the one that is there.
fn greatest_of(a: Option<&Value>, b: Option<&Value>) -> Option<Value>
    requires a { IsNoText (option_copied a) }
    requires b { IsNoText (option_copied b) }
    ensures value { result ≡ of_both greater (option_copied a.entry) (option_copied b.entry) }
    ensures plain { IsNoText result }
{
    match (a, b) {
        (Some(v), Some(w)) => Some(copy_plain(if v.cmp(w).is_gt() { v } else { w })),
        (Some(v), None) => Some(copy_plain(v)),
        (None, other) => copy_found(other),
    }
}

/// The sum of two sums, of at most `m` and `n` numbers: 2^42 numbers of 64 bits and a sign stay within 107 bits.
#[tactic(auto, using(std::proofs::lemmas::Int::ints))]
fn sum_of(a: i128, m: u64, b: i128, n: u64) -> i128
    requires a { IsWithin m a }
    requires b { IsWithin n b }
    requires few { m + n ≤ 2 ^ 42 }
    ensures value { result ≡ a +ℤ b }
    ensures within { IsWithin (m + n) result }
{
    a + b
}
