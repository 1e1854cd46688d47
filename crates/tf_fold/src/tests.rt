// Folds over small lists, merged.
ghost use Rattle.std.specs.Prelude.{◌≡◌, ◌≤◌, ◌<◌, ◌+◌, ◌^◌, IfOk, OnOk, Some as Found, None as Nothing, List as L, [], ◌∷◌, ℕ, length, codes};
ghost use Rattle.tf_model.specs.Conditions.{IsNoText, IsNumber};
ghost use Rattle.tf_model.specs.declared.value.Value.TheVariants as value;
ghost use Rattle.tf_model.specs.Keys.{groups_of};
ghost use Rattle.tf_model.specs.Rows.{aggs_of};
ghost use Rattle.tf_model.specs.Paired.{paired};
ghost use Rattle.tf_model.specs.Values.{value_at, value_of};
ghost use Rattle.tf_model.specs.declared.query.FieldType.TheVariants as kind;

use super::*;
use std::alloc::Global;
use std::sync::Arc;
use std::test::Fail;
use tf_model::{
    Agg, AggKind, Config, Doc, FieldType, Key, List, Mapping, OutOfMemory, Query, Row, Shape,
    Source, Text, Tree, Value, Values,
};

fn agg(alloc: Global, name: &str, kind: AggKind) -> Result<Agg, OutOfMemory> {
    Ok(Agg {
        name: Text::from_str(alloc, name)?,
        field: Text::from_str(alloc, "n")?,
        kind,
    })
}

// Five aggregations of the field `n`, with no groups: every document has the key of no parts.
fn config(alloc: Global) -> Result<Config, OutOfMemory>
    ensures { IfOk result (λ config. (groups_of config.shape ≡ []) × (config.sync ≡ Nothing)) }
{
    let mut aggs = List::new(alloc);
    aggs.push(agg(alloc, "count", AggKind::ValueCount)?)?;
    aggs.push(agg(alloc, "greatest", AggKind::Max)?)?;
    aggs.push(agg(alloc, "least", AggKind::Min)?)?;
    aggs.push(agg(alloc, "sum", AggKind::Sum)?)?;
    aggs.push(agg(alloc, "total", AggKind::Sum)?)?;
    Ok(Config {
        sources: List::new(alloc),
        query: Query::MatchAll,
        dest: Text::new(alloc),
        shape: Shape::Pivot {
            groups: List::new(alloc),
            aggs,
        },
        sync: None,
        retention: None,
        frequency_ms: 60_000,
        page_size: 500,
        align: true,
        epoch_millis: false,
        description: Text::new(alloc),
    })
}

fn values(alloc: Global, number: Option<i64>) -> Result<Values, OutOfMemory>
    ensures { IfOk result (λ values. (path : L ℕ) → IsNumber (value_at values path) × IsNoText (value_at values path)) }
{
    match number {
        None => placed(alloc, List::new(alloc)),
        Some(number) => one_value(alloc, i128::from(number)),
    }
}

fn one_value(alloc: Global, number: i128) -> Result<Values, OutOfMemory>
    requires { IsNumber (Found (value.Int number)) }
    ensures { IfOk result (λ values. (path : L ℕ) → IsNumber (value_at values path) × IsNoText (value_at values path)) }
{
    let mut values = List::new(alloc);
    values.push(Value::Int(number))?;
    placed(alloc, values)
}

// Values of a mapping whose one field is `n`.
fn placed(alloc: Global, values: List<Value>) -> Result<Values, OutOfMemory>
    ensures { IfOk result (λ placed. placed ≡ paired ((codes "n", kind.Long) ∷ []) values) }
{
    let mut fields = List::new(alloc);
    fields.push((Text::from_str(alloc, "n")?, FieldType::Long))?;
    Ok(Values::new(Arc::new(alloc, Mapping { fields })?, values))
}

// A document whose field `n` has this number, or is missing.
#[tactic(auto, unfolding(tf_model::specs::Values::value_of))]
fn document(alloc: Global, number: Option<i64>) -> Result<Doc, OutOfMemory>
    ensures { IfOk result (λ doc. (path : L ℕ) → IsNumber (value_of doc path) × IsNoText (value_of doc path)) }
{
    let values = values(alloc, number)?;
    Ok(Doc {
        index: 0,
        shard: 0,
        seq: 0,
        id: Text::new(alloc),
        tree: Source::of(alloc, &Tree::Null)?,
        values,
    })
}

fn add_number(
    alloc: Global,
    config: &Config,
    acc: &mut Acc,
    number: Option<i64>,
) -> Result<(), OutOfMemory>
    requires groups { groups_of config.now.shape ≡ [] }
    requires sync { config.now.sync ≡ Nothing }
    requires same { length acc.old.parts ≡ length (aggs_of config.now.shape) }
    requires few { acc.old.weight < 2 ^ 42 }
    ensures same { OnOk result (length acc.new.parts ≡ length acc.old.parts) }
    ensures weight { OnOk result (acc.new.weight ≡ acc.old.weight + 1) }
{
    let doc = document(alloc, number)?;
    acc.add(config, &doc);
    Ok(())
}

fn fold(alloc: Global, config: &Config, numbers: &[Option<i64>]) -> Result<Acc, OutOfMemory>
    requires groups { groups_of config.now.shape ≡ [] }
    requires sync { config.now.sync ≡ Nothing }
    requires few { length numbers.now ≤ 8 }
    ensures same { IfOk result (λ acc. length acc.parts ≡ length (aggs_of config.now.shape)) }
    ensures few { IfOk result (λ acc. acc.weight ≤ 8) }
{
    let mut acc = start(alloc, config)?;
    for number in numbers {
        add_number(alloc, config, &mut acc, *number)?;
    }
    Ok(acc)
}

// The row of two lists, folded apart and merged.
fn merged(
    alloc: Global,
    config: &Config,
    first: &[Option<i64>],
    second: &[Option<i64>],
) -> Result<Row, FoldError>
    requires groups { groups_of config.now.shape ≡ [] }
    requires sync { config.now.sync ≡ Nothing }
    requires first { length first.now ≤ 8 }
    requires second { length second.now ≤ 8 }
{
    let mut acc = fold(alloc, config, first)?;
    let more = fold(alloc, config, second)?;
    acc.merge(&more);
    let key = Key {
        parts: List::new(alloc),
    };
    acc.row(alloc, config, key)
}

// A missing value is `None`.
fn is_value(value: &Value, want: Option<i128>) -> bool {
    match (value, want) {
        (Value::Int(number), Some(want)) => *number == want,
        (Value::Null, None) => true,
        _ => false,
    }
}

// Whether a row has these values, or the refusal is of the aggregation `sum` and this number.
fn is_wanted(made: &Result<Row, FoldError>, want: &Result<[Option<i128>; 5], i128>) -> bool {
    match (made, want) {
        (Ok(Row::Pivot { values, .. }), Ok(want)) => values.len() == 5
            && values
                .as_slice()
                .iter()
                .zip(want.iter())
                .all(|(value, want)| is_value(value, *want)),
        (Err(FoldError::SumRange(found)), Err(want)) => found.name.as_str() == "sum"
            && found.value == *want,
        _ => false,
    }
}

#[test]
fn merged_folds_give_the_row_of_both_lists(rt: HostRuntime) -> Result<(), Fail> {
    let alloc = rt.alloc();
    let config = config(alloc)?;
    let most = 9_223_372_036_854_775_807;
    let least = -9_223_372_036_854_775_808;
    // (the numbers of one list, those of another, their row or the first sum outside i64)
    let rows: [(
        [Option<i64>; 3],
        [Option<i64>; 2],
        Result<[Option<i128>; 5], i128>,
    ); 7] = [
        (
            [None; 3],
            [None; 2],
            Ok([Some(0), None, None, Some(0), Some(0)]),
        ),
        (
            [Some(3), None, Some(-5)],
            [Some(-9), None],
            Ok([Some(3), Some(3), Some(-9), Some(-11), Some(-11)]),
        ),
        (
            [None; 3],
            [None, Some(most)],
            Ok([
                Some(1),
                Some(9_223_372_036_854_775_807),
                Some(9_223_372_036_854_775_807),
                Some(9_223_372_036_854_775_807),
                Some(9_223_372_036_854_775_807),
            ]),
        ),
        (
            [Some(most), Some(1), None],
            [Some(-1), None],
            Ok([
                Some(3),
                Some(9_223_372_036_854_775_807),
                Some(-1),
                Some(9_223_372_036_854_775_807),
                Some(9_223_372_036_854_775_807),
            ]),
        ),
        (
            [Some(most), Some(1), None],
            [Some(1), None],
            Err(9_223_372_036_854_775_809),
        ),
        (
            [Some(least), None, None],
            [None; 2],
            Ok([
                Some(1),
                Some(-9_223_372_036_854_775_808),
                Some(-9_223_372_036_854_775_808),
                Some(-9_223_372_036_854_775_808),
                Some(-9_223_372_036_854_775_808),
            ]),
        ),
        (
            [Some(least), None, None],
            [Some(-1), None],
            Err(-9_223_372_036_854_775_809),
        ),
    ];
    for (first, second, want) in rows {
        let made = merged(alloc, &config, &first, &second);
        assert!(rt; is_wanted(&made, &want), "{first:?} {second:?}");
    }
    Ok(())
}
