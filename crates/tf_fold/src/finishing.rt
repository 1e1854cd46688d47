// The row that is made of the parts.
ghost use Rattle.std.specs.Prelude.{◌≡◌, ℤ, IsTrue, IfOk, Some, None, length, if◌then◌else◌};
ghost use Rattle.tf_fold.specs.Finished.{IsRowOf};
ghost use Rattle.tf_fold.specs.Finished as spec;
ghost use Rattle.tf_model.specs.Rows.{fits_i64, sum_range_at};

use crate::error::FoldError;
use crate::part::Part;
use std::alloc::Global;
use tf_model::{Agg, Key, List, OutOfMemory, Row, SumRange, TryCopy, Value};

/// The row of these parts, or the first sum that is outside `i64`.
pub fn row_of(alloc: Global, aggs: &[Agg], parts: &[Part], key: Key) -> Result<Row, FoldError>
    requires { length parts.now ≡ length aggs.now }
    ensures { IsRowOf aggs.now parts.now key result }
{
    let mut values = List::new(alloc);
    for at in 0..parts.len() {
        let part = &parts[at];
        let agg = &aggs[at];
        match wide_part(part) {
            Some(sum) => return Err(FoldError::SumRange(sum_range(alloc, agg, key, sum)?)),
            None => values.push(finished(alloc, part)?)?,
        }
    }
    Ok(Row::Pivot { key, values })
}

/// The refusal of a sum that is outside `i64`.
fn sum_range(alloc: Global, agg: &Agg, key: Key, sum: i128) -> Result<SumRange, OutOfMemory>
    ensures { IfOk result (λ found. found ≡ sum_range_at key agg.now sum) }
{
    Ok(SumRange {
        key,
        name: agg.name.copy(alloc)?,
        value: sum,
    })
}

/// The sum of a part, where it is outside `i64`.
fn wide_part(part: &Part) -> Option<i128>
    ensures { result ≡ spec.wide_part part.now }
{
    match part {
        Part::Sum(sum) => if is_i64(*sum) { None } else { Some(*sum) },
        _ => None,
    }
}

fn is_i64(sum: i128) -> bool
    ensures { result ≡ fits_i64 sum }
{
    i128::from(i64::MIN) <= sum && sum <= i128::from(i64::MAX)
}

/// The value of a part in a row. The part is no sum outside `i64`.
fn finished(alloc: Global, part: &Part) -> Result<Value, OutOfMemory>
    requires { spec.wide_part part.now ≡ None }
    ensures { IfOk result (λ value. Some value ≡ spec.finished part.now) }
{
    match part {
        Part::Sum(sum) => Ok(Value::Int(*sum)),
        Part::Least(found) | Part::Greatest(found) => value_or_null(alloc, found),
        Part::Count(count) => Ok(Value::Int(i128::from(*count))),
    }
}

fn value_or_null(alloc: Global, found: &Option<Value>) -> Result<Value, OutOfMemory>
    ensures { IfOk result (λ value. value ≡ spec.value_or_null found.now) }
{
    match found {
        Some(value) => value.try_copy(alloc),
        None => Ok(Value::Null),
    }
}
