// The rows that folds have, or the least key without a row.
ghost use Rattle.std.specs.Prelude.{◌≡◌, ◌∷◌, ◌++◌, All, IfOk, IfSome, IsSome, List, []};
ghost use Rattle.std.specs.BTreeMap.{get};
ghost use Rattle.tf_fold.specs.Fold.{IsRowOver};
ghost use Rattle.tf_model.specs.declared.config.Config.{Config as C};
ghost use Rattle.tf_model.specs.declared.doc.Doc.{Doc as D};
ghost use Rattle.tf_model.specs.declared.value.Key.{Key as K};
ghost use Rattle.tf_model.specs.Order.{key_cmp};
ghost use Rattle.tf_pivot.specs.Folds.{AreFolds, IsReady};
ghost use Rattle.tf_pivot.specs.Found.{IsAnswer, IsFound, lesser_range};

use crate::error::PivotError;
use std::alloc::Global;
use std::collections::BTreeMap;
use tf_fold::{Acc, FoldError};
use tf_model::{Config, Key, List, OutOfMemory, Row, SumRange, copy_key};

/// The rows of the keys, in the order of the keys, or the first sum outside `i64` of the least key that has one.
pub fn find_rows(
    alloc: Global,
    config: &Config,
    keys: &List<Key>,
    folds: &BTreeMap<Key, Acc, Global>,
) -> Result<List<Row>, PivotError>
    requires present { All (λ k. IsSome (get key_cmp folds.now k)) keys.now }
    requires ready { (k : K) → IfSome (get key_cmp folds.now k) (IsReady config.now) }
    ensures { (all : List K) (docs : List D) → AreFolds config.now all docs folds.now → IsAnswer config.now docs keys.now result }
{
    let mut rows = List::new(alloc);
    let mut range = None;
    for key in keys.as_slice() {
        let made = row_at(alloc, config, key, folds);
        range = take_row(&mut rows, range, made)?;
    }
    match range {
        None => Ok(rows),
        Some(found) => Err(PivotError::SumRange(found)),
    }
}

/// The row of one key, or its first sum outside `i64`.
fn row_at(
    alloc: Global,
    config: &Config,
    key: &Key,
    folds: &BTreeMap<Key, Acc, Global>,
) -> Result<Row, FoldError>
    requires present { IsSome (get key_cmp folds.now key.now) }
    requires ready { (k : K) → IfSome (get key_cmp folds.now k) (IsReady config.now) }
    ensures { (all : List K) (docs : List D) → AreFolds config.now all docs folds.now → IsRowOver config.now key.now docs result }
{
    let fold = &folds[key];
    let copy = copy_key(alloc, key)?;
    fold.row(alloc, config, copy)
}

/// One key more, with its row or the reason why it has none. What is found is the range of the least key so far.
fn take_row(
    rows: &mut List<Row>,
    range: Option<SumRange>,
    made: Result<Row, FoldError>,
) -> Result<Option<SumRange>, OutOfMemory>
    ensures { (c : C) (docs : List D) (ks : List K) (k : K) → IsFound c docs ks rows.old range → IsRowOver c k docs made
        → IfOk result (IsFound c docs (ks ++ k ∷ []) rows.new) }
{
    match made {
        Ok(row) => {
            rows.push(row)?;
            Ok(range)
        }
        Err(FoldError::SumRange(found)) => Ok(Some(lesser(range, found))),
        Err(FoldError::Memory) => Err(OutOfMemory),
    }
}

/// Of two, the one with the lesser key. Takes no memory.
fn lesser(range: Option<SumRange>, found: SumRange) -> SumRange
    ensures { result ≡ lesser_range range found }
{
    match range {
        None => found,
        Some(other) => if found.key < other.key { found } else { other },
    }
}
