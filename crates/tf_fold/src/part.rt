// What one aggregation keeps.
use tf_model::Value;

/// What one aggregation keeps of the values that it found. A missing value adds nothing to it.
#[derive(Drop)]
pub enum Part {
    /// The sum of the numbers, exact.
    Sum(i128),
    /// The least value, `None` of none.
    Least(Option<Value>),
    /// The greatest value, `None` of none.
    Greatest(Option<Value>),
    /// How many values there were.
    Count(u64),
}
