// Why a tree is no query.
ghost use Rattle.std.specs.Prelude.{◌≡◌};
ghost use Rattle.tf_query.specs.declared.error.QueryError.TheVariants.{Memory};

use tf_model::{OutOfMemory, Text};

/// Why a tree is refused as a query. `what` says where.
#[derive(Debug, Drop)]
pub enum QueryError {
    /// A member is outside the forms of queries. `what` is its path, which begins with `source.query`; of several the
    /// least in bytes.
    Unknown { what: Text },
    /// A member is missing or has not its JSON form, or a value has not its field's type. `what` is `source.query`.
    WrongKind { what: Text },
    /// Queries nest more than 16 deep. `what` is `query`.
    TooDeep { what: Text },
    /// A field is not mapped. `what` is the field; of several the least in bytes.
    NoSuchField { what: Text },
    /// Want of memory.
    Memory,
}

impl From<OutOfMemory> for QueryError {
    ghost from_gives = { λ _ error. error ≡ Memory };

    fn from(_error: OutOfMemory) -> QueryError {
        QueryError::Memory
    }
}
