// Why a mapping or a document is refused.
ghost use Rattle.std.specs.Prelude.{◌≡◌};
ghost use Rattle.tf_mapping.specs.declared.error.MappingError.TheVariants as mapping_error;
ghost use Rattle.tf_mapping.specs.declared.error.DocError.TheVariants as doc_error;

use tf_model::{OutOfMemory, Text};

/// Why a tree is refused as a mapping. Of several at fault in one way `what` is the least in bytes.
#[derive(Debug, Drop)]
pub enum MappingError {
    /// A member is outside the form of mappings, or a needed one is absent. `what` is the path inside the mapping.
    UnknownSetting { what: Text },
    /// A field's path is not well formed. `what` is the path.
    BadFieldName { what: Text },
    /// A field has a type that is none of the four. `what` is the field's path.
    UnknownType { what: Text },
    /// Two fields have one path, which is `what`.
    TwicePath { what: Text },
    /// There are more than 64 fields. `what` is their number.
    TooManyFields { what: Text },
    /// The stamp, which is `what`, is no date of the mapping.
    BadStamp { what: Text },
    /// Want of memory.
    Memory,
}

impl From<OutOfMemory> for MappingError {
    ghost from_gives = { λ _ error. error ≡ mapping_error.Memory };

    fn from(_error: OutOfMemory) -> MappingError {
        MappingError::Memory
    }
}

/// Why a document is refused: what is at fault in its first field at fault.
#[derive(Debug, Drop)]
pub enum DocError {
    /// The field has two or more values.
    ManyValues { field: Text },
    /// The value has not the JSON form of the field's type, or a long is outside `i64`.
    WrongType { field: Text },
    /// The text is no date.
    NotADate { field: Text },
    /// The date is outside the years 0 to 9999.
    OutOfRange { field: Text },
    /// The field is the stamp, which the document may not set.
    Stamped { field: Text },
    /// Want of memory.
    Memory,
}

impl From<OutOfMemory> for DocError {
    ghost from_gives = { λ _ error. error ≡ doc_error.Memory };

    fn from(_error: OutOfMemory) -> DocError {
        DocError::Memory
    }
}
