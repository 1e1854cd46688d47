// Why a line is refused.
ghost use Rattle.std.specs.Prelude.{◌≡◌};
ghost use Rattle.std.specs.Result.{result_ok};
ghost use Rattle.tf_reply.specs.Refusals as spec;

use tf_command::LineError;
use tf_config::ConfigError;
use tf_mapping::{DocError, MappingError};
use tf_model::{OutOfMemory, State, SumRange, Text};

/// Why a line is refused, in the order in which the tests are made.
#[derive(Drop)]
pub enum Refusal {
    /// The line has more than 1,048,576 bytes.
    LineTooLong { bytes: u64 },
    /// The line is no JSON text, or no object.
    BadJson,
    /// A number is neither an `i64` nor a `u64`.
    Fraction { path: Text },
    /// The member `op` is absent, no text, or no name of an op.
    UnknownOp,
    /// A member that the op must have is absent.
    MissingField { field: Text },
    /// A member has not its form, or is not one of the op's.
    BadValue { field: Text },
    /// The op is none of those that a script with lanes may have.
    NotHere,
    /// A name is not well formed, or names a destination where an index is asked for, or the other way round.
    BadName { name: Text },
    /// The index does not exist.
    NoSuchIndex { name: Text },
    /// The array `after` is no key of the destination's rows.
    BadAfter,
    /// The transform does not exist.
    NoSuchTransform { id: Text },
    /// The id is in use.
    TransformExists { id: Text },
    /// The mapping is refused. `what` is the part at fault.
    Mapping { fault: MappingFault, what: Text },
    /// The configuration is refused. `what` is the part at fault.
    Config { fault: ConfigFault, what: Text },
    /// A row that a preview would show has a sum outside `i64`.
    SumRange { sum: SumRange },
    /// The name of an index or destination is in use.
    IndexExists { name: Text },
    /// The document is refused. `field` is its first field at fault.
    Document { fault: DocFault, field: Text },
    /// The id is in the index. `seq` and `shard` are the place of the document that is kept.
    VersionConflict { id: Text, seq: u64, shard: u32 },
    /// A transform is reset or deleted that is neither stopped nor failed.
    NotStopped { id: Text, state: State },
    /// A transform is started that runs.
    AlreadyStarted { id: Text, state: State },
    /// A transform is stopped or scheduled that is stopped.
    NotStarted { id: Text, state: State },
    /// A batch transform is started whose checkpoint is finished.
    AlreadyFinished { id: Text, state: State },
    /// A failed transform is started or scheduled, or stopped without force.
    IsFailed { id: Text, state: State },
    /// There would be more of these than the program takes.
    Limit { what: Limit },
    /// The line has a form that this program does not take yet.
    UnsupportedYet,
}

/// What is at fault in a mapping.
#[derive(Clone, Copy, PartialEq, Eq, Debug)]
pub enum MappingFault {
    /// A member is outside the form of mappings, or a needed one is absent.
    UnknownSetting,
    /// A field's path is not well formed.
    BadFieldName,
    /// A field has a type that is none of the four.
    UnknownType,
    /// Two fields have one path.
    TwicePath,
    /// There are more than 64 fields.
    TooManyFields,
    /// The stamp is no date of the mapping.
    BadStamp,
}

/// What is at fault in a configuration.
#[derive(Clone, Copy, PartialEq, Eq, Debug)]
pub enum ConfigFault {
    /// A member is outside the form of configurations.
    UnknownSetting,
    /// A member that has no default is absent, or empty.
    Missing,
    /// A member has not its form, or a value of the query has not its field's type.
    WrongKind,
    /// Both or neither of `pivot` and `latest` are there.
    BothOrNeither,
    /// There are more sources, groups, aggregations, fields of the unique key or levels of the query than are taken.
    TooMany,
    /// The name of a source or destination is not well formed.
    BadName,
    /// A source does not exist.
    NoSuchIndex,
    /// A name stands twice.
    TwiceName,
    /// A field is mapped by no source, or the sync field not by each.
    NoSuchField,
    /// The sources map a field with different types.
    FieldTypes,
    /// The field must be a date.
    NotADate,
    /// The field must be a number.
    NotANumber,
    /// The interval of a group is no span, or out of range.
    BadInterval,
    /// Another span is none.
    BadSpan,
    /// The page size is out of range.
    PageSizeRange,
    /// The frequency is out of range.
    FrequencyRange,
}

/// What is at fault in a document.
#[derive(Clone, Copy, PartialEq, Eq, Debug)]
pub enum DocFault {
    /// The field has two or more values.
    ManyValues,
    /// The value has not the form of the field's type.
    WrongType,
    /// The text is no date.
    NotADate,
    /// The date is outside the years 0 to 9999.
    OutOfRange,
    /// The field is the stamp, which the document may not set.
    Stamped,
}

/// What the program takes only so many of.
#[derive(Clone, Copy, PartialEq, Eq, Debug)]
pub enum Limit {
    Indices,
    Shards,
    Transforms,
    Documents,
}

/// The refusal of a line that is no command. Want of memory is handed on. Takes no memory.
pub fn line_refusal(error: LineError) -> Result<Refusal, OutOfMemory>
    ensures { result_ok result ≡ spec.line_refusal error }
{
    match error {
        LineError::LineTooLong { bytes } => Ok(Refusal::LineTooLong { bytes }),
        LineError::BadJson => Ok(Refusal::BadJson),
        LineError::Fraction { path } => Ok(Refusal::Fraction { path }),
        LineError::UnknownOp => Ok(Refusal::UnknownOp),
        LineError::MissingField { field } => Ok(Refusal::MissingField { field }),
        LineError::BadValue { field } => Ok(Refusal::BadValue { field }),
        LineError::Memory => Err(OutOfMemory),
    }
}

/// The refusal of a tree that is no mapping. Want of memory is handed on. Takes no memory.
pub fn mapping_refusal(error: MappingError) -> Result<Refusal, OutOfMemory>
    ensures { result_ok result ≡ spec.mapping_refusal error }
{
    let (fault, what) = match error {
        MappingError::UnknownSetting { what } => (MappingFault::UnknownSetting, what),
        MappingError::BadFieldName { what } => (MappingFault::BadFieldName, what),
        MappingError::UnknownType { what } => (MappingFault::UnknownType, what),
        MappingError::TwicePath { what } => (MappingFault::TwicePath, what),
        MappingError::TooManyFields { what } => (MappingFault::TooManyFields, what),
        MappingError::BadStamp { what } => (MappingFault::BadStamp, what),
        MappingError::Memory => return Err(OutOfMemory),
    };
    Ok(Refusal::Mapping { fault, what })
}

/// The refusal of a configuration. Want of memory is handed on. Takes no memory.
pub fn config_refusal(error: ConfigError) -> Result<Refusal, OutOfMemory>
    ensures { result_ok result ≡ spec.config_refusal error }
{
    let (fault, what) = match error {
        ConfigError::UnknownSetting { what } => (ConfigFault::UnknownSetting, what),
        ConfigError::Missing { what } => (ConfigFault::Missing, what),
        ConfigError::WrongKind { what } => (ConfigFault::WrongKind, what),
        ConfigError::BothOrNeither { what } => (ConfigFault::BothOrNeither, what),
        ConfigError::TooMany { what } => (ConfigFault::TooMany, what),
        ConfigError::BadName { what } => (ConfigFault::BadName, what),
        ConfigError::NoSuchIndex { what } => (ConfigFault::NoSuchIndex, what),
        ConfigError::TwiceName { what } => (ConfigFault::TwiceName, what),
        ConfigError::NoSuchField { what } => (ConfigFault::NoSuchField, what),
        ConfigError::FieldTypes { what } => (ConfigFault::FieldTypes, what),
        ConfigError::NotADate { what } => (ConfigFault::NotADate, what),
        ConfigError::NotANumber { what } => (ConfigFault::NotANumber, what),
        ConfigError::BadInterval { what } => (ConfigFault::BadInterval, what),
        ConfigError::BadSpan { what } => (ConfigFault::BadSpan, what),
        ConfigError::PageSizeRange { what } => (ConfigFault::PageSizeRange, what),
        ConfigError::FrequencyRange { what } => (ConfigFault::FrequencyRange, what),
        ConfigError::Memory => return Err(OutOfMemory),
    };
    Ok(Refusal::Config { fault, what })
}

/// The refusal of a document that its mapping does not read. Want of memory is handed on. Takes no memory.
pub fn doc_refusal(error: DocError) -> Result<Refusal, OutOfMemory>
    ensures { result_ok result ≡ spec.doc_refusal error }
{
    let (fault, field) = match error {
        DocError::ManyValues { field } => (DocFault::ManyValues, field),
        DocError::WrongType { field } => (DocFault::WrongType, field),
        DocError::NotADate { field } => (DocFault::NotADate, field),
        DocError::OutOfRange { field } => (DocFault::OutOfRange, field),
        DocError::Stamped { field } => (DocFault::Stamped, field),
        DocError::Memory => return Err(OutOfMemory),
    };
    Ok(Refusal::Document { fault, field })
}
