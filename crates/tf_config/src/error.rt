// Why a configuration is refused.
ghost use Rattle.std.specs.Prelude.{◌≡◌};
ghost use Rattle.tf_config.specs.declared.error.ConfigError.TheVariants as config_error;

use tf_model::{OutOfMemory, Text};

/// Why a configuration is refused. The variants stand in the order in which refusals are told; of several of one kind
/// `what` is the least in bytes.
///
/// A path leads from the configuration's top to a member, its names and places joined by `.`.
#[derive(Debug, Drop)]
pub enum ConfigError {
    /// A member is outside the form of configurations. `what` is its path.
    UnknownSetting { what: Text },
    /// A needed member is absent, or a needed list is empty. `what` is its path.
    Missing { what: Text },
    /// A member has not its JSON form, or a value of the query has not its field's type. `what` is the path, and
    /// `source.query` for all that is in the query.
    WrongKind { what: Text },
    /// Both of `pivot` and `latest` stand, or neither. `what` is `pivot`.
    BothOrNeither { what: Text },
    /// There are more than 8 sources, 4 groups, 16 aggregations or 4 fields of a unique key, or queries nest more than
    /// 16 deep. `what` is `index`, `group_by`, `aggregations`, `unique_key` or `query`.
    TooMany { what: Text },
    /// The name of a source or of the destination, which is `what`, is not well formed.
    BadName { what: Text },
    /// There is no index with the name of a source, which is `what`.
    NoSuchIndex { what: Text },
    /// A name, which is `what`, stands twice among the sources, in the unique key, or among groups and aggregations.
    TwiceName { what: Text },
    /// No source maps a field, some source does not map the sync field, or a pivot's retention field is the name of no
    /// group or aggregation. `what` is the field.
    NoSuchField { what: Text },
    /// Sources map a field, which is `what`, with different types.
    FieldTypes { what: Text },
    /// A field that is to hold dates, which is `what`, does not.
    NotADate { what: Text },
    /// A field that is to hold numbers, or numbers or dates, does not. `what` is the field.
    NotANumber { what: Text },
    /// The interval of a group is out of range. `what` is the group's name.
    BadInterval { what: Text },
    /// A text that is to be a span is none. `what` is `delay`, `max_age` or `frequency`.
    BadSpan { what: Text },
    /// The page size is outside 10 to 65,536. `what` is `max_page_search_size`.
    PageSizeRange { what: Text },
    /// The frequency is outside one second to one hour. `what` is `frequency`.
    FrequencyRange { what: Text },
    /// Want of memory.
    Memory,
}

impl From<OutOfMemory> for ConfigError {
    ghost from_gives = { λ _ error. error ≡ config_error.Memory };

    fn from(_error: OutOfMemory) -> ConfigError {
        ConfigError::Memory
    }
}
