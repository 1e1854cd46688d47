// The names of states and of refusals.
ghost use Rattle.std.specs.Prelude.{◌≡◌};
ghost use Rattle.tf_reply.specs.Naming as spec;

use crate::faults::{ConfigFault, DocFault, Limit, MappingFault, Refusal};
use tf_model::State;

pub(crate) fn state_name(state: State) -> &'static str
    ensures { result.now ≡ spec.state_name state }
{
    match state {
        State::Stopped => "stopped",
        State::Started => "started",
        State::Indexing => "indexing",
        State::Stopping => "stopping",
        State::Failed => "failed",
    }
}

pub(crate) fn limit_name(limit: Limit) -> &'static str
    ensures { result.now ≡ spec.limit_name limit }
{
    match limit {
        Limit::Indices => "indices",
        Limit::Shards => "shards",
        Limit::Transforms => "transforms",
        Limit::Documents => "documents",
    }
}

pub(crate) fn error_name(refusal: &Refusal) -> &'static str
    ensures { result.now ≡ spec.error_name refusal.now }
{
    match refusal {
        Refusal::LineTooLong { .. } => "line_too_long",
        Refusal::BadJson => "bad_json",
        Refusal::Fraction { .. } => "fraction",
        Refusal::UnknownOp => "unknown_op",
        Refusal::MissingField { .. } => "missing_field",
        Refusal::BadValue { .. } => "bad_value",
        Refusal::NotHere => "not_here",
        Refusal::BadName { .. } => "bad_name",
        Refusal::NoSuchIndex { .. } => "no_such_index",
        Refusal::BadAfter => "bad_after",
        Refusal::NoSuchTransform { .. } => "no_such_transform",
        Refusal::TransformExists { .. } => "transform_exists",
        Refusal::Mapping { fault, .. } => mapping_name(*fault),
        Refusal::Config { fault, .. } => config_name(*fault),
        Refusal::SumRange { .. } => "sum_range",
        Refusal::IndexExists { .. } => "index_exists",
        Refusal::Document { fault, .. } => doc_name(*fault),
        Refusal::VersionConflict { .. } => "version_conflict",
        Refusal::NotStopped { .. } => "not_stopped",
        Refusal::AlreadyStarted { .. } => "already_started",
        Refusal::NotStarted { .. } => "not_started",
        Refusal::AlreadyFinished { .. } => "already_finished",
        Refusal::IsFailed { .. } => "is_failed",
        Refusal::Limit { .. } => "limit",
        Refusal::UnsupportedYet => "unsupported_yet",
    }
}

fn mapping_name(fault: MappingFault) -> &'static str
    ensures { result.now ≡ spec.mapping_name fault }
{
    match fault {
        MappingFault::UnknownSetting => "mapping_unknown_setting",
        MappingFault::BadFieldName => "mapping_bad_field_name",
        MappingFault::UnknownType => "mapping_unknown_type",
        MappingFault::TwicePath => "mapping_twice_path",
        MappingFault::TooManyFields => "mapping_too_many_fields",
        MappingFault::BadStamp => "mapping_bad_stamp",
    }
}

fn config_name(fault: ConfigFault) -> &'static str
    ensures { result.now ≡ spec.config_name fault }
{
    match fault {
        ConfigFault::UnknownSetting => "config_unknown_setting",
        ConfigFault::Missing => "config_missing",
        ConfigFault::WrongKind => "config_wrong_kind",
        ConfigFault::BothOrNeither => "config_both_or_neither",
        ConfigFault::TooMany => "config_too_many",
        ConfigFault::BadName => "config_bad_name",
        ConfigFault::NoSuchIndex => "config_no_such_index",
        ConfigFault::TwiceName => "config_twice_name",
        ConfigFault::NoSuchField => "config_no_such_field",
        ConfigFault::FieldTypes => "config_field_types",
        ConfigFault::NotADate => "config_not_a_date",
        ConfigFault::NotANumber => "config_not_a_number",
        ConfigFault::BadInterval => "config_bad_interval",
        ConfigFault::BadSpan => "config_bad_span",
        ConfigFault::PageSizeRange => "config_page_size_range",
        ConfigFault::FrequencyRange => "config_frequency_range",
    }
}

fn doc_name(fault: DocFault) -> &'static str
    ensures { result.now ≡ spec.doc_name fault }
{
    match fault {
        DocFault::ManyValues => "doc_many_values",
        DocFault::WrongType => "doc_wrong_type",
        DocFault::NotADate => "doc_not_a_date",
        DocFault::OutOfRange => "doc_out_of_range",
        DocFault::Stamped => "doc_stamped",
    }
}
