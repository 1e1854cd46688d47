// The laws of configurations that pass, and of trees whose form has no fault.
ghost use Rattle.tf_config.specs.Laws.{FieldsAreTyped, FormSuffices, PassingFits, PassingHasPivotTypes, PassingHasTypes, PassingIsInRange};

/// The fields of sources ascend by name, and each has the type that the first source with it gives.
pub fn fields_are_typed()
    ensures { FieldsAreTyped }
{}

/// The numbers of a configuration that passes are in their ranges.
pub fn passing_is_in_range()
    ensures { PassingIsInRange }
{}

/// Each document of a source fits a configuration that passes.
pub fn passing_fits()
    ensures { PassingFits }
{}

/// The field of each group and of each aggregation of a configuration that passes has one type over the sources, one
/// that the group or the aggregation takes.
pub fn passing_has_pivot_types()
    ensures { PassingHasPivotTypes }
{}

/// In each document of a source the value of a field that a passing configuration names has the type that `fields`
/// gives it.
pub fn passing_has_types()
    ensures { PassingHasTypes }
{}

/// A tree whose form has no fault stands for a configuration without an empty list, and with a query whose values have the
/// types of their fields: what is told of these is told by the form alone.
pub fn form_suffices()
    ensures { FormSuffices }
{}
