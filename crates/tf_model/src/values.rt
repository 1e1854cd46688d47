// The values of a document.
ghost use Rattle.std.specs.Prelude.{◌≡◌};
ghost use Rattle.std.specs.Arc.{arc_value};
ghost use Rattle.std.specs.Option.{option_copied};
ghost use Rattle.tf_model.specs.Paired.{paired};
ghost use Rattle.tf_model.specs.Values.{value_at};

use crate::query::{FieldType, Mapping};
use crate::value::Value;
use crate::{List, Text};
use std::alloc::Global;
use std::marker::Model;
use std::sync::Arc;

/// The values of a document, which contracts see as those that are there, each beside its field.
///
/// There is one value for each field, in the order of the mapping that the documents of an index share; `Null` stands
/// for a field that is missing.
#[derive(Drop)]
pub struct Values {
    mapping: Arc<Mapping, Global>,
    values: List<Value>,
}

impl Model for Values {
    ghost use Rattle.std.specs.Prelude.{List, ℕ};
    ghost use Rattle.std.specs.Arc.{arc_value};
    ghost use Rattle.std.specs.Coded.{codes};
    ghost use Rattle.tf_model.specs.declared.value.Value.{Value as V};
    ghost use Rattle.tf_model.specs.Paired.{paired};

    ghost Value = { List (List ℕ × V) };

    ghost coded = { Prim.hlevel codes };

    ghost view = { λ v. paired (arc_value v.mapping).fields v.values };
}

impl Values {
    /// The values of a mapping's fields, in their order. Takes no memory.
    pub fn new(mapping: Arc<Mapping, Global>, values: List<Value>) -> Values
        ensures { result ≡ paired (arc_value mapping).fields values }
    {
        Values { mapping, values }
    }

    /// The value of a field, and `None` where it is missing. Takes no memory.
    pub fn get(&self, path: &Text) -> Option<&Value>
        ensures { option_copied result ≡ value_at self.now path.now }
    {
        find_value(self.mapping.fields.as_slice(), self.values.as_slice(), path)
    }
}

// The value of the first field with a name that has one.
fn find_value<'a>(
    fields: &[(Text, FieldType)],
    values: &'a [Value],
    path: &Text,
) -> Option<&'a Value>
    ensures { option_copied result ≡ value_at (paired fields.now values.now) path.now }
{
    match values {
        [] => None,
        [value, values @ ..] => match fields {
            [] => None,
            [(name, _), fields @ ..] => if name == path && !value.is_null() {
                Some(value)
            } else {
                find_value(fields, values, path)
            },
        },
    }
}
