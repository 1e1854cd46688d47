// The fields of a mapping as they are gathered.
ghost use Rattle.std.specs.Prelude.{◌≡◌, OnOk};
ghost use Rattle.tf_mapping.specs.Gathering.{gather, nothing_gathered};

use crate::least::lesser;
use std::alloc::Global;
use tf_model::{FieldType, List, OutOfMemory, Text, is_field_path};

/// The fields that were found so far.
#[derive(Drop)]
pub(crate) struct Gathered {
    /// The least name in bytes that is no field path.
    pub(crate) ill_named: Option<Text>,
    /// The others, each with its type or none where it is none of the four.
    pub(crate) fields: List<(Text, Option<FieldType>)>,
}

impl Gathered {
    /// No field.
    pub(crate) fn new(alloc: Global) -> Gathered
        ensures { result ≡ nothing_gathered }
    {
        Gathered {
            ill_named: None,
            fields: List::new(alloc),
        }
    }

    /// One field more. A name that is no path is kept only where it is the least.
    pub(crate) fn add(
        &mut self,
        alloc: Global,
        path: &str,
        kind: Option<FieldType>,
    ) -> Result<(), OutOfMemory>
        ensures { OnOk result (self.new ≡ gather self.old (path.now, kind)) }
    {
        if is_field_path(path) {
            self.fields.push((Text::from_str(alloc, path)?, kind))?;
        } else {
            self.ill_named = lesser(alloc, self.ill_named.take(), path)?;
        }
        Ok(())
    }
}
