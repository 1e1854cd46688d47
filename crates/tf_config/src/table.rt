// The table of configurations: which members each object has, and the form of each.
ghost use Rattle.std.specs.Prelude.{◌≡◌, map};
ghost use Rattle.tf_config.specs.Table as spec;
ghost use Rattle.tf_config.specs.Table.{seen};

/// An object of a configuration.
#[derive(Clone, Copy)]
pub(crate) enum Object {
    /// The whole configuration.
    Config,
    /// The whole configuration, where no destination is needed.
    Preview,
    Source,
    Dest,
    Pivot,
    /// Groups by their names.
    Groups,
    /// A group, as its one member.
    Group,
    Terms,
    Histogram,
    DateHistogram,
    /// Aggregations by their names.
    Aggs,
    /// An aggregation, as its one member.
    Agg,
    /// The field of an aggregation.
    Metric,
    Latest,
    Sync,
    SyncTime,
    Retention,
    RetentionTime,
    Settings,
}

/// What a member must be.
#[derive(Clone, Copy)]
pub(crate) enum Form {
    Object(Object),
    /// An object that is not looked into.
    Free,
    Text,
    Number,
    Truth,
    /// Some texts in an array.
    Texts,
    /// A text, or some in an array.
    Names,
    /// A query, which is read by `tf_query`.
    Query,
}

/// A member by its name, and its form.
pub(crate) type Member = (&'static str, Form);

/// The members that an object must have.
pub(crate) fn required(object: Object) -> &'static [Member]
    ensures { map seen result.now ≡ spec.required object }
{
    match object {
        Object::Config => &[
            ("dest", Form::Object(Object::Dest)),
            ("source", Form::Object(Object::Source)),
        ],
        Object::Preview => &[("source", Form::Object(Object::Source))],
        Object::Source => &[("index", Form::Names)],
        Object::Dest => &[("index", Form::Text)],
        Object::Pivot => &[("group_by", Form::Object(Object::Groups))],
        Object::Terms | Object::Metric | Object::SyncTime => &[("field", Form::Text)],
        Object::Histogram => &[("field", Form::Text), ("interval", Form::Number)],
        Object::DateHistogram => &[("field", Form::Text), ("fixed_interval", Form::Text)],
        Object::Latest => &[("sort", Form::Text), ("unique_key", Form::Texts)],
        Object::Sync => &[("time", Form::Object(Object::SyncTime))],
        Object::Retention => &[("time", Form::Object(Object::RetentionTime))],
        Object::RetentionTime => &[("field", Form::Text), ("max_age", Form::Text)],
        Object::Groups | Object::Group | Object::Aggs | Object::Agg | Object::Settings => &[],
    }
}

// The members that an object may have beside these.
fn optional(object: Object) -> &'static [Member]
    ensures { map seen result.now ≡ spec.optional object }
{
    match object {
        Object::Config => of_config(),
        Object::Source => &[("query", Form::Query)],
        Object::Pivot => &[
            ("aggregations", Form::Object(Object::Aggs)),
            ("aggs", Form::Object(Object::Aggs)),
        ],
        Object::Group => &[
            ("date_histogram", Form::Object(Object::DateHistogram)),
            ("histogram", Form::Object(Object::Histogram)),
            ("terms", Form::Object(Object::Terms)),
        ],
        Object::Terms | Object::Histogram | Object::DateHistogram => &[(
            "missing_bucket",
            Form::Truth,
        )],
        Object::Agg => &[
            ("max", Form::Object(Object::Metric)),
            ("min", Form::Object(Object::Metric)),
            ("sum", Form::Object(Object::Metric)),
            ("value_count", Form::Object(Object::Metric)),
        ],
        Object::SyncTime => &[("delay", Form::Text)],
        Object::Settings => &[
            ("align_checkpoints", Form::Truth),
            ("dates_as_epoch_millis", Form::Truth),
            ("max_page_search_size", Form::Number),
        ],
        _ => &[],
    }
}

// The members of a configuration that it need not have.
fn of_config() -> &'static [Member]
    ensures { map seen result.now ≡ spec.optional Object.Config }
{
    &[
        ("_meta", Form::Free),
        ("description", Form::Text),
        ("frequency", Form::Text),
        ("latest", Form::Object(Object::Latest)),
        ("pivot", Form::Object(Object::Pivot)),
        ("retention_policy", Form::Object(Object::Retention)),
        ("settings", Form::Object(Object::Settings)),
        ("sync", Form::Object(Object::Sync)),
    ]
}

/// The form of a member of an object, and `None` where the object has no such member.
pub(crate) fn form_of(object: Object, name: &str) -> Option<Form>
    ensures { result ≡ spec.form_of object name.now }
{
    match object {
        Object::Groups => Some(Form::Object(Object::Group)),
        Object::Aggs => Some(Form::Object(Object::Agg)),
        Object::Preview => form_in(Object::Config, name),
        _ => form_in(object, name),
    }
}

fn form_in(object: Object, name: &str) -> Option<Form>
    ensures { result ≡ spec.form_in object name.now }
{
    match form_at(required(object), name) {
        Some(form) => Some(form),
        None => form_at(optional(object), name),
    }
}

fn form_at(members: &[Member], name: &str) -> Option<Form>
    ensures { result ≡ spec.form_at (map seen members.now) name.now }
{
    for (member, form) in members {
        if *member == name {
            return Some(*form);
        }
    }
    None
}
