// The table of the ops of commands: which members a command has, and the form of each.
ghost use Rattle.std.specs.Prelude.{◌≡◌, ◌++◌, map};
ghost use Rattle.tf_command.specs.Table as spec;
ghost use Rattle.tf_command.specs.Seen.{seen};

/// The name of an op.
#[derive(Clone, Copy, PartialEq, Eq, Debug)]
pub(crate) enum Name {
    CreateIndex,
    Index,
    Bulk,
    PutTransform,
    Delete,
    Start,
    Stop,
    Reset,
    ScheduleNow,
    Step,
    Await,
    Settle,
    Search,
    Stats,
    Preview,
}

/// What a member must be.
#[derive(Clone, Copy, PartialEq, Eq, Debug)]
pub(crate) enum Form {
    /// Any text.
    Text,
    /// A text of 1 to 512 bytes.
    DocumentId,
    Object,
    Array,
    /// From 1 to 10,000 objects with exactly `id` and `doc`, an id of a document and an object.
    Documents,
    /// `true` or `false`.
    Truth,
    /// The text `request`.
    Request,
    /// From 1 to 1000.
    Size,
    /// From 0 to 7.
    Lane,
    /// A number in i64.
    Moment,
    /// From 0 to 2^63 - 1.
    Checkpoint,
    /// Any whole number.
    Number,
}

/// A member by its name, and its form.
pub(crate) type Member = (&'static str, Form);

/// The op of that name.
pub(crate) fn name_of(op: &str) -> Option<Name>
    ensures { result ≡ spec.name_of op.now }
{
    match op {
        "create_index" => Some(Name::CreateIndex),
        "index" => Some(Name::Index),
        "bulk" => Some(Name::Bulk),
        "put_transform" => Some(Name::PutTransform),
        "delete" => Some(Name::Delete),
        "start" => Some(Name::Start),
        "stop" => Some(Name::Stop),
        "reset" => Some(Name::Reset),
        "schedule_now" => Some(Name::ScheduleNow),
        "step" => Some(Name::Step),
        "await" => Some(Name::Await),
        "settle" => Some(Name::Settle),
        "search" => Some(Name::Search),
        "stats" => Some(Name::Stats),
        "preview" => Some(Name::Preview),
        _ => None,
    }
}

/// The members that a command must have, in the order of their names in bytes.
pub(crate) fn required(name: Name) -> &'static [Member]
    ensures { map seen result.now ≡ spec.required name }
{
    match name {
        Name::CreateIndex => &[("index", Form::Text), ("mappings", Form::Object)],
        Name::Index => &[
            ("doc", Form::Object),
            ("id", Form::DocumentId),
            ("index", Form::Text),
        ],
        Name::Bulk => &[("docs", Form::Documents), ("index", Form::Text)],
        Name::PutTransform => &[("config", Form::Object), ("id", Form::Text)],
        Name::Delete => &[("id", Form::Text)],
        Name::Start => &[("id", Form::Text)],
        Name::Stop => &[("id", Form::Text)],
        Name::Reset => &[("id", Form::Text)],
        Name::ScheduleNow => &[("id", Form::Text)],
        Name::Step => &[("id", Form::Text)],
        Name::Await => &[("checkpoint", Form::Checkpoint), ("id", Form::Text)],
        Name::Settle => &[],
        Name::Search => &[("index", Form::Text)],
        Name::Stats => &[("id", Form::Text)],
        Name::Preview => &[("config", Form::Object)],
    }
}

// The members that a command may have beside these.
fn optional(name: Name) -> &'static [Member]
    ensures { map seen result.now ≡ spec.optional name }
{
    match name {
        Name::CreateIndex => &[
            ("durability", Form::Request),
            ("shards", Form::Number),
            ("stamp", Form::Text),
        ],
        Name::Stop => &[("force", Form::Truth), ("wait_for_checkpoint", Form::Truth)],
        Name::Search => &[("after", Form::Array), ("size", Form::Size)],
        _ => &[],
    }
}

// The members that every command may have.
fn common() -> &'static [Member]
    ensures { map seen result.now ≡ spec.common }
{
    &[
        ("at", Form::Moment),
        ("lane", Form::Lane),
        ("op", Form::Text),
    ]
}

/// The form of a member of a command, and `None` where its op has no such member.
pub(crate) fn form_of(op: Name, name: &str) -> Option<Form>
    ensures { result ≡ spec.form_of op name.now }
{
    if let Some(form) = form_at(common(), name) {
        return Some(form);
    }
    if let Some(form) = form_at(required(op), name) {
        return Some(form);
    }
    form_at(optional(op), name)
}

fn form_at(members: &[Member], name: &str) -> Option<Form>
    ensures { result ≡ spec.form_at (map seen members.now) name.now }
{
    for (member, form) in members {
        if *member == name {
            return Some(*form);
        }
    }
    None
}
