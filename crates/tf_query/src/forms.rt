// The forms of queries: which members may stand where.
ghost use Rattle.std.specs.Prelude.{◌≡◌, [], ◌∷◌, codes, if◌then◌else◌};
ghost use Rattle.tf_query.specs.Unknown as spec;

/// What stands at a place in a query.
#[derive(Clone, Copy, PartialEq, Eq, Debug)]
pub(crate) enum Form {
    /// One query.
    Query,
    /// One query or a list of them.
    Queries,
    /// The lists of a `bool`.
    Clauses,
    /// The empty object of `match_all`.
    Nothing,
    /// Fields with the value of each.
    Terms,
    /// A value as the member of an object.
    Term,
    /// Fields with the ends for each.
    Ranges,
    /// The ends of a range.
    Ends,
    /// The name of a field.
    Exists,
}

/// What a member of an object is, by its name.
#[derive(Clone, Copy, PartialEq, Eq, Debug)]
pub(crate) enum Member {
    /// It is outside the forms.
    Unknown,
    /// A value or a name, which is not looked into for members.
    Value,
    /// It has a form of its own.
    Part(Form),
}

/// What a member is, by the form of its object.
pub(crate) fn member_in(form: Form, name: &str) -> Member
    ensures { result ≡ spec.member_in form name.now }
{
    match form {
        Form::Query | Form::Queries => kind_of_query(name),
        Form::Clauses => known_if(is_clause(name), Member::Part(Form::Queries)),
        Form::Nothing => Member::Unknown,
        Form::Terms => Member::Part(Form::Term),
        Form::Term => known_if(name == "value", Member::Value),
        Form::Ranges => Member::Part(Form::Ends),
        Form::Ends => known_if(is_end(name), Member::Value),
        Form::Exists => known_if(name == "field", Member::Value),
    }
}

fn known_if(is_known: bool, member: Member) -> Member
    ensures { result ≡ if is_known then member else Member.Unknown }
{
    if is_known { member } else { Member::Unknown }
}

fn is_clause(name: &str) -> bool
    ensures { result ≡ spec.is_one_of (codes "filter" ∷ codes "must" ∷ codes "must_not" ∷ []) name.now }
{
    name == "filter" || name == "must" || name == "must_not"
}

fn is_end(name: &str) -> bool
    ensures { result ≡ spec.is_one_of (codes "gte" ∷ codes "gt" ∷ codes "lte" ∷ codes "lt" ∷ []) name.now }
{
    name == "gte" || name == "gt" || name == "lte" || name == "lt"
}

fn kind_of_query(name: &str) -> Member
    ensures { result ≡ spec.in_query name.now }
{
    match name {
        "match_all" => Member::Part(Form::Nothing),
        "term" => Member::Part(Form::Terms),
        "range" => Member::Part(Form::Ranges),
        "exists" => Member::Part(Form::Exists),
        "bool" => Member::Part(Form::Clauses),
        _ => Member::Unknown,
    }
}
