ghost use Rattle.std.specs.Prelude.{◌≡◌, ◌≤◌, ◌++◌, ◌∷◌, map, Some, IfOk, IfErr, IsSome, IsUtf8, is_some, string_bytes};
ghost use Rattle.serde_json.specs.Data.{depth};
ghost use Rattle.serde_json.specs.Find.{as_object};
ghost use Rattle.serde_json.specs.View.{view, number_view, items_view, members_view, items_of};
ghost use Rattle.tf_model.specs.declared.tree.Tree.{Tree};
ghost use Rattle.tf_json.specs.Reading.{Reads, in_part, tree_of, tree_of_number, trees_of, members_of, reading, reading_of, value_of, tree as read_as};
ghost use Rattle.tf_json.specs.Objects.{object_reading};
ghost use Rattle.tf_json.specs.Stored.{IsStored, AreStored, MembersAreStored, data_of, data_member, named};
ghost use Rattle.tf_model.specs.Lines.{IsLine};
ghost use Rattle.tf_model.specs.Trees.{members_in};
ghost use Rattle.tf_model.specs.Print.{printed};
ghost use Rattle.tf_json.specs.Answers.{Answers, IsNoValue, Blames, Gives};

use serde_json::{Map, Number, Value};
use std::alloc::{AllocError, AllocFailed, Global};
use tf_model::{List, Text, Tree};

/// Why a line is no tree.
#[derive(Debug, Drop)]
pub enum JsonError {
    /// The line is no JSON text: it is no UTF-8, it breaks the grammar of RFC 8259, its arrays
    /// and objects nest deeper than 127, or a number is beyond every float, as `1e400`.
    NotJson,
    /// A number of the value is neither an i64 nor a u64: it has a fraction or an exponent, is
    /// out of their range, or is `-0`. The path leads to the first such number, with members in
    /// byte order and depth first: member names and places of items, counted from 0, joined by
    /// `.`, as `a.0`. It is empty where the value itself is that number.
    Fraction { path: Text },
    /// Memory ran out, which may come at any line.
    Memory,
}

/// Why a part of a value is no tree.
#[derive(Debug, Drop)]
enum Fault {
    Memory,
    /// The path of the number inside the part, none where the part is the number.
    Fraction(Option<Text>),
}

impl From<AllocError> for Fault {
    ghost use Rattle.tf_json.specs.declared.read.Fault.TheVariants.{Memory};
    ghost use Rattle.std.specs.Prelude.{◌≡◌};

    ghost from_gives = { λ _ e. e ≡ Memory };

    fn from(_refused: AllocError) -> Fault {
        Fault::Memory
    }
}

impl<T: Drop> From<AllocFailed<T>> for Fault {
    ghost use Rattle.tf_json.specs.declared.read.Fault.TheVariants.{Memory};
    ghost use Rattle.std.specs.Prelude.{◌≡◌};

    ghost from_gives = { λ _ e. e ≡ Memory };

    fn from(_refused: AllocFailed<T>) -> Fault {
        Fault::Memory
    }
}

/// The tree that a line is, by RFC 8259, with the members of each object in byte order. Of members
/// with one name the last is kept, so a fraction under an earlier one is no fault.
///
/// The line is bytes without a line's end. Its names and texts are moved into the tree.
///
/// ```text
/// {"b":1,"a":[2e0]}   Fraction at a.0
/// {"":{"x":1.5}}      Fraction at .x
/// {                   NotJson
/// ```
pub fn read_tree(alloc: Global, line: &[u8]) -> Result<Tree, JsonError>
    // A tree, `NotJson` and `Fraction` each come exactly where they are the line's reading.
    ensures reading { Answers (reading line.now) result }
    // The tree is one that a line can be, so that its text is read as the same tree.
    ensures line { IfOk result IsLine }
{
    match parse(alloc, line) {
        Ok(value) => tree_of_value(alloc, value),
        Err(error) => Err(error),
    }
}

/// The object that a line is, as `read_tree` gives it. A line that is JSON and no object is `NotJson` too, whatever
/// its numbers are.
pub fn read_object(alloc: Global, line: &[u8]) -> Result<Tree, JsonError>
    // A tree, `NotJson` and `Fraction` each come exactly where they are the reading of an object.
    ensures reading { Answers (object_reading line.now) result }
    ensures object { IfOk result (λ tree. IsSome (members_in tree)) }
    ensures line { IfOk result IsLine }
{
    match parse(alloc, line) {
        Ok(value) => {
            if value.is_object() {
                tree_of_value(alloc, value)
            } else {
                Err(JsonError::NotJson)
            }
        }
        Err(error) => Err(error),
    }
}

/// The value that `serde_json` gives of a line.
fn parse(alloc: Global, line: &[u8]) -> Result<Value, JsonError>
    ensures value { IfOk result (λ value. value_of line.now ≡ Some (view value)) }
    ensures nests { IfOk result (λ value. depth (view value) ≤ 127) }
    ensures refused { IfErr result (IsNoValue (value_of line.now)) }
{
    match Value::from_slice(alloc, line) {
        Ok(value) => Ok(value),
        Err(error) => {
            if error.is_memory() {
                return Err(JsonError::Memory);
            }
            Err(JsonError::NotJson)
        }
    }
}

/// The tree of a line's value.
fn tree_of_value(alloc: Global, value: Value) -> Result<Tree, JsonError>
    requires { depth (view value) ≤ 127 }
    ensures reading { Answers (reading_of (Some (view value))) result }
    ensures object { IfOk result (λ tree. is_some (members_in tree) ≡ is_some (as_object (view value))) }
    ensures line { IfOk result IsLine }
{
    match tree(alloc, value) {
        Ok(tree) => Ok(tree),
        Err(Fault::Memory) => Err(JsonError::Memory),
        Err(Fault::Fraction(Some(path))) => Err(JsonError::Fraction { path }),
        Err(Fault::Fraction(None)) => match Text::from_str(alloc, "") {
            Ok(path) => Err(JsonError::Fraction { path }),
            Err(_) => Err(JsonError::Memory),
        },
    }
}

/// A number that the crate gives as a u64 or an i64.
fn whole_number(number: &Number) -> Result<Tree, Fault>
    ensures value { Gives (tree_of_number (number_view number.now)) result }
    ensures stored { IfOk result (λ x. IsStored (data_of x)) }
{
    if let Some(natural) = number.as_u64() {
        return Ok(Tree::Num(i128::from(natural)));
    }
    match number.as_i64() {
        Some(negative) => Ok(Tree::Num(i128::from(negative))),
        None => Err(Fault::Fraction(None)),
    }
}

/// The text of a string, which takes no memory.
fn text_of(text: String) -> Text
    ensures same { result ≡ string_bytes text }
    ensures utf8 { IsUtf8 result }
{
    let text = Text::from_string(text);
    // Its contract says that the bytes are UTF-8.
    let _seen = text.as_str();
    text
}

/// The tree of a value.
#[cycle(tree)]
fn tree(alloc: Global, value: Value) -> Result<Tree, Fault>
    ensures value { Gives (tree_of (view value)) result }
    ensures stored { IfOk result (λ x. IsStored (data_of x)) }
{
    match value {
        Value::Null => Ok(Tree::Null),
        Value::Bool(truth) => Ok(Tree::Bool(truth)),
        Value::Number(number) => whole_number(&number),
        Value::String(text) => Ok(Tree::Str(text_of(text))),
        Value::Array(values) => Ok(Tree::Arr(trees(alloc, values)?)),
        Value::Object(values) => Ok(Tree::Obj(members(alloc, values)?)),
    }
}

/// The trees of an array's items.
#[cycle(tree)]
fn trees(alloc: Global, values: Vec<Value>) -> Result<List<Tree>, Fault>
    ensures value { Gives (trees_of 0 (items_view values.items)) result }
    ensures stored { IfOk result (λ xs. AreStored (items_of (map data_of xs))) }
{
    let mut found = List::new(alloc);
    let mut place: usize = 0;
    for value in values {
        match tree(alloc, value) {
            Ok(tree) => found.push(tree)?,
            Err(fault) => {
                let part = place.to_string(alloc)?;
                return Err(placed(alloc, part.as_str(), fault));
            }
        }
        place = place.saturating_add(1);
    }
    Ok(found)
}

/// The members of an object, in byte order of their names.
#[cycle(tree)]
fn members(alloc: Global, values: Map<String, Value>) -> Result<List<(Text, Tree)>, Fault>
    ensures value { Gives (members_of (members_view values.entries)) result }
    ensures stored { IfOk result (λ ms. MembersAreStored (named (map data_member ms))) }
{
    let mut pairs = List::new(alloc);
    for (name, value) in values {
        match tree(alloc, value) {
            Ok(tree) => pairs.push((text_of(name), tree))?,
            Err(fault) => return Err(placed(alloc, name.as_str(), fault)),
        }
    }
    Ok(pairs)
}

/// The fault of a part, seen from the value that the part is in.
fn placed(alloc: Global, part: &str, fault: Fault) -> Fault
    ensures { (r : Reads Tree) → Blames r fault → Blames (in_part part.now r) result }
{
    let path = match fault {
        Fault::Memory => return Fault::Memory,
        Fault::Fraction(None) => Text::from_str(alloc, part),
        Fault::Fraction(Some(rest)) => joined(alloc, part, rest.as_str()),
    };
    match path {
        Ok(path) => Fault::Fraction(Some(path)),
        Err(_) => Fault::Memory,
    }
}

/// The two parts of a path with a `.` between them.
fn joined(alloc: Global, first: &str, rest: &str) -> Result<Text, AllocError>
    ensures { IfOk result (λ t. t ≡ first.now ++ 46 ∷ rest.now) }
{
    let mut text = String::from_str(alloc, first)?;
    text.push_str(".")?;
    text.push_str(rest)?;
    Ok(Text::from_string(text))
}

/// The text that a tree prints as is read as that tree, for each tree that a line can be: its texts
/// are UTF-8, its numbers fit an i64 or a u64, members ascend by name, and arrays and objects nest
/// at most 127 deep. A law, which does nothing when it runs.
pub fn line_is_read(_tree: &Tree)
    requires { IsLine _tree.now }
    ensures { reading (printed _tree.now) ≡ read_as _tree.now }
{}
