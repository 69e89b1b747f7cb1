ghost use Rattle.std.specs.Prelude.{◌≡◌, IfSome, None, false, is_none, map, string_bytes};
ghost use Rattle.std.specs.List.{list_all, list_any};
ghost use Rattle.std.specs.Str.{bytes_eq};
ghost use Rattle.std.specs.BTreeMap.{keys};
ghost use Rattle.serde_json.specs.Data.{Data};
ghost use Rattle.serde_json.specs.Find.{get};
ghost use Rattle.serde_json.specs.View.{view};
ghost use Rattle.ray_shape.specs.declared.shape.Shape.TheVariants as shapes;
ghost use Rattle.ray_shape.specs.declared.wrong.Wanted.TheVariants as wanted;
ghost use Rattle.ray_shape.specs.Table.{fits, form_of, member_of, members_of, names_fit};
ghost use Rattle.ray_shape.specs.Wrong.{Finds, is_wanted};

use crate::leaf::Leaf;
use crate::shape::{Field, Form, Kind, Need, Shape};
use crate::table::fields;
use crate::wrong::{Fault, Wanted, Wrong, member_wrong};
use serde_json::{Map, Value};
use std::alloc::Global;

// Whether an object has no member but those of a form.
pub(crate) fn walk_names(alloc: Global, form: Form, value: &Value) -> Result<(), Fault>
    ensures { Finds result (names_fit (members_of form) (view value.now)) (view value.now) }
{
    if has_names(form, value) {
        return Ok(());
    }
    match other_name(form, value) {
        Some(name) => Err(Fault::At(member_wrong(alloc, name, Wanted::Nothing)?)),
        None => Err(Fault::At(Wrong::here(alloc, Wanted::Members(form)))),
    }
}

// Whether it has none.
fn has_names(form: Form, value: &Value) -> bool
    ensures { result ≡ names_fit (members_of form) (view value.now) }
{
    has_rows(fields(form), value)
}

// Whether an object has no member but those of these rows.
#[tactic(auto, using(crate::proofs::Named::named))]
fn has_rows(rows: &[Field], value: &Value) -> bool
    ensures { result ≡ names_fit (map member_of rows.now) (view value.now) }
{
    match value.as_object() {
        Some(members) => are_named(members, rows),
        None => false,
    }
}

// The name of a member that a form doesn't have, where one is found.
fn other_name<'a>(form: Form, value: &'a Value) -> Option<&'a str>
    ensures { IfSome result (λ name. is_none (get name.now (view value.now)) ≡ false) }
{
    let members = value.as_object()?;
    let rows = fields(form);
    for name in members.keys() {
        if !is_named(name, rows) && value.get(name.as_str()).is_some() {
            return Some(name.as_str());
        }
    }
    None
}

// Whether each member's name is in a row.
fn are_named(members: &Map<String, Value>, rows: &[Field]) -> bool
    ensures { result ≡ list_all (λ key. list_any (λ row. bytes_eq (string_bytes key) row.name.now) rows.now)
        (keys members.now) }
{
    members.keys().all(|key| is_named(key, rows))
}

// Whether a name is in a row.
fn is_named(key: &String, rows: &[Field]) -> bool
    ensures { result ≡ list_any (λ row. bytes_eq (string_bytes key.now) row.name.now) rows.now }
{
    rows.iter().any(|row| key.as_str() == row.name)
}

// What is wrong where the member of a row isn't there.
pub(crate) fn absent(alloc: Global, row: &Field) -> Result<(), Fault>
    ensures { (d : Data) → get row.now.name.now d ≡ None
        → Finds result (fits (member_of row.now) d) d }
{
    match row.need {
        Need::Must => Err(Fault::At(member_wrong(alloc, row.name, Wanted::Shape(row.shape))?)),
        Need::May | Need::Never | Need::Tag => Ok(()),
    }
}

// What is wrong where an object has no form.
pub(crate) fn no_form(alloc: Global, kind: Kind, value: &Value) -> Result<(), Fault>
    requires { form_of kind (view value.now) ≡ None }
    ensures { Finds result false (view value.now) }
{
    match kind {
        Kind::Info => no_word(alloc, "mode", Leaf::BuildMode),
        Kind::Geometry => no_word(alloc, "kind", Leaf::GeometryKind),
        Kind::Rule => no_word(alloc, "do", Leaf::Choice),
        Kind::Command => no_word(alloc, "op", Leaf::Op),
        Kind::Spot | Kind::Stretch | Kind::Region | Kind::Index => Ok(()),
    }
}

// That the member of this name isn't such a word.
fn no_word(alloc: Global, name: &str, leaf: Leaf) -> Result<(), Fault>
    ensures { (d : Data) → is_wanted (wanted.Shape (shapes.Leaf leaf)) (get name.now d) ≡ false
        → Finds result false d }
{
    let wanted = Wanted::Shape(Shape::Leaf(leaf));
    Err(Fault::At(member_wrong(alloc, name, wanted)?))
}
