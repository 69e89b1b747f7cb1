ghost use Rattle.std.specs.Prelude.{◌≡◌, Some, map};
ghost use Rattle.serde_json.specs.Data.{array};
ghost use Rattle.serde_json.specs.Find.{get, get_item};
ghost use Rattle.serde_json.specs.View.{items_view, view};
ghost use Rattle.ray_shape.specs.Reads.{all_items, item_shape, reads, reads_leaf, reads_list};
ghost use Rattle.ray_shape.specs.Reads.{reads_object};
ghost use Rattle.ray_shape.specs.Table.{all_fit, fits, has_members, member_of, members_of};
ghost use Rattle.ray_shape.specs.Wrong.{Finds};

use crate::forms::form_of;
use crate::leaf::Leaf;
use crate::leaves::is_leaf;
use crate::naming::{absent, no_form, walk_names};
use crate::shape::{Field, Form, Item, Kind, Need, Shape};
use crate::table::fields;
use crate::wrong::{Fault, Step, Wanted, Wrong, inside, member_wrong};
use serde_json::Value;
use std::alloc::Global;

/// Whether the grammar reads a value as of this shape: Ok exactly where it does. Own.
///
/// # Errors
///
/// `At` exactly where it doesn't: at the end of its path stands what isn't wanted there.
/// `NoMemory` may come on any value.
#[cycle(walking)]
pub fn find_wrong(alloc: Global, shape: Shape, value: &Value) -> Result<(), Fault>
    ensures { Finds result (reads shape (view value.now)) (view value.now) }
{
    match shape {
        Shape::Leaf(leaf) => walk_leaf(alloc, leaf, value),
        Shape::List(item) => walk_list(alloc, item, value),
        Shape::Object(kind) => walk_object(alloc, kind, value),
    }
}

// The same of a value without parts.
fn walk_leaf(alloc: Global, leaf: Leaf, value: &Value) -> Result<(), Fault>
    ensures { Finds result (reads_leaf leaf (view value.now)) (view value.now) }
{
    if is_leaf(alloc, leaf, value)? {
        Ok(())
    } else {
        let wanted = Wanted::Shape(Shape::Leaf(leaf));
        Err(Fault::At(Wrong::here(alloc, wanted)))
    }
}

// The same of a list.
#[cycle(walking)]
fn walk_list(alloc: Global, item: Item, value: &Value) -> Result<(), Fault>
    ensures { Finds result (reads_list item (view value.now)) (view value.now) }
{
    match value.as_array() {
        Some(items) => walk_items(alloc, item, items.as_slice()),
        None => Err(Fault::At(Wrong::here(alloc, Wanted::List(item)))),
    }
}

// The same of its items.
#[cycle(walking)]
fn walk_items(alloc: Global, item: Item, items: &[Value]) -> Result<(), Fault>
    ensures { Finds result (all_items (reads (item_shape item)) (items_view items.now))
        (array (items_view items.now)) }
{
    for (number, value) in items.iter().enumerate() {
        walk_item(alloc, item, items, number, value)?;
    }
    Ok(())
}

// The same of the item of this number.
#[cycle(walking)]
fn walk_item(
    alloc: Global,
    item: Item,
    items: &[Value],
    number: usize,
    value: &Value,
) -> Result<(), Fault>
    requires { get_item number (items_view items.now) ≡ Some (view value.now) }
    ensures { Finds result (reads (item_shape item) (view value.now))
        (array (items_view items.now)) }
{
    inside(find_wrong(alloc, item.shape(), value), Step::Item(number))
}

// The same of an object.
#[cycle(walking)]
fn walk_object(alloc: Global, kind: Kind, value: &Value) -> Result<(), Fault>
    ensures { Finds result (reads_object kind (view value.now)) (view value.now) }
{
    if !value.is_object() {
        return Err(Fault::At(Wrong::here(alloc, Wanted::Object(kind))));
    }
    match form_of(kind, value) {
        Some(form) => walk_form(alloc, form, value),
        None => no_form(alloc, kind, value),
    }
}

// The same of an object of this form.
#[cycle(walking)]
fn walk_form(alloc: Global, form: Form, value: &Value) -> Result<(), Fault>
    ensures { Finds result (has_members (members_of form) (view value.now)) (view value.now) }
{
    walk_names(alloc, form, value)?;
    walk_fields(alloc, fields(form), value)
}

// The same of the members of these rows.
#[cycle(walking)]
fn walk_fields(alloc: Global, rows: &[Field], object: &Value) -> Result<(), Fault>
    ensures { Finds result (all_fit (map member_of rows.now) (view object.now)) (view object.now) }
{
    for row in rows {
        walk_field(alloc, row, object)?;
    }
    Ok(())
}

// The same of the member of this row.
#[cycle(walking)]
fn walk_field(alloc: Global, row: &Field, object: &Value) -> Result<(), Fault>
    ensures { Finds result (fits (member_of row.now) (view object.now)) (view object.now) }
{
    match object.get(row.name) {
        Some(value) => walk_found(alloc, row, object, value),
        None => absent(alloc, row),
    }
}

// The same of a member that is there.
#[cycle(walking)]
fn walk_found(alloc: Global, row: &Field, object: &Value, value: &Value) -> Result<(), Fault>
    requires { get row.now.name.now (view object.now) ≡ Some (view value.now) }
    ensures { Finds result (fits (member_of row.now) (view object.now)) (view object.now) }
{
    match row.need {
        Need::Must | Need::May => {
            let step = Step::Member(String::from_str(alloc, row.name)?);
            inside(find_wrong(alloc, row.shape, value), step)
        }
        Need::Never => Err(Fault::At(member_wrong(alloc, row.name, Wanted::Nothing)?)),
        Need::Tag => Ok(()),
    }
}
