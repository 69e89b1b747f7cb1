ghost use Rattle.std.specs.Prelude.{◌≡◌, Some, Option, is_some, codes};
ghost use Rattle.serde_json.specs.View.{view};
ghost use Rattle.ray_json.specs.Fields.{at, word_of};
ghost use Rattle.ray_shape.specs.Forms.{choice_forms, geometry_forms, mode_forms, op_forms};
ghost use Rattle.ray_shape.specs.Table.{form_of};

use crate::shape::{Form, Kind};
use ray_json::read_word;
use serde_json::Value;

// The form of an object of a kind, where it has one.
pub(crate) fn form_of(kind: Kind, value: &Value) -> Option<Form>
    ensures { result ≡ form_of kind (view value.now) }
{
    match kind {
        Kind::Spot => Some(Form::Spot),
        Kind::Stretch => Some(Form::Stretch),
        Kind::Region => Some(Form::Region),
        Kind::Index => Some(Form::Index),
        Kind::Info => by_mode(value),
        Kind::Geometry => by_geometry(value),
        Kind::Rule => by_choice(value),
        Kind::Command => by_op(value),
    }
}

// The form that the word of a command chooses.
fn op_form(word: &Value) -> Option<Form>
    ensures { result ≡ word_of op_forms (view word.now) }
{
    read_word(
        &[
            ("buffer", Form::Buffer),
            ("structure", Form::Structure),
            ("destroy", Form::Destroy),
            ("sizes", Form::Sizes),
            ("begin", Form::Begin),
            ("end", Form::End),
            ("submit", Form::Submit),
            ("wait", Form::Wait),
            ("read", Form::Read),
            ("update", Form::Update),
            ("fill", Form::Fill),
            ("copy", Form::Copy),
            ("build", Form::Build),
            ("copy_structure", Form::CopyStructure),
            ("serialize", Form::Serialize),
            ("deserialize", Form::Deserialize),
            ("property", Form::Property),
            ("barrier", Form::Barrier),
            ("trace", Form::Trace),
        ],
        word,
    )
    .ok()
}

// The form that the member `op` chooses.
fn by_op(object: &Value) -> Option<Form>
    ensures { result ≡ at (word_of op_forms) (codes "op") (view object.now) }
{
    match object.get("op") {
        Some(word) => op_form(word),
        None => None,
    }
}

// Whether it is such a word.
pub(crate) fn is_op(word: &Value) -> bool
    ensures { result ≡ is_some (word_of op_forms (view word.now)) }
{
    op_form(word).is_some()
}

// The form that the word of a kind of geometry chooses.
fn geometry_form(word: &Value) -> Option<Form>
    ensures { result ≡ word_of geometry_forms (view word.now) }
{
    read_word(
        &[
            ("triangles", Form::Triangles),
            ("boxes", Form::Boxes),
            ("instances", Form::Instances),
        ],
        word,
    )
    .ok()
}

// The form that the member `kind` chooses.
fn by_geometry(object: &Value) -> Option<Form>
    ensures { result ≡ at (word_of geometry_forms) (codes "kind") (view object.now) }
{
    match object.get("kind") {
        Some(word) => geometry_form(word),
        None => None,
    }
}

// Whether it is such a word.
pub(crate) fn is_geometry(word: &Value) -> bool
    ensures { result ≡ is_some (word_of geometry_forms (view word.now)) }
{
    geometry_form(word).is_some()
}

// The form that the word of a mode of a build chooses.
fn mode_form(word: &Value) -> Option<Form>
    ensures { result ≡ word_of mode_forms (view word.now) }
{
    read_word(
        &[("build", Form::BuildInfo), ("update", Form::UpdateInfo)],
        word,
    )
    .ok()
}

// The form that the member `mode` chooses.
fn by_mode(object: &Value) -> Option<Form>
    ensures { result ≡ at (word_of mode_forms) (codes "mode") (view object.now) }
{
    match object.get("mode") {
        Some(word) => mode_form(word),
        None => None,
    }
}

// Whether it is such a word.
pub(crate) fn is_mode(word: &Value) -> bool
    ensures { result ≡ is_some (word_of mode_forms (view word.now)) }
{
    mode_form(word).is_some()
}

// The form that the word of what a rule decides chooses.
fn choice_form(word: &Value) -> Option<Form>
    ensures { result ≡ word_of choice_forms (view word.now) }
{
    read_word(
        &[
            ("ignore", Form::Rule),
            ("confirm", Form::Rule),
            ("entry", Form::Rule),
            ("exit", Form::Rule),
            ("at", Form::RuleAt),
            ("terminate", Form::Rule),
            ("confirm_terminate", Form::Rule),
        ],
        word,
    )
    .ok()
}

// The form that the member `do` chooses.
fn by_choice(object: &Value) -> Option<Form>
    ensures { result ≡ at (word_of choice_forms) (codes "do") (view object.now) }
{
    match object.get("do") {
        Some(word) => choice_form(word),
        None => None,
    }
}

// Whether it is such a word.
pub(crate) fn is_choice(word: &Value) -> bool
    ensures { result ≡ is_some (word_of choice_forms (view word.now)) }
{
    choice_form(word).is_some()
}
