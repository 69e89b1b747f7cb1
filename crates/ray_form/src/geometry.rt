ghost use Rattle.std.specs.Prelude.{◌≡◌, ◌≤◌, ◌<◌, ◌^◌, ◌==◌, true, is_some, length};
ghost use Rattle.std.specs.Bool.{OnTrue};
ghost use Rattle.ray_bytes.specs.Fields.{word_at};
ghost use Rattle.ray_form.specs.Heads.{element_size, greatest_opacity, greatest_number};
ghost use Rattle.ray_form.specs.Heads.{count_in, elements_size, has_zeros, is_head, is_whole};
ghost use Rattle.ray_form.specs.Heads.{kind_named, format_named, index_size_named, elements_in};
ghost use Rattle.ray_form.specs.Heads.{shapes_in, geometry_in, is_geometry};
ghost use Rattle.ray_form.specs.Rows.{after_first};

use crate::fields::word;
use ray_bytes::Format;
use ray_flags::Kind;
use ray_geometries::Stored;

// The size of an element by the number of its kind.
fn element_size(kind: u32) -> u64
    ensures value { result ≡ element_size kind }
    ensures limits { result ≤ 64 }
{
    if kind == 0 {
        48
    } else if kind == 1 {
        24
    } else {
        64
    }
}

// How many elements the geometry has that begins here.
#[tactic(auto, unfolding(crate::specs::Heads::count_in))]
pub(crate) fn count_in(rest: &[u8]) -> u32
    requires { 32 ≤ length rest.now }
    ensures { result ≡ count_in rest.now }
{
    word(rest, 16)
}

// The size of its elements.
#[tactic(auto, unfolding(crate::specs::Heads::elements_size))]
pub(crate) fn elements_size(rest: &[u8]) -> u64
    requires { 32 ≤ length rest.now }
    ensures value { result ≡ elements_size rest.now }
    ensures limits { result < 2 ^ 40 }
{
    element_size(word(rest, 0)) * u64::from(count_in(rest))
}

// The greatest opacity of a kind.
fn greatest_opacity(kind: u32) -> u32
    ensures { result ≡ greatest_opacity kind }
{
    if kind == 2 { 0 } else { 1 }
}

// The greatest number of a format and of an index type.
fn greatest_number(kind: u32) -> u32
    ensures { result ≡ greatest_number kind }
{
    if kind == 0 { 2 } else { 0 }
}

// Whether the last three words of the head are zeros.
#[tactic(auto, unfolding(crate::specs::Heads::has_zeros))]
fn has_zeros(rest: &[u8]) -> bool
    requires { 32 ≤ length rest.now }
    ensures { result ≡ has_zeros rest.now }
{
    word(rest, 20) == 0 && word(rest, 24) == 0 && word(rest, 28) == 0
}

// Whether the head is one of a kind.
#[tactic(auto, unfolding(crate::specs::Heads::is_head))]
fn is_head(kind: u32, rest: &[u8]) -> bool
    requires { 32 ≤ length rest.now }
    ensures { result ≡ is_head kind rest.now }
{
    word(rest, 0) == kind
        && word(rest, 4) <= greatest_opacity(kind)
        && word(rest, 8) <= greatest_number(kind)
        && word(rest, 12) <= greatest_number(kind)
        && has_zeros(rest)
}

// Whether a head and all its elements are there.
#[tactic(auto, unfolding(crate::specs::Heads::is_whole))]
pub(crate) fn is_whole(rest: &[u8]) -> bool
    ensures value { result ≡ is_whole rest.now }
    ensures room { OnTrue result (32 ≤ length rest.now) }
{
    rest.len() >= 32 && 32 + elements_size(rest) <= rest.len() as u64
}

// Whether a geometry of a kind begins here.
#[tactic(auto, unfolding(crate::specs::Heads::is_geometry))]
pub(crate) fn is_geometry(kind: u32, rest: &[u8]) -> bool
    ensures value { result ≡ is_geometry kind rest.now }
    ensures whole { OnTrue result (is_whole rest.now ≡ true) }
    ensures room { OnTrue result (32 ≤ length rest.now) }
{
    is_whole(rest) && is_head(kind, rest)
}

// Its elements.
#[tactic(auto, unfolding(crate::specs::Heads::elements_in, crate::specs::Heads::is_whole))]
pub(crate) fn elements_in(rest: &[u8]) -> &[u8]
    requires { is_whole rest.now ≡ true }
    ensures { result.now ≡ elements_in rest.now }
{
    let (_, elements) = rest.split_at(32);
    let (elements, _) = elements.split_at(elements_size(rest) as usize);
    elements
}

/// What follows it.
#[tactic(auto, unfolding(crate::specs::Rows::after_first, crate::specs::Heads::is_whole))]
pub fn after_first(rest: &[u8]) -> &[u8]
    requires { is_whole rest.now ≡ true }
    ensures { result.now ≡ after_first rest.now }
{
    let (_, others) = rest.split_at(32 + elements_size(rest) as usize);
    others
}

// A kind by its number.
fn kind_named(number: u32) -> Kind
    ensures { result ≡ kind_named number }
{
    if number == 0 {
        Kind::Triangle
    } else {
        Kind::Aabb
    }
}

// A format by its number.
fn format_named(number: u32) -> Format
    ensures { result ≡ format_named number }
{
    if number == 0 {
        Format::S32x3
    } else if number == 1 {
        Format::S32x2
    } else {
        Format::S16x3
    }
}

// The size of an index by the number of its type.
fn index_size_named(number: u32) -> u8
    ensures { result ≡ index_size_named number }
{
    if number == 0 {
        0
    } else if number == 1 {
        2
    } else {
        4
    }
}

/// The geometry as it is stored.
#[tactic(auto, unfolding(crate::specs::Heads::is_whole))]
pub fn stored(rest: &[u8]) -> Stored<'_>
    requires { is_whole rest.now ≡ true }
    ensures kind { result.kind ≡ kind_named (word_at rest.now 0) }
    ensures opaque { result.opaque ≡ (word_at rest.now 4 == 1) }
    ensures format { result.format ≡ format_named (word_at rest.now 8) }
    ensures index_size { result.index_size ≡ index_size_named (word_at rest.now 12) }
    ensures count { result.count ≡ count_in rest.now }
    ensures elements { result.elements.now ≡ elements_in rest.now }
{
    Stored {
        kind: kind_named(word(rest, 0)),
        opaque: word(rest, 4) == 1,
        format: format_named(word(rest, 8)),
        index_size: index_size_named(word(rest, 12)),
        count: count_in(rest),
        elements: elements_in(rest),
    }
}

// Whether a geometry begins here, and each of its elements stands for a primitive.
#[tactic(auto, unfolding(crate::specs::Heads::geometry_in))]
pub(crate) fn is_sound(rest: &[u8]) -> bool
    ensures value { result ≡ is_some (geometry_in rest.now) }
    ensures whole { OnTrue result (is_whole rest.now ≡ true) }
{
    is_whole(rest) && has_shapes(rest)
}

// Whether each element of a geometry stands for a primitive.
#[tactic(auto, unfolding(crate::specs::Heads::shapes_in))]
fn has_shapes(rest: &[u8]) -> bool
    requires { is_whole rest.now ≡ true }
    ensures { result ≡ is_some (shapes_in rest.now) }
{
    stored(rest).is_sound()
}
