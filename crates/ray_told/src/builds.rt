ghost use Rattle.std.specs.Prelude.{◌≡◌, IfOk, string_bytes};
ghost use Rattle.ray_told.specs.Builds.{both_text, bottom_spot, bottom_text, kind_word, later_of};
ghost use Rattle.ray_told.specs.Builds.{misbuilt_spot, misbuilt_text, misbuilt_words};
ghost use Rattle.ray_told.specs.Builds.{other_kind_text, top_spot, top_text};

use ray_builds::{BottomFlaw, GeometryKind, Misbuilt, TopFlaw, Two};
use ray_crowds::{Spot, spot_text};
use std::alloc::{AllocError as NoMemory, Global};

/// What is told of that of which a structure is built: the spot, and what was compared. Own.
///
/// # Errors
///
/// For want of memory alone.
pub fn misbuilt_text(alloc: Global, command: u32, misbuilt: Misbuilt) -> Result<String, NoMemory>
    ensures { IfOk result (λ text. string_bytes text ≡ misbuilt_text command misbuilt) }
{
    let spot = spot_text(alloc, command, misbuilt_spot(misbuilt))?;
    let compared = misbuilt_words(alloc, misbuilt)?;
    format!(in alloc; "at: {spot}\ncompared: {compared}\n")
}

// The spot of a command by which it breaks the rule.
fn misbuilt_spot(misbuilt: Misbuilt) -> Spot
    ensures { result ≡ misbuilt_spot misbuilt }
{
    match misbuilt {
        Misbuilt::Top(info, flaw) => top_spot(info, flaw),
        Misbuilt::Bottom(info, flaw) => bottom_spot(info, flaw),
        Misbuilt::Counts(_) => Spot::Counts,
    }
}

// The same of the geometries of a top.
fn top_spot(info: u32, flaw: TopFlaw) -> Spot
    ensures { result ≡ top_spot info flaw }
{
    match flaw {
        TopFlaw::Count(_) => Spot::Geometries(info),
        TopFlaw::Of(_) => Spot::Geometry(info, 0),
    }
}

// The same of those of a bottom.
fn bottom_spot(info: u32, flaw: BottomFlaw) -> Spot
    ensures { result ≡ bottom_spot info flaw }
{
    match flaw {
        BottomFlaw::Instances(number) => Spot::Geometry(info, number),
        BottomFlaw::Both(two) => Spot::Geometry(info, later_of(two)),
    }
}

// The later of two geometries.
fn later_of(two: Two) -> u32
    ensures { result ≡ later_of two }
{
    if two.triangles < two.boxes {
        two.boxes
    } else {
        two.triangles
    }
}

// What was compared.
fn misbuilt_words(alloc: Global, misbuilt: Misbuilt) -> Result<String, NoMemory>
    ensures { IfOk result (λ text. string_bytes text ≡ misbuilt_words misbuilt) }
{
    match misbuilt {
        Misbuilt::Top(_, flaw) => top_text(alloc, flaw),
        Misbuilt::Bottom(_, flaw) => bottom_text(alloc, flaw),
        Misbuilt::Counts(count) => format!(in alloc; "{count} counts, and a top has one"),
    }
}

// The same of the geometries of a top.
fn top_text(alloc: Global, flaw: TopFlaw) -> Result<String, NoMemory>
    ensures { IfOk result (λ text. string_bytes text ≡ top_text flaw) }
{
    match flaw {
        TopFlaw::Count(count) => format!(in alloc; "{count} geometries, and a top is built of one"),
        TopFlaw::Of(kind) => other_kind_text(alloc, kind_word(kind)),
    }
}

// Geometry 0, of a kind that isn't wanted.
fn other_kind_text(alloc: Global, word: &str) -> Result<String, NoMemory>
    ensures { IfOk result (λ text. string_bytes text ≡ other_kind_text word.now) }
{
    format!(in alloc; "geometry 0 is of {word}, and a top is built of instances")
}

// A kind of geometries.
fn kind_word(kind: GeometryKind) -> &'static str
    ensures { result.now ≡ kind_word kind }
{
    match kind {
        GeometryKind::Triangles => "triangles",
        GeometryKind::Boxes => "boxes",
        GeometryKind::Instances => "instances",
    }
}

// The same of the geometries of a bottom.
fn bottom_text(alloc: Global, flaw: BottomFlaw) -> Result<String, NoMemory>
    ensures { IfOk result (λ text. string_bytes text ≡ bottom_text flaw) }
{
    match flaw {
        BottomFlaw::Instances(number) => {
            format!(in alloc;
                "geometry {number} is of instances, and a bottom is built of triangles or of boxes"
            )
        }
        BottomFlaw::Both(two) => both_text(alloc, two),
    }
}

// Two geometries of two kinds.
fn both_text(alloc: Global, two: Two) -> Result<String, NoMemory>
    ensures { IfOk result (λ text. string_bytes text ≡ both_text two) }
{
    let triangles = two.triangles;
    let boxes = two.boxes;
    format!(in alloc;
        "geometry {triangles} is of triangles and geometry {boxes} of boxes, and a bottom is \
         built of one kind"
    )
}
