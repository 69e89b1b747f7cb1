ghost use Rattle.std.specs.Prelude.{◌≡◌, IfOk, string_bytes};
ghost use Rattle.ray_told.specs.Crowds.{count_text, crowd_spot, crowd_text, crowd_words};
ghost use Rattle.ray_told.specs.Crowds.{distance_text, script_spot, script_text};

use ray_causes::{Member, Name};
use ray_crowds::{Count, Crowd, Distance, OfScript, Spot, spot_text};
use std::alloc::{AllocError as NoMemory, Global};

/// What is told of that of which a command has too much: the spot, and what was compared. Own.
///
/// # Errors
///
/// For want of memory alone.
pub fn crowd_text(alloc: Global, command: u32, crowd: Crowd) -> Result<String, NoMemory>
    ensures { IfOk result (λ text. string_bytes text ≡ crowd_text command crowd) }
{
    let spot = spot_text(alloc, command, crowd_spot(crowd))?;
    let compared = crowd_words(alloc, crowd)?;
    format!(in alloc; "at: {spot}\ncompared: {compared}\n")
}

// Where they are counted.
fn crowd_spot(crowd: Crowd) -> Spot
    ensures { result ≡ crowd_spot crowd }
{
    match crowd {
        Crowd::Entries(spot, _) => spot,
        Crowd::Primitives(spot, _) => spot,
        Crowd::Structures(_) => Spot::Member(Member::Own(Name::Id)),
        Crowd::Rays(_) => Spot::Count,
        Crowd::OfScript(wrong) => script_spot(wrong),
    }
}

// Where a script is wrong.
fn script_spot(wrong: OfScript) -> Spot
    ensures { result ≡ script_spot wrong }
{
    match wrong {
        OfScript::Rules(_) => Spot::Script,
        OfScript::Distance(rule, _) => Spot::Rule(rule),
    }
}

// What was compared.
fn crowd_words(alloc: Global, crowd: Crowd) -> Result<String, NoMemory>
    ensures { IfOk result (λ text. string_bytes text ≡ crowd_words crowd) }
{
    match crowd {
        Crowd::Entries(_, count) => count_text(alloc, count, "entries"),
        Crowd::Primitives(_, count) => count_text(alloc, count, "primitives"),
        Crowd::Structures(count) => count_text(alloc, count, "live structures"),
        Crowd::Rays(count) => count_text(alloc, count, "rays"),
        Crowd::OfScript(wrong) => script_text(alloc, wrong),
    }
}

// What of a script isn't allowed.
fn script_text(alloc: Global, wrong: OfScript) -> Result<String, NoMemory>
    ensures { IfOk result (λ text. string_bytes text ≡ script_text wrong) }
{
    match wrong {
        OfScript::Rules(count) => count_text(alloc, count, "rules"),
        OfScript::Distance(_, distance) => distance_text(alloc, distance),
    }
}

// So many of something.
fn count_text(alloc: Global, count: Count, word: &str) -> Result<String, NoMemory>
    ensures { IfOk result (λ text. string_bytes text ≡ count_text count word.now) }
{
    let number = count.number;
    let most = count.most;
    format!(in alloc; "{number} {word}, and at most {most} may be")
}

// A distance.
fn distance_text(alloc: Global, distance: Distance) -> Result<String, NoMemory>
    ensures { IfOk result (λ text. string_bytes text ≡ distance_text distance) }
{
    let num = distance.num;
    let den = distance.den;
    format!(in alloc;
        "num {num} and den {den}, which may be at most 1099511627776 and from 1 to 65536"
    )
}
