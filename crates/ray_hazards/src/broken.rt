ghost use Rattle.std.specs.Prelude.{◌≡◌, None};
ghost use Rattle.std.specs.Option.{option_map};
ghost use Rattle.ray_cmd.specs.declared.place.Place.TheVariants.{Earlier};
ghost use Rattle.ray_rules.specs.Refusals.{or_later};
ghost use Rattle.ray_hazards.specs.Lasts.{last_number};

use ray_cmd::{Place, Refusal, Rule};

/// The last command as a place, where there is one: `last` is one more than its number, or 0.
pub fn earlier(last: u32) -> Option<Place>
    ensures { result ≡ option_map Earlier (last_number last) }
{
    if last == 0 {
        None
    } else {
        Some(Place::Earlier(last - 1))
    }
}

/// The refusal of command number `n` by the least of V25, V26, V27 and V32 that is broken, where
/// any is.
pub fn least(
    n: u32,
    read: Option<Place>,
    written: Option<Place>,
    overwritten: Option<Place>,
    shown: Option<Place>,
) -> Option<Refusal>
    ensures { result ≡ or_later n 25 read
        (or_later n 26 written (or_later n 27 overwritten (or_later n 32 shown None))) }
{
    let host = or_later(n, 32, shown, None);
    let order = or_later(n, 27, overwritten, host);
    let write = or_later(n, 26, written, order);
    or_later(n, 25, read, write)
}

// The refusal of command number `n` by a rule where it is broken, and else by the later ones.
fn or_later(n: u32, number: u8, place: Option<Place>, later: Option<Refusal>) -> Option<Refusal>
    ensures { result ≡ or_later n number place later }
{
    match place {
        Some(place) => Some(Refusal {
            command: n,
            rule: Rule::V(number),
            place,
        }),
        None => later,
    }
}
