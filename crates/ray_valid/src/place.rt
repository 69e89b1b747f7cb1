ghost use Rattle.std.specs.Prelude.{◌≡◌, ◌<◌, ◌^◌, IfSome, option_map};
ghost use Rattle.ray_cmd.specs.declared.place.Place.TheVariants.{Part};
ghost use Rattle.ray_rules.specs.Places.{part_at, whole};

use ray_cmd::Place;

// In the command as a whole, where it is broken.
pub(crate) fn whole(broken: bool) -> Option<Place>
    ensures { result ≡ whole broken }
{
    if broken { Some(Place::Whole) } else { None }
}

// In a part, where it is broken.
pub(crate) fn part_at(number: u32, broken: bool) -> Option<Place>
    ensures { result ≡ part_at number broken }
{
    if broken {
        Some(Place::Part(number))
    } else {
        None
    }
}

// The part of this number, if there is one.
pub(crate) fn part(number: Option<usize>) -> Option<Place>
    requires { IfSome number (λ k. k < 2 ^ 32) }
    ensures { result ≡ option_map Part number }
{
    match number {
        Some(number) => Some(Place::Part(number as u32)),
        None => None,
    }
}
