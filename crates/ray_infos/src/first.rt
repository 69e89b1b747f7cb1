ghost use Rattle.std.specs.Prelude.{◌≡◌, ◌<◌, ◌^◌, IfSome, option_map};
ghost use Rattle.ray_cmd.specs.declared.place.Place.TheVariants.{Part};

use ray_cmd::Place;

// The part of this number, if there is one.
pub(crate) fn part(number: Option<usize>) -> Option<Place>
    requires { IfSome number (λ k. k < 2 ^ 32) }
    ensures { result ≡ option_map Part number }
{
    match number {
        Some(number) => Some(Place::Part(number as u32)),
        None => None,
    }
}
