ghost use Rattle.std.specs.Prelude.{◌≡◌, [], IfOk, string_bytes};
ghost use Rattle.std.specs.Option.{option_map_or};
ghost use Rattle.ray_clash.specs.Telling.{clash_text};
ghost use Rattle.ray_told.specs.Clashes.{clash_told, earlier_in};

use ray_clash::{Clash, clash_text};
use ray_cmd::{Place, Refusal};
use std::alloc::{AllocError as NoMemory, Global};

/// What is told of a command that is at odds with an earlier one, where it is told. Own.
///
/// # Errors
///
/// For want of memory alone.
pub fn clash_told(
    alloc: Global,
    refusal: Refusal,
    clash: &Option<Clash>,
) -> Result<String, NoMemory>
    ensures { IfOk result (λ text. string_bytes text ≡ clash_told refusal clash.now) }
{
    match clash {
        Some(clash) => clash_with(alloc, refusal.command, refusal.place, clash),
        None => Ok(String::new(alloc)),
    }
}

// The same of a command, and of the place that names the earlier one.
fn clash_with(alloc: Global, command: u32, place: Place, clash: &Clash) -> Result<String, NoMemory>
    ensures { IfOk result (λ text. string_bytes text
        ≡ option_map_or (λ i. clash_text i command clash.now) (earlier_in place) []) }
{
    match place {
        Place::Earlier(earlier) => clash_text(alloc, earlier, command, clash),
        _ => Ok(String::new(alloc)),
    }
}
