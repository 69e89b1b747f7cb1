ghost use Rattle.std.specs.Prelude.{◌≡◌, IfOk, string_bytes};
ghost use Rattle.ray_crowds.specs.Pointers.{spot_text};

use crate::spot::Spot;
use ray_causes::member_text;
use std::alloc::{AllocError as NoMemory, Global};

/// A spot of command number `command` as a JSON pointer (RFC 6901), as `/8/infos/0/geometries`.
///
/// # Errors
///
/// For want of memory alone.
pub fn spot_text(alloc: Global, command: u32, spot: Spot) -> Result<String, NoMemory>
    ensures { IfOk result (λ text. string_bytes text ≡ spot_text command spot) }
{
    match spot {
        Spot::Member(member) => member_text(alloc, command, member),
        Spot::Counts => format!(in alloc; "/{command}/counts"),
        Spot::Count => format!(in alloc; "/{command}/count"),
        Spot::Infos => format!(in alloc; "/{command}/infos"),
        Spot::Geometries(info) => format!(in alloc; "/{command}/infos/{info}/geometries"),
        Spot::Geometry(info, geometry) => {
            format!(in alloc; "/{command}/infos/{info}/geometries/{geometry}")
        }
        Spot::Script => format!(in alloc; "/{command}/script"),
        Spot::Rule(rule) => format!(in alloc; "/{command}/script/{rule}"),
    }
}
