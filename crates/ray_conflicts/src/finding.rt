ghost use Rattle.std.specs.Prelude.{◌<◌, IfSome, length};
ghost use Rattle.ray_conflicts.specs.Conflicts.{IsConflictAt};

use crate::conflict::Conflict;
use crate::listing::first_conflict;
use ray_cmd::{Recording, Refusal};

/// Which parts of the command of a refusal conflict, where its rule is V16. Own.
pub fn conflict_of(rec: &Recording, refusal: Refusal) -> Option<Conflict>
    ensures { IfSome result (λ conflict. IsConflictAt rec.now refusal conflict) }
{
    if rec.len() <= refusal.command {
        None
    } else {
        conflict_here(rec, refusal)
    }
}

// The same where the recording has the command.
fn conflict_here(rec: &Recording, refusal: Refusal) -> Option<Conflict>
    requires there { refusal.command < length rec.now }
    ensures { IfSome result (λ conflict. IsConflictAt rec.now refusal conflict) }
{
    let command = rec.command(refusal.command);
    first_conflict(command, refusal)
}
