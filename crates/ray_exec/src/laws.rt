ghost use Rattle.ray_exec.specs.Laws.{TracesCanBegin};

use ray_cmd::Recording;
use ray_ready::kept_are_accepted;

/// A law: before a trace, where the commands before it were run and it and they keep the rules V1
/// to V24 and V28 to V31, its top structure is there, and so are its first rays and the structures
/// of its instances, as they were when it was built or last updated. It does nothing. Own.
pub fn traces_can_begin(rec: &Recording)
    ensures { TracesCanBegin rec.now }
{
    kept_are_accepted(rec);
}
