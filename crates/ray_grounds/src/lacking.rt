ghost use Rattle.std.specs.Prelude.{◌≡◌};
ghost use Rattle.ray_flags.specs.Flags.{AllowCompaction, AllowUpdate};
ghost use Rattle.ray_rules.specs.Sources.{was_built_without};
ghost use Rattle.ray_grounds.specs.Origins.{is_lacking};

use crate::origin::Lack;
use bitflags::Flags;
use ray_cmd::{BuildFlags, Recording};
use ray_status::{Status, info_at, is_deserialized_at};

// Whether the structure of an id lacks this.
pub(crate) fn is_lacking(rec: &Recording, status: &Status, lack: Lack, id: u32) -> bool
    ensures { result ≡ is_lacking rec.now status.now lack id }
{
    match lack {
        Lack::Update => lacks_update(rec, status, id),
        Lack::Compaction => lacks_compaction(rec, status, id),
        Lack::Build => is_deserialized_at(rec, status, id),
    }
}

// Whether it was last built or updated without `allow_update`.
fn lacks_update(rec: &Recording, status: &Status, id: u32) -> bool
    ensures { result ≡ was_built_without rec.now status.now AllowUpdate id }
{
    match info_at(rec, status, id) {
        Some(info) => !info.flags.contains(BuildFlags::ALLOW_UPDATE),
        None => false,
    }
}

// Whether it was last built or updated without `allow_compaction`.
fn lacks_compaction(rec: &Recording, status: &Status, id: u32) -> bool
    ensures { result ≡ was_built_without rec.now status.now AllowCompaction id }
{
    match info_at(rec, status, id) {
        Some(info) => !info.flags.contains(BuildFlags::ALLOW_COMPACTION),
        None => false,
    }
}
