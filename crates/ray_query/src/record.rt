ghost use Rattle.std.specs.Prelude.{◌≡◌};
ghost use Rattle.ray_query.specs.Record.{record_of, face_word, kind_word};

use crate::commit::Commit;
use ray_bytes::HitRecord;
use ray_flags::Kind;

/// The record of a committed hit, and of none that of a miss, which is all zero. (Own: the layout.)
pub fn record_of(c: Option<Commit>) -> HitRecord
    ensures { result ≡ record_of c }
{
    match c {
        Some(commit) => HitRecord {
            kind: kind_word(commit.found.kind),
            instance: commit.found.instance,
            custom: commit.found.custom,
            sbt: commit.found.sbt,
            geometry: commit.found.geometry,
            primitive: commit.found.primitive,
            face: face_word(commit.found.kind, commit.found.front),
            spare: 0,
            t: commit.t.lowest(),
            u: commit.found.u.lowest(),
            v: commit.found.v.lowest(),
        },
        None => HitRecord::MISS,
    }
}

// The number of a kind in a record.
fn kind_word(kind: Kind) -> u32
    ensures { result ≡ kind_word kind }
{
    match kind {
        Kind::Triangle => 1,
        Kind::Aabb => 2,
    }
}

// The number of a face in a record.
fn face_word(kind: Kind, front: bool) -> u32
    ensures { result ≡ face_word kind front }
{
    match (kind, front) {
        (Kind::Triangle, true) => 1,
        (Kind::Triangle, false) => 2,
        (Kind::Aabb, _) => 0,
    }
}
