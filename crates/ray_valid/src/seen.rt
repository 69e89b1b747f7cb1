ghost use Rattle.std.specs.Prelude.{◌≡◌, ◌+◌, ◌<◌, ◌≤◌, ◌^◌, [], ◌∷◌, OnOk, false};
ghost use Rattle.std.specs.List.{list_any};
ghost use Rattle.std.specs.Option.{option_map_or};
ghost use Rattle.ray_ranges.specs.Apart.{HaveTheSame};
ghost use Rattle.ray_ranges.specs.Meeting.{meets_any};
ghost use Rattle.ray_rules.specs.Ranges.{scratch_range};
ghost use Rattle.ray_valid.specs.Parts.{HasAdded, has_id, is_met, reads_any, reads_by, scratch_addresses};

use ray_cmd::Info;
use ray_ranges::{DisjointRanges, Range};
use ray_status::scratch_range;
use std::alloc::{AllocError as NoMemory, Global};
use std::collections::BTreeSet;

/// What infos write, read and take, so that a question whether one more conflicts with them takes
/// log n steps. Own.
#[derive(Drop)]
pub(crate) struct Seen {
    /// The structures that they write.
    written: BTreeSet<u32>,
    /// The structures that they read: sources of updates, and those that instances may refer to.
    read: BTreeSet<u32>,
    /// The addresses of their scratch memory.
    scratch: DisjointRanges,
}

impl Seen {
    /// What no infos write, read and take.
    pub(crate) fn new(alloc: Global) -> Seen
        ensures written { result.written.keys ≡ [] }
        ensures read { result.read.keys ≡ [] }
        ensures scratch { result.scratch ≡ [] }
    {
        Seen {
            written: BTreeSet::new(alloc),
            read: BTreeSet::new(alloc),
            scratch: DisjointRanges::new(alloc),
        }
    }

    /// Whether an info conflicts with one of these infos.
    pub(crate) fn is_met(&self, info: &Info) -> bool
        ensures value { result ≡
            is_met self.now.written.keys self.now.read.keys self.now.scratch info.now }
        ensures fits { (scratch_range info.now).from + (scratch_range info.now).size ≤ 2 ^ 66 }
    {
        let scratch = addresses(info);
        has(&self.written, info.dst)
            || reads_any(info, &self.written)
            || has(&self.read, info.dst)
            || self.scratch.meets(scratch)
    }

    /// Takes one more info into account, whose scratch memory is apart from that of these.
    pub(crate) fn add(&mut self, info: &Info) -> Result<(), NoMemory>
        requires { meets_any self.old.scratch (scratch_addresses info.now) ≡ false }
        ensures written { OnOk result
            (HasAdded (λ test. test info.now.dst) self.old.written.keys self.new.written.keys) }
        ensures read { OnOk result
            (HasAdded (λ test. reads_by test info.now) self.old.read.keys self.new.read.keys) }
        ensures scratch { OnOk result
            (HaveTheSame self.new.scratch (scratch_addresses info.now ∷ self.old.scratch)) }
    {
        put(&mut self.written, info.dst)?;
        put_read(&mut self.read, info)?;
        self.scratch.add(addresses(info))
    }
}

// The addresses of the scratch memory of an info: each buffer has its own.
fn addresses(info: &Info) -> Range
    ensures value { result ≡ scratch_addresses info.now }
    ensures some { result.from < result.end }
    ensures fits { (scratch_range info.now).from + (scratch_range info.now).size ≤ 2 ^ 66 }
{
    let range = scratch_range(info);
    let from = (u128::from(range.buffer) << 66) + range.from;
    Range {
        from,
        end: from + range.size,
    }
}

// Whether an id is one of a set.
pub(crate) fn has(ids: &BTreeSet<u32>, id: u32) -> bool
    ensures { result ≡ has_id ids.now.keys id }
{
    ids.contains(&id)
}

// Whether an info reads a structure whose id is one of a set.
fn reads_any(info: &Info, ids: &BTreeSet<u32>) -> bool
    ensures { result ≡ reads_any ids.now.keys info.now }
{
    has_source(info.src, ids) || has_one(info.uses.as_slice(), ids)
}

// Whether the source of an update, where there is one, is one of a set.
fn has_source(src: Option<u32>, ids: &BTreeSet<u32>) -> bool
    ensures { result ≡ option_map_or (has_id ids.now.keys) src false }
{
    match src {
        Some(src) => has(ids, src),
        None => false,
    }
}

// Whether one of these ids is one of a set.
fn has_one(uses: &[u32], ids: &BTreeSet<u32>) -> bool
    ensures { result ≡ list_any (has_id ids.now.keys) uses.now }
{
    uses.iter().any(|id| has(ids, *id))
}

// Puts one more id into a set.
pub(crate) fn put(ids: &mut BTreeSet<u32>, id: u32) -> Result<(), NoMemory>
    ensures { OnOk result (HasAdded (λ test. test id) ids.old.keys ids.new.keys) }
{
    ids.insert(id)?;
    Ok(())
}

// Puts those ids that an info reads into a set.
fn put_read(ids: &mut BTreeSet<u32>, info: &Info) -> Result<(), NoMemory>
    ensures { OnOk result (HasAdded (λ test. reads_by test info.now) ids.old.keys ids.new.keys) }
{
    put_all(ids, info.uses.as_slice())?;
    put_if(ids, info.src)
}

// Puts an id, where there is one, into a set.
fn put_if(ids: &mut BTreeSet<u32>, id: Option<u32>) -> Result<(), NoMemory>
    ensures { OnOk result (HasAdded (λ test. option_map_or test id false) ids.old.keys ids.new.keys) }
{
    match id {
        Some(id) => put(ids, id),
        None => Ok(()),
    }
}

// Puts these ids into a set.
fn put_all(ids: &mut BTreeSet<u32>, uses: &[u32]) -> Result<(), NoMemory>
    ensures { OnOk result (HasAdded (λ test. list_any test uses.now) ids.old.keys ids.new.keys) }
{
    for id in uses {
        put(ids, *id)?;
    }
    Ok(())
}
