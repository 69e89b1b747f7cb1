ghost use Rattle.std.specs.Prelude.{◌≡◌, ◌<◌, [], ◌∷◌, false, true, length};
ghost use Rattle.std.specs.Prelude.{OnOk, OnErr, IfSome, IfNone, Some, is_some};
ghost use Rattle.std.specs.List.{find};
ghost use Rattle.ray_ranges.specs.Apart.{HaveTheSame, begins_at, without};
ghost use Rattle.ray_ranges.specs.Meeting.{meets, meets_any, HasNoMore};
ghost use Rattle.ray_ranges.specs.Sweep.{HasAlso};

use crate::range::Range;
use std::alloc::{AllocError as NoMemory, Global};
use std::collections::BTreeMap;
use std::marker::Model;

/// A set of ranges none of which is empty or meets another. Contracts see it as the list of its
/// ranges in order.
#[derive(Drop)]
pub struct DisjointRanges {
    ends: BTreeMap<u128, u128>,
}

impl Model for DisjointRanges {
    ghost use Rattle.std.specs.Prelude.{List, map};
    ghost use Rattle.ray_ranges.specs.declared.range.Range.{Range};
    ghost use Rattle.ray_ranges.specs.Apart.{AreApart, range_of};

    ghost Value = { List Range };

    ghost view = { λ s. map range_of s.ends.entries };

    ghost invariant = { λ s. AreApart 0 (map range_of s.ends.entries) };
}

impl DisjointRanges {
    /// The set of no ranges.
    pub fn new(alloc: Global) -> DisjointRanges
        ensures { result ≡ [] }
    {
        DisjointRanges {
            ends: BTreeMap::new(alloc),
        }
    }

    /// Whether the range meets one of the set.
    pub fn meets(&self, range: Range) -> bool
        ensures { result ≡ meets_any self.now range }
    {
        self.met(range).is_some()
    }

    // The last range of the set that begins below the end of this one, where the two meet.
    fn met(&self, range: Range) -> Option<Range>
        ensures any { is_some result ≡ meets_any self.now range }
        ensures met { IfSome result (λ r. meets range r ≡ true) }
        ensures found { IfSome result (λ r. find (begins_at r.from) self.now ≡ Some r) }
    {
        let (from, end) = self.ends.range(..range.end).next_back()?;
        let last = Range {
            from: *from,
            end: *end,
        };
        if range.meets(last) { Some(last) } else { None }
    }

    /// Puts one more range into the set, which isn't empty and meets none. After an error the set
    /// is as before.
    pub fn add(&mut self, range: Range) -> Result<(), NoMemory>
        requires some { range.from < range.end }
        requires free { meets_any self.old range ≡ false }
        ensures ranges { OnOk result (HaveTheSame self.new (range ∷ self.old)) }
        ensures err { OnErr result (self.new ≡ self.old) }
    {
        self.ends.insert(range.from, range.end)?;
        Ok(())
    }

    // Puts the numbers of a range that meets none into the set: none, where it is empty.
    pub(crate) fn put(&mut self, range: Range) -> Result<(), NoMemory>
        requires { meets_any self.old range ≡ false }
        ensures { OnOk result (HasAlso range self.old self.new) }
    {
        if range.from < range.end {
            self.add(range)
        } else {
            Ok(())
        }
    }

    // Puts the numbers of the range into the set: those ranges that it meets become one with it.
    // After an error some of these are gone.
    pub(crate) fn cover(&mut self, range: Range) -> Result<(), NoMemory>
        ensures { OnOk result (HasAlso range self.old self.new) }
    {
        if range.end <= range.from {
            return Ok(());
        }
        let mut whole = range;
        while let Some(part) = self.take_met(whole) {
            whole = whole.joined(part);
        }
        self.add(whole)
    }

    // Takes out a range that meets this one.
    fn take_met(&mut self, range: Range) -> Option<Range>
        ensures none { IfNone result ((self.new ≡ self.old) × (meets_any self.old range ≡ false)) }
        ensures met { IfSome result (λ r. meets range r ≡ true) }
        ensures numbers { IfSome result (λ r. HasAlso r self.new self.old) }
        ensures fewer { IfSome result (λ _. length self.new < length self.old) }
    {
        let met = self.met(range)?;
        self.remove(met.from);
        Some(met)
    }

    /// Takes out the range that begins at `from`, if there is one.
    pub fn remove(&mut self, from: u128) -> Option<Range>
        ensures removed { result ≡ find (begins_at from) self.old }
        ensures left { self.new ≡ without from self.old }
        ensures numbers { IfSome result (λ r. HasNoMore r self.old self.new) }
        ensures fewer { IfSome result (λ _. length self.new < length self.old) }
    {
        let end = self.ends.remove(&from)?;
        Some(Range { from, end })
    }
}
