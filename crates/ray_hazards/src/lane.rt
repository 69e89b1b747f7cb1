ghost use Rattle.std.specs.Prelude.{◌≡◌, ◌≤◌, ℕ, OnOk, length, max};
ghost use Rattle.ray_marks.specs.Rising.{mark_of};
ghost use Rattle.ray_hazards.specs.Lasts.{has_it, is_by, marked_if, same_access};

use crate::cells::Cells;
use ray_access::Touched;
use ray_marks::Marks;
use ray_rules::AccessType;
use std::alloc::{AllocError as NoMemory, Global};

// The greater of two numbers.
pub(crate) fn greater(a: u32, b: u32) -> u32
    ensures { result ≡ max a b }
{
    if a < b { b } else { a }
}

// Whether two accesses are one.
pub(crate) fn same_access(one: AccessType, other: AccessType) -> bool
    ensures { result ≡ same_access one other }
{
    one == other
}

// Marks the cells of those touches that are by an access.
pub(crate) fn mark_writes(
    marks: &mut Marks,
    alloc: Global,
    cells: &Cells,
    touches: &[Touched],
    access: AccessType,
    value: u32,
) -> Result<(), NoMemory>
    requires cells { length marks.old ≡ length cells.now }
    requires rising { (c : ℕ) → mark_of marks.old c ≤ value }
    ensures cells { length marks.new ≡ length marks.old }
    ensures marks { OnOk result ((c : ℕ) → mark_of marks.new c
        ≡ marked_if (is_by cells.now access) touches.now value (mark_of marks.old c) c) }
{
    for touch in touches {
        if same_access(touch.access, access) {
            let end = cells.at(touch.range.end);
            marks.mark(alloc, cells.at(touch.range.from), end, value)?;
        }
    }
    Ok(())
}

// Marks the cells of touches.
pub(crate) fn mark_reads(
    marks: &mut Marks,
    alloc: Global,
    cells: &Cells,
    touches: &[Touched],
    value: u32,
) -> Result<(), NoMemory>
    requires cells { length marks.old ≡ length cells.now }
    requires rising { (c : ℕ) → mark_of marks.old c ≤ value }
    ensures cells { length marks.new ≡ length marks.old }
    ensures marks { OnOk result ((c : ℕ) → mark_of marks.new c
        ≡ marked_if (has_it cells.now) touches.now value (mark_of marks.old c) c) }
{
    for touch in touches {
        let end = cells.at(touch.range.end);
        marks.mark(alloc, cells.at(touch.range.from), end, value)?;
    }
    Ok(())
}
