ghost use Rattle.std.specs.Prelude.{◌≡◌, ◌∷◌, ◌++◌, ◌||◌, [], ℕ, IfOk, IfSome, true};
ghost use Rattle.std.specs.Option.{option_to_list};
ghost use Rattle.ray_hazards.specs.Cells.{has_cell};
ghost use Rattle.ray_hazards.specs.Reaching.{GoesOn, ReachSame};

use crate::cells::Cells;
use crate::lane::same_access;
use ray_access::Touched;
use ray_ranges::Range;
use std::alloc::{AllocError as NoMemory, Global};

// Touches that reach the same cells as these, as few as go in a row: those of one access to one
// thing are put together where no cell stands between them.
pub(crate) fn merged(
    alloc: Global,
    mut touches: Vec<Touched>,
    cells: &Cells,
) -> Result<Vec<Touched>, NoMemory>
    ensures { IfOk result (λ merged. ReachSame cells.now touches.items merged.items) }
{
    touches.sort_unstable_by_key(|touch| touch.range.from);
    let few = merged_in_a_row(alloc, touches.as_slice(), cells)?;
    Ok(few)
}

// The same of touches that are put together in the order in which they stand.
fn merged_in_a_row(
    alloc: Global,
    touches: &[Touched],
    cells: &Cells,
) -> Result<Vec<Touched>, NoMemory>
    ensures { IfOk result (λ merged. ReachSame cells.now touches.now merged.items) }
{
    let mut merged = Vec::new(alloc);
    let mut last = None;
    for touch in touches {
        last = Some(next_of(&mut merged, last, *touch, cells)?);
    }
    let whole = with_last(merged, last)?;
    Ok(whole)
}

// Touches, and then the last one, where there is one.
fn with_last(mut merged: Vec<Touched>, last: Option<Touched>) -> Result<Vec<Touched>, NoMemory>
    ensures { IfOk result (λ whole. whole.items ≡ merged.items ++ option_to_list last) }
{
    if let Some(last) = last {
        merged.push(last)?;
    }
    Ok(merged)
}

// The touch that goes on after the last one and one more: both in one, or the latter, and then the
// last one is put behind those that are done.
fn next_of(
    merged: &mut Vec<Touched>,
    last: Option<Touched>,
    touch: Touched,
    cells: &Cells,
) -> Result<Touched, NoMemory>
    ensures { IfOk result (λ next. GoesOn cells.now merged.old.items last touch merged.new.items next) }
{
    let Some(last) = last else {
        return Ok(touch);
    };
    match joined(&last, &touch, cells) {
        Some(both) => Ok(both),
        None => {
            merged.push(last)?;
            Ok(touch)
        }
    }
}

// Two touches in one, where they are by one access to one thing and no cell stands between them.
fn joined(last: &Touched, next: &Touched, cells: &Cells) -> Option<Touched>
    ensures { IfSome result (λ both. ReachSame cells.now (last.now ∷ next.now ∷ []) (both ∷ [])) }
{
    if !same_access(next.access, last.access) || !same_thing(next.buffer, last.buffer) {
        return None;
    }
    let range = joined_range(last.range, next.range, cells)?;
    Some(Touched {
        access: last.access,
        range,
        buffer: last.buffer,
    })
}

// Two ranges in one, where no cell stands between them.
fn joined_range(last: Range, next: Range, cells: &Cells) -> Option<Range>
    ensures { IfSome result (λ both. (c : ℕ) → has_cell cells.now both c
        ≡ (has_cell cells.now last c || has_cell cells.now next c)) }
{
    let from = cells.at(last.from);
    let end = cells.at(last.end);
    let next_from = cells.at(next.from);
    let next_end = cells.at(next.end);
    if next_from < from || end < next_from {
        return None;
    }
    let later = if end < next_end { next.end } else { last.end };
    Some(Range {
        from: last.from,
        end: later,
    })
}

// Whether two things are one.
fn same_thing(one: Option<u32>, other: Option<u32>) -> bool
    ensures { result ≡ true → one ≡ other }
{
    one == other
}
