//! The boxes of all nodes, as the closed table has them.
ghost use Rattle.std.specs.Prelude.{◌≡◌, ◌<◌, IfOk, length};
ghost use Rattle.std.specs.Slots.{slots_items, slots_len, IsFull};
ghost use Rattle.ray_geom.specs.Boxes.{IsBox, box_value};
ghost use Rattle.ray_climb.specs.Halves.{corner_of};
ghost use Rattle.ray_climb.specs.Refits.{box_over};
ghost use Rattle.ray_climb.specs.Rule.{words_of};
ghost use Rattle.ray_climb.specs.Ready.{IsReady, AreExact, AreTrue};

use crate::half::corner;
use crate::refit::Refit;
use atomic_table::Closed;
use ray_geom::Box3;
use std::alloc::{AllocError as NoMemory, Global};

// The box of two halves.
fn box_of(low: u64, high: u64) -> Box3
    requires { IsBox (box_value (corner_of low) (corner_of high)) }
    ensures { result ≡ box_value (corner_of low) (corner_of high) }
{
    Box3::of_corners(corner(low), corner(high))
}

// The box of a node.
fn node_box(closed: &Closed<(), Global>, refit: &Refit, n: u32) -> Box3
    requires small { n < length refit.now.tree.nodes }
    requires ready { IsReady refit.now }
    requires full { IsFull closed.now.words }
    requires long { slots_len closed.now.words ≡ words_of (length refit.now.tree.nodes) }
    requires exact { AreExact (slots_items closed.now.words) refit.now }
    ensures { result ≡ box_over refit.now n }
{
    let low = closed.word(3 * n as usize + 1);
    let high = closed.word(3 * n as usize + 2);
    box_of(low, high)
}

// The boxes of all nodes.
pub(crate) fn boxes_of(
    alloc: Global,
    closed: &Closed<(), Global>,
    refit: &Refit,
) -> Result<Vec<Box3>, NoMemory>
    requires ready { IsReady refit.now }
    requires full { IsFull closed.now.words }
    requires long { slots_len closed.now.words ≡ words_of (length refit.now.tree.nodes) }
    requires exact { AreExact (slots_items closed.now.words) refit.now }
    ensures { IfOk result (λ v. AreTrue refit.now v.items (length refit.now.tree.nodes)) }
{
    let mut boxes = Vec::with_capacity(alloc, refit.nodes() as usize)?;
    for n in 0..refit.nodes() {
        boxes.push(node_box(closed, refit, n))?;
    }
    Ok(boxes)
}
