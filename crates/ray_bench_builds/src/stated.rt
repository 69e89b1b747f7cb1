ghost use Rattle.std.specs.Prelude.{◌≤◌, ◌^◌, length};

use crate::size::Size;
use ray_geom::{Box3, Vec3};
use ray_stated::{StoredNode, build_stated, store, tree_of};
use ray_tree::{Tree, build_median};
use std::alloc::{AllocError, Global};

// How many items a tree has at most.
const MOST_ITEMS: usize = 1 << 20;

/// How boxes are spread. (Own.)
#[derive(Clone, Copy, Debug, PartialEq, Eq)]
pub(crate) enum Spread {
    /// At random places, all of one size.
    Random,
    /// All in one place.
    Equal,
}

/// How a tree over boxes is built. (Own.)
#[derive(Clone, Copy, Debug, PartialEq, Eq)]
pub(crate) enum Order {
    /// By halves, in any order.
    Median,
    /// As the stated tree.
    Stated,
}

/// As many boxes as the triangles of the field of a size, spread so.
pub(crate) fn spread_boxes(
    alloc: Global,
    size: Size,
    spread: Spread,
) -> Result<Vec<Option<Box3>>, AllocError> {
    let mut items = Vec::new(alloc);
    let mut state: u32 = 1;
    for _ in 0..2 * size.columns() * size.rows() {
        let x = next(state);
        let y = next(x);
        let z = next(y);
        state = z;
        items.push(match spread {
            Spread::Random => cube(x, y, z),
            Spread::Equal => cube(0, 0, 0),
        })?;
    }
    Ok(items)
}

// The number after another one, by a linear congruence.
fn next(state: u32) -> u32 {
    state.wrapping_mul(1_664_525).wrapping_add(1_013_904_223)
}

// A cube at the upper bits of three numbers.
fn cube(x: u32, y: u32, z: u32) -> Option<Box3> {
    let (x, y, z) = (i64::from(x >> 13), i64::from(y >> 13), i64::from(z >> 13));
    let hi = Vec3 {
        x: x + 8,
        y: y + 8,
        z: z + 8,
    };
    Box3::new(Vec3 { x, y, z }, hi)
}

/// The tree over the first boxes, of at most 2^20.
#[inline(never)]
pub(crate) fn ordered_tree(
    alloc: Global,
    order: Order,
    items: &[Option<Box3>],
) -> Result<Tree, AllocError> {
    let items = &items[..items.len().min(MOST_ITEMS)];
    match order {
        Order::Median => build_median(alloc, items),
        Order::Stated => build_stated(alloc, items),
    }
}

/// How many leaves the tree over the first boxes has that is read, so often, from what is stored of
/// the stated one; 0 where it isn't read.
pub(crate) fn carried(
    alloc: Global,
    items: &[Option<Box3>],
    times: u32,
) -> Result<u32, AllocError> {
    let tree = ordered_tree(alloc, Order::Stated, items)?;
    let nodes = store(alloc, &tree)?;
    let mut leaves = 0;
    for _ in 0..times {
        leaves = leaves_of(alloc, nodes.as_slice(), tree.order(), items);
    }
    Ok(leaves)
}

// How many leaves the tree has that nodes and an order carry over the first boxes; 0 where they
// carry none.
#[inline(never)]
fn leaves_of(alloc: Global, nodes: &[StoredNode], order: &[u32], items: &[Option<Box3>]) -> u32 {
    match tree_of(alloc, nodes, order, &items[..items.len().min(MOST_ITEMS)]) {
        Ok(tree) => tree.leaves(),
        Err(_) => 0,
    }
}

/// How many of three spellings carry no tree over the first boxes, each read so often: nodes that
/// go down to the left alone, nodes whose right children are beyond the end, and those of the
/// stated tree with an order that has one item throughout.
pub(crate) fn hostile(
    alloc: Global,
    items: &[Option<Box3>],
    times: u32,
) -> Result<u32, AllocError> {
    let tree = ordered_tree(alloc, Order::Stated, items)?;
    let nodes = store(alloc, &tree)?;
    let chain = linked(alloc, nodes.as_slice(), 2)?;
    let beyond = linked(alloc, nodes.as_slice(), u32::MAX)?;
    let one = vec![in alloc; 0_u32; tree.order().len()]?;
    let mut refused: u32 = 0;
    for _ in 0..times {
        for (spelled, order) in [
            (chain.as_slice(), tree.order()),
            (beyond.as_slice(), tree.order()),
            (nodes.as_slice(), one.as_slice()),
        ] {
            if leaves_of(alloc, spelled, order, items) == 0 {
                refused = refused.saturating_add(1);
            }
        }
    }
    Ok(refused)
}

// As many nodes, of which each is an inner one with this link.
fn linked(alloc: Global, nodes: &[StoredNode], link: u32) -> Result<Vec<StoredNode>, AllocError> {
    let mut changed = Vec::with_capacity(alloc, nodes.len())?;
    for node in nodes {
        changed.push(StoredNode {
            bounds: node.bounds,
            count: 0,
            link,
        })?;
    }
    Ok(changed)
}
