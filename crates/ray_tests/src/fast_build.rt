use ray_geom::{Box3, Vec3};
use ray_morton::build_fast;
use ray_tree::{Node, Tree};
use std::alloc::{AllocError as NoMemory, Global};
use std::thread::Threads;

// The box of a point.
fn dot(x: i64, y: i64, z: i64) -> Option<Box3> {
    let v = Vec3 { x, y, z };
    Box3::new(v, v)
}

// Whether the items of the places of a leaf are these, from a number on, and how many there are.
fn leaf_has(tree: &Tree, node: u32, wanted: &[u32]) -> Option<usize> {
    if node >= tree.nodes() {
        return None;
    }
    let Node::Leaf { first, count } = tree.node(node) else {
        return None;
    };
    for k in 0..count {
        let at = first.checked_add(k)?;
        if wanted.get(k as usize) != Some(&tree.item(at)) {
            return None;
        }
    }
    Some(count as usize)
}

// Whether the items from the leftmost leaf on are these.
fn has_order(tree: &Tree, wanted: &[u32]) -> bool {
    let mut rest = wanted;
    for k in 0..tree.leaves() {
        match leaf_has(tree, tree.leaf(k), rest) {
            Some(count) => rest = rest.get(count..).unwrap_or(&[]),
            None => return false,
        }
    }
    rest.is_empty()
}

// Whether the tree over these items is one, with its items in this order.
fn is_built<R: AllocGlobal + Threads + Sync>(
    rt: &R,
    items: &[Option<Box3>],
    wanted: &[u32],
) -> Result<bool, NoMemory> {
    if items.len() > 1 << 20 {
        return Ok(false);
    }
    let tree = build_fast(rt, rt.alloc(), items)?;
    Ok(tree.is_tree_over(items) && has_order(&tree, wanted))
}

// The box of a point that is lower the greater the number is; each seventh has none.
fn falling(i: u32) -> Option<Box3> {
    if i % 7 == 0 {
        return None;
    }
    dot(-2 * i64::from(i), 0, 0)
}

#[test]
fn builds_by_several_threads(rt: HostRuntime) -> Result<(), NoMemory> {
    let mut items = Vec::new(rt.alloc());
    let mut wanted = Vec::new(rt.alloc());
    for i in 0..5000u32 {
        items.push(falling(i))?;
        let last = 4999 - i;
        if last % 7 != 0 {
            wanted.push(last)?;
        }
    }
    assert!(rt; is_built(&rt, &items, &wanted)?);
    Ok(())
}
