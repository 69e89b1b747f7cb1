use ray_geom::{Box3, Vec3};
use ray_tree::{Node, Tree, build_median};
use std::alloc::{AllocError as NoMemory, Global};

// The box from (i, 0, 0) to (i, 1, 1).
fn slab(i: u32) -> Option<Box3> {
    let x = i64::from(i);
    Box3::new(Vec3 { x, y: 0, z: 0 }, Vec3 { x, y: 1, z: 1 })
}

// So many inactive items, so many boxes in a row, `step` apart, and so many inactive items.
fn row(
    alloc: Global,
    before: u32,
    many: u32,
    step: u32,
    after: u32,
) -> Result<Vec<Option<Box3>>, NoMemory> {
    let mut items = Vec::new(alloc);
    for _ in 0..before {
        items.push(None)?;
    }
    for i in 0..many {
        items.push(slab(i.wrapping_mul(step)))?;
    }
    for _ in 0..after {
        items.push(None)?;
    }
    Ok(items)
}

#[test]
fn is_not_over_others(rt: HostRuntime) -> Result<(), NoMemory> {
    let items = row(rt.alloc(), 0, 5, 1, 0)?;
    let fewer = row(rt.alloc(), 0, 4, 1, 1)?;
    let wider = row(rt.alloc(), 0, 5, 2, 0)?;
    if items.len() > 1 << 20 {
        return Ok(());
    }
    let tree = build_median(rt.alloc(), &items)?;
    assert!(rt; !tree.is_tree_over(&fewer));
    assert!(rt; !tree.is_tree_over(&wider));
    Ok(())
}

// The tree over one box, of parts.
fn of_one(alloc: Global, b: Box3) -> Result<Tree, NoMemory> {
    let mut nodes = Vec::new(alloc);
    nodes.push(Node::Leaf { first: 0, count: 1 })?;
    let mut boxes = Vec::new(alloc);
    boxes.push(b)?;
    let mut order = Vec::new(alloc);
    order.push(0)?;
    Tree::of_parts(alloc, nodes, boxes, order, &[Some(b)])
}

#[test]
fn is_made_of_parts(rt: HostRuntime) -> Result<(), NoMemory> {
    let b = Box3::of_point(Vec3 { x: 1, y: 2, z: 3 });
    let tree = of_one(rt.alloc(), b)?;
    assert!(rt; tree.is_tree_over(&[Some(b)]));
    Ok(())
}
