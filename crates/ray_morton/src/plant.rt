//! The nodes of a tree over keys in rising order, one after the other.
ghost use Rattle.std.specs.Prelude.{◌+◌, ◌*◌, ◌^◌, ◌<◌, ◌≤◌, OnOk, IfOk, length};
ghost use Rattle.ray_morton.specs.Cuts.{AreSame};
ghost use Rattle.ray_morton.specs.Entries.{Rises};
ghost use Rattle.ray_morton.specs.Planted.{IsPlanted, IsReady, IsTreeOf};

use crate::cutting::cut_of;
use ray_tree::Node;
use std::alloc::{AllocError as NoMemory, Global};

// A leaf has at most so many places.
const MOST: usize = 4;

// A key has so many bits.
const BITS: u32 = 60;

// At most so many times 2^20 equal keys are cut in halves.
const HALVINGS: u32 = 18;

// Adds the nodes over keys, whose places are from the first one on. The keys are the same from a
// bit up, and if they are all equal so many halvings leave 4 of them at most.
fn plant(
    nodes: &mut Vec<Node>,
    keys: &[u64],
    first: u32,
    bits: u32,
    halvings: u32,
) -> Result<(), NoMemory>
    requires ready { IsReady keys.now bits halvings }
    requires within { first + length keys.now ≤ 2 ^ 20 }
    requires room { length nodes.old.items + 2 * length keys.now ≤ 2 ^ 22 }
    ensures { OnOk result (IsPlanted keys.now first (bits + halvings + 1)
        nodes.old.items nodes.new.items) }
{
    let at = nodes.len();
    nodes.push(Node::Leaf {
        first,
        count: keys.len() as u32,
    })?;
    if keys.len() <= MOST {
        return Ok(());
    }
    let cut = cut_of(keys, bits, halvings);
    let (lefts, rights) = keys.split_at(cut.half);
    plant(nodes, lefts, first, cut.bits, cut.halvings)?;
    let right = nodes.len() as u32;
    plant(
        nodes,
        rights,
        first + cut.half as u32,
        cut.bits,
        cut.halvings,
    )?;
    nodes[at] = Node::Inner {
        left: at as u32 + 1,
        right,
    };
    Ok(())
}

// The nodes of a tree over keys.
pub(crate) fn nodes_over(alloc: Global, keys: &[u64]) -> Result<Vec<Node>, NoMemory>
    requires few { length keys.now ≤ 2 ^ 20 }
    requires rising { Rises keys.now }
    requires same { AreSame 60 keys.now }
    ensures { IfOk result (λ v. IsTreeOf keys.now v.items) }
{
    let mut nodes = Vec::with_capacity(alloc, keys.len() / 2)?;
    if keys.len() == 0 {
        return Ok(nodes);
    }
    plant(&mut nodes, keys, 0, BITS, HALVINGS)?;
    Ok(nodes)
}
