//! How many bytes there are of a stated tree.
ghost use Rattle.std.specs.Prelude.{ℕ, ◌≡◌, ◌+◌, ◌*◌, ◌^◌, ◌<◌, ◌≤◌, List, Option, length};
ghost use Rattle.ray_geom.specs.Boxes.{BoxValue};
ghost use Rattle.ray_tree.specs.Plans.{halves, size, median_nodes};
ghost use Rattle.ray_tree.specs.Trees.{active_of};
ghost use Rattle.ray_stated.specs.Stated.{stated_tree};
ghost use Rattle.ray_tree_part.specs.TreeParts.{tree_bytes, part_size};

// A leaf has at most so many places.
const MOST: u32 = 4;

/// How many bytes the tree part of the stated tree over items has, of which so many are active, at
/// most 2^20. It takes no memory. (Own.)
pub fn stated_size(active: u32) -> u64
    requires { active ≤ 2 ^ 20 }
    ensures { (items : List (Option BoxValue)) → length items ≤ 2 ^ 20 → active_of items ≡ active
        → result ≡ length (tree_bytes (stated_tree items)) }
{
    8 + 32 * u64::from(nodes_over(active)) + 4 * u64::from(active)
}

// How many nodes a tree by halves has over so many items.
fn nodes_over(count: u32) -> u32
    requires { count ≤ 2 ^ 20 }
    ensures { result ≡ length (median_nodes count) }
{
    if count == 0 {
        0
    } else {
        nodes_below(count, 18)
    }
}

// The same of items over at most so many levels of inner nodes.
fn nodes_below(count: u32, height: u32) -> u32
    requires some { 0 < count }
    requires low { count ≤ 4 * 2 ^ height }
    requires few { count ≤ 2 ^ 20 }
    ensures value { result ≡ size (halves height count) }
    ensures limits { result + 1 ≤ 2 * count }
{
    if count <= MOST {
        return 1;
    }
    let half = (count + 1) / 2;
    1 + nodes_below(half, height - 1) + nodes_below(count - half, height - 1)
}
