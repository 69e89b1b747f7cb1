//! The walk of nodes in preorder. It meets each node once at most, so it takes as many steps as
//! there are nodes, whatever they say, and it never goes deeper than the levels that are allowed.
ghost use Rattle.std.specs.Prelude.{◌≡◌, ◌<◌, ◌≤◌, ◌*◌, ◌^◌, IfSome, length};
ghost use Rattle.ray_tree.specs.Shapes.{node_at};
ghost use Rattle.ray_stated.specs.Carried.{after_leaf, walked, in_preorder};

use ray_tree::Node;

// The node and the place after those from a node down.
#[derive(Clone, Copy, Debug)]
pub struct Ends {
    pub node: u32,
    pub place: u32,
}

// No way down has more nodes.
const LEVELS: u32 = 96;

// A leaf has at most so many places.
const MOST: u32 = 4;

// The node of a number.
fn node_by(nodes: &[Node], at: u32) -> Node
    requires { at < length nodes.now }
    ensures { result ≡ node_at nodes.now at }
{
    nodes[at as usize]
}

// What is after a leaf that begins at the next place.
fn ends_of_leaf(at: u32, place: u32, first: u32, count: u32) -> Option<Ends>
    requires at { at ≤ 2 ^ 22 }
    requires place { place ≤ 4 * at }
    ensures { result ≡ after_leaf at place first count }
{
    if first == place && 1 <= count && count <= MOST {
        Some(Ends {
            node: at + 1,
            place: first + count,
        })
    } else {
        None
    }
}

// What is after all from a node down, in at most so many levels.
fn walk(nodes: &[Node], at: u32, place: u32, levels: u32) -> Option<Ends>
    requires few { length nodes.now ≤ 2 ^ 21 }
    requires place { place ≤ 4 * at }
    ensures value { result ≡ walked levels nodes.now at place }
    ensures limits { IfSome result (λ e. e.place ≤ 4 * e.node) }
{
    if levels == 0 {
        return None;
    }
    if at as usize >= nodes.len() {
        return None;
    }
    match node_by(nodes, at) {
        Node::Leaf { first, count } => ends_of_leaf(at, place, first, count),
        Node::Inner { left, right } => {
            if left != at + 1 {
                return None;
            }
            match walk(nodes, at + 1, place, levels - 1) {
                None => None,
                Some(e) => {
                    if right != e.node {
                        return None;
                    }
                    walk(nodes, e.node, e.place, levels - 1)
                }
            }
        }
    }
}

// Whether nodes are in preorder over so many places, in at most 96 levels.
pub(crate) fn is_preorder(nodes: &[Node], places: usize) -> bool
    requires { length nodes.now ≤ 2 ^ 21 }
    ensures { result ≡ in_preorder nodes.now places }
{
    if nodes.len() == 0 {
        return places == 0;
    }
    match walk(nodes, 0, 0, LEVELS) {
        None => false,
        Some(e) => e.node as usize == nodes.len() && e.place as usize == places,
    }
}
