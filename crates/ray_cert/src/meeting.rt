//! Whether a ray meets a node's box at an entry up to a limit.
ghost use Rattle.std.specs.Prelude.{◌≡◌, ◌<◌, Some, length, option_map};
ghost use Rattle.ray_query.specs.Limits.{is_open};
ghost use Rattle.ray_candidates.specs.Placements.{entry_in};
ghost use Rattle.ray_cert.specs.Checking.{is_met_in};

use ray_geom::{Box3, ObjectRay, Ratio};
use ray_prune::{Reach, reach_box};
use ray_tree::Tree;

// Whether a box is entered up to the limit, by where the ray is inside it.
fn is_entered(reach: Option<Reach>, limit: &Ratio) -> bool
    ensures { result ≡ is_open (Some limit.now) (option_map (λ r. r.entry) reach) }
{
    match reach {
        None => false,
        Some(reach) => reach.entry <= *limit,
    }
}

// Whether a box is met at an entry up to the limit.
fn meets(object: &ObjectRay, bounds: &Box3, limit: &Ratio) -> bool
    ensures { result ≡ is_open (Some limit.now) (entry_in object.now bounds.now) }
{
    is_entered(reach_box(object, bounds), limit)
}

// Whether the box of a node is.
pub(crate) fn meets_node(tree: &Tree, node: u32, object: &ObjectRay, limit: &Ratio) -> bool
    requires { node < length tree.now.nodes }
    ensures { result ≡ is_met_in object.now limit.now tree.now node }
{
    meets(object, &tree.node_box(node), limit)
}
