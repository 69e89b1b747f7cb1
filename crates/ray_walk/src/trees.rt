use crate::level::Level;
use ray_geom::ObjectRay;
use ray_tree::Tree;
use ray_wide::Wide;

/// The trees of a structure, with a ray in its space.
#[derive(Drop)]
pub(crate) struct Trees<'a, 'b> {
    /// Where the structure stands.
    pub(crate) level: Level,
    /// Its binary tree.
    pub(crate) tree: &'a Tree,
    /// The wide tree over the leaves of that.
    pub(crate) wide: &'a Wide,
    /// The ray.
    pub(crate) ray: &'b ObjectRay,
}
