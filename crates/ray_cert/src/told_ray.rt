use crate::cert::Digits;
use ray_bottom::Bottom;
use ray_flags::RayFlags;
use ray_geom::{Ratio, Ray};
use ray_top::Instance;
use ray_tree::Tree;

// A ray, and what a certificate says of it: how far it has to tell, and its strings.
#[derive(Clone, Copy)]
pub(crate) struct ToldRay<'a> {
    pub(crate) ray: &'a Ray,
    pub(crate) flags: RayFlags,
    pub(crate) mask: u8,
    pub(crate) limit: &'a Ratio,
    pub(crate) strings: &'a [Digits],
}

// An instance by its number, its structure, and the stated tree of that.
#[derive(Clone, Copy)]
pub(crate) struct PlacedTree<'a> {
    pub(crate) number: u32,
    pub(crate) instance: &'a Instance,
    pub(crate) bottom: &'a Bottom,
    pub(crate) tree: &'a Tree,
}
