//! The refitted tree, by the boxes that were climbed to.
ghost use Rattle.std.specs.Prelude.{length};
ghost use Rattle.ray_climb.specs.Refits.{IsRefit};
ghost use Rattle.ray_climb.specs.Ready.{AreTrue};

use crate::refit::Refit;
use ray_geom::Box3;
use ray_tree::Tree;

impl Refit {
    // The tree that refitting gives, by its boxes.
    pub(crate) fn with_boxes(self, boxes: Vec<Box3>) -> Tree
        requires { AreTrue self boxes.items (length self.tree.nodes) }
        ensures { IsRefit self.tree self.items result }
    {
        let Refit { tree, items, .. } = self;
        tree.with_boxes(boxes, &items)
    }
}
