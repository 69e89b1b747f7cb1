//! A climb from a leaf: all its atomic steps.
ghost use Rattle.std.specs.Prelude.{◌≡◌, ◌<◌, ◌++◌, ◌∷◌, [], length};
ghost use Rattle.ray_tree.specs.Trees.{leaves_of};
ghost use Rattle.ray_climb.specs.declared.rule.Hand.TheVariants.{Empty};
ghost use Rattle.ray_climb.specs.Rule.{times};
ghost use Rattle.ray_climb.specs.Steps.{knows, without};
ghost use Rattle.ray_climb.specs.Ready.{IsTable};

use crate::refit::Refit;
use crate::rule::{ClimbRule, View};
use crate::steps::{arrive, begin, end_at_root, load, store_high, store_low};
use atomic_table::{Seat, Shared};
use std::marker::Brand;

// Brings the box of a leaf up the tree, as far as it is known.
pub(crate) fn climb(
    shared: &Shared<(), View, Refit, ClimbRule>,
    refit: &Refit,
    seat: &mut Seat<(), View>,
    leaf: u32,
)
    requires own { seat.old.table_id ≡ shared.now.table_id }
    requires keyed { shared.now.key ≡ refit.now }
    requires table { IsTable shared.now.table_id.words shared.now.key }
    requires leaf { leaf < length (leaves_of refit.now.tree) }
    requires listed { 0 < times leaf seat.old.me.0.todo }
    requires free { seat.old.me.0.hand ≡ Empty }
    ensures same { seat.new.table_id ≡ seat.old.table_id }
    ensures me { seat.new.me ≡ (
      knows (without leaf seat.old.me.0.todo)
          (seat.old.me.0.done ++ leaf ∷ []) Empty,
      seat.old.me.1,
    ) }
{
    let mut at = refit.stand(leaf);
    begin::<Brand>(shared, seat, at);
    while at.node != 0 {
        store_high(shared, seat, at);
        let up = refit.up(at.node);
        if !arrive(shared, seat, at, up) {
            return;
        }
        at = load(shared, seat, at, up);
        store_low(shared, seat, at);
    }
    end_at_root(shared, seat, at);
}
