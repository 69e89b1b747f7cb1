ghost use Rattle.std.specs.Prelude.{◌≡◌, ◌-◌, ◌<◌, ◌≤◌, ◌^◌, ◌++◌, ◌∷◌, []};
ghost use Rattle.std.specs.Prelude.{length, replicate, IfOk, IfErr, IsOk};
ghost use Rattle.std.specs.List.{range_with_len};
ghost use Rattle.ray_tree.specs.Trees.{leaves_of};
ghost use Rattle.ray_tree.specs.NodeBoxes.{HasActivity};
ghost use Rattle.ray_climb.specs.Refits.{IsRefit, refit_value};
ghost use Rattle.ray_climb.specs.Rule.{times, words_of};
ghost use Rattle.ray_climb.specs.Seats.{HasEachLeaf, seat_view, keeping, leaving};
ghost use Rattle.ray_climb.specs.Steps.{without};

use crate::ascent::climb;
use crate::boxes::boxes_of;
use crate::limits::check_boxes;
use crate::parents::parents_of;
use crate::refit::Refit;
use crate::rule::{Both, ClimbRule, Cut, Keep, View};
use crate::seat::ClimbSeat;
use atomic_table::Table;
use ray_geom::Box3;
use ray_tree::Tree;
use std::alloc::{AllocError, AllocError as NoMemory, Global};
use std::marker::{Brand, Model};

/// A tree that is refitted to new items by any number of seats, and the shared words of its nodes.
/// Contracts see the tree and the items, and which climb it is, which tells its seats from others.
/// (Own.)
#[derive(Drop)]
pub struct Climb {
    table: Table<(), View, Refit, ClimbRule, Global>,
    refit: Refit,
}

impl Model for Climb {
    ghost use Rattle.std.specs.Prelude.{◌≡◌, length};
    ghost use Rattle.ray_tree.specs.Trees.{leaves_of};
    ghost use Rattle.ray_climb.specs.Rule.{words_of};
    ghost use Rattle.ray_climb.specs.Seats.{ClimbView, climb_id};

    ghost Value = { ClimbView };

    ghost view = { λ c. record {
      id = climb_id c.table.shared.table_id (length (leaves_of c.refit.tree));
      refit = c.refit;
    } };

    ghost invariant = { λ c.
        (c.table.shared.table_id.words ≡ words_of (length c.refit.tree.nodes))
        × (c.table.shared.table_id.slots ≡ 0) × (c.table.shared.key ≡ c.refit) };
}

impl Climb {
    /// A climb of a tree to new items, which are at most 2^20 and have the activity of those that
    /// the tree is over. The seat has still to climb from all leaves.
    ///
    /// # Errors
    ///
    /// For want of memory alone, with the tree.
    pub fn new(
        alloc: Global,
        tree: Tree,
        items: &[Option<Box3>],
    ) -> Result<(Climb, ClimbSeat), Tree>
        requires few { length items.now ≤ 2 ^ 20 }
        requires activity { HasActivity tree items.now }
        ensures refit { IfOk result (λ r. r.0.refit ≡ refit_value tree items.now) }
        ensures leaves { IfOk result (λ r. r.0.id.leaves ≡ length (leaves_of tree)) }
        ensures seat { IfOk result (λ r. r.1 ≡ seat_view r.0.id
            (range_with_len 0 (length (leaves_of tree))) []) }
        ensures back { IfErr result (λ t. t ≡ tree) }
    {
        match items.to_vec(alloc) {
            Ok(items) => Climb::of_items(alloc, tree, items),
            Err(AllocError) => Err(tree),
        }
    }

    /// The same of items that are handed over, and not copied.
    ///
    /// # Errors
    ///
    /// For want of memory alone, with the tree.
    pub fn of_items(
        alloc: Global,
        tree: Tree,
        items: Vec<Option<Box3>>,
    ) -> Result<(Climb, ClimbSeat), Tree>
        requires few { length items.items ≤ 2 ^ 20 }
        requires activity { HasActivity tree items.items }
        ensures refit { IfOk result (λ r. r.0.refit ≡ refit_value tree items.items) }
        ensures leaves { IfOk result (λ r. r.0.id.leaves ≡ length (leaves_of tree)) }
        ensures seat { IfOk result (λ r. r.1 ≡ seat_view r.0.id
            (range_with_len 0 (length (leaves_of tree))) []) }
        ensures back { IfErr result (λ t. t ≡ tree) }
    {
        let Ok(parents) = parents_of(alloc, &tree) else {
            return Err(tree);
        };
        let Ok(words) = blank_words(alloc, tree.nodes()) else {
            return Err(tree);
        };
        check_boxes(&items);
        tree.shape();
        let refit = Refit {
            tree,
            items,
            parents,
        };
        refit.ready();
        let leaves = refit.leaves();
        match Table::of_words(alloc, words.as_slice(), &refit) {
            Ok((table, seat)) => Ok((Climb { table, refit }, ClimbSeat { seat, leaves })),
            Err(AllocError) => Err(refit.tree),
        }
    }

    /// Brings the box of a leaf up the tree, as far as it is known: at each node the caller that
    /// comes second goes on with the boxes of both children, and the one that comes first ends
    /// there. It takes no memory and waits for nobody.
    pub fn climb_leaf(&self, seat: &mut ClimbSeat, leaf: u32)
        requires own { seat.old.id ≡ self.now.id }
        requires todo { 0 < times leaf seat.old.todo }
        ensures moved { seat.new ≡ seat_view seat.old.id (without leaf seat.old.todo)
            (seat.old.done ++ leaf ∷ []) }
    {
        self.refit.ready();
        climb(&self.table.shared, &self.refit, &mut seat.seat, leaf);
    }

    /// The same from one leaf after the other, from number `from` up to `to`: all that the seat has
    /// still to climb from. It takes no memory and waits for nobody.
    pub fn climb_range(&self, seat: &mut ClimbSeat, from: u32, to: u32)
        requires own { seat.old.id ≡ self.now.id }
        requires ordered { from ≤ to }
        requires todo { seat.old.todo ≡ range_with_len from (to - from) }
        ensures moved { seat.new ≡ seat_view seat.old.id []
            (seat.old.done ++ range_with_len from (to - from)) }
    {
        for leaf in from..to {
            self.climb_leaf(seat, leaf);
        }
    }

    /// A new seat, which has the last `take` leaves that the old one still had to climb from, and
    /// has climbed from none. The answer for want of memory never comes (`ok`): a seat takes none.
    pub fn split(&self, seat: &mut ClimbSeat, take: u32) -> Result<ClimbSeat, NoMemory>
        requires own { seat.old.id ≡ self.now.id }
        requires within { take ≤ length seat.old.todo }
        ensures ok { IsOk result }
        ensures old { seat.new ≡ keeping (length seat.old.todo - take) seat.old }
        ensures new { IfOk result (λ s. s ≡ leaving (length seat.old.todo - take) seat.old) }
    {
        Ok(self.cut::<Brand>(seat, take))
    }

    // The same, with a name for how many leaves the old seat keeps.
    fn cut<P: Keep>(&self, seat: &mut ClimbSeat, _take: u32) -> ClimbSeat
        requires keep { P.keep ≡ length seat.old.todo - _take }
        requires own { seat.old.id ≡ self.now.id }
        ensures old { seat.new ≡ keeping P.keep seat.old }
        ensures new { result ≡ leaving P.keep seat.old }
    {
        let leaves = seat.leaves;
        let new = self.table.shared.split_seat::<Cut<P>>(&mut seat.seat);
        ClimbSeat { seat: new, leaves }
    }

    /// Puts the leaves that `from` has still to climb from behind those of `into`, and so those
    /// from which it has climbed. The refusal, which would hand `from` back, never comes (`ok`): a
    /// join takes no memory.
    pub fn join(&self, into: &mut ClimbSeat, from: ClimbSeat) -> Result<(), ClimbSeat>
        requires own { into.old.id ≡ self.now.id }
        requires from { from.id ≡ self.now.id }
        ensures ok { IsOk result }
        ensures joined { into.new ≡ seat_view into.old.id (into.old.todo ++ from.todo)
            (into.old.done ++ from.done) }
    {
        let table = &self.table.shared;
        table.join_seat::<Both>(&mut into.seat, from.seat);
        Ok(())
    }

    /// The tree that refitting gives: the old one's shape, and as each node's box the least box of
    /// the new items from it down, whatever steps the seats took. The seat, into which the others
    /// were joined, has climbed from each leaf once.
    ///
    /// # Errors
    ///
    /// For want of memory alone; the tree is gone then.
    pub fn close(self, alloc: Global, seat: ClimbSeat) -> Result<Tree, NoMemory>
        requires own { seat.id ≡ self.id }
        requires done { HasEachLeaf self.refit.tree seat.done }
        ensures { IfOk result (IsRefit self.refit.tree self.refit.items) }
    {
        self.refit.ready();
        let closed = self.table.close_with(seat.seat);
        let boxes = boxes_of(alloc, &closed, &self.refit);
        closed.free();
        Ok(self.refit.with_boxes(boxes?))
    }
}

// So many words of 0, and one where there is no node.
fn blank_words(alloc: Global, nodes: u32) -> Result<Vec<u64>, NoMemory>
    ensures { IfOk result (λ v. v.items ≡ replicate (words_of nodes) 0) }
{
    vec![in alloc; 0u64; (3 * nodes as usize).max(1)]
}
