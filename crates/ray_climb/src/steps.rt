//! The atomic steps of a climb, one function each.
ghost use Rattle.std.specs.Prelude.{◌≡◌, ◌≢◌, ◌<◌, length, slice_index};
ghost use Rattle.ray_tree.specs.Trees.{leaves_of};
ghost use Rattle.ray_climb.specs.declared.rule.Half.TheVariants.{Below, Held, Stored};
ghost use Rattle.ray_climb.specs.declared.rule.Hand.TheVariants.{Empty, At};
ghost use Rattle.ray_climb.specs.Halves.{low_half, high_half};
ghost use Rattle.ray_climb.specs.Refits.{box_over};
ghost use Rattle.ray_climb.specs.Rule.{times, has};
ghost use Rattle.ray_climb.specs.Steps.{with_hand, begun, ended, arrived, bit};
ghost use Rattle.ray_climb.specs.Ready.{IsTable, IsUp};

use crate::half::{greater, lesser};
use crate::refit::{Refit, Stand, Up};
use crate::rule::{
    Arrive, Begin, ClimbRule, End, LoadHigh, LoadLow, Start, StoreHigh, StoreLow, View,
};
use atomic_table::{Seat, Shared};

// The first step of a climb: the low half of the leaf's box is stored.
pub(crate) fn begin<P: Start>(
    shared: &Shared<(), View, Refit, ClimbRule>,
    seat: &mut Seat<(), View>,
    at: Stand,
)
    requires start { (P.leaf ≡ at.leaf) × (P.high ≡ at.high) }
    requires own { seat.old.table_id ≡ shared.now.table_id }
    requires table { IsTable shared.now.table_id.words shared.now.key }
    requires free { seat.old.me.0.hand ≡ Empty }
    requires leaf { at.leaf < length (leaves_of shared.now.key.tree) }
    requires listed { 0 < times at.leaf seat.old.me.0.todo }
    requires node { at.node ≡ slice_index (leaves_of shared.now.key.tree) at.leaf }
    requires small { at.node < length shared.now.key.tree.nodes }
    requires low { at.low ≡ low_half (box_over shared.now.key at.node) }
    requires high { at.high ≡ high_half (box_over shared.now.key at.node) }
    ensures same { seat.new.table_id ≡ seat.old.table_id }
    ensures me { seat.new.me ≡ (
      begun seat.old.me.0 at.leaf (At at.leaf at.node (Stored at.low)
          (Held at.high)),
      seat.old.me.1,
    ) }
{
    shared.store::<Begin<P>>(seat, 3 * at.node as usize + 1, at.low);
}

// The low half of an inner node's box is stored.
pub(crate) fn store_low(
    shared: &Shared<(), View, Refit, ClimbRule>,
    seat: &mut Seat<(), View>,
    at: Stand,
)
    requires own { seat.old.table_id ≡ shared.now.table_id }
    requires table { IsTable shared.now.table_id.words shared.now.key }
    requires small { at.node < length shared.now.key.tree.nodes }
    requires hand { seat.old.me.0.hand ≡ At at.leaf at.node (Held at.low) (Held at.high) }
    ensures same { seat.new.table_id ≡ seat.old.table_id }
    ensures me { seat.new.me ≡ (
      with_hand seat.old.me.0 (At at.leaf at.node (Stored at.low)
          (Held at.high)),
      seat.old.me.1,
    ) }
{
    shared.store::<StoreLow>(seat, 3 * at.node as usize + 1, at.low);
}

// The high half of a node's box is stored, which isn't the root.
pub(crate) fn store_high(
    shared: &Shared<(), View, Refit, ClimbRule>,
    seat: &mut Seat<(), View>,
    at: Stand,
)
    requires own { seat.old.table_id ≡ shared.now.table_id }
    requires table { IsTable shared.now.table_id.words shared.now.key }
    requires small { at.node < length shared.now.key.tree.nodes }
    requires hand { seat.old.me.0.hand ≡ At at.leaf at.node (Stored at.low) (Held at.high) }
    ensures same { seat.new.table_id ≡ seat.old.table_id }
    ensures me { seat.new.me ≡ (
      with_hand seat.old.me.0 (At at.leaf at.node (Stored at.low)
          (Stored at.high)),
      seat.old.me.1,
    ) }
{
    shared.store::<StoreHigh>(seat, 3 * at.node as usize + 2, at.high);
}

// The high half of the root's box is stored, and the climb ends.
pub(crate) fn end_at_root(
    shared: &Shared<(), View, Refit, ClimbRule>,
    seat: &mut Seat<(), View>,
    at: Stand,
)
    requires own { seat.old.table_id ≡ shared.now.table_id }
    requires table { IsTable shared.now.table_id.words shared.now.key }
    requires small { at.node < length shared.now.key.tree.nodes }
    requires root { at.node ≡ 0 }
    requires hand { seat.old.me.0.hand ≡ At at.leaf at.node (Stored at.low) (Held at.high) }
    ensures same { seat.new.table_id ≡ seat.old.table_id }
    ensures me { seat.new.me ≡ (ended seat.old.me.0 at.leaf, seat.old.me.1) }
{
    shared.store::<End>(seat, 3 * at.node as usize + 2, at.high);
}

// The bit of a child.
fn bit_of(right: bool) -> u64
    ensures { result ≡ bit right }
{
    if right { 2 } else { 1 }
}

// Whether the bit of a child stands in arrivals.
fn has_bit(arrivals: u64, right: bool) -> bool
    ensures { result ≡ has arrivals right }
{
    if right {
        arrivals / 2 == 1
    } else {
        arrivals % 2 == 1
    }
}

// A node's bit is set at its parent. Whether the other child's bit was there, in which case the
// hand moves to the parent; else its leaf is done.
pub(crate) fn arrive(
    shared: &Shared<(), View, Refit, ClimbRule>,
    seat: &mut Seat<(), View>,
    at: Stand,
    up: Up,
) -> bool
    requires own { seat.old.table_id ≡ shared.now.table_id }
    requires table { IsTable shared.now.table_id.words shared.now.key }
    requires below { at.node ≢ 0 }
    requires up { IsUp shared.now.key at.node up }
    requires hand { seat.old.me.0.hand ≡ At at.leaf at.node (Stored at.low) (Stored at.high) }
    ensures same { seat.new.table_id ≡ seat.old.table_id }
    ensures me { seat.new.me ≡ (
      arrived seat.old.me.0 up.parent result seat.old.me.0.hand,
      seat.old.me.1,
    ) }
{
    let found = shared.fetch_or::<Arrive>(seat, 3 * up.parent as usize, bit_of(up.right));
    has_bit(found, !up.right)
}

// The halves of the sibling's box are loaded: where the hand stands then, at the parent.
pub(crate) fn load(
    shared: &Shared<(), View, Refit, ClimbRule>,
    seat: &mut Seat<(), View>,
    at: Stand,
    up: Up,
) -> Stand
    requires own { seat.old.table_id ≡ shared.now.table_id }
    requires table { IsTable shared.now.table_id.words shared.now.key }
    requires up { IsUp shared.now.key at.node up }
    requires hand { seat.old.me.0.hand ≡ At at.leaf up.parent (Below at.node at.low)
        (Below at.node at.high) }
    ensures same { seat.new.table_id ≡ seat.old.table_id }
    ensures leaf { result.leaf ≡ at.leaf }
    ensures node { result.node ≡ up.parent }
    ensures me { seat.new.me ≡ (
      with_hand seat.old.me.0 (At result.leaf result.node
          (Held result.low) (Held result.high)),
      seat.old.me.1,
    ) }
{
    let low = load_low(shared, seat, at, up);
    let high = load_high(shared, seat, at, up, low);
    Stand {
        leaf: at.leaf,
        node: up.parent,
        low,
        high,
    }
}

// The low one: the low half of the parent's box.
fn load_low(
    shared: &Shared<(), View, Refit, ClimbRule>,
    seat: &mut Seat<(), View>,
    at: Stand,
    up: Up,
) -> u64
    requires own { seat.old.table_id ≡ shared.now.table_id }
    requires table { IsTable shared.now.table_id.words shared.now.key }
    requires up { IsUp shared.now.key at.node up }
    requires hand { seat.old.me.0.hand ≡ At at.leaf up.parent (Below at.node at.low)
        (Below at.node at.high) }
    ensures same { seat.new.table_id ≡ seat.old.table_id }
    ensures me { seat.new.me ≡ (
      with_hand seat.old.me.0 (At at.leaf up.parent (Held result)
          (Below at.node at.high)),
      seat.old.me.1,
    ) }
{
    let found = shared.load::<LoadLow>(seat, 3 * up.sibling as usize + 1);
    lesser(at.low, found)
}

// The high one.
fn load_high(
    shared: &Shared<(), View, Refit, ClimbRule>,
    seat: &mut Seat<(), View>,
    at: Stand,
    up: Up,
    low: u64,
) -> u64
    requires own { seat.old.table_id ≡ shared.now.table_id }
    requires table { IsTable shared.now.table_id.words shared.now.key }
    requires up { IsUp shared.now.key at.node up }
    requires hand { seat.old.me.0.hand ≡ At at.leaf up.parent (Held low)
        (Below at.node at.high) }
    ensures same { seat.new.table_id ≡ seat.old.table_id }
    ensures me { seat.new.me ≡ (
      with_hand seat.old.me.0 (At at.leaf up.parent (Held low)
          (Held result)),
      seat.old.me.1,
    ) }
{
    let found = shared.load::<LoadHigh>(seat, 3 * up.sibling as usize + 2);
    greater(at.high, found)
}
