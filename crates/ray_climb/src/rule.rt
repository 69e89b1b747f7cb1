//! The rule of the shared words, and what each kind of step tells. Nothing here runs.

use crate::refit::Refit;
use atomic_table::{Join, Play, Split, TableRule};
use std::collections::LinkedList;
use std::marker::{Brand, PhantomData};

/// One half of a box, as a hand has it. No value of it is made: it stands in contracts alone.
/// (Own.)
pub enum Half {
    /// The half of a child of the hand's node, from which the hand came: that child, and its half.
    Below(u32, u64),
    /// The half of the node's own box, which isn't stored yet.
    Held(u64),
    /// The half of the node's own box, which is stored.
    Stored(u64),
}

/// The hand of a seat. No value of it is made. (Own.)
pub enum Hand {
    /// It has nothing.
    Empty,
    /// It has a leaf, and stands at a node.
    At {
        /// The number of the leaf.
        leaf: u32,
        /// The node where it stands.
        node: u32,
        /// The low half of a box.
        low: Half,
        /// The high half of a box.
        high: Half,
    },
}

/// What a seat knows. No value of it is made. (Own.)
pub struct View {
    /// The leaves that the seat still has to climb from.
    pub todo: LinkedList<u32>,
    /// The leaves from which it has climbed.
    pub done: LinkedList<u32>,
    /// Where it stands while it climbs.
    pub hand: Hand,
}

/// The rule of the shared words, whose key is the tree and its new items. (Own.)
pub struct ClimbRule;

impl TableRule<(), View, Refit> for ClimbRule {
    ghost use Rattle.std.specs.Prelude.{length};
    ghost use Rattle.ray_tree.specs.Trees.{leaves_of};
    ghost use Rattle.ray_climb.specs.Refits.{frame_of};
    ghost use Rattle.ray_climb.specs.Rule.{HasClimb};
    ghost use Rattle.ray_climb.specs.Steps.{first_view};

    ghost holds = { λ r. HasClimb (frame_of r) };

    ghost first = { λ r. first_view (length (leaves_of r.tree)) };
}

/// With what leaf and what high half a climb begins, as its first step is told it. (Own.)
pub(crate) trait Start {
    ghost use Rattle.std.specs.Prelude.{ℕ};

    ghost leaf: { ℕ };

    ghost high: { ℕ };
}

impl Start for Brand {
    ghost leaf = { 0 };

    ghost high = { 0 };
}

/// What the first store of a climb tells: see `Begins`. (Own.)
pub(crate) struct Begin<P> {
    start: PhantomData<P>,
}

impl<P: Start> Play<(), View> for Begin<P> {
    ghost use Rattle.ray_climb.specs.Steps.{Begins};

    ghost then = { Begins P.leaf P.high };
}

/// What the other steps of a climb tell: see `StoresLow` and those after it. (Own.)
pub(crate) struct StoreLow;

impl Play<(), View> for StoreLow {
    ghost use Rattle.ray_climb.specs.Steps.{StoresLow};

    ghost then = { StoresLow };
}

pub(crate) struct StoreHigh;

impl Play<(), View> for StoreHigh {
    ghost use Rattle.ray_climb.specs.Steps.{StoresHigh};

    ghost then = { StoresHigh };
}

pub(crate) struct End;

impl Play<(), View> for End {
    ghost use Rattle.ray_climb.specs.Steps.{Ends};

    ghost then = { Ends };
}

pub(crate) struct Arrive;

impl Play<(), View> for Arrive {
    ghost use Rattle.ray_climb.specs.Steps.{Arrives};

    ghost then = { Arrives };
}

pub(crate) struct LoadLow;

impl Play<(), View> for LoadLow {
    ghost use Rattle.ray_climb.specs.Steps.{LoadsLow};

    ghost then = { LoadsLow };
}

pub(crate) struct LoadHigh;

impl Play<(), View> for LoadHigh {
    ghost use Rattle.ray_climb.specs.Steps.{LoadsHigh};

    ghost then = { LoadsHigh };
}

/// How many leaves a seat keeps, as a split is told it. (Own.)
pub(crate) trait Keep {
    ghost use Rattle.std.specs.Prelude.{ℕ};

    ghost keep: { ℕ };
}

impl Keep for Brand {
    ghost keep = { 0 };
}

/// How a seat's view is cut in two. (Own.)
pub(crate) struct Cut<P> {
    keep: PhantomData<P>,
}

impl<P: Keep> Split<View> for Cut<P> {
    ghost use Rattle.ray_climb.specs.Steps.{front, back};

    ghost left = { front P.keep };

    ghost right = { back P.keep };
}

/// How two views are put together. (Own.)
pub(crate) struct Both;

impl Join<View> for Both {
    ghost use Rattle.ray_climb.specs.Steps.{both, spent};

    ghost both = { both };

    ghost spent = { spent };
}
