ghost use Rattle.std.specs.Prelude.{◌≡◌, ◌++◌, ◌∷◌, [], IfNone, IfSome, IsTrue, OnOk, option_map};
ghost use Rattle.std.specs.BinaryHeap.{IsHeap, IsUpperBound, heap_items};
ghost use Rattle.std.specs.List.{cons_option};
ghost use Rattle.std.specs.List.Sorted.{IsPermutation};
ghost use Rattle.std.specs.Ordering.{is_lt};
ghost use Rattle.ray_nearest.specs.declared.turn.Turn.TheVariants.{Node, Candidate};
ghost use Rattle.ray_query.specs.Raw.{reduced_found};
ghost use Rattle.ray_query.specs.Limits.{is_within};
ghost use Rattle.ray_nearest.specs.TurnLaws.{IsFirst, turn_of, waiting_cmp};
ghost use Rattle.ray_nearest.specs.Turns.{IsTaken, turn_within};

use crate::node::WalkNode;
use crate::waiting::{Waiting, boxed};
use ray_geom::Ratio;
use ray_query::RawFound;
use std::alloc::{AllocError as NoMemory, Global};
use std::collections::BinaryHeap;
use std::marker::Model;
use std::mem;

/// The turns that wait in a walk, of which the first is taken. It keeps its memory from one walk to
/// the next, that of what was found and played among it. Contracts see it as the list of the turns,
/// in no order of their own. (Own.)
#[derive(Drop)]
pub struct Turns {
    // The turn that is taken next, if it is known. Most nodes have one child that is met, which is
    // the next turn; it needs no place in the heap.
    next: Option<Waiting>,
    heap: BinaryHeap<Waiting>,
    spare: Vec<Box<RawFound>>,
    alloc: Global,
}

impl Model for Turns {
    ghost use Rattle.std.specs.Prelude.{List, IfSome};
    ghost use Rattle.std.specs.BinaryHeap.{IsHeap, heap_items};
    ghost use Rattle.std.specs.List.{cons_option};
    ghost use Rattle.ray_nearest.specs.declared.turn.Turn.{Turn};
    ghost use Rattle.ray_nearest.specs.TurnLaws.{IsFirst, turns_of, waiting_cmp};

    ghost Value = { List Turn };

    ghost view = { λ t. turns_of (cons_option t.next (heap_items t.heap)) };

    ghost invariant = { λ t. IsHeap waiting_cmp (heap_items t.heap)
        × IfSome t.next (λ w. IsFirst w (heap_items t.heap)) };
}

impl Turns {
    /// No turns. No memory is taken yet.
    pub fn new(alloc: Global) -> Turns
        ensures { result ≡ [] }
    {
        Turns {
            next: None,
            heap: BinaryHeap::new(alloc),
            spare: Vec::new(alloc),
            alloc,
        }
    }

    /// Drops all turns, and keeps the heap's memory.
    pub fn clear(&mut self)
        ensures { self.new ≡ [] }
    {
        self.next = None;
        self.heap.clear();
    }

    /// Adds the turn of a node that the ray enters here, unless that is beyond the limit.
    pub fn push_node(
        &mut self,
        limit: Option<Ratio>,
        entry: Ratio,
        node: WalkNode,
    ) -> Result<(), NoMemory>
        ensures { OnOk result
            (IsPermutation (turn_within limit (Node entry node) ++ self.old) self.new) }
    {
        if is_within(limit, entry) {
            self.push(Waiting::node(entry, node))?;
        }
        Ok(())
    }

    /// Adds the turn of what was found, unless its distance is beyond the limit.
    pub fn push_found(&mut self, limit: Option<Ratio>, found: RawFound) -> Result<(), NoMemory>
        ensures { let turn = Candidate (reduced_found found) in
            OnOk result (IsPermutation (turn_within limit turn ++ self.old) self.new) }
    {
        if is_within(limit, found.t.ratio()) {
            let found = boxed(self.alloc, &mut self.spare, found)?;
            self.push(Waiting::candidate(found))?;
        }
        Ok(())
    }

    // Adds a turn.
    fn push(&mut self, waiting: Waiting) -> Result<(), NoMemory>
        ensures { OnOk result (IsPermutation (turn_of waiting ∷ self.old) self.new) }
    {
        match place(&mut self.next, &self.heap, waiting) {
            Some(later) => {
                self.heap.push(later)?;
                Ok(())
            }
            None => Ok(()),
        }
    }

    // Takes a turn before which none of the others comes. None exactly where none waits.
    pub(crate) fn pop(&mut self) -> Option<Waiting>
        ensures { IsTaken self.old (option_map turn_of result) self.new }
    {
        match self.next.take() {
            Some(next) => Some(next),
            None => {
                let first = first_of(&mut self.heap)?;
                Some(first)
            }
        }
    }

    // Keeps the box of what was played for what is found next. Without memory it is dropped.
    pub(crate) fn keep(&mut self, found: Box<RawFound>)
        ensures { self.new ≡ self.old }
    {
        let _refused = self.spare.push(found);
    }
}

// Takes a turn of a heap before which none of its others comes, if there is one. That is seldom, since
// most turns are known before, and stands apart, so that the next one is taken with few registers.
#[inline(never)]
fn first_of(heap: &mut BinaryHeap<Waiting>) -> Option<Waiting>
    requires heap { IsHeap waiting_cmp (heap_items heap.old) }
    ensures permutation { IfSome result
        (λ w. IsPermutation (heap_items heap.old) (w ∷ heap_items heap.new)) }
    ensures first { IfSome result (λ w. IsUpperBound waiting_cmp w (heap_items heap.new)) }
    ensures none { IfNone result (heap_items heap.old ≡ []) }
    ensures heap { IsHeap waiting_cmp (heap_items heap.new) }
{
    let first = heap.pop()?;
    Some(first)
}

// Makes a turn the next one, if it comes before all others. Gives the one that belongs into the
// heap, if there is one.
fn place(
    next: &mut Option<Waiting>,
    heap: &BinaryHeap<Waiting>,
    waiting: Waiting,
) -> Option<Waiting>
    requires heap { IsHeap waiting_cmp (heap_items heap.now) }
    requires next { IfSome next.old (λ w. IsFirst w (heap_items heap.now)) }
    ensures same { IsPermutation (waiting ∷ cons_option next.old (heap_items heap.now))
        (cons_option next.new (cons_option result (heap_items heap.now))) }
    ensures next { IfSome next.new (λ w. IsFirst w (cons_option result (heap_items heap.now))) }
{
    match next {
        Some(first) => {
            if comes_before(&waiting, first) {
                Some(mem::replace(first, waiting))
            } else {
                Some(waiting)
            }
        }
        None => {
            if is_first(heap, &waiting) {
                *next = Some(waiting);
                None
            } else {
                Some(waiting)
            }
        }
    }
}

// Whether none of those in a heap comes before one.
fn is_first(heap: &BinaryHeap<Waiting>, waiting: &Waiting) -> bool
    requires { IsHeap waiting_cmp (heap_items heap.now) }
    ensures { IsTrue result → IsFirst waiting.now (heap_items heap.now) }
{
    match heap.peek() {
        Some(other) => !comes_before(other, waiting),
        None => true,
    }
}

// Whether a turn comes before another.
fn comes_before(waiting: &Waiting, other: &Waiting) -> bool
    ensures { result ≡ is_lt (waiting_cmp other.now waiting.now) }
{
    other.cmp(waiting).is_lt()
}

// Whether a distance is within a limit.
pub(crate) fn is_within(limit: Option<Ratio>, at: Ratio) -> bool
    ensures { result ≡ is_within limit at }
{
    match limit {
        Some(most) => at <= most,
        None => true,
    }
}
