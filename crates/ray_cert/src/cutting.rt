//! Digits read along a tree, and digits made of one.
ghost use Rattle.std.specs.Prelude.{◌≡◌, ◌+◌, ◌++◌, ◌<◌, ◌≤◌, IfOk, OnOk, length, option_map};
ghost use Rattle.std.specs.Prelude.{None, Some, drop, if◌then◌else◌, take};
ghost use Rattle.ray_tree.specs.Trees.{shape_at};
ghost use Rattle.ray_cert.specs.Checking.{AreFew, IsNext, behind, end_of, is_met_in, taken_of};
ghost use Rattle.ray_cert.specs.Cuttings.{cut_by, marks};

use crate::meeting::meets_node;
use ray_geom::{ObjectRay, Ratio, Steps};
use ray_tree::{Node, Tree};
use std::alloc::AllocError as NoMemory;
use std::sync::ledger::Ledger;

// What is next of digits.
#[derive(Clone, Copy, Debug)]
pub enum Digit {
    // None is left.
    End,
    // A 0: a node that is cut off.
    Shut,
    // A 1: a node that is opened.
    Opened,
}

// The digit at a place.
fn digit_at(digits: &[bool], at: usize) -> Digit
    requires { at ≤ length digits.now }
    ensures { IsNext digits.now at result }
{
    if at == digits.len() {
        return Digit::End;
    }
    if digits[at] {
        Digit::Opened
    } else {
        Digit::Shut
    }
}

// Adds the items at places of a tree.
fn add_items(tree: &Tree, first: u32, count: u32, items: &mut Vec<u32>) -> Result<(), NoMemory>
    requires { first + count ≤ length tree.now.order }
    ensures { OnOk result
        (items.new.items ≡ items.old.items ++ take count (drop first tree.now.order)) }
{
    let first = first as usize;
    items.extend_from_slice(&tree.order()[first..first + count as usize])?;
    Ok(())
}

// The place behind a node that is cut off, which it may not be where it is met.
fn shut_at(met: bool, after: usize) -> Option<usize>
    ensures { result ≡ (if met then None else Some after) }
{
    if met { None } else { Some(after) }
}

// Reads the digits from a place on along what is from a node down, and adds the items of the leaves
// that they open: the place behind them. None where they spell no cutting, or cut off a node that
// is met up to the limit. It takes a step for each box that is tested, one for a digit 0.
pub(crate) fn take_node<L: Ledger>(
    tree: &Tree,
    node: u32,
    object: &ObjectRay,
    limit: &Ratio,
    digits: &[bool],
    at: usize,
    items: &mut Vec<u32>,
    steps: &mut Steps<L>,
) -> Result<Option<usize>, NoMemory>
    requires within { node < length tree.now.nodes }
    requires start { at ≤ length digits.now }
    ensures value { IfOk result (λ after.
        option_map (λ k. (items.new.items, drop k digits.now)) after
        ≡ behind items.old.items (taken_of (is_met_in object.now limit.now tree.now)
        tree.now.order (shape_at tree.now node) (drop at digits.now))) }
    ensures few { IfOk result (λ after. AreFew at (end_of (length digits.now) after)
        (length digits.now) steps.old steps.new (length items.old.items) (length items.new.items)) }
    ensures rising { steps.old ≤ steps.new }
{
    tree.shape();
    match digit_at(digits, at) {
        Digit::End => Ok(None),
        Digit::Shut => {
            steps.tick();
            Ok(shut_at(meets_node(tree, node, object, limit), at + 1))
        }
        Digit::Opened => match tree.node(node) {
            Node::Leaf { first, count } => {
                add_items(tree, first, count, items)?;
                Ok(Some(at + 1))
            }
            Node::Inner { left, right } => {
                match take_node(tree, left, object, limit, digits, at + 1, items, steps)? {
                    None => Ok(None),
                    Some(after) => {
                        take_node(tree, right, object, limit, digits, after, items, steps)
                    }
                }
            }
        },
    }
}

// Adds the digits of what is from a node down: 1 exactly where a node is met up to the limit.
pub(crate) fn mark_node<L: Ledger>(
    tree: &Tree,
    node: u32,
    object: &ObjectRay,
    limit: &Ratio,
    digits: &mut Vec<bool>,
    steps: &mut Steps<L>,
) -> Result<(), NoMemory>
    requires { node < length tree.now.nodes }
    ensures marks { OnOk result (digits.new.items ≡ digits.old.items
        ++ marks (cut_by (is_met_in object.now limit.now tree.now) (shape_at tree.now node))) }
    ensures rising { steps.old ≤ steps.new }
{
    tree.shape();
    steps.tick();
    let met = meets_node(tree, node, object, limit);
    digits.push(met)?;
    if !met {
        return Ok(());
    }
    match tree.node(node) {
        Node::Leaf { .. } => Ok(()),
        Node::Inner { left, right } => {
            mark_node(tree, left, object, limit, digits, steps)?;
            mark_node(tree, right, object, limit, digits, steps)
        }
    }
}
