ghost use Rattle.std.specs.Prelude.{◌≡◌, ◌≤◌, ◌^◌, ℕ, IfOk, length, replicate};
ghost use Rattle.ray_marks.specs.Rising.{IsGreatest, is_marked, mark_of};
ghost use Rattle.ray_marks.specs.Tree.{IsOver, cells_of, size_of, marks_of, no_mark};

use crate::node::{Node, greatest_above, mark};
use std::alloc::{AllocError as NoMemory, Global};
use std::marker::Model;

/// So many cells, each with a mark that only rises, as a tree over them. Contracts see it as the
/// list of the cells' marks.
#[derive(Drop)]
pub(crate) struct MarkTree {
    nodes: Vec<Node>,
    height: usize,
    cells: usize,
}

impl Model for MarkTree {
    ghost use Rattle.std.specs.Prelude.{List, ℕ};
    ghost use Rattle.ray_marks.specs.Tree.{IsOver, marks_of};

    ghost Value = { List ℕ };

    ghost view = { λ m. marks_of m.height m.cells m.nodes.items };

    ghost invariant = { λ m. IsOver m.height m.cells m.nodes.items };
}

impl MarkTree {
    /// So many cells, each with the mark 0.
    ///
    /// # Errors
    ///
    /// For want of memory alone.
    pub(crate) fn new(alloc: Global, cells: usize) -> Result<MarkTree, NoMemory>
        requires { cells ≤ 2 ^ 32 }
        ensures cells { IfOk result (λ marks. length marks ≡ cells) }
        ensures marks { IfOk result (λ marks. (c : ℕ) → mark_of marks c ≡ 0) }
    {
        let (height, many) = shape_over(cells);
        let nodes = blank(alloc, many)?;
        Ok(MarkTree::over(nodes, height, cells))
    }

    // The marks that these nodes have.
    fn over(nodes: Vec<Node>, height: usize, cells: usize) -> MarkTree
        requires { IsOver height cells nodes.items }
        ensures { result ≡ marks_of height cells nodes.items }
    {
        MarkTree {
            nodes,
            height,
            cells,
        }
    }

    /// Gives the cells from `start` on and below `end` a mark that is at least all marks so far.
    pub(crate) fn mark(&mut self, start: usize, end: usize, value: u32)
        requires inside { end ≤ length self.old }
        requires rising { (c : ℕ) → mark_of self.old c ≤ value }
        ensures cells { length self.new ≡ length self.old }
        ensures marks { (c : ℕ) → mark_of self.new c ≡ is_marked start end value (mark_of self.old c) c }
    {
        mark(self.nodes.as_mut_slice(), self.height, start, end, value);
    }

    /// The greatest mark above `limit` of the cells from `start` on and below `end`: 0 where there
    /// is none. Where no mark is above it, one comparison is made.
    pub(crate) fn greatest_above(&self, limit: u32, start: usize, end: usize) -> u32
        requires { end ≤ length self.now }
        ensures { IsGreatest self.now limit start end result }
    {
        greatest_above(self.nodes.as_slice(), self.height, limit, start, end)
    }
}

// So many nodes without marks.
fn blank(alloc: Global, many: usize) -> Result<Vec<Node>, NoMemory>
    ensures { IfOk result (λ nodes. nodes.items ≡ replicate many no_mark) }
{
    vec![in alloc; Node { whole: 0, part: 0 }; many]
}

// The least height of a tree that has at least so many cells, and how many nodes it has.
fn shape_over(cells: usize) -> (usize, usize)
    requires { cells ≤ 2 ^ 32 }
    ensures over { cells ≤ cells_of result.0 }
    ensures nodes { result.1 ≡ size_of result.0 }
{
    let mut height = 0;
    let mut many: usize = 1;
    while many < cells {
        many *= 2;
        height += 1;
    }
    (height, 2 * many - 1)
}
