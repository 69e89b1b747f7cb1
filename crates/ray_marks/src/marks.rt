ghost use Rattle.std.specs.Prelude.{◌≡◌, ◌≤◌, ◌^◌, ℕ, IfOk, OnOk, length};
ghost use Rattle.ray_marks.specs.Rising.{IsGreatest, is_marked, mark_of};
ghost use Rattle.ray_marks.specs.Making.{IsMade, marks_in};

use crate::mark_tree::MarkTree;
use std::alloc::{AllocError as NoMemory, Global};
use std::marker::Model;

/// So many cells, each with a mark that only rises. Contracts see it as the list of the cells'
/// marks. Memory is taken by the first mark.
#[derive(Drop)]
pub struct Marks {
    tree: Option<MarkTree>,
    cells: usize,
}

impl Model for Marks {
    ghost use Rattle.std.specs.Prelude.{List, ℕ};
    ghost use Rattle.ray_marks.specs.Making.{IsMade, marks_in};

    ghost Value = { List ℕ };

    ghost view = { λ m. marks_in m.cells m.tree };

    ghost invariant = { λ m. IsMade m.cells m.tree };
}

impl Marks {
    /// So many cells, each with the mark 0. It takes no memory.
    pub fn new(cells: usize) -> Marks
        requires { cells ≤ 2 ^ 32 }
        ensures cells { length result ≡ cells }
        ensures marks { (c : ℕ) → mark_of result c ≡ 0 }
    {
        Marks { tree: None, cells }
    }

    /// How many cells there are.
    pub fn cells(&self) -> usize
        ensures { result ≡ length self.now }
    {
        self.cells
    }

    /// Gives the cells from `start` on and below `end` a mark that is at least all marks so far.
    /// Memory is taken where there was no mark, and for as many cells as there are.
    ///
    /// # Errors
    ///
    /// For want of memory alone.
    pub fn mark(
        &mut self,
        alloc: Global,
        start: usize,
        end: usize,
        value: u32,
    ) -> Result<(), NoMemory>
        requires inside { end ≤ length self.old }
        requires rising { (c : ℕ) → mark_of self.old c ≤ value }
        ensures cells { length self.new ≡ length self.old }
        ensures marks { OnOk result ((c : ℕ) → mark_of self.new c
            ≡ is_marked start end value (mark_of self.old c) c) }
    {
        if end <= start {
            return Ok(());
        }
        let marked = self.tree.take();
        let mut tree = made(marked, alloc, self.cells)?;
        tree.mark(start, end, value);
        self.tree = Some(tree);
        Ok(())
    }

    /// The greatest mark above `limit` of the cells from `start` on and below `end`: 0 where there
    /// is none. Where no mark is above it, one comparison is made.
    pub fn greatest_above(&self, limit: u32, start: usize, end: usize) -> u32
        requires { end ≤ length self.now }
        ensures { IsGreatest self.now limit start end result }
    {
        match &self.tree {
            Some(tree) => tree.greatest_above(limit, start, end),
            None => 0,
        }
    }
}

// A tree over so many cells, made where there is none.
fn made(tree: Option<MarkTree>, alloc: Global, cells: usize) -> Result<MarkTree, NoMemory>
    requires { IsMade cells tree }
    ensures cells { IfOk result (λ made. length made ≡ cells) }
    ensures marks { IfOk result (λ made.
        (c : ℕ) → mark_of made c ≡ mark_of (marks_in cells tree) c) }
{
    match tree {
        Some(tree) => Ok(tree),
        None => MarkTree::new(alloc, cells),
    }
}
