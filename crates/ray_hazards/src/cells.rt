ghost use Rattle.std.specs.Prelude.{◌≡◌, ◌≤◌, ℕ, IfOk, length};
ghost use Rattle.ray_hazards.specs.Cells.{cell_of, is_start};

use std::alloc::{AllocError as NoMemory, Global};
use std::collections::BTreeSet;
use std::marker::Model;

/// The cells of an axis that is cut at some numbers. Contracts see it as the list of these numbers.
#[derive(Drop)]
pub struct Cells {
    starts: Vec<u128>,
}

impl Model for Cells {
    ghost use Rattle.std.specs.Prelude.{List, ℕ};
    ghost use Rattle.std.specs.List.Sorted.{IsNonDecreasingBy};

    ghost Value = { List ℕ };

    ghost view = { λ c. c.starts.items };

    ghost invariant = { λ c. IsNonDecreasingBy (λ (s : ℕ). s) c.starts.items };
}

impl Cells {
    /// The cells of an axis that is cut at these numbers.
    ///
    /// # Errors
    ///
    /// For want of memory alone.
    pub fn of(alloc: Global, set: &BTreeSet<u128>) -> Result<Cells, NoMemory>
        ensures { IfOk result (λ cells. (p : ℕ) → is_start cells p ≡ is_start set.now.keys p) }
    {
        let mut starts = Vec::new(alloc);
        for start in set {
            starts.push(*start)?;
        }
        starts.sort_unstable();
        Ok(Cells { starts })
    }

    /// How many cells there are.
    pub fn count(&self) -> usize
        ensures { result ≡ length self.now }
    {
        self.starts.len()
    }

    /// The cell in which a number stands: how many cells begin below it.
    pub fn at(&self, number: u128) -> usize
        ensures value { result ≡ cell_of self.now number }
        ensures limit { result ≤ length self.now }
    {
        self.starts.partition_point(|start| *start < number)
    }
}
