ghost use Rattle.std.specs.Prelude.{◌≡◌, ◌≤◌, ◌++◌, [], ◌∷◌, OnOk, OnErr, length};

use std::alloc::{AllocError as NoMemory, Global};
use std::marker::Model;

// The greatest number of items of a list, 2^26.
const MOST_ITEMS: usize = 67_108_864;

/// A list that was read, of at most 2^26 items. Contracts see it as the list of its items. The
/// bound is our own: no text of 2^26 bytes has so many, and with it the position of an item fits a
/// `u32`.
#[derive(Drop)]
pub struct Listed<T> {
    items: Vec<T>,
}

impl<T> Model for Listed<T> {
    ghost use Rattle.std.specs.Prelude.{List, length, ◌≤◌};

    ghost Value = { List T };

    ghost view = { λ l. l.items.items };

    ghost invariant = { λ l. length l.items.items ≤ 67108864 };
}

impl<T> Listed<T> {
    /// The list of no items.
    pub fn new(alloc: Global) -> Self
        ensures { result ≡ [] }
    {
        Listed {
            items: Vec::new(alloc),
        }
    }

    /// Puts one more item at the end. Without memory for it, or where the list has 2^26 items, the
    /// list stays as it was.
    pub fn push(&mut self, item: T) -> Result<(), NoMemory>
    where
        T: Drop,
        ensures pushed { OnOk result (self.new ≡ self.old ++ item ∷ []) }
        ensures kept { OnErr result (self.new ≡ self.old) }
    {
        if self.items.len() == MOST_ITEMS {
            return Err(NoMemory);
        }
        self.items.push(item)?;
        Ok(())
    }

    /// The items as a slice, at most 2^26.
    pub fn as_slice(&self) -> &[T]
        ensures items { result.now ≡ self.now }
        ensures limit { length result.now ≤ 67108864 }
    {
        self.items.as_slice()
    }

    /// The items as a `Vec`, at most 2^26.
    pub fn into_vec(self) -> Vec<T>
        ensures items { result.items ≡ self }
        ensures limit { length result.items ≤ 67108864 }
    {
        self.items
    }
}
