ghost use Rattle.std.specs.Prelude.{◌≡◌, ◌++◌, ◌∷◌, [], ℕ, OnOk, false, is_some, nat_lt, slice_get};
ghost use Rattle.std.specs.List.{find};
ghost use Rattle.std.specs.Option.{option_map, option_or};
ghost use Rattle.ray_queues.specs.Marks.{reaches};

use crate::per_queue::PerQueue;
use std::alloc::{AllocError as NoMemory, Global};
use std::marker::Model;

/// What a submission signalled, and below which numbers what was done is carried by it.
#[derive(Clone, Copy)]
pub(crate) struct Mark {
    pub(crate) semaphore: u32,
    pub(crate) value: u64,
    // The number of its `submit`.
    pub(crate) submit: u32,
    pub(crate) numbers: PerQueue,
}

/// The signals of one semaphore that raise it, in order. Contracts see them as a list.
#[derive(Drop)]
pub(crate) struct Rising {
    list: Vec<Mark>,
}

impl Model for Rising {
    ghost use Rattle.std.specs.Prelude.{List};
    ghost use Rattle.std.specs.List.Sorted.{IsNonDecreasingBy};
    ghost use Rattle.ray_queues.specs.declared.rising.Mark.{Mark as AMark};

    ghost Value = { List AMark };

    ghost view = { λ r. r.list.items };

    ghost invariant = { λ r. IsNonDecreasingBy (λ (m : AMark). m.value) r.list.items };
}

impl Rising {
    // None has.
    pub(crate) fn new(alloc: Global) -> Rising
        ensures { result ≡ [] }
    {
        Rising {
            list: Vec::new(alloc),
        }
    }

    // The first that has at least a value.
    pub(crate) fn find(&self, value: u64) -> Option<&Mark>
        ensures { option_map (λ m. m.now) result ≡ find (reaches value) self.now }
    {
        let place = self.place(value);
        self.list.as_slice().get(place)
    }

    // Where it stands, or their number where there is none.
    fn place(&self, value: u64) -> usize
        ensures { slice_get self.now result ≡ find (reaches value) self.now }
    {
        self.list.partition_point(|mark| is_below(mark, value))
    }

    // Whether one has at least a value.
    fn has(&self, value: u64) -> bool
        ensures { result ≡ is_some (find (reaches value) self.now) }
    {
        self.find(value).is_some()
    }

    // Goes on past a signal of the semaphore, which is kept where it raises it.
    pub(crate) fn raise(&mut self, mark: Mark) -> Result<(), NoMemory>
        ensures { OnOk result ((value : ℕ) → find (reaches value) self.new
            ≡ option_or (find (reaches value) self.old) (find (reaches value) (mark ∷ []))) }
    {
        if self.has(mark.value) {
            Ok(())
        } else {
            self.push(mark)
        }
    }

    // Keeps a signal that raises the semaphore.
    fn push(&mut self, mark: Mark) -> Result<(), NoMemory>
        requires { is_some (find (reaches mark.value) self.old) ≡ false }
        ensures { OnOk result (self.new ≡ self.old ++ mark ∷ []) }
    {
        self.list.push(mark)?;
        Ok(())
    }
}

// Whether a signal is below a value.
fn is_below(mark: &Mark, value: u64) -> bool
    ensures { result ≡ nat_lt mark.now.value value }
{
    mark.value < value
}
