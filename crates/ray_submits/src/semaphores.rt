ghost use Rattle.std.specs.Prelude.{◌≡◌, ◌≤◌, ◌<◌, ◌++◌, [], ℕ, List, IfOk, IfSome, None, Ok, OnOk};
ghost use Rattle.std.specs.Prelude.{Some, if◌then◌else◌, length, map, not};
ghost use Rattle.std.specs.BTreeMap.{get, is_at};
ghost use Rattle.std.specs.List.{position};
ghost use Rattle.std.specs.Option.{option_map};
ghost use Rattle.std.specs.Ordering.{nat_cmp};
ghost use Rattle.ray_cmd.specs.declared.place.Place.TheVariants.{Part};
ghost use Rattle.ray_rules.specs.Refusals.{or_later};
ghost use Rattle.ray_submits.specs.Seen.{AreSeen, elsewhere_in, is_met_in, is_odd_in, is_odd_seen};
ghost use Rattle.ray_submits.specs.Seen.{seen_after, seen_at, value_in};
ghost use Rattle.ray_submits.specs.Semaphores.{Signal as ASignal, first_odd, odd_of, signal_by};
ghost use Rattle.ray_submits.specs.Semaphores.{signals_of, unmet_of};

use crate::point::SemaphorePoint;
use crate::submission::Submission;
use ray_cmd::{Place, Refusal, Rule};
use std::alloc::{AllocError as NoMemory, Global};
use std::collections::BTreeMap;

/// What timeline semaphores have been signalled so far. What that means is `AreSeen` of the signals
/// of all submissions before.
#[derive(Drop)]
pub(crate) struct Semaphores {
    pub(crate) seen: BTreeMap<u32, Seen>,
}

/// What is known of a semaphore that has been signalled.
#[derive(Clone, Copy, Debug, PartialEq, Eq)]
pub(crate) struct Seen {
    // The greatest value.
    pub(crate) value: u64,
    // The queue that signalled it first.
    pub(crate) queue: u32,
    // Whether another queue has signalled it too.
    pub(crate) shared: bool,
}

impl Semaphores {
    /// Nothing has been signalled.
    pub(crate) fn new(alloc: Global) -> Semaphores
        ensures { AreSeen [] result }
    {
        Semaphores {
            seen: BTreeMap::new(alloc),
        }
    }

    /// Goes on past the next submission, that of command number `n`, and gives the command's
    /// refusal by the lesser of V33 and V34, where it breaks one. Where it does, or there is no
    /// memory, what is known of semaphores afterwards isn't said.
    ///
    /// # Errors
    ///
    /// For want of memory alone.
    pub(crate) fn pass(
        &mut self,
        n: u32,
        submission: &Submission,
    ) -> Result<Option<Refusal>, NoMemory>
        ensures refusal { IfOk result (λ refusal. (earlier : List ASignal)
            → AreSeen earlier self.old
            → refusal ≡ or_later n 33 (unmet_of earlier submission.now)
            (or_later n 34 (odd_of earlier submission.now) None)) }
        ensures next { result ≡ Ok None → (earlier : List ASignal) → AreSeen earlier self.old
            → AreSeen (earlier ++ signals_of submission.now) self.new }
    {
        let unmet = self.unmet(submission.waits.as_slice());
        let odd = self.odd(submission.queue, submission.signals.as_slice())?;
        Ok(or_later(n, 33, unmet, or_later(n, 34, odd, None)))
    }
}

impl Semaphores {
    // What is known of a semaphore.
    fn at(&self, semaphore: u32) -> Option<Seen>
        ensures { result ≡ seen_at self.now semaphore }
    {
        self.seen.get(&semaphore).copied()
    }

    // Whether a wait is met.
    fn is_met(&self, wait: &SemaphorePoint) -> bool
        ensures { result ≡ is_met_in self.now wait.now }
    {
        wait.value <= value_in(self.at(wait.semaphore))
    }

    // The first wait that isn't met.
    fn unmet(&self, waits: &[SemaphorePoint]) -> Option<Place>
        requires { length waits.now ≤ 67108864 }
        ensures { result
            ≡ option_map Part (position (λ wait. not (is_met_in self.now wait)) waits.now) }
    {
        match self.first_unmet(waits) {
            Some(k) => Some(Place::Part(k as u32)),
            None => None,
        }
    }

    // Its position.
    fn first_unmet(&self, waits: &[SemaphorePoint]) -> Option<usize>
        requires { length waits.now ≤ 67108864 }
        ensures position { result ≡ position (λ wait. not (is_met_in self.now wait)) waits.now }
        ensures limit { IfSome result (λ k. k < 67108864) }
    {
        waits.iter().position(|wait| !self.is_met(wait))
    }

    // Whether a signal by a queue is at odds with those before it.
    fn is_odd(&self, queue: u32, point: &SemaphorePoint) -> bool
        ensures { result ≡ is_odd_in self.now (signal_by queue point.now) }
    {
        is_odd(self.at(point.semaphore), queue, point.value)
    }

    // Goes on past a signal by a queue.
    fn add(&mut self, queue: u32, point: &SemaphorePoint) -> Result<(), NoMemory>
        ensures { OnOk result ((semaphore : ℕ) → seen_at self.new semaphore
            ≡ (if is_at (nat_cmp point.now.semaphore) semaphore
            then Some (seen_after queue point.now.value (seen_at self.old point.now.semaphore))
            else seen_at self.old semaphore)) }
    {
        let seen = seen_after(self.at(point.semaphore), queue, point.value);
        self.seen.insert(point.semaphore, seen)?;
        Ok(())
    }

    // Goes on past the signals of a submission to a queue, up to the first that is at odds.
    fn odd(&mut self, queue: u32, signals: &[SemaphorePoint]) -> Result<Option<Place>, NoMemory>
        requires { length signals.now ≤ 67108864 }
        ensures place { IfOk result (λ place. (earlier : List ASignal) → AreSeen earlier self.old
            → place ≡ option_map Part (first_odd earlier 0 (map (signal_by queue) signals.now))) }
        ensures next { result ≡ Ok None → (earlier : List ASignal) → AreSeen earlier self.old
            → AreSeen (earlier ++ map (signal_by queue) signals.now) self.new }
    {
        for (k, point) in signals.iter().enumerate() {
            if self.is_odd(queue, point) {
                return Ok(Some(Place::Part(k as u32)));
            }
            self.add(queue, point)?;
        }
        Ok(None)
    }
}

// The value of a semaphore.
fn value_in(seen: Option<Seen>) -> u64
    ensures { result ≡ value_in seen }
{
    match seen {
        Some(seen) => seen.value,
        None => 0,
    }
}

// Whether a queue other than this one has signalled a semaphore.
fn elsewhere_in(seen: Option<Seen>, queue: u32) -> bool
    ensures { result ≡ elsewhere_in seen queue }
{
    match seen {
        Some(seen) => seen.shared || seen.queue != queue,
        None => false,
    }
}

// Whether a signal by a queue is at odds with what is known of its semaphore.
fn is_odd(seen: Option<Seen>, queue: u32, value: u64) -> bool
    ensures { result ≡ is_odd_seen queue value seen }
{
    value <= value_in(seen) || elsewhere_in(seen, queue)
}

// What is known of a semaphore after one more signal by a queue.
fn seen_after(seen: Option<Seen>, queue: u32, value: u64) -> Seen
    ensures { result ≡ seen_after queue value seen }
{
    match seen {
        Some(old) => Seen {
            value: old.value.max(value),
            queue: old.queue,
            shared: old.shared || old.queue != queue,
        },
        None => Seen {
            value,
            queue,
            shared: false,
        },
    }
}

// The refusal of command number `n` by a rule where it is broken, and else by the later ones.
fn or_later(n: u32, number: u8, place: Option<Place>, later: Option<Refusal>) -> Option<Refusal>
    ensures { result ≡ or_later n number place later }
{
    match place {
        Some(place) => Some(Refusal {
            command: n,
            rule: Rule::V(number),
            place,
        }),
        None => later,
    }
}
