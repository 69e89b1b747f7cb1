ghost use Rattle.std.specs.Prelude.{◌≡◌, ◌∷◌, [], ℕ, List, None, OnOk, Some, if◌then◌else◌, map};
ghost use Rattle.std.specs.BTreeMap.{get, is_at};
ghost use Rattle.std.specs.Option.{option_map};
ghost use Rattle.std.specs.Ordering.{nat_cmp};
ghost use Rattle.ray_queues.specs.Events.{timeline_point};
ghost use Rattle.ray_queues.specs.Marks.{AddMarks, AreMarks, found_for, list_of, mark_of};
ghost use Rattle.ray_queues.specs.Marks.{number_for, number_sent, numbers_in};
ghost use Rattle.ray_queues.specs.Numbers.{all_stages};
ghost use Rattle.ray_queues.specs.Sources.{ArePerQueue, IsArrived, number_met};
ghost use Rattle.ray_submits.specs.Submits.{QueueCommands};

use crate::arrived::Arrived;
use crate::per_queue::{PerQueue, PerStage};
use crate::rising::{Mark, Rising};
use ray_chains::Stage;
use ray_submits::SemaphorePoint;
use std::alloc::{AllocError as NoMemory, Global};
use std::collections::BTreeMap;

/// What has been signalled: for each semaphore the signals that raise it, in order. What they say
/// of a wait is `found_for` of them.
#[derive(Drop)]
pub(crate) struct Marks {
    pub(crate) alloc: Global,
    pub(crate) raised: BTreeMap<u32, Rising>,
}

impl Marks {
    // Nothing has.
    pub(crate) fn new(alloc: Global) -> Marks
        ensures { (q : QueueCommands) → AreMarks q 0 result }
    {
        Marks {
            alloc,
            raised: BTreeMap::new(alloc),
        }
    }

    // The first signal that is enough for a wait.
    fn find(&self, wait: &SemaphorePoint) -> Option<&Mark>
        ensures { option_map (λ m. m.now) result ≡ found_for self.now (timeline_point wait.now) }
    {
        match self.raised.get(&wait.semaphore) {
            Some(rising) => rising.find(wait.value),
            None => None,
        }
    }

    // Below which numbers what was done is carried by what meets a wait.
    fn met_by(&self, wait: &SemaphorePoint) -> PerQueue
        ensures { (q : QueueCommands) (n : ℕ) → AreMarks q n self.now
            → ArePerQueue (number_for q n (timeline_point wait.now)) result }
    {
        if wait.value == 0 {
            PerQueue::all(0)
        } else {
            numbers_in(self.find(wait))
        }
    }

    // The same of several waits.
    pub(crate) fn met(&self, waits: &[SemaphorePoint]) -> PerQueue
        ensures { (q : QueueCommands) (n : ℕ) → AreMarks q n self.now
            → ArePerQueue (number_met q n (map timeline_point waits.now)) result }
    {
        let mut numbers = PerQueue::all(0);
        for wait in waits {
            numbers = numbers.greater(self.met_by(wait));
        }
        numbers
    }

    // Goes on past the signals of a submission, command number `n`, which carry what was done below
    // these numbers.
    pub(crate) fn signal(
        &mut self,
        n: u32,
        signals: &[SemaphorePoint],
        numbers: PerQueue,
    ) -> Result<(), NoMemory>
        ensures { OnOk result (AddMarks self.old (map (mark_of n numbers) signals.now) self.new) }
    {
        for point in signals {
            self.raise(Mark {
                semaphore: point.semaphore,
                value: point.value,
                submit: n,
                numbers,
            })?;
        }
        Ok(())
    }

    // Goes on past a signal.
    fn raise(&mut self, mark: Mark) -> Result<(), NoMemory>
        ensures { OnOk result (AddMarks self.old (mark ∷ []) self.new) }
    {
        let mut rising = self.taken(mark.semaphore);
        rising.raise(mark)?;
        self.put(mark.semaphore, rising)
    }

    // Takes out the signals of a semaphore.
    fn taken(&mut self, semaphore: u32) -> Rising
        ensures list { result ≡ list_of (get nat_cmp self.old.raised semaphore) }
        ensures others { (other : ℕ) → get nat_cmp self.new.raised other
            ≡ (if is_at (nat_cmp semaphore) other then None
            else get nat_cmp self.old.raised other) }
    {
        match self.raised.remove(&semaphore) {
            Some(rising) => rising,
            None => Rising::new(self.alloc),
        }
    }

    // Puts them back.
    fn put(&mut self, semaphore: u32, rising: Rising) -> Result<(), NoMemory>
        ensures { OnOk result ((other : ℕ) → get nat_cmp self.new.raised other
            ≡ (if is_at (nat_cmp semaphore) other then Some rising
            else get nat_cmp self.old.raised other)) }
    {
        self.raised.insert(semaphore, rising)?;
        Ok(())
    }
}

// The numbers of a signal, 0 where there is none.
fn numbers_in(mark: Option<&Mark>) -> PerQueue
    ensures { result ≡ numbers_in (option_map (λ m. m.now) mark.entry) }
{
    match mark {
        Some(mark) => mark.numbers,
        None => PerQueue::all(0),
    }
}

// Below which numbers what was done is carried by the signals of a submission to a queue, command
// number `n`: all of its own queue, and of the others what has reached it.
pub(crate) fn carried(arrived: Arrived, queue: u32, n: u32) -> PerQueue
    ensures { (q : QueueCommands) → IsArrived q queue n arrived
        → ArePerQueue (number_sent q queue n) result }
{
    let numbers = arrived.at(Stage::Transfer);
    PerQueue {
        zero: own_or(queue == 0, n, numbers.zero),
        one: own_or(queue == 1, n, numbers.one),
        two: own_or(queue == 2, n, numbers.two),
        three: own_or(queue == 3, n, numbers.three),
    }
}

// A number for each stage of the own queue, and these for another.
fn own_or(own: bool, n: u32, numbers: PerStage) -> PerStage
    ensures { result ≡ (if own then all_stages n else numbers) }
{
    if own { PerStage::all(n) } else { numbers }
}
