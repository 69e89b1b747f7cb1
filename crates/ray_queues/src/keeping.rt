ghost use Rattle.std.specs.Prelude.{◌≡◌, ◌<◌, ℕ, OnOk, Some, if◌then◌else◌, length, suc};
ghost use Rattle.std.specs.Option.{option_map};
ghost use Rattle.ray_cmd.specs.declared.command.Command.TheVariants as commands;
ghost use Rattle.ray_rules.specs.Order.{is_wait, kind_at};
ghost use Rattle.ray_queues.specs.Events.{waits_in};
ghost use Rattle.ray_queues.specs.Keeping.{IsHere, IsKeeping, passed_by};
ghost use Rattle.ray_queues.specs.Kinds.{IsLimits};
ghost use Rattle.ray_queues.specs.Marks.{AreMarks};
ghost use Rattle.ray_queues.specs.Sources.{ArePerQueue, AreTargets, number_at, number_met};
ghost use Rattle.ray_submits.specs.Submits.{HaveQueues, QueueCommands, queue_in, queue_of};

use crate::arrived::QueueEvent;
use crate::limits::{Limits, limits_of};
use crate::marks::{Marks, carried};
use crate::per_queue::PerQueue;
use crate::targets::Targets;
use ray_chains::Stage;
use ray_cmd::Command;
use ray_rules::Kind;
use ray_submits::{QueueRecording, Submission};
use ray_sync::barrier_of;
use std::alloc::{AllocError as NoMemory, Global};

/// What is kept of the order where a command stands: `IsKeeping` says what that means.
#[derive(Drop)]
pub struct Keeping {
    pub(crate) targets: Targets,
    pub(crate) marks: Marks,
    // The number of the last `wait`, 0 where there was none.
    pub(crate) waited: u32,
}

impl Keeping {
    /// Where a recording begins.
    pub fn new(alloc: Global) -> Keeping
        ensures { (q : QueueCommands) → IsKeeping q 0 result }
    {
        Keeping {
            targets: Targets::none(),
            marks: Marks::new(alloc),
            waited: 0,
        }
    }

    // Below which numbers the commands of each kind are ordered before command number `n`.
    pub(crate) fn limits(&self, n: u32, kind: Kind, queue: u32) -> Limits
        ensures { (q : QueueCommands) → HaveQueues q.submits → IsKeeping q n self.now
            → kind ≡ kind_at q.commands n → queue ≡ queue_of q n → IsLimits q n result }
    {
        limits_of(&self.targets, n, self.waited, kind, queue)
    }

    /// Below which numbers what the commands of each queue and stage did is ordered before what is
    /// done at a stage of a queue, which is from 0 to 3.
    pub fn ordered(&self, queue: u32, to: Stage) -> PerQueue
        ensures { queue < 4 → (q : QueueCommands) (n : ℕ) → IsKeeping q n self.now
            → ArePerQueue (number_at q queue n to) result }
    {
        self.targets.of(queue).at(to)
    }

    /// Below which numbers what they did is carried by what meets the waits of a submission.
    pub fn met(&self, submission: Option<&Submission>) -> PerQueue
        ensures { (q : QueueCommands) (n : ℕ) → IsKeeping q n self.now
            → ArePerQueue (number_met q n
            (waits_in (option_map (λ s. s.now) submission.entry))) result }
    {
        met_in(submission, &self.marks)
    }

    /// Goes on past command number `n`.
    ///
    /// # Errors
    ///
    /// For want of memory alone.
    pub fn pass(&mut self, rec: &QueueRecording, n: u32) -> Result<(), NoMemory>
        requires { n < length rec.now.commands }
        ensures { OnOk result (HaveQueues rec.now.submits → IsKeeping rec.now n self.old
            → IsKeeping rec.now (suc n) self.new) }
    {
        let command = rec.recording().command(n);
        let submission = rec.submission_of(n);
        let numbers = numbers_for(command, submission, &self.marks);
        let event = event_of(command, queue_in(submission), numbers);
        signal(&mut self.marks, &self.targets, n, command, submission)?;
        self.targets = self.targets.passed(n, event);
        self.waited = waited_after(n, command, self.waited);
        Ok(())
    }
}

/// The queue of a submission, 0 where there is none.
pub fn queue_in(submission: Option<&Submission>) -> u32
    ensures { result ≡ queue_in (option_map (λ s. s.now) submission.entry) }
{
    match submission {
        Some(submission) => submission.queue,
        None => 0,
    }
}

// Where a command is a `begin`, below which numbers what was done is carried by what meets the
// waits of its submission.
fn numbers_for(command: &Command, submission: Option<&Submission>, marks: &Marks) -> PerQueue
    ensures { command.now ≡ commands.Begin → (q : QueueCommands) (n : ℕ) → AreMarks q n marks.now
        → ArePerQueue (number_met q n
        (waits_in (option_map (λ s. s.now) submission.entry))) result }
{
    match command {
        Command::Begin => met_in(submission, marks),
        _ => PerQueue::all(0),
    }
}

// The same of any submission.
fn met_in(submission: Option<&Submission>, marks: &Marks) -> PerQueue
    ensures { (q : QueueCommands) (n : ℕ) → AreMarks q n marks.now
        → ArePerQueue (number_met q n
        (waits_in (option_map (λ s. s.now) submission.entry))) result }
{
    match submission {
        Some(submission) => marks.met(submission.waits.as_slice()),
        None => PerQueue::all(0),
    }
}

// What a command of a queue is to the order. These numbers are for a `begin`.
fn event_of(command: &Command, queue: u32, numbers: PerQueue) -> QueueEvent
    ensures { result ≡ passed_by queue numbers command.now }
{
    match command {
        Command::Barrier {
            src_stages,
            src_access,
            dst_stages,
            dst_access,
            ..
        } => {
            let barrier = barrier_of(*src_stages, *src_access, *dst_stages, *dst_access);
            QueueEvent::Barrier(queue, barrier)
        }
        Command::Begin => QueueEvent::Begin(queue, numbers),
        Command::Wait => QueueEvent::Wait,
        _ => QueueEvent::Other,
    }
}

// Goes on past command number `n`: where it is a `submit`, past its signals.
fn signal(
    marks: &mut Marks,
    targets: &Targets,
    n: u32,
    command: &Command,
    submission: Option<&Submission>,
) -> Result<(), NoMemory>
    ensures { OnOk result ((q : QueueCommands) → HaveQueues q.submits
        → IsHere q n command.now (option_map (λ s. s.now) submission.entry)
        → AreTargets q n targets.now → AreMarks q n marks.old → AreMarks q (suc n) marks.new) }
{
    match command {
        Command::Submit => signal_by(marks, targets, n, submission),
        _ => Ok(()),
    }
}

// The same past a `submit`, command number `n`.
fn signal_by(
    marks: &mut Marks,
    targets: &Targets,
    n: u32,
    submission: Option<&Submission>,
) -> Result<(), NoMemory>
    ensures { OnOk result ((q : QueueCommands) → HaveQueues q.submits
        → IsHere q n commands.Submit (option_map (λ s. s.now) submission.entry)
        → AreTargets q n targets.now → AreMarks q n marks.old → AreMarks q (suc n) marks.new) }
{
    match submission {
        Some(submission) => signal_of(marks, targets, n, submission),
        None => Ok(()),
    }
}

// The same past the `submit` of a submission, command number `n`.
fn signal_of(
    marks: &mut Marks,
    targets: &Targets,
    n: u32,
    submission: &Submission,
) -> Result<(), NoMemory>
    ensures { OnOk result ((q : QueueCommands) → HaveQueues q.submits
        → IsHere q n commands.Submit (Some submission.now)
        → AreTargets q n targets.now → AreMarks q n marks.old → AreMarks q (suc n) marks.new) }
{
    let queue = submission.queue;
    let numbers = carried(targets.of(queue), queue, n);
    marks.signal(n, submission.signals.as_slice(), numbers)
}

// The last `wait` once command number `n` is done.
fn waited_after(n: u32, command: &Command, waited: u32) -> u32
    ensures { result ≡ (if is_wait (Some command.now) then n else waited) }
{
    match command {
        Command::Wait => n,
        _ => waited,
    }
}
