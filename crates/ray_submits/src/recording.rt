ghost use Rattle.std.specs.Prelude.{◌≡◌, ◌<◌, length, option_map};
ghost use Rattle.ray_submits.specs.Reading.{Answers, counted};
ghost use Rattle.ray_submits.specs.Submits.{HaveQueues, queue_in, queue_of, submission_at};

use crate::counts::{Counts, counts_of};
use crate::fault::QueueFault;
use crate::submission::Submission;
use ray_cmd::{Listed, Recording};
use ray_rules::{Kind, kind_of};
use std::alloc::Global;
use std::marker::Model;

/// The commands of a recording and what each `submit` of them is submitted with, in order.
/// Contracts see it as the two lists.
#[derive(Drop)]
pub struct QueueRecording {
    recording: Recording,
    submits: Listed<Submission>,
    counts: Counts,
}

impl Model for QueueRecording {
    ghost use Rattle.std.specs.Prelude.{length, ◌≡◌};
    ghost use Rattle.ray_submits.specs.Counts.{AreCounts};
    ghost use Rattle.ray_submits.specs.Submits.{HaveQueues, QueueCommands};

    ghost Value = { QueueCommands };

    ghost view = { λ r. record { commands = r.recording; submits = r.submits } };

    ghost invariant = { λ r. AreCounts r.recording r.counts × (length r.submits ≡ r.counts.all)
        × HaveQueues r.submits };
}

impl QueueRecording {
    /// The commands.
    pub fn recording(&self) -> &Recording
        ensures { result.now ≡ self.now.commands }
    {
        &self.recording
    }

    /// The queue of command number `i`, from 0, which has to be below the number of commands: that
    /// of its submission, and 0 where it has none, or is done by the host.
    pub fn queue_of(&self, i: u32) -> u32
        requires { i < length self.now.commands }
        ensures { result ≡ queue_of self.now i }
    {
        match kind_of(self.recording.command(i)) {
            Kind::HostCommand => 0,
            _ => queue_in(self.submission_of(i)),
        }
    }

    /// The submission that command number `i` belongs to, which has to be below the number of
    /// commands: that of the next `submit` from it on. None where there is none.
    pub fn submission_of(&self, i: u32) -> Option<&Submission>
        requires { i < length self.now.commands }
        ensures { option_map (λ s. s.now) result ≡ submission_at self.now i }
    {
        let count = self.counts.below[i as usize];
        self.submits.as_slice().get(count as usize)
    }

    /// A law: each submission goes to one of the queues 0 to 3. It does nothing.
    pub fn queues_law(&self)
        ensures { HaveQueues self.now.submits }
    {
        let _ = &self.submits;
    }
}

// The queue of a submission, 0 where there is none.
fn queue_in(submission: Option<&Submission>) -> u32
    ensures { result ≡ queue_in (option_map (λ s. s.now) submission.entry) }
{
    match submission {
        Some(submission) => submission.queue,
        None => 0,
    }
}

// Commands and what their `submit`s are submitted with, where there is one for each.
pub(crate) fn submitted(
    alloc: Global,
    recording: Recording,
    submits: Listed<Submission>,
) -> Result<QueueRecording, QueueFault>
    requires { HaveQueues submits }
    ensures { Answers result (counted recording submits) }
{
    let counts = counts_of(alloc, &recording)?;
    let count = submits.as_slice().len() as u32;
    if count == counts.all {
        Ok(QueueRecording {
            recording,
            submits,
            counts,
        })
    } else {
        Err(QueueFault::BadSubmits(count.min(counts.all)))
    }
}
