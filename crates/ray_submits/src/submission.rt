ghost use Rattle.serde_json.specs.View.{view};
ghost use Rattle.ray_json.specs.Outcome.{Gives};
ghost use Rattle.ray_submits.specs.Shapes.{queue_of, submission_of};

use crate::point::{SemaphorePoint, points};
use ray_json::{Listed, ReadFault, member, only_members, read_u32};
use serde_json::Value;
use std::alloc::Global;

// How many queues there are.
const QUEUES: u32 = 4;

/// What a `submit` is submitted with. (Vulkan: VkSubmitInfo2; own: that there are four queues.)
#[derive(Drop)]
pub struct Submission {
    /// The queue, from 0 to 3.
    pub queue: u32,
    /// What it waits for before its commands begin, at most 64.
    pub waits: Listed<SemaphorePoint>,
    /// What it signals once its commands are done, at most 64.
    pub signals: Listed<SemaphorePoint>,
}

// The submission that a value spells.
#[tactic(auto, unfolding(crate::specs::Shapes::submission_of))]
pub(crate) fn read_submission(alloc: Global, value: &Value) -> Result<Submission, ReadFault>
    ensures { Gives result (submission_of (view value.now)) }
{
    only_members(value, &["queue", "waits", "signals"])?;
    Ok(Submission {
        queue: queue(member(value, "queue")?)?,
        waits: points(alloc, member(value, "waits")?)?,
        signals: points(alloc, member(value, "signals")?)?,
    })
}

// The queue that a value spells.
fn queue(value: &Value) -> Result<u32, ReadFault>
    ensures { Gives result (queue_of (view value.now)) }
{
    let queue = read_u32(value)?;
    if queue < QUEUES {
        Ok(queue)
    } else {
        Err(ReadFault::Shape)
    }
}
