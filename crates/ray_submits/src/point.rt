ghost use Rattle.std.specs.Prelude.{◌≡◌};
ghost use Rattle.serde_json.specs.View.{view};
ghost use Rattle.ray_json.specs.Outcome.{Gives};
ghost use Rattle.ray_submits.specs.Shapes.{point_in, point_of, points_of};

use ray_json::{Listed, ReadFault, Reader, read_list, read_u64};
use serde_json::Value;
use std::alloc::Global;

// The greatest number of waits, and of signals, of one submission.
const MOST_POINTS: usize = 64;

/// A timeline semaphore, from 0 to 63, and a value of it: what a submission waits for, or signals.
/// (Vulkan: VkSemaphoreSubmitInfo; own: that there are 64.)
#[derive(Clone, Copy, Debug, PartialEq, Eq)]
pub struct SemaphorePoint {
    /// The number of the semaphore.
    pub semaphore: u32,
    /// The value.
    pub value: u64,
}

// Reads a number of 64 bits.
struct NumberReader;

impl Reader for NumberReader {
    type Item = u64;

    ghost use Rattle.ray_json.specs.Fields.{u64_of};

    ghost spells = { u64_of };

    fn read(_alloc: Global, value: &Value) -> Result<u64, ReadFault> {
        read_u64(value)
    }
}

// Reads a wait or a signal.
struct PointReader;

impl Reader for PointReader {
    type Item = SemaphorePoint;

    ghost use Rattle.ray_submits.specs.Shapes.{point_of};

    ghost spells = { point_of };

    fn read(alloc: Global, value: &Value) -> Result<SemaphorePoint, ReadFault> {
        read_point(alloc, value)
    }
}

// The wait or signal that a value spells.
fn read_point(alloc: Global, value: &Value) -> Result<SemaphorePoint, ReadFault>
    ensures { Gives result (point_of (view value.now)) }
{
    let numbers = read_list::<NumberReader>(alloc, value)?;
    point_in(numbers.as_slice()).ok_or(ReadFault::Shape)
}

// The wait or signal that two numbers are.
fn point_in(numbers: &[u64]) -> Option<SemaphorePoint>
    ensures { result ≡ point_in numbers.now }
{
    match numbers {
        [semaphore, value] if *semaphore < 64 => Some(SemaphorePoint {
            semaphore: *semaphore as u32,
            value: *value,
        }),
        _ => None,
    }
}

// The waits or signals that a value spells, at most 64.
pub(crate) fn points(alloc: Global, value: &Value) -> Result<Listed<SemaphorePoint>, ReadFault>
    ensures { Gives result (points_of (view value.now)) }
{
    let points = read_list::<PointReader>(alloc, value)?;
    if points.as_slice().len() <= MOST_POINTS {
        Ok(points)
    } else {
        Err(ReadFault::Shape)
    }
}
