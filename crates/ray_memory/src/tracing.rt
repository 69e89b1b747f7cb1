ghost use Rattle.std.specs.Prelude.{◌≡◌, ◌<◌, length, option_and_then, option_map};
ghost use Rattle.ray_action.specs.Memory.{ContentsAt, as_top, bytes_at};
ghost use Rattle.ray_action.specs.Outcomes.{ray_within};
ghost use Rattle.ray_action.specs.Pieces.{command_at};
ghost use Rattle.ray_action.specs.Traceable.{bottoms_of};
ghost use Rattle.ray_memory.specs.State.{memory_of};
ghost use Rattle.ray_memory.specs.Tracing.{all_rays, lent, ray_at, seen_from, seen_of};

use crate::state::State;
use ray_bottom::Bottoms;
use ray_bytes::{RayRecord, RayView};
use ray_cmd::{Command, Recording, Spot};
use ray_geom::{Ray, Vec3};
use ray_rules::ByteRange;
use ray_top::Top;

/// What a trace reads, as it stands in the memory. (SPV_KHR_ray_query: what a query is initialized
/// with.)
#[derive(Drop)]
pub struct TraceInputs<'s> {
    /// The top structure that is traced.
    pub top: &'s Top,
    /// The bottom structures of all ids, among them those of its instances.
    pub bottoms: &'s Bottoms,
    /// Its rays, from number 0 on.
    pub rays: RayView<'s>,
}

impl State {
    /// What command number `i` reads where it is a trace. None exactly where it is none, or its top
    /// structure or some of its rays aren't there, as never happens before a trace of a recording
    /// that keeps the rules. (Own.)
    #[tactic(auto, using(crate::proofs::Changing::command_is))]
    pub fn trace_inputs(&self, rec: &Recording, i: u32) -> Option<TraceInputs<'_>>
        requires within { i < length rec.now }
        ensures { option_map lent result ≡ seen_of (memory_of self.now) (command_at rec.now i) }
    {
        self.inputs_of(rec.command(i))
    }

    // The same of a command.
    fn inputs_of(&self, command: &Command) -> Option<TraceInputs<'_>>
        ensures { option_map lent result ≡ seen_of (memory_of self.now) command.now }
    {
        match command {
            Command::Trace {
                top,
                rays,
                count,
                ..
            } => self.inputs(*top, all_rays(*rays, *count)),
            _ => None,
        }
    }

    // The same of a top structure, and of rays in a range.
    fn inputs(&self, top: u32, from: ByteRange) -> Option<TraceInputs<'_>>
        ensures { let m = memory_of self.now in option_map lent result ≡ seen_from (bottoms_of m)
            (option_and_then as_top (m (ContentsAt top))) (bytes_at m from) }
    {
        match self.top(top) {
            None => None,
            Some(top) => match self.bytes(from) {
                None => None,
                Some(bytes) => Some(TraceInputs {
                    top,
                    bottoms: self.bottoms(),
                    rays: RayView::new(bytes, 0),
                }),
            },
        }
    }
}

// Where all rays of a trace stand.
fn all_rays(rays: Spot, count: u32) -> ByteRange
    ensures { result ≡ all_rays rays count }
{
    ByteRange {
        buffer: rays.buffer,
        from: u128::from(rays.offset),
        size: 40 * u128::from(count),
    }
}

/// Ray `k` of a row of rays. None exactly where it isn't whole, or breaks the limits of rays (X11).
/// (SPV_KHR_ray_query: the origin, the direction and the interval of a ray.)
pub fn ray_at(rays: &RayView<'_>, k: u32) -> Option<Ray>
    ensures { result ≡ ray_at rays.now k }
{
    within(rays.get(k)?)
}

// The ray of a record. None where it breaks the limits.
fn within(read: RayRecord) -> Option<Ray>
    ensures { result ≡ ray_within read }
{
    Ray::new(
        Vec3::from_words(read.origin),
        Vec3::from_words(read.dir),
        read.tmin,
        read.tmax,
    )
}
