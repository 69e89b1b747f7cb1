ghost use Rattle.std.specs.Prelude.{◌≡◌, ◌==◌, if◌then◌else◌, IfOk, Some};
ghost use Rattle.ray_bottom.specs.Slots.{contents_at};
ghost use Rattle.ray_bottom.specs.Trees as bottom_trees;
ghost use Rattle.ray_top.specs.Trees.{without_tree};
ghost use Rattle.ray_query.specs.declared.decision.Decision.TheVariants.{Confirm, Ignore};
ghost use Rattle.ray_candidates.specs.Standing.{AreStanding, structures_in};

use ray_bottom::{Bottom, Bottoms, Builder, TriangleInfo};
use ray_bytes::{Format, InstanceView, VertexView};
use ray_candidates::standing_law;
use ray_flags::{BuildFlags, RayFlags};
use ray_geom::{Ray, Steps, Vec3};
use ray_primitives::BuildFault;
use ray_query::{ByFn, Candidate, Client, Commit, Decision, Function};
use ray_top::{Top, Used};
use ray_walk::{NoMemory, QueryOptions, Turns, trace_plain, trace_ray};
use std::alloc::{AllocError, Global};
use std::marker::Brand;
use std::process::Abort;
use std::test::Fail;
use std::thread::Threads;

// A client that decides one thing on every candidate.
#[derive(Drop)]
struct Always {
    decision: Decision,
}

impl Client for Always {
    ghost meaning = { λ always c. always.decision };

    fn decide(&self, _c: &Candidate) -> Decision {
        self.decision
    }
}

const IGNORE: Always = Always {
    decision: Decision::Ignore,
};

const CONFIRM: Always = Always {
    decision: Decision::Confirm,
};

// The bytes of numbers.
fn bytes_of(alloc: Global, words: &[i32]) -> Result<Vec<u8>, AllocError> {
    let mut bytes = Vec::with_capacity(alloc, words.len())?;
    for word in words {
        bytes.extend_from_slice(&word.to_le_bytes())?;
    }
    Ok(bytes)
}

// A structure of one geometry of triangles.
fn triangles<R: AllocGlobal + Threads + Sync>(
    rt: &R,
    opaque: bool,
    words: &[i32],
    count: u8,
) -> Result<Bottom, BuildFault> {
    let vertices = bytes_of(rt.alloc(), words)?;
    let info = TriangleInfo {
        opaque,
        format: Format::S32x3,
        index_size: 0,
        count: u32::from(count),
        first_vertex: 0,
        max_vertex: 8,
    };
    let view = VertexView::new(vertices.as_slice(), 0, 12, Format::S32x3);
    let mut builder = Builder::new(rt.alloc(), BuildFlags(0));
    builder.triangles(&info, view, None, None)?;
    Ok(builder.finish(rt)?)
}

// This structure alone, under the id 3.
fn alone(alloc: Global, bottom: Bottom) -> Result<Bottoms, AllocError>
    ensures { IfOk result (λ bottoms. contents_at 3 bottoms
        ≡ Some (bottom_trees.without_tree bottom)) }
{
    let mut bottoms = Bottoms::new(alloc);
    bottoms.make_room(3)?;
    bottoms.put(3, bottom);
    Ok(bottoms)
}

// A top structure of the first instances of these words.
fn top_of<R: AllocGlobal + Threads + Sync>(
    rt: &R,
    used: &[Used],
    words: &[i32],
    count: u8,
) -> Result<Top, BuildFault>
    ensures { IfOk result (λ top. top.used ≡ used.now) }
{
    let bytes = bytes_of(rt.alloc(), words)?;
    let view = InstanceView::new(bytes.as_slice(), 0);
    Top::build(rt, rt.alloc(), BuildFlags(0), view, u32::from(count), used)
}

// A top structure of instances, with the structure of the id 3 to which they refer.
fn scene<R: AllocGlobal + Threads + Sync>(
    rt: &R,
    bottom: Bottom,
    words: &[i32],
    count: u8,
) -> Result<(Top, Bottoms), BuildFault>
    ensures { IfOk result (λ scene. AreStanding (without_tree scene.0) (structures_in scene.1)) }
{
    let used = [Used {
        id: 3,
        bounds: bottom.bounds(),
    }];
    let bottoms = alone(rt.alloc(), bottom)?;
    let top = top_of(rt, &used, words, count)?;
    standing_law(&top, &bottoms);
    Ok((top, bottoms))
}

// What is told of a commit: the numbers of the instance and the primitive, whether the front is
// seen, and the distance.
type Told = Option<(u32, u32, bool, (u64, u64))>;

// What the trace of a ray from a point along (0,0,-1) commits, which tests every primitive.
fn traced<R: AllocGlobal, C: Client>(
    rt: &R,
    scene: &(Top, Bottoms),
    origin: Vec3,
    client: &C,
) -> Result<Told, NoMemory>
    requires { AreStanding (without_tree scene.now.0) (structures_in scene.now.1) }
{
    let mut steps: Steps<Brand> = Steps::zero();
    let down = Vec3 { x: 0, y: 0, z: -1 };
    let Some(ray) = Ray::new(origin, down, 0, 1 << 30) else {
        return Ok(None);
    };
    let (top, bottoms) = scene;
    let options = QueryOptions {
        number: 0,
        flags: RayFlags(0),
        mask: 1,
    };
    let commit = trace_plain(rt.alloc(), top, bottoms, &ray, options, client, &mut steps)?;
    Ok(told(commit))
}

// What is told of a commit.
fn told(commit: Option<Commit>) -> Told {
    let c = commit?;
    Some((
        c.found.instance,
        c.found.primitive,
        c.found.front,
        c.t.lowest(),
    ))
}

// What a walk through the trees commits, for a ray from a point along (0,0,-1) with no flags.
fn walked<R: AllocGlobal, C: Client>(
    rt: &R,
    scene: &(Top, Bottoms),
    origin: Vec3,
    client: &C,
) -> Result<Told, NoMemory>
    requires { AreStanding (without_tree scene.now.0) (structures_in scene.now.1) }
{
    let mut steps: Steps<Brand> = Steps::zero();
    let mut turns = Turns::new(rt.alloc());
    let down = Vec3 { x: 0, y: 0, z: -1 };
    let Some(ray) = Ray::new(origin, down, 0, 1 << 30) else {
        return Ok(None);
    };
    let (top, bottoms) = scene;
    let options = QueryOptions {
        number: 0,
        flags: RayFlags(0),
        mask: 1,
    };
    let commit = trace_ray(top, bottoms, &ray, options, client, &mut turns, &mut steps)?;
    Ok(told(commit))
}

// The triangle (0,0,0), (4,0,0), (0,4,0), and the same at the heights 1 and 2.
const THREE: [i32; 27] = [
    0, 0, 0, 4, 0, 0, 0, 4, 0, 0, 0, 1, 4, 0, 1, 0, 4, 1, 0, 0, 2, 4, 0, 2, 0, 4, 2,
];

const ABOVE: Vec3 = Vec3 { x: 1, y: 1, z: 5 };

// An instance that leaves all where it is, with the mask 1.
const PLAIN: [i32; 16] = [1, 0, 0, 0, 0, 1, 0, 0, 0, 0, 1, 0, 1 << 24, 0, 1024, 0];

// What a function commits that confirms the offer of number 1 alone.
fn traced_by_second<R: AllocGlobal>(rt: &R, placed: &(Top, Bottoms)) -> Result<Told, AllocError>
    requires { AreStanding (without_tree placed.now.0) (structures_in placed.now.1) }
{
    let function: Function = Box::new(
        rt.alloc(),
        |c: &Candidate| -> Decision
            ensures { result ≡ if c.now.nth == 1 then Confirm else Ignore }
        {
            if c.nth == 1 {
                Decision::Confirm
            } else {
                Decision::Ignore
            }
        },
    )?;
    let client = ByFn::new(function);
    traced(rt, placed, ABOVE, &client)
}

// Three triangles above each other that aren't opaque.
#[test]
fn asks_about_triangles(rt: HostRuntime) -> Result<(), Fail> {
    let placed = scene(&rt, triangles(&rt, false, &THREE, 3)?, &PLAIN, 1)?;
    asks_about_three(&rt, &placed)
}

// The same, in this scene.
fn asks_about_three<R: Abort + AllocGlobal>(rt: &R, placed: &(Top, Bottoms)) -> Result<(), Fail>
    requires { AreStanding (without_tree placed.now.0) (structures_in placed.now.1) }
{
    let highest = Some((0, 2, true, (3, 1)));
    assert!(*rt; walked(rt, placed, ABOVE, &CONFIRM)? == highest);
    assert!(*rt; walked(rt, placed, ABOVE, &IGNORE)?.is_none());
    let middle = Some((0, 1, true, (4, 1)));
    assert!(*rt; traced_by_second(rt, placed)? == middle);
    Ok(())
}
