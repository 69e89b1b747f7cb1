ghost use Rattle.std.specs.Prelude.{◌≡◌, ◌≤◌, ◌^◌, IfOk, Some, false};
ghost use Rattle.ray_flags.specs.Admission.{AsksBoth};
ghost use Rattle.ray_bottom.specs.Slots.{contents_at};
ghost use Rattle.ray_bottom.specs.Trees as bottom_trees;
ghost use Rattle.ray_top.specs.Contents.{has_both_fast};

use ray_bottom::{Bottom, Bottoms};
use ray_bytes::InstanceView;
use ray_candidates::standing_law;
use ray_flags::{BuildFlags, RayFlags};
use ray_geom::{Ray, Steps};
use ray_primitives::BuildFault;
use ray_query::{Client, Commit};
use ray_top::{Top, Used};
use ray_walk::{NoMemory, QueryOptions, Turns, trace_plain, trace_ray};
use std::alloc::Global;
use std::marker::{Brand, Model};
use std::thread::Threads;

/// A top structure, and the bottom structures to which its instances refer. (Own.)
#[derive(Drop)]
pub(crate) struct Scene {
    top: Top,
    bottoms: Bottoms,
}

impl Model for Scene {
    ghost use Rattle.ray_bottom.specs.Slots.{Slots};
    ghost use Rattle.ray_top.specs.Trees.{TopWithTree, without_tree};
    ghost use Rattle.ray_candidates.specs.Standing.{AreStanding, structures_in};

    ghost Value = { TopWithTree × Slots };

    ghost view = { λ s. (s.top, s.bottoms) };

    ghost invariant = { λ s. AreStanding (without_tree s.top) (structures_in s.bottoms) };
}

/// How a ray is traced. (Own.)
#[derive(Clone, Copy, Debug)]
pub(crate) struct Sent {
    /// The ray.
    pub(crate) ray: Ray,
    /// Its flags.
    pub(crate) flags: RayFlags,
    /// Its cull mask.
    pub(crate) mask: u8,
}

impl Scene {
    /// One instance of a structure, with the id 0.
    pub(crate) fn alone<R: AllocGlobal + Threads + Sync>(
        rt: &R,
        bottom: Bottom,
        records: &[u8],
    ) -> Result<Scene, BuildFault> {
        let used = [Used {
            id: 0,
            bounds: bottom.bounds(),
        }];
        let bottoms = one(rt.alloc(), bottom)?;
        let top = top_of(rt, &used, BuildFlags(0), records, 1)?;
        standing_law(&top, &bottoms);
        Ok(Scene { top, bottoms })
    }

    /// Instances of three structures, with the ids 0 to 2. The flags are those of the build of the
    /// top structure.
    pub(crate) fn of_three<R: AllocGlobal + Threads + Sync>(
        rt: &R,
        first: Bottom,
        second: Bottom,
        third: Bottom,
        flags: BuildFlags,
        records: &[u8],
        count: u32,
    ) -> Result<Scene, BuildFault>
        requires speed { has_both_fast flags ≡ false }
        requires count { count ≤ 2 ^ 16 }
    {
        let used = [
            Used {
                id: 0,
                bounds: first.bounds(),
            },
            Used {
                id: 1,
                bounds: second.bounds(),
            },
            Used {
                id: 2,
                bounds: third.bounds(),
            },
        ];
        let bottoms = three(rt.alloc(), first, second, third)?;
        let top = top_of(rt, &used, flags, records, count)?;
        standing_law(&top, &bottoms);
        Ok(Scene { top, bottoms })
    }

    /// What the trace of a ray commits, by a walk through the trees.
    #[inline(never)]
    pub(crate) fn walked<C: Client>(
        &self,
        sent: &Sent,
        client: &C,
        turns: &mut Turns,
    ) -> Result<Option<Commit>, NoMemory>
        requires { ¬ AsksBoth sent.now.flags }
    {
        let mut steps: Steps<Brand> = Steps::zero();
        let options = QueryOptions {
            number: 0,
            flags: sent.flags,
            mask: sent.mask,
        };
        trace_ray(
            &self.top,
            &self.bottoms,
            &sent.ray,
            options,
            client,
            turns,
            &mut steps,
        )
    }

    /// What it commits, by a test of every primitive.
    pub(crate) fn plainly<C: Client>(
        &self,
        alloc: Global,
        sent: &Sent,
        client: &C,
    ) -> Result<Option<Commit>, NoMemory>
        requires { ¬ AsksBoth sent.now.flags }
    {
        let mut steps: Steps<Brand> = Steps::zero();
        let options = QueryOptions {
            number: 0,
            flags: sent.flags,
            mask: sent.mask,
        };
        trace_plain(
            alloc,
            &self.top,
            &self.bottoms,
            &sent.ray,
            options,
            client,
            &mut steps,
        )
    }
}

// A structure under the id 0.
fn one(alloc: Global, bottom: Bottom) -> Result<Bottoms, NoMemory>
    ensures { IfOk result (λ bottoms. contents_at 0 bottoms
        ≡ Some (bottom_trees.without_tree bottom)) }
{
    let mut bottoms = Bottoms::new(alloc);
    bottoms.make_room(0)?;
    bottoms.put(0, bottom);
    Ok(bottoms)
}

// Three structures under the ids 0 to 2.
fn three(alloc: Global, first: Bottom, second: Bottom, third: Bottom) -> Result<Bottoms, NoMemory>
    ensures first { IfOk result (λ bottoms. contents_at 0 bottoms
        ≡ Some (bottom_trees.without_tree first)) }
    ensures second { IfOk result (λ bottoms. contents_at 1 bottoms
        ≡ Some (bottom_trees.without_tree second)) }
    ensures third { IfOk result (λ bottoms. contents_at 2 bottoms
        ≡ Some (bottom_trees.without_tree third)) }
{
    let mut bottoms = one(alloc, first)?;
    bottoms.make_room(1)?;
    bottoms.put(1, second);
    bottoms.make_room(2)?;
    bottoms.put(2, third);
    Ok(bottoms)
}

// A top structure of the first instances of these records.
fn top_of<R: AllocGlobal + Threads + Sync>(
    rt: &R,
    used: &[Used],
    flags: BuildFlags,
    records: &[u8],
    count: u32,
) -> Result<Top, BuildFault>
    requires speed { has_both_fast flags ≡ false }
    requires count { count ≤ 2 ^ 16 }
    ensures { IfOk result (λ top. top.used ≡ used.now) }
{
    let view = InstanceView::new(records, 0);
    Top::build(rt, rt.alloc(), flags, view, count, used)
}
