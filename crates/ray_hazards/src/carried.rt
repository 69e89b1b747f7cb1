ghost use Rattle.std.specs.Prelude.{◌≡◌, ℕ, IfOk, List, None, OnOk, Some, map, suc};
ghost use Rattle.std.specs.BTreeMap.{get};
ghost use Rattle.std.specs.Ordering.{nat_cmp};
ghost use Rattle.ray_chains.specs.Keeping.{AreChains};
ghost use Rattle.ray_chains.specs.Queues.{Barrier, Begin, Source as ASource, TimelinePoint, Wait};
ghost use Rattle.ray_chains.specs.Queues.{everywhere, met_by, steps, takes};
ghost use Rattle.ray_chains.specs.Fronts.{front, greatest_of};
ghost use Rattle.ray_chains.specs.Tables.{scopes_of};
ghost use Rattle.ray_hazards.specs.Carrying.{Acting, AreActs, AreLimited, AreNamed, IsCarried};
ghost use Rattle.ray_hazards.specs.Carrying.{front_to, kept_at, put_all};
ghost use Rattle.ray_hazards.specs.declared.carried.Limited.{Limited as ALimited};

use ray_chains::{AccessType, Chains, MemoryBarrier, Override, Stage, Table, limit, limited};
use std::alloc::{AllocError as NoMemory, Global};
use std::collections::BTreeMap;

/// How far what commands of one queue and stage wrote with one access is covered at a queue: the
/// fronts of everything, and in place of them, of each buffer to which a barrier of the queue was
/// limited, by the command that made it, what is kept of it.
#[derive(Drop)]
pub struct Carried {
    pub(crate) all: Table,
    pub(crate) overrides: BTreeMap<u32, Override>,
}

/// What is kept anew of the buffer that a command made.
#[derive(Clone, Copy, Debug, PartialEq, Eq)]
pub(crate) struct Limited {
    pub(crate) made: u32,
    pub(crate) over: Override,
}

impl Carried {
    /// Where a recording begins.
    pub fn new(alloc: Global) -> Carried
        ensures { (a : Acting) (source : ASource) (queue : ℕ) → IsCarried a source queue 0 result }
    {
        Carried {
            all: Table::none(),
            overrides: BTreeMap::new(alloc),
        }
    }

    // What is kept of a thing: nothing of structures, which no barrier names.
    fn kept(&self, thing: Option<u32>) -> Option<Override>
        ensures { result ≡ kept_at self.now thing }
    {
        match thing {
            Some(made) => self.overrides.get(&made).copied(),
            None => None,
        }
    }

    /// Below which number what was written to a thing is covered to an access at a stage.
    pub fn limit(
        &self,
        chains: &Chains,
        thing: Option<u32>,
        stage: Stage,
        access: AccessType,
    ) -> u32
        ensures { (a : Acting) (source : ASource) (queue n : ℕ) → AreActs a
            → IsCarried a source queue n self.now → AreChains a.events queue n chains.now
            → front_to a source thing n queue stage access ≡ result }
    {
        limit(&self.all, &self.kept(thing), chains, stage, access)
    }

    /// The same after a barrier of the queue that isn't limited, command number `n`. `direct` says
    /// that it takes up directly what was written.
    pub fn hand_on(&mut self, direct: bool, n: u32, barrier: &MemoryBarrier)
        ensures { (a : Acting) (source : ASource) (queue : ℕ) → AreActs a
            → a.events n ≡ Barrier queue (scopes_of barrier.now) None
            → direct ≡ takes source queue (scopes_of barrier.now)
            → IsCarried a source queue n self.old → IsCarried a source queue (suc n) self.new }
    {
        self.all = self.all.barrier_on_all(false, direct, n, barrier);
    }

    /// The same after a `wait` of the host, command number `n`.
    pub fn wait(&mut self, n: u32)
        ensures { (a : Acting) (source : ASource) (queue : ℕ) → AreActs a → a.events n ≡ Wait
            → IsCarried a source queue n self.old → IsCarried a source queue (suc n) self.new }
    {
        self.all = self.all.on_device(n);
    }

    /// The same after the begin of a submission to the queue, where what was done below a number is
    /// carried by what meets its waits.
    pub fn begin(&mut self, number: u32)
        ensures { (a : Acting) (source : ASource) (queue n : ℕ) (waits : List TimelinePoint)
            → AreActs a → a.events n ≡ Begin queue waits
            → number ≡ greatest_of (front (everywhere a.events) (steps a.events source) n)
            (met_by a.events n waits)
            → IsCarried a source queue n self.old → IsCarried a source queue (suc n) self.new }
    {
        self.all = self.all.on_device(number);
    }

    /// The same after a barrier of the queue that is limited to the buffers of these makers,
    /// command number `n`.
    ///
    /// # Errors
    ///
    /// For want of memory alone.
    pub fn limit_to(
        &mut self,
        alloc: Global,
        direct: bool,
        n: u32,
        barrier: &MemoryBarrier,
        makers: &[u32],
        chains: &Chains,
    ) -> Result<(), NoMemory>
        ensures { OnOk result ((a : Acting) (source : ASource) (queue : ℕ) (ids : List ℕ)
            → AreActs a → a.events n ≡ Barrier queue (scopes_of barrier.now) (Some ids)
            → direct ≡ takes source queue (scopes_of barrier.now) → AreNamed a n makers.now
            → AreChains a.events queue n chains.now
            → IsCarried a source queue n self.old → IsCarried a source queue (suc n) self.new) }
    {
        let limits = self.limits(alloc, direct, n, barrier, makers, chains)?;
        self.put(limits.as_slice())
    }

    // What is kept of each of these buffers after a barrier that is limited to them.
    fn limits(
        &self,
        alloc: Global,
        direct: bool,
        n: u32,
        barrier: &MemoryBarrier,
        makers: &[u32],
        chains: &Chains,
    ) -> Result<Vec<Limited>, NoMemory>
        ensures makers { IfOk result (λ limits.
            map (λ (l : ALimited). l.made) limits.items ≡ makers.now) }
        ensures limits { IfOk result (λ limits.
            (a : Acting) (source : ASource) (queue : ℕ) (ids : List ℕ)
            → AreActs a → a.events n ≡ Barrier queue (scopes_of barrier.now) (Some ids)
            → direct ≡ takes source queue (scopes_of barrier.now) → AreNamed a n makers.now
            → AreChains a.events queue n chains.now
            → IsCarried a source queue n self.now
            → AreLimited a source queue (suc n) limits.items) }
    {
        let mut limits = Vec::new(alloc);
        for maker in makers {
            let made = *maker;
            let kept = self.kept(Some(made));
            let over = limited(&self.all, &kept, chains, direct, n, barrier);
            limits.push(Limited { made, over })?;
        }
        Ok(limits)
    }

    // Puts what is kept of buffers in its place.
    fn put(&mut self, limits: &[Limited]) -> Result<(), NoMemory>
        ensures all { self.new.all ≡ self.old.all }
        ensures put { OnOk result ((made : ℕ) → get nat_cmp self.new.overrides made
            ≡ put_all limits.now (get nat_cmp self.old.overrides) made) }
    {
        for limit in limits {
            self.overrides.insert(limit.made, limit.over)?;
        }
        Ok(())
    }
}
