ghost use Rattle.std.specs.Prelude.{◌≡◌, ℕ, IfOk, List, None, OnOk, Some, suc};
ghost use Rattle.ray_chains.specs.Queues.{Barrier, Begin, TimelinePoint, Wait};
ghost use Rattle.ray_chains.specs.Tables.{scopes_of};
ghost use Rattle.ray_hazards.specs.Carrying.{Acting, AreActs, AreCarried, AreNamed, AreReached};
ghost use Rattle.ray_hazards.specs.Carrying.{IsMet, makers_of, takes_directly};

use crate::carried::Carried;
use crate::limits::PerWay;
use ray_chains::{AccessType, Chains, MemoryBarrier, Stage};
use ray_status::Status;
use std::alloc::{AllocError as NoMemory, Global};

/// How far all that was written on a queue is covered there, for each way of writing, and the
/// chains of the queue.
#[derive(Drop)]
pub struct Coverage {
    pub(crate) chains: Chains,
    pub(crate) transfers: Carried,
    pub(crate) builds: Carried,
    pub(crate) properties: Carried,
    pub(crate) copies: Carried,
    pub(crate) serialized: Carried,
    pub(crate) traces: Carried,
}

impl Coverage {
    /// Where a recording begins.
    pub fn new(alloc: Global) -> Coverage
        ensures { (a : Acting) (queue : ℕ) → AreCarried a queue 0 result }
    {
        Coverage {
            chains: Chains::none(),
            transfers: Carried::new(alloc),
            builds: Carried::new(alloc),
            properties: Carried::new(alloc),
            copies: Carried::new(alloc),
            serialized: Carried::new(alloc),
            traces: Carried::new(alloc),
        }
    }

    /// The chains of the queue.
    pub fn chains(&self) -> Chains
        ensures { result ≡ self.now.chains }
    {
        self.chains
    }

    /// Below which numbers what was written in each way to a thing is covered to an access at a
    /// stage.
    pub fn limits(&self, thing: Option<u32>, stage: Stage, access: AccessType) -> PerWay
        ensures { (a : Acting) (queue n : ℕ) → AreActs a → AreCarried a queue n self.now
            → AreReached a queue thing n queue stage access result }
    {
        PerWay {
            transfers: self.transfers.limit(&self.chains, thing, stage, access),
            builds: self.builds.limit(&self.chains, thing, stage, access),
            properties: self.properties.limit(&self.chains, thing, stage, access),
            copies: self.copies.limit(&self.chains, thing, stage, access),
            serialized: self.serialized.limit(&self.chains, thing, stage, access),
            traces: self.traces.limit(&self.chains, thing, stage, access),
        }
    }

    /// Goes on past a barrier of the queue that isn't limited, command number `n`.
    pub fn hand_on(&mut self, n: u32, barrier: &MemoryBarrier)
        ensures { (a : Acting) (queue : ℕ) → AreActs a
            → a.events n ≡ Barrier queue (scopes_of barrier.now) None
            → AreCarried a queue n self.old → AreCarried a queue (suc n) self.new }
    {
        let transfer = takes_directly(barrier, Stage::Transfer, AccessType::TransferWrite);
        self.transfers.hand_on(transfer, n, barrier);
        let build = takes_directly(barrier, Stage::Build, AccessType::StructureWrite);
        self.builds.hand_on(build, n, barrier);
        let property = takes_directly(barrier, Stage::Build, AccessType::TransferWrite);
        self.properties.hand_on(property, n, barrier);
        let copy = takes_directly(barrier, Stage::StructureCopy, AccessType::StructureWrite);
        self.copies.hand_on(copy, n, barrier);
        let bytes = takes_directly(barrier, Stage::StructureCopy, AccessType::TransferWrite);
        self.serialized.hand_on(bytes, n, barrier);
        let trace = takes_directly(barrier, Stage::Compute, AccessType::ShaderWrite);
        self.traces.hand_on(trace, n, barrier);
        self.chains = self.chains.barrier(false, n, barrier);
    }

    /// Goes on past a barrier of the queue that is limited to the buffers of these makers, command
    /// number `n`.
    ///
    /// # Errors
    ///
    /// For want of memory alone.
    pub fn limit_to(
        &mut self,
        alloc: Global,
        n: u32,
        barrier: &MemoryBarrier,
        makers: &[u32],
    ) -> Result<(), NoMemory>
        ensures { OnOk result ((a : Acting) (queue : ℕ) (ids : List ℕ) → AreActs a
            → a.events n ≡ Barrier queue (scopes_of barrier.now) (Some ids)
            → AreNamed a n makers.now → AreCarried a queue n self.old
            → AreCarried a queue (suc n) self.new) }
    {
        let transfer = takes_directly(barrier, Stage::Transfer, AccessType::TransferWrite);
        let build = takes_directly(barrier, Stage::Build, AccessType::StructureWrite);
        let property = takes_directly(barrier, Stage::Build, AccessType::TransferWrite);
        let copy = takes_directly(barrier, Stage::StructureCopy, AccessType::StructureWrite);
        let bytes = takes_directly(barrier, Stage::StructureCopy, AccessType::TransferWrite);
        let trace = takes_directly(barrier, Stage::Compute, AccessType::ShaderWrite);
        let chains = self.chains;
        self.transfers
            .limit_to(alloc, transfer, n, barrier, makers, &chains)?;
        self.builds
            .limit_to(alloc, build, n, barrier, makers, &chains)?;
        self.properties
            .limit_to(alloc, property, n, barrier, makers, &chains)?;
        self.copies
            .limit_to(alloc, copy, n, barrier, makers, &chains)?;
        self.serialized
            .limit_to(alloc, bytes, n, barrier, makers, &chains)?;
        self.traces
            .limit_to(alloc, trace, n, barrier, makers, &chains)
    }

    /// Goes on past a `wait` of the host, command number `n`.
    pub fn wait(&mut self, n: u32)
        ensures { (a : Acting) (queue : ℕ) → AreActs a → a.events n ≡ Wait
            → AreCarried a queue n self.old → AreCarried a queue (suc n) self.new }
    {
        self.transfers.wait(n);
        self.builds.wait(n);
        self.properties.wait(n);
        self.copies.wait(n);
        self.serialized.wait(n);
        self.traces.wait(n);
        self.chains = self.chains.wait(n);
    }

    /// Goes on past the begin of a submission to the queue, command number `n`, where what the
    /// queue did below a number is carried by what meets its waits.
    pub fn begin(&mut self, n: u32, number: u32)
        ensures { (a : Acting) (queue : ℕ) (waits : List TimelinePoint) → AreActs a
            → a.events n ≡ Begin queue waits → IsMet a queue n waits number
            → AreCarried a queue n self.old → AreCarried a queue (suc n) self.new }
    {
        self.transfers.begin(number);
        self.builds.begin(number);
        self.properties.begin(number);
        self.copies.begin(number);
        self.serialized.begin(number);
        self.traces.begin(number);
        self.chains = self.chains.begin(n, number);
    }
}

// Whether a barrier takes up directly what commands of its queue wrote at a stage with an access.
fn takes_directly(barrier: &MemoryBarrier, stage: Stage, access: AccessType) -> bool
    ensures { result ≡ takes_directly barrier.now stage access }
{
    barrier.src_stages.has(stage) && barrier.src_access.has(access)
}

/// The makers of the live buffers that have these ids where a status stands.
///
/// # Errors
///
/// For want of memory alone.
pub fn makers_of(alloc: Global, status: &Status, ids: &[u32]) -> Result<Vec<u32>, NoMemory>
    ensures { IfOk result (λ makers. makers.items ≡ makers_of status.now ids.now) }
{
    let mut makers = Vec::new(alloc);
    for id in ids {
        if let Some(made) = status.maker_of_buffer(*id) {
            makers.push(made)?;
        }
    }
    Ok(makers)
}
