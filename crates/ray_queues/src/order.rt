ghost use Rattle.std.specs.Prelude.{◌≡◌, ◌<◌, ◌≤◌, ℕ, IfOk, length, map, slice_index_or};
ghost use Rattle.ray_chains.specs.Fronts.{greatest_of};
ghost use Rattle.ray_rules.specs.Order.{IsLongest, before};
ghost use Rattle.ray_queues.specs.declared.order.Row.{Row as ARow};
ghost use Rattle.ray_queues.specs.Kinds.{all_kinds};
ghost use Rattle.ray_queues.specs.QueueOrder.{queue_order};
ghost use Rattle.ray_queues.specs.Rounds.{AreRounds, RoundsRise};
ghost use Rattle.ray_queues.specs.Rows.{HaveBests, IsQueueOrderOf, best_in, wave_in};
ghost use Rattle.ray_submits.specs.Submits.{QueueCommands};

use crate::keeping::Keeping;
use crate::limits::Limits;
use crate::per_queue::greater;
use crate::rounds::rounds_of;
use crate::wave_kind::{DeviceStage, Queue, WaveKind, kind_named};
use ray_rules::kind_of;
use ray_submits::QueueRecording;
use std::alloc::{AllocError as NoMemory, Global};
use std::marker::Model;

/// What the order over queues says of one command.
#[derive(Clone, Copy)]
pub struct Row {
    /// Its kind.
    pub(crate) kind: WaveKind,
    /// The commands of each kind that are ordered before it are those below a number.
    pub(crate) limits: Limits,
    /// The length of the longest chain of commands that ends there.
    pub(crate) wave: u32,
}

/// The order over queues of the first commands of a recording. Contracts see it as a list of what
/// it says of each, and what that means as `IsQueueOrderOf` a recording.
#[derive(Drop)]
pub struct QueueOrder {
    rows: Vec<Row>,
    waves: Vec<u32>,
}

impl Model for QueueOrder {
    ghost use Rattle.std.specs.Prelude.{List, ◌≡◌, map};
    ghost use Rattle.ray_queues.specs.declared.order.Row.{Row as ARow};

    ghost Value = { List ARow };

    ghost view = { λ o. o.rows.items };

    ghost invariant = { λ o. o.waves.items ≡ map (λ (row : ARow). row.wave) o.rows.items };
}

impl QueueOrder {
    /// Of how many commands it is.
    pub fn until(&self) -> usize
        ensures { result ≡ length self.now }
    {
        self.rows.len()
    }

    /// Whether command number `a` is ordered before command number `b`. Both have to be below
    /// [`QueueOrder::until`]. It takes no memory, and one comparison.
    pub fn before(&self, a: u32, b: u32) -> bool
        requires first { a < length self.now }
        requires second { b < length self.now }
        ensures { (q : QueueCommands) → IsQueueOrderOf q self.now → result
            ≡ before (queue_order q) q.commands a b }
    {
        let kind = self.rows[a as usize].kind;
        a < self.rows[b as usize].limits.of(kind)
    }

    /// The wave of each command below [`QueueOrder::until`]: the length of the longest chain of
    /// commands, each ordered before the next, that ends there. It takes no memory.
    pub fn waves(&self) -> &[u32]
        ensures { result.now ≡ map (λ (row : ARow). row.wave) self.now }
    {
        self.waves.as_slice()
    }

    /// The round of each command below `until`, where the commands are those of this recording and
    /// the host goes ahead of the device up to each `wait`: how many commands at most are done
    /// before it, one after the other. The host does its commands in turn, and those up to its next
    /// `wait` before any of the device that only this `wait` waits for; so commands of several
    /// submissions that nothing orders may have one round. Rounds rise along the order, and take
    /// a number of steps that is linear in theirs.
    ///
    /// # Errors
    ///
    /// For want of memory alone.
    pub fn rounds(
        &self,
        alloc: Global,
        rec: &QueueRecording,
        until: u32,
    ) -> Result<Vec<u32>, NoMemory>
        requires order { IsQueueOrderOf rec.now self.now }
        requires rows { until ≤ length self.now }
        requires until { until ≤ length rec.now.commands }
        ensures are { IfOk result (λ rounds. AreRounds rec.now until rounds.items) }
        ensures rise { IfOk result (λ rounds. RoundsRise rec.now until rounds.items) }
    {
        rounds_of(alloc, rec, self.rows.as_slice(), until)
    }

    /// A law: the wave of a command is the length of the longest chain that ends there. It does
    /// nothing.
    pub fn waves_law(&self)
        ensures { (q : QueueCommands) → IsQueueOrderOf q self.now → (i : ℕ) → i < length self.now
            → IsLongest (before (queue_order q) q.commands) i
            (slice_index_or (map (λ (row : ARow). row.wave) self.now) i 0) }
    {
        let _ = &self.rows;
    }
}

/// The order over queues of the commands of a recording below `until`, which is at most their
/// number. Beside what is looked up of semaphores it takes a number of steps that is linear in
/// `until`; for a wait and for a signal it looks its semaphore up, and searches the signals that
/// raised it.
///
/// # Errors
///
/// For want of memory alone.
pub fn queue_waves(alloc: Global, rec: &QueueRecording, until: u32) -> Result<QueueOrder, NoMemory>
    requires { until ≤ length rec.now.commands }
    ensures order { IfOk result (λ order. IsQueueOrderOf rec.now order) }
    ensures until { IfOk result (λ order. length order ≡ until) }
{
    rec.queues_law();
    let mut keeping = Keeping::new(alloc);
    let mut best = Limits::none();
    let mut bests = Vec::new(alloc);
    let mut rows = Vec::new(alloc);
    let mut waves = Vec::new(alloc);
    bests.push(best)?;
    for n in 0..until {
        let kind = kind_of(rec.recording().command(n));
        let queue = rec.queue_of(n);
        let limits = keeping.limits(n, kind, queue);
        let wave = wave_of(bests.as_slice(), &limits);
        let kind = kind_named(kind, queue);
        rows.push(Row { kind, limits, wave })?;
        waves.push(wave)?;
        best = best.raised(kind, wave + 1);
        bests.push(best)?;
        keeping.pass(rec, n)?;
    }
    Ok(QueueOrder { rows, waves })
}

// The wave of a command, where these are the numbers below which commands are ordered before it:
// the greatest of what the commands of each kind below its number make it.
pub(crate) fn wave_of(bests: &[Limits], limits: &Limits) -> u32
    requires { HaveBests bests.now limits.now }
    ensures { result ≡ greatest_of (best_in bests.now limits.now) all_kinds }
{
    let host = greater(best_in(bests, limits, WaveKind::Host), 0);
    let others = greater(best_in(bests, limits, WaveKind::Barrier), host);
    let three = wave_in(bests, limits, Queue::Three, others);
    let two = wave_in(bests, limits, Queue::Two, three);
    let one = wave_in(bests, limits, Queue::One, two);
    wave_in(bests, limits, Queue::Zero, one)
}

// The greatest of a number and of what the commands of a queue make a command's wave.
fn wave_in(bests: &[Limits], limits: &Limits, queue: Queue, others: u32) -> u32
    requires { HaveBests bests.now limits.now }
    ensures { result ≡ wave_in bests.now limits.now queue others }
{
    let build = best_in(bests, limits, WaveKind::Work(queue, DeviceStage::Build));
    let copies = best_in(
        bests,
        limits,
        WaveKind::Work(queue, DeviceStage::StructureCopy),
    );
    let compute = best_in(bests, limits, WaveKind::Work(queue, DeviceStage::Compute));
    greater(
        best_in(bests, limits, WaveKind::Work(queue, DeviceStage::Transfer)),
        greater(build, greater(copies, greater(compute, others))),
    )
}

// What the commands of a kind make a command's wave.
fn best_in(bests: &[Limits], limits: &Limits, kind: WaveKind) -> u32
    requires { HaveBests bests.now limits.now }
    ensures { result ≡ best_in bests.now limits.now kind }
{
    let below = limits.of(kind);
    bests[below as usize].of(kind)
}
