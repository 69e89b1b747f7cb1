ghost use Rattle.std.specs.Prelude.{◌≡◌, ◌<◌, ◌≤◌, List, IfOk, length};
ghost use Rattle.ray_cmd.specs.declared.command.Command.{Command as ACommand};
ghost use Rattle.ray_rules.specs.Order.{IsLongest, barriers, before};
ghost use Rattle.ray_sync.specs.Rows.{HaveNumbers, IsOrderOf, wave_of};

use crate::fronts::Fronts;
use crate::kind::{Kind, kind_of};
use crate::per_kind::{PerKind, greater};
use ray_cmd::Recording;
use std::alloc::{AllocError as NoMemory, Global};
use std::marker::Model;

/// What the order says of one command.
#[derive(Clone, Copy, Debug, PartialEq, Eq)]
pub struct Row {
    /// Its kind.
    pub kind: Kind,
    /// The commands of each kind that are ordered before it are those below a number.
    pub limits: PerKind,
    /// The length of the longest chain of commands that ends there.
    pub wave: u32,
}

/// The order of the first commands of a recording. Contracts see it as a list of what it says of
/// each, and what that means as `IsOrderOf` a recording.
#[derive(Drop)]
pub struct Order {
    rows: Vec<Row>,
}

impl Model for Order {
    ghost use Rattle.std.specs.Prelude.{List};
    ghost use Rattle.ray_sync.specs.declared.order.Row.{Row as ARow};

    ghost Value = { List ARow };

    ghost view = { λ o. o.rows.items };
}

impl Order {
    /// Of how many commands it is.
    pub fn until(&self) -> usize
        ensures { result ≡ length self.now }
    {
        self.rows.len()
    }

    /// Whether command number `a` is ordered before command number `b`. Both have to be below
    /// [`Order::until`]. It takes no memory, and one comparison.
    pub fn before(&self, a: u32, b: u32) -> bool
        requires first { a < length self.now }
        requires second { b < length self.now }
        ensures { (rec : List ACommand) → IsOrderOf rec self.now → result ≡ before (barriers rec) rec a b }
    {
        let kind = self.rows[a as usize].kind;
        a < self.rows[b as usize].limits.at(kind)
    }

    /// The wave of command number `i`, which has to be below [`Order::until`]: the length of the
    /// longest chain of commands, each ordered before the next, that ends there. It takes no
    /// memory.
    pub fn wave(&self, i: u32) -> u32
        requires { i < length self.now }
        ensures { (rec : List ACommand) → IsOrderOf rec self.now
            → IsLongest (before (barriers rec) rec) i result }
    {
        self.rows[i as usize].wave
    }
}

/// The order of the commands of a recording below `until`, which is at most its length. It takes a
/// number of steps that is linear in `until`.
///
/// # Errors
///
/// For want of memory alone.
pub fn order_of(alloc: Global, rec: &Recording, until: u32) -> Result<Order, NoMemory>
    requires { until ≤ length rec.now }
    ensures order { IfOk result (λ order. IsOrderOf rec.now order) }
    ensures until { IfOk result (λ order. length order ≡ until) }
{
    let mut fronts = Fronts::none();
    let mut best = PerKind::none();
    let mut bests = Vec::new(alloc);
    let mut rows = Vec::new(alloc);
    bests.push(best)?;
    for n in 0..until {
        let command = rec.command(n);
        let kind = kind_of(command);
        let limits = fronts.limits(n, kind);
        let wave = wave_of(bests.as_slice(), limits);
        rows.push(Row { kind, limits, wave })?;
        best = best.raised(kind, wave + 1);
        bests.push(best)?;
        fronts = fronts.after(n, command);
    }
    Ok(Order { rows })
}

// The wave of a command, where these are the numbers below which commands are ordered before it:
// the greatest of what the commands of each kind below its number make it.
fn wave_of(bests: &[PerKind], limits: PerKind) -> u32
    requires { HaveNumbers bests.now limits }
    ensures { result ≡ wave_of bests.now limits }
{
    let build = bests[limits.build as usize].build;
    let copies = bests[limits.structure_copy as usize].structure_copy;
    let compute = bests[limits.compute as usize].compute;
    let barrier = bests[limits.barrier as usize].barrier;
    let host = bests[limits.host as usize].host;
    greater(
        bests[limits.transfer as usize].transfer,
        greater(
            build,
            greater(copies, greater(compute, greater(barrier, host))),
        ),
    )
}
