ghost use Rattle.std.specs.Prelude.{◌≡◌, ◌<◌, All, length, IfOk};
ghost use Rattle.std.specs.Thread.{IsSync};
ghost use Rattle.ray_memory.specs.State.{memory_of};
ghost use Rattle.ray_exec.specs.Drawn.{IsDrawn, IsWorked};
ghost use Rattle.ray_exec.specs.Given.{AreReady};

use crate::fetcher::Fetcher;
use crate::given::{Given, given_now};
use ray_claim::{ClaimSeat, Claims};
use ray_cmd::Recording;
use ray_device::Piece;
use ray_memory::State;
use std::alloc::{AllocError as NoMemory, Global};
use std::thread::{self, Threads};

// What a piece gives, with its number among those of its wave. (Own.)
#[derive(Drop)]
pub(crate) struct Drawn {
    pub(crate) number: u32,
    pub(crate) given: Given,
}

// What a worker comes back with: its seat, also where memory ran out. (Own.)
#[derive(Drop)]
pub(crate) struct Worked {
    pub(crate) seat: ClaimSeat,
    pub(crate) outs: Result<Vec<Drawn>, NoMemory>,
}

// Lets workers draw, one for each seat. This thread starts a thread for each of the others, one
// after the other, and draws by the first seat: where threads start threads at the same time, a
// system may put two of them on one processor.
pub(crate) fn fork<R: Threads + Sync, F: Fetcher + Sync>(
    rt: &R,
    alloc: Global,
    claims: &Claims,
    state: &State,
    rec: &Recording,
    pieces: &[Piece],
    fetcher: &F,
    mut seats: Vec<ClaimSeat>,
) -> Result<Vec<Worked>, NoMemory>
    requires count { claims.now.n ≡ length pieces.now }
    requires ready { AreReady (F.can_fetch fetcher.now) rec.now (memory_of state.now) pieces.now }
    requires own { All (λ s. s.table ≡ claims.now.table) seats.items }
    ensures { IfOk result (λ v. All (IsWorked claims.now rec.now (F.clients fetcher.now rec.now)
        (memory_of state.now) pieces.now) v.items) }
{
    let Some(seat) = seats.pop() else {
        return Ok(Vec::new(alloc));
    };
    if seats.is_empty() {
        let mut all = Vec::new(alloc);
        all.push(work(rt, alloc, claims, state, rec, pieces, fetcher, seat))?;
        return Ok(all);
    }
    let (worked, others) = thread::join(
        rt,
        move || -> Worked
            requires { IsSync R.row × (claims.now.n ≡ length pieces.now)
                × AreReady (F.can_fetch fetcher.now) rec.now (memory_of state.now) pieces.now
                × (seat.table ≡ claims.now.table) }
            ensures { IsWorked claims.entry.now rec.entry.now
                (F.clients fetcher.entry.now rec.entry.now) (memory_of state.entry.now)
                pieces.entry.now result }
        { work(rt, alloc, claims, state, rec, pieces, fetcher, seat) },
        move || -> Result<Vec<Worked>, NoMemory>
            requires { IsSync R.row × (claims.now.n ≡ length pieces.now)
                × AreReady (F.can_fetch fetcher.now) rec.now (memory_of state.now) pieces.now
                × All (λ s. s.table ≡ claims.now.table) seats.items }
            ensures { IfOk result (λ v. All (IsWorked claims.entry.now rec.entry.now
                (F.clients fetcher.entry.now rec.entry.now) (memory_of state.entry.now)
                pieces.entry.now) v.items) }
        { fork(rt, alloc, claims, state, rec, pieces, fetcher, seats) },
    );
    let mut all = others?;
    all.push(worked)?;
    Ok(all)
}

// One worker: it draws until no number is left.
fn work<R: Threads + Sync, F: Fetcher>(
    rt: &R,
    alloc: Global,
    claims: &Claims,
    state: &State,
    rec: &Recording,
    pieces: &[Piece],
    fetcher: &F,
    seat: ClaimSeat,
) -> Worked
    requires count { claims.now.n ≡ length pieces.now }
    requires ready { AreReady (F.can_fetch fetcher.now) rec.now (memory_of state.now) pieces.now }
    requires own { seat.table ≡ claims.now.table }
    ensures { IsWorked claims.now rec.now (F.clients fetcher.now rec.now) (memory_of state.now) pieces.now result }
{
    let mut seat = seat;
    let outs = draw_all(rt, alloc, claims, state, rec, pieces, fetcher, &mut seat);
    Worked { seat, outs }
}

// Fetches each piece whose number is drawn, one after the other.
fn draw_all<R: Threads + Sync, F: Fetcher>(
    rt: &R,
    alloc: Global,
    claims: &Claims,
    state: &State,
    rec: &Recording,
    pieces: &[Piece],
    fetcher: &F,
    seat: &mut ClaimSeat,
) -> Result<Vec<Drawn>, NoMemory>
    requires count { claims.now.n ≡ length pieces.now }
    requires ready { AreReady (F.can_fetch fetcher.now) rec.now (memory_of state.now) pieces.now }
    requires own { seat.old.table ≡ claims.now.table }
    ensures same { seat.new.table ≡ seat.old.table }
    ensures outs { IfOk result (λ v.
        All (IsDrawn rec.now (F.clients fetcher.now rec.now) (memory_of state.now) pieces.now) v.items) }
{
    let mut outs = Vec::new(alloc);
    while let Some(number) = claims.draw(seat) {
        let drawn = fetch_drawn(rt, alloc, state, rec, pieces, fetcher, number)?;
        outs.push(drawn)?;
    }
    Ok(outs)
}

// What the piece of a number gives.
fn fetch_drawn<R: Threads + Sync, F: Fetcher>(
    rt: &R,
    alloc: Global,
    state: &State,
    rec: &Recording,
    pieces: &[Piece],
    fetcher: &F,
    number: u32,
) -> Result<Drawn, NoMemory>
    requires within { number < length pieces.now }
    requires ready { AreReady (F.can_fetch fetcher.now) rec.now (memory_of state.now) pieces.now }
    ensures { IfOk result (IsDrawn rec.now (F.clients fetcher.now rec.now) (memory_of state.now) pieces.now) }
{
    let piece = pieces[number as usize];
    match given_now(rt, alloc, state, rec, piece, fetcher) {
        Ok(given) => Ok(Drawn { number, given }),
        Err(_) => Err(NoMemory),
    }
}
