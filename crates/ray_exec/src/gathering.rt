ghost use Rattle.std.specs.Prelude.{◌≡◌, ◌≤◌, All, length, map, None, IfOk, IfSome, OnOk};
ghost use Rattle.ray_action.specs.Pieces.{command_at};
ghost use Rattle.ray_action.specs.Readiness.{IsReady};
ghost use Rattle.ray_device.specs.Pieces.{piece_action};
ghost use Rattle.ray_memory.specs.State.{memory_of};
ghost use Rattle.ray_exec.specs.Drawn.{IsDrawn, IsWorked};
ghost use Rattle.ray_exec.specs.Given.{AreFilled, AreGiven, AreReady, IsFilledBy, IsGivenBy};
ghost use Rattle.ray_exec.specs.Waves.{IsPart};

use crate::drawing::{Drawn, Worked, fork};
use crate::fetcher::Fetcher;
use crate::given::{Given, given_now};
use ray_claim::{ClaimSeat, Claims};
use ray_cmd::{Command, Recording};
use ray_device::Piece;
use ray_memory::State;
use ray_rules::{Kind, kind_of};
use std::alloc::{AllocError as NoMemory, Global};
use std::thread::Threads;

// So many waves of a run are fetched by as many workers as there are, however little there is to
// fetch; in a later one that has only few and short pieces a thread would take longer to start than
// they take.
const FREE_WAVES: usize = 256;

// So many pieces are worth threads, however short they are.
const MANY_PIECES: usize = 512;

// So many rays of a trace are worth a thread.
const LONG_TRACE: u32 = 16;

// What each piece of the wave of a number gives, all of the memory as it is, in order. So many
// workers fetch them, or this thread alone where that isn't worth a thread.
pub(crate) fn fetch_wave<R: Threads + Sync, F: Fetcher + Sync>(
    rt: &R,
    alloc: Global,
    state: &State,
    rec: &Recording,
    pieces: &[Piece],
    wave: usize,
    workers: u32,
    fetcher: &F,
) -> Result<Vec<Given>, NoMemory>
    requires workers { workers ≤ 64 }
    requires ready { AreReady (F.can_fetch fetcher.now) rec.now (memory_of state.now) pieces.now }
    ensures { IfOk result (λ v. AreGiven rec.now (F.clients fetcher.now rec.now) (memory_of state.now) pieces.now v.items) }
{
    let workers = worth(rec, pieces, wave, workers);
    let places = places(rt, alloc, state, rec, pieces, workers, fetcher)?;
    complete(rt, alloc, state, rec, pieces, fetcher, places)
}

// What workers fetched of a wave, each at its place: nothing where none is wanted.
fn places<R: Threads + Sync, F: Fetcher + Sync>(
    rt: &R,
    alloc: Global,
    state: &State,
    rec: &Recording,
    pieces: &[Piece],
    workers: u32,
    fetcher: &F,
) -> Result<Vec<Option<Given>>, NoMemory>
    requires workers { workers ≤ 64 }
    requires ready { AreReady (F.can_fetch fetcher.now) rec.now (memory_of state.now) pieces.now }
    ensures { IfOk result (λ v. AreFilled rec.now (F.clients fetcher.now rec.now) (memory_of state.now) pieces.now v.items) }
{
    match count_of(pieces) {
        Some(count) => {
            if workers < 2 {
                empty(alloc, pieces)
            } else {
                draw_wave(rt, alloc, state, rec, pieces, count, workers, fetcher)
            }
        }
        None => empty(alloc, pieces),
    }
}

// How many workers, of so many, are worth a thread each in the wave of a number.
fn worth(rec: &Recording, pieces: &[Piece], wave: usize, workers: u32) -> u32
    ensures { result ≤ workers }
{
    if wave < FREE_WAVES || pieces.len() >= MANY_PIECES || has_long(rec, pieces) {
        fetching(rec, pieces, workers)
    } else {
        0
    }
}

// How many workers, of so many, have a piece to fetch: no command of the host, and no barrier.
fn fetching(rec: &Recording, pieces: &[Piece], workers: u32) -> u32
    ensures { result ≤ workers }
{
    let mut fetching = 0;
    for piece in pieces {
        if fetching == workers {
            break;
        }
        if piece.command < rec.len() && reads(rec.command(piece.command)) {
            fetching += 1;
        }
    }
    fetching
}

// Whether one of the pieces is long.
fn has_long(rec: &Recording, pieces: &[Piece]) -> bool {
    for piece in pieces {
        if piece.command < rec.len() && is_long(rec.command(piece.command)) {
            return true;
        }
    }
    false
}

// Whether a piece of a command takes longer than a thread takes to start, as far as the command
// alone tells it.
fn is_long(command: &Command) -> bool {
    match command {
        Command::Build { .. } | Command::CopyStructure { .. } => true,
        Command::Serialize { .. } | Command::Deserialize { .. } => true,
        Command::Trace { count, .. } => *count >= LONG_TRACE,
        _ => false,
    }
}

// Whether the fetch of a command's piece may do anything.
fn reads(command: &Command) -> bool {
    match kind_of(command) {
        Kind::Device(_) => true,
        Kind::Barrier | Kind::HostCommand => false,
    }
}

// How many pieces there are, where numbers of 32 bits tell it.
fn count_of(pieces: &[Piece]) -> Option<u32>
    ensures { IfSome result (λ n. n ≡ length pieces.now) }
{
    match u32::try_from(pieces.len()) {
        Ok(count) => Some(count),
        Err(_) => None,
    }
}

// A place for each piece, with nothing in it.
fn empty(alloc: Global, pieces: &[Piece]) -> Result<Vec<Option<Given>>, NoMemory>
    ensures { IfOk result (λ v. v.items ≡ map (λ piece. None) pieces.now) }
{
    pieces.iter().map(|_| None).collect(alloc)
}

// What so many workers draw and fetch.
fn draw_wave<R: Threads + Sync, F: Fetcher + Sync>(
    rt: &R,
    alloc: Global,
    state: &State,
    rec: &Recording,
    pieces: &[Piece],
    count: u32,
    workers: u32,
    fetcher: &F,
) -> Result<Vec<Option<Given>>, NoMemory>
    requires count { count ≡ length pieces.now }
    requires workers { workers ≤ 64 }
    requires ready { AreReady (F.can_fetch fetcher.now) rec.now (memory_of state.now) pieces.now }
    ensures { IfOk result (λ v. AreFilled rec.now (F.clients fetcher.now rec.now) (memory_of state.now) pieces.now v.items) }
{
    let (claims, first) = Claims::new(alloc, count)?;
    let mut seat = first;
    let seats = seats(alloc, &claims, &mut seat, workers)?;
    let all = fork(rt, alloc, &claims, state, rec, pieces, fetcher, seats)?;
    let mut places = empty(alloc, pieces)?;
    gather_all(
        state,
        rec,
        fetcher,
        pieces,
        &claims,
        &mut seat,
        all,
        &mut places,
    )?;
    claims.close(seat);
    Ok(places)
}

// A seat for each worker, split from the first.
fn seats(
    alloc: Global,
    claims: &Claims,
    seat: &mut ClaimSeat,
    workers: u32,
) -> Result<Vec<ClaimSeat>, NoMemory>
    requires own { seat.old.table ≡ claims.now.table }
    requires left { workers ≤ seat.old.splits }
    ensures same { seat.new.table ≡ seat.old.table }
    ensures own { IfOk result (λ v. All (λ s. s.table ≡ claims.now.table) v.items) }
{
    let mut seats = Vec::new(alloc);
    for _k in 0..workers {
        let new = claims.split(seat)?;
        seats.push(new)?;
    }
    Ok(seats)
}

// Joins the seats of all workers, and puts what they drew in its places.
fn gather_all<F: Fetcher>(
    state: &State,
    rec: &Recording,
    fetcher: &F,
    pieces: &[Piece],
    claims: &Claims,
    seat: &mut ClaimSeat,
    all: Vec<Worked>,
    places: &mut Vec<Option<Given>>,
) -> Result<(), NoMemory>
    requires own { seat.old.table ≡ claims.now.table }
    requires worked { All (IsWorked claims.now rec.now (F.clients fetcher.now rec.now) (memory_of state.now) pieces.now) all.items }
    requires filled { AreFilled rec.now (F.clients fetcher.now rec.now) (memory_of state.now) pieces.now places.old.items }
    ensures same { seat.new.table ≡ seat.old.table }
    ensures filled { OnOk result (AreFilled rec.now (F.clients fetcher.now rec.now) (memory_of state.now) pieces.now
        places.new.items) }
{
    for worked in all {
        gather(state, rec, fetcher, pieces, claims, seat, worked, places)?;
    }
    Ok(())
}

// Joins a worker's seat, and puts what it drew in its places. The memory, who fetched and the pieces
// are those of the fetches.
fn gather<F: Fetcher>(
    state: &State,
    rec: &Recording,
    fetcher: &F,
    pieces: &[Piece],
    claims: &Claims,
    seat: &mut ClaimSeat,
    worked: Worked,
    places: &mut Vec<Option<Given>>,
) -> Result<(), NoMemory>
    requires own { seat.old.table ≡ claims.now.table }
    requires worked { IsWorked claims.now rec.now (F.clients fetcher.now rec.now) (memory_of state.now) pieces.now worked }
    requires filled { AreFilled rec.now (F.clients fetcher.now rec.now) (memory_of state.now) pieces.now places.old.items }
    ensures same { seat.new.table ≡ seat.old.table }
    ensures filled { OnOk result (AreFilled rec.now (F.clients fetcher.now rec.now) (memory_of state.now) pieces.now
        places.new.items) }
{
    join(claims, seat, worked.seat);
    match worked.outs {
        Ok(outs) => {
            put_all(state, rec, fetcher, pieces, outs, places);
            Ok(())
        }
        Err(_) => Err(NoMemory),
    }
}

// Joins a seat into another, which is never refused.
fn join(claims: &Claims, seat: &mut ClaimSeat, from: ClaimSeat)
    requires own { seat.old.table ≡ claims.now.table }
    requires from { from.table ≡ claims.now.table }
    ensures same { seat.new.table ≡ seat.old.table }
{
    let _joined = claims.join(seat, from);
}

// Puts what was drawn in its places.
fn put_all<F: Fetcher>(
    state: &State,
    rec: &Recording,
    fetcher: &F,
    pieces: &[Piece],
    outs: Vec<Drawn>,
    places: &mut Vec<Option<Given>>,
)
    requires drawn { All (IsDrawn rec.now (F.clients fetcher.now rec.now) (memory_of state.now) pieces.now) outs.items }
    requires filled { AreFilled rec.now (F.clients fetcher.now rec.now) (memory_of state.now) pieces.now places.old.items }
    ensures { AreFilled rec.now (F.clients fetcher.now rec.now) (memory_of state.now) pieces.now places.new.items }
{
    for drawn in outs {
        put(state, rec, fetcher, pieces, drawn, places);
    }
}

// Puts what was drawn in its place.
fn put<F: Fetcher>(
    state: &State,
    rec: &Recording,
    fetcher: &F,
    pieces: &[Piece],
    drawn: Drawn,
    places: &mut Vec<Option<Given>>,
)
    requires drawn { IsDrawn rec.now (F.clients fetcher.now rec.now) (memory_of state.now) pieces.now drawn }
    requires filled { AreFilled rec.now (F.clients fetcher.now rec.now) (memory_of state.now) pieces.now places.old.items }
    ensures { AreFilled rec.now (F.clients fetcher.now rec.now) (memory_of state.now) pieces.now places.new.items }
{
    places[drawn.number as usize] = Some(drawn.given);
}

// What each piece gives: where a place is empty, this thread fetches it.
fn complete<R: Threads + Sync, F: Fetcher>(
    rt: &R,
    alloc: Global,
    state: &State,
    rec: &Recording,
    pieces: &[Piece],
    fetcher: &F,
    places: Vec<Option<Given>>,
) -> Result<Vec<Given>, NoMemory>
    requires ready { AreReady (F.can_fetch fetcher.now) rec.now (memory_of state.now) pieces.now }
    requires filled { AreFilled rec.now (F.clients fetcher.now rec.now) (memory_of state.now) pieces.now places.items }
    ensures { IfOk result (λ v. AreGiven rec.now (F.clients fetcher.now rec.now) (memory_of state.now) pieces.now v.items) }
{
    let mut outs = Vec::new(alloc);
    for place in places {
        let piece = pieces[outs.len()];
        let given = filled(rt, alloc, state, rec, piece, fetcher, place)?;
        outs.push(given)?;
    }
    Ok(outs)
}

// What a piece gives: what stands in its place, or else what is fetched now.
fn filled<R: Threads + Sync, F: Fetcher>(
    rt: &R,
    alloc: Global,
    state: &State,
    rec: &Recording,
    piece: Piece,
    fetcher: &F,
    place: Option<Given>,
) -> Result<Given, NoMemory>
    requires part { IsPart rec.now piece }
    requires can { F.can_fetch fetcher.now (command_at rec.now piece.command) }
    requires ready { IsReady (piece_action rec.now piece) (memory_of state.now) }
    requires filled { IsFilledBy rec.now (F.clients fetcher.now rec.now) (memory_of state.now) piece place }
    ensures { IfOk result (IsGivenBy rec.now (F.clients fetcher.now rec.now) (memory_of state.now) piece) }
{
    match place {
        Some(given) => Ok(given),
        None => given_now(rt, alloc, state, rec, piece, fetcher),
    }
}
