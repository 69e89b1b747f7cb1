ghost use Rattle.std.specs.Prelude.{◌≡◌, true, IfOk, IsSome, IfSome};
ghost use Rattle.std.specs.Thread.{IsSync};
ghost use Rattle.ray_claim.specs.Seats.{AreOf};
ghost use Rattle.ray_bench.specs.declared.drawing.Drawers.{Drawers};
ghost use Rattle.ray_bench.specs.Drawers.{digit_of};

use ray_claim::{ClaimSeat, Claims};
use std::alloc::{AllocError, Global};
use std::thread::{self, Threads};

/// How many threads draw numbers. (Own.)
#[derive(Clone, Copy, Debug, PartialEq, Eq)]
pub enum Drawers {
    /// The thread that asks, alone.
    One,
    /// Four threads, of which that is one.
    Four,
}

impl Drawers {
    /// So many threads, by a digit. None where it isn't 1 or 4.
    pub fn named(digit: &str) -> Option<Drawers>
        ensures some { (d : Drawers) → digit_of d ≡ digit.now → IsSome result }
        ensures digit { IfSome result (λ d. digit_of d ≡ digit.now) }
    {
        match digit {
            "1" => Some(Drawers::One),
            "4" => Some(Drawers::Four),
            _ => None,
        }
    }
}

/// How many numbers below n were drawn, when all threads have none left. The only error is memory.
pub fn count_drawn<R: Threads + Sync>(
    rt: &R,
    alloc: Global,
    drawers: Drawers,
    n: u32,
) -> Result<u64, AllocError>
    ensures { IfOk result (λ count. count ≡ n) }
{
    let (claims, mut seat) = Claims::new(alloc, n)?;
    let seat = match drawers {
        Drawers::One => drained(&claims, seat),
        Drawers::Four => {
            let second = claims.split(&mut seat)?;
            let third = claims.split(&mut seat)?;
            let fourth = claims.split(&mut seat)?;
            let shared = &claims;
            let (left, right) = thread::join(
                rt,
                move || -> ClaimSeat
                    requires { IsSync R.row × AreOf shared.now.table seat second }
                    ensures { (result.table ≡ shared.entry.now.table) × (result.ended ≡ true) }
                { by_two(rt, shared, seat, second) },
                move || -> ClaimSeat
                    requires { IsSync R.row × AreOf shared.now.table third fourth }
                    ensures { (result.table ≡ shared.entry.now.table) × (result.ended ≡ true) }
                { by_two(rt, shared, third, fourth) },
            );
            joined(shared, left, right)
        }
    };
    Ok(claims.close(seat))
}

// The seat when it has drawn until no number is left.
#[inline(never)]
fn drained(claims: &Claims, mut seat: ClaimSeat) -> ClaimSeat
    requires { seat.table ≡ claims.now.table }
    ensures table { result.table ≡ claims.now.table }
    ensures ended { result.ended ≡ true }
{
    while let Some(_number) = claims.draw(&mut seat) {}
    seat
}

// Two seats as one.
fn joined(claims: &Claims, mut one: ClaimSeat, other: ClaimSeat) -> ClaimSeat
    requires tables { AreOf claims.now.table one other }
    requires ended { one.ended ≡ true }
    ensures table { result.table ≡ claims.now.table }
    ensures ended { result.ended ≡ true }
{
    let _ = claims.join(&mut one, other);
    one
}

// Two threads draw until no number is left.
fn by_two<R: Threads + Sync>(rt: &R, claims: &Claims, one: ClaimSeat, other: ClaimSeat) -> ClaimSeat
    requires { AreOf claims.now.table one other }
    ensures table { result.table ≡ claims.now.table }
    ensures ended { result.ended ≡ true }
{
    let (one, other) = thread::join(
        rt,
        move || drained(claims, one),
        move || drained(claims, other),
    );
    joined(claims, one, other)
}
