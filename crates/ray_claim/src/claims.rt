ghost use Rattle.std.specs.Prelude.{◌≡◌, ℕ, ◌+◌, ◌-◌, ◌<◌, ◌≤◌, ◌++◌, ◌||◌, [], ◌∷◌, true, false};
ghost use Rattle.std.specs.Prelude.{length, None, IfSome, IfNone, IfOk, IsOk};
ghost use Rattle.ray_claim.specs.Rule.{times, once_below};
ghost use Rattle.ray_claim.specs.Seats.{seat_view, view_of};
ghost use Rattle.ray_claim.specs.Steps.{IsFound};
ghost use Rattle.ray_claim.specs.Draws.{IsCounted, IsStep};

use crate::rule::{ClaimRule, Draw, Limit, Seats, View};
use crate::seat::ClaimSeat;
use atomic_table::Table;
use std::alloc::{AllocError as NoMemory, Global};
use std::marker::{Brand, Model};

/// The numbers from 0 up to n, and one shared word that counts those that were drawn. Contracts see
/// n, and the table that tells its seats from others. (Own.)
#[derive(Drop)]
pub struct Claims {
    table: Table<(), View, u32, ClaimRule, Global>,
    n: u32,
}

impl Model for Claims {
    ghost use Rattle.std.specs.Prelude.{◌≡◌, ◌<◌, ◌^◌};
    ghost use Rattle.ray_claim.specs.Seats.{ClaimsView};

    ghost Value = { ClaimsView };

    ghost view = { λ c. record { table = c.table.shared.table_id; n = c.n } };

    ghost invariant = { λ c. (c.table.shared.table_id.words ≡ 1)
        × (c.table.shared.table_id.slots ≡ 0)
        × (c.table.shared.key ≡ c.n) × (c.n < 2 ^ 32) };
}

impl Claims {
    /// None of the numbers below n is drawn yet. The seat can be split 65,535 times.
    pub fn new(alloc: Global, n: u32) -> Result<(Claims, ClaimSeat), NoMemory>
        ensures n { IfOk result (λ r. r.0.n ≡ n) }
        ensures seat { IfOk result (λ r. r.1 ≡ seat_view r.0.table [] false 65535 0) }
    {
        let (table, seat) = Table::of_words(alloc, &[0], &n)?;
        Ok((Claims { table, n }, ClaimSeat { seat, ended: false }))
    }

    /// A number below n that no other draw gives. None comes exactly where the word that is found
    /// is at least n, and the seat is ended then, or where the seat was ended before.
    ///
    /// A draw by a seat that isn't ended is one atomic step (`step`): it finds a word, which no
    /// seat has as a number, raises it by one, and gives it to this seat alone. A draw by an ended
    /// seat takes no step and changes nothing (`rests`). That no draw before or after gives the
    /// number again is what the rule says between any two steps: see `given_once` and
    /// `drawn_apart`.
    pub fn draw(&self, seat: &mut ClaimSeat) -> Option<u32>
        requires own { seat.old.table ≡ self.now.table }
        ensures same { (seat.new.table ≡ seat.old.table) × (seat.new.splits ≡ seat.old.splits) }
        ensures below { IfSome result (λ k. k < self.now.n) }
        ensures grows { IfSome result (λ k. seat.new.drawn ≡ seat.old.drawn ++ k ∷ []) }
        ensures going { IfSome result (λ k. (seat.old.ended ≡ false) × (seat.new.ended ≡ false)) }
        ensures fits { IfSome result (λ k. length seat.new.drawn ≤ self.now.n) }
        ensures none { IfNone result ((seat.new.drawn ≡ seat.old.drawn) × (seat.new.ended ≡ true)) }
        ensures step { seat.old.ended ≡ false → IsStep self.now.n seat.old result seat.new }
        ensures rests { seat.old.ended ≡ true → (result ≡ None) × (seat.new ≡ seat.old) }
    {
        if seat.ended {
            return None;
        }
        let found = self.step::<Brand>(seat);
        if found < u64::from(self.n) {
            Some(found as u32)
        } else {
            None
        }
    }

    // The atomic step of a draw by a seat that isn't ended: the word as it was.
    fn step<L: Limit>(&self, seat: &mut ClaimSeat) -> u64
        requires limit { L.limit ≡ self.now.n }
        requires own { seat.old.table ≡ self.now.table }
        requires going { seat.old.ended ≡ false }
        ensures same { (seat.new.table ≡ seat.old.table) × (seat.new.splits ≡ seat.old.splits) }
        ensures found { IsFound self.now.n (view_of seat.old) result (view_of seat.new) }
    {
        let found = self.table.shared.fetch_add::<Draw<L>>(&mut seat.seat, 0, 1);
        seat.ended = found >= u64::from(self.n);
        found
    }

    /// A new seat, which has drawn nothing and can't be split. It is ended where the old one is.
    /// The answer for want of memory never comes (`ok`): a seat takes none.
    pub fn split(&self, seat: &mut ClaimSeat) -> Result<ClaimSeat, NoMemory>
        requires own { seat.old.table ≡ self.now.table }
        requires left { 0 < seat.old.splits }
        ensures ok { IsOk result }
        ensures old { seat.new ≡ seat_view seat.old.table seat.old.drawn seat.old.ended
            (seat.old.splits - 1) seat.old.steps }
        ensures new { IfOk result (λ s. s ≡ seat_view seat.old.table [] seat.old.ended 0 0) }
    {
        let ended = seat.ended;
        let seat = self.table.shared.split_seat::<Seats>(&mut seat.seat);
        Ok(ClaimSeat { seat, ended })
    }

    /// Puts what `from` has drawn behind what `into` has, and adds its splits and steps. `into` is
    /// ended where either was. The refusal, which would hand `from` back, never comes (`ok`): a
    /// join takes no memory.
    pub fn join(&self, into: &mut ClaimSeat, from: ClaimSeat) -> Result<(), ClaimSeat>
        requires own { into.old.table ≡ self.now.table }
        requires from { from.table ≡ self.now.table }
        ensures ok { IsOk result }
        ensures table { into.new.table ≡ into.old.table }
        ensures drawn { into.new.drawn ≡ into.old.drawn ++ from.drawn }
        ensures ended { into.new.ended ≡ (into.old.ended || from.ended) }
        ensures splits { into.new.splits ≡ into.old.splits + from.splits }
        ensures steps { into.new.steps ≡ into.old.steps + from.steps }
    {
        let ended = from.ended;
        let table = &self.table.shared;
        table.join_seat::<Seats>(&mut into.seat, from.seat);
        into.ended = into.ended || ended;
        Ok(())
    }

    /// How many of the numbers below n were drawn, by any seat (`counts`). They are those below the
    /// answer, so the seat has each of them at most once, and no other.
    pub fn close(self, seat: ClaimSeat) -> u64
        requires own { seat.table ≡ self.table }
        ensures counts { IsCounted self.n seat result }
        ensures counted { length seat.drawn ≤ result }
        ensures limited { result ≤ self.n }
        ensures ended { seat.ended ≡ true → result ≡ self.n }
        ensures once { (x : ℕ) → times x seat.drawn ≤ once_below x result }
    {
        let n = u64::from(self.n);
        let closed = self.table.close_with(seat.seat);
        let word = closed.word(0);
        closed.free();
        word.min(n)
    }
}
