use crate::rule::View;
use atomic_table::Seat;
use std::marker::Model;

/// The token of one caller that draws. It takes no memory. Contracts see the numbers that were
/// drawn by it, in order, whether it is ended, how often it can still be split, how many steps of
/// the word it has taken, and the table to which it belongs; it is ended where a draw by it had no
/// number, and where an ended seat was joined into it or it was split from one. (Own.)
#[derive(Drop)]
pub struct ClaimSeat {
    pub(crate) seat: Seat<(), View>,
    pub(crate) ended: bool,
}

impl Model for ClaimSeat {
    ghost use Rattle.std.specs.Prelude.{◌≡◌, false, []};
    ghost use Rattle.ray_claim.specs.Seats.{SeatView, seat_view};

    ghost Value = { SeatView };

    ghost view = { λ s. seat_view s.seat.table_id s.seat.me.0.drawn s.seat.me.0.ended
        s.seat.me.0.splits s.seat.me.0.steps };

    ghost invariant = { λ s. (s.seat.me.1 ≡ []) × (s.seat.me.0.spent ≡ false)
        × (s.ended ≡ s.seat.me.0.ended) };
}
