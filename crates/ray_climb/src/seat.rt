use crate::rule::View;
use atomic_table::Seat;
use std::marker::Model;

/// The token of one caller that climbs. It takes no memory. Contracts see of which climb it is, the
/// leaves that it still has to climb from, and those from which it has climbed. (Own.)
#[derive(Drop)]
pub struct ClimbSeat {
    pub(crate) seat: Seat<(), View>,
    pub(crate) leaves: u32,
}

impl Model for ClimbSeat {
    ghost use Rattle.std.specs.Prelude.{◌≡◌, []};
    ghost use Rattle.ray_climb.specs.declared.rule.Hand.TheVariants.{Empty};
    ghost use Rattle.ray_climb.specs.Seats.{SeatView, AreLeaves, climb_id, seat_view};

    ghost Value = { SeatView };

    ghost view = { λ s. seat_view (climb_id s.seat.table_id s.leaves) s.seat.me.0.todo
        s.seat.me.0.done };

    ghost invariant = { λ s. (s.seat.me.1 ≡ []) × (s.seat.me.0.hand ≡ Empty)
        × AreLeaves s.leaves s.seat.me.0.todo };
}
