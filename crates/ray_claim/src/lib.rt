//! Numbers drawn from one shared word: callers on threads of their own draw the numbers below n,
//! and each number is drawn once.
//!
//! [`Claims`] owns the word. A [`ClaimSeat`] is the token of one caller: it has no lock and waits
//! for nobody. [`Claims::draw`] takes one atomic step of the word, a fetch-and-add. Seats are made
//! by [`Claims::split`], and come together again by [`Claims::join`].
//!
//! The layer above uses the clauses of `draw`: a number is below n and makes the seat's list longer
//! by itself alone (`below`, `grows`), no number comes only where the seat is ended (`none`), the
//! answer is the word that one atomic step found, which no seat has (`step`), and an ended seat
//! takes no step (`rests`). The rule of the word, `IsClaimed` of `specs/Rule`, holds between any
//! two atomic steps, whatever seats step: so no two draws give one number ([`given_once`],
//! [`drawn_apart`]), and a seat is ended only where all are drawn. [`Claims::close`] says what it
//! comes to at the end.
//!
//! It stands on `atomic_table`. No call takes `Wait`, and every step is sequentially consistent.
#![tactic(auto)]

mod claims;
mod laws;
mod rule;
mod seat;

pub use claims::Claims;
pub use laws::{drawn_apart, given_once};
pub use seat::ClaimSeat;
pub use std::alloc::AllocError as NoMemory;
