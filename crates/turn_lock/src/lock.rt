//! The lock, its passes, and the table under them.
ghost use Rattle.std.specs.Prelude.{◌≡◌, ◌^◌, ◌≤◌, ◌<◌, []};
ghost use Rattle.turn_lock.specs.Views.{resting, seen_of, fixed_of};

use crate::Logged;
use crate::view::{Beginning, TicketRule, View};
use atomic_table::{Seat, Shared, Table};
use std::alloc::Global;

mod closing;
mod opening;
mod turn;

/// A seat at a lock's table.
pub type LockSeat<T, E> = Seat<Option<T>, View<E>>;

type LockTable<T> = Shared<Option<T>, View<<T as Logged>::Entry>, Beginning<T>, TicketRule>;

/// A lock round a state. It serves its passes in the order in which they draw their tickets.
///
/// It has 1 to 64 passes, made with it, and gives the state back for all of them.
#[derive(Drop)]
pub struct TurnLock<T: Logged> {
    table: Table<Option<T>, View<T::Entry>, Beginning<T>, TicketRule, Global>,
    ghost sized: { (table.shared.table_id.words ≡ 2) × (table.shared.table_id.slots ≡ 1) },
    ghost counted: { 0 < table.shared.key.passes },
}

/// The right to take turns at one lock. It has a number, and contracts know the log that it has seen.
#[derive(Drop)]
pub struct Pass<T: Logged> {
    seat: LockSeat<T, T::Entry>,
    number: u32,
    ghost at_rest: { seat.me ≡ (resting number (fixed_of seat.me.0.marks) (seen_of seat.me.0.marks), []) },
}
