//! Workers' seats, and what a row is.
ghost use Rattle.std.specs.Prelude.{◌≡◌, ◌<◌, IfOk, length, replicate, slice_set, slice_get, Some};
ghost use Rattle.scan_core.specs.Seats.{HasEnd, seat_end, seat_number, seat_or_spent};
ghost use Rattle.scan_core.specs.Ends.{SameEnd};

use crate::reading::Reading;
use scan_model::{CommandFault, NoMemory, UnitEnd};
use std::alloc::Global;
use std::mem;
use unit_scan::Unit;

/// A row is claimed by this worker, or done: read with this.
#[derive(Drop)]
pub(crate) enum Kept<R: Reading> {
    Claimed(u32),
    Done(R),
}

/// A worker, with the number of its command. That is refused; its unit has a path to look at, or its end; the path is
/// claimed, in this row; and it was read.
#[derive(Drop)]
pub(crate) enum Seat<'a, R: Reading> {
    Idle,
    Refused(u32, CommandFault),
    Looks(u32, Unit<'a>),
    Ends(u32, Unit<'a>),
    Reads(u32, Unit<'a>, usize),
    Holds(u32, Unit<'a>, usize, R),
    Spent(u32),
    Over,
}

/// So many seats, all idle.
pub(crate) fn idle_seats<'a, R: Reading>(
    alloc: Global,
    workers: u32,
) -> Result<Vec<Seat<'a, R>>, NoMemory>
    ensures { IfOk result (λ seats. seats.items ≡ replicate workers Seat.Idle) }
{
    let mut seats = Vec::with_capacity(alloc, workers as usize)?;
    let mut number = 0;
    'seats: while number < workers {
        seats.push_reserved(Seat::Idle);
        number += 1;
    }
    Ok(seats)
}

/// The worker, whose seat is idle, goes on at this seat; at `Err` it is out of memory in the job with this number.
pub(crate) fn take_seat<'a, R: Reading>(
    seats: &mut Vec<Seat<'a, R>>,
    worker: u32,
    number: u32,
    next: Result<Seat<'a, R>, NoMemory>,
) -> Result<(), NoMemory>
    requires { slice_get seats.old.items worker ≡ Some Seat.Idle }
    ensures seats { seats.new.items ≡ slice_set seats.old.items worker (seat_or_spent number next.entry) }
    ensures same { SameEnd result next.entry }
{
    match next {
        Ok(seat) => {
            mem::forget(mem::replace(&mut seats[worker as usize], seat));
            Ok(())
        }
        Err(NoMemory) => {
            mem::forget(mem::replace(&mut seats[worker as usize], Seat::Spent(number)));
            Err(NoMemory)
        }
    }
}

/// The number of the seat's job, and the job's end.
pub(crate) fn end_of<R: Reading>(seat: Seat<'_, R>) -> (u32, UnitEnd)
    requires { HasEnd seat }
    ensures number { result.0 ≡ seat_number seat.entry }
    ensures end { result.1 ≡ seat_end seat.entry }
{
    match seat {
        Seat::Refused(number, fault) => (number, UnitEnd::Refused(fault)),
        Seat::Ends(number, unit) => (number, unit.finish()),
        Seat::Spent(number) => (number, UnitEnd::NoMemory),
        _ => unreachable!(),
    }
}
